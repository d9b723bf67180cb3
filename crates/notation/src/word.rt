// A word, written as the characters of its symbols, or as `-` where it has none.
mod printing;
mod reading;

pub use printing::{InPrint, spelled};
pub use reading::{Word, read_word};

// The most bytes that a line has, and so the most symbols of a word that is read from one.
pub const LONGEST: usize = 80;
