// Decoding, coset leaders and the minimum distance, of a generator and a tally.
#![tactic(auto)]

mod measuring;
mod reading;

pub use measuring::{distance, leader};
pub use reading::decode;
