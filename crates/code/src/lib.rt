// Drafts of a generator, and the sealed codes that come of them.
#![tactic(auto)]

pub mod draft;
pub mod receiving;
pub mod sealed;

pub use draft::Draft;
pub use sealed::Code;
