// How long the rows of a basis are, and how many there are. A generator is asked the same; each answer
// is one field, so a trait for both would be longer.
ghost use Rattle.std.specs.Prelude.{◌≡◌};
ghost use Rattle.basis.specs.Parts.{size, count};

use crate::Basis;

impl Basis {
    pub fn length(&self) -> usize
        ensures { result ≡ size self.now }
    {
        self.n
    }

    // How many rows there are.
    pub fn count(&self) -> usize
        ensures { result ≡ count self.now }
    {
        self.k
    }
}
