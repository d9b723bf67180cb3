// Receptions: what was received of a word, as a cost for each place and symbol number, in layers.
#![tactic(auto)]

ghost use Rattle.std.specs.Prelude.{◌≡◌};
ghost use Rattle.reception.specs.Costs.{Costs, Lawful};

mod combined;
mod either;
mod erased;
mod hard;
mod level;
mod window;
mod words;

pub use combined::Combined;
pub use either::Either;
pub use erased::Erased;
pub use hard::HardWord;
pub use level::LevelWord;
pub use window::Window;
pub use words::word_cost;

// A word as it was received. `costs` says what each call answers, which depends on nothing but what
// the reception holds, and `laws` that a place at or past its length costs nothing and that no cost
// is above 65,535.
pub trait Reception {
    ghost costs: { Self → Costs };

    ghost laws: { (r : Self) → Lawful (costs r) };

    // How many places there are.
    fn len(&self) -> usize
        ensures { result ≡ (costs self.now).size };

    // What the symbol costs at the place.
    fn cost(&self, place: usize, symbol: u8) -> u16
        ensures { result ≡ (costs self.now).cost place symbol };
}

// A reception that is lent is a reception, so that a layer may hold the one below by reference.
impl<R: Reception> Reception for &R {
    ghost costs = { λ r. R.Reception.costs r.now };

    ghost laws = { λ r. R.Reception.laws r.now };

    fn len(&self) -> usize {
        R::len(*self)
    }

    fn cost(&self, place: usize, symbol: u8) -> u16 {
        R::cost(*self, place, symbol)
    }
}
