// A kind of reception of the tests' own: what an implementation outside the library has to show.
ghost use Rattle.std.specs.Prelude.{◌≤◌};
ghost use Rattle.reception_tests.specs.Even.{even, even_lawful};

use reception::Reception;

// So many places, each of which costs the same for every symbol.
#[derive(Clone, Copy)]
pub struct Even {
    pub places: usize,
    pub each: u16,
    ghost most: { each ≤ 65535 },
}

impl Reception for Even {
    ghost costs = { λ e. even e.places e.each };

    ghost laws = { λ e. even_lawful e.places e.each e.most };

    fn len(&self) -> usize {
        self.places
    }

    fn cost(&self, place: usize, _symbol: u8) -> u16 {
        if place < self.places { self.each } else { 0 }
    }
}
