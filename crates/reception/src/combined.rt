// Combining: two receptions of one word, taken together.
ghost use Rattle.std.specs.Prelude.{◌≡◌};
ghost use Rattle.reception.specs.Layers as Layers;
ghost use Rattle.reception.specs.LayerLaws.{combined_lawful};

use crate::Reception;

// Its length is the smaller of the two. Inside it the cost is the two costs added, held at 65,535.
#[derive(Drop)]
pub struct Combined<P, Q> {
    first: P,
    second: Q,
}

impl<P, Q> Combined<P, Q> {
    pub fn new(first: P, second: Q) -> Combined<P, Q>
        ensures first { result.first ≡ first }
        ensures second { result.second ≡ second }
    {
        Combined { first, second }
    }
}

impl<P: Reception, Q: Reception> Reception for Combined<P, Q> {
    ghost costs = { λ c. Layers.combined (P.Reception.costs c.first) (Q.Reception.costs c.second) };

    ghost laws = { λ c. combined_lawful (P.Reception.costs c.first) (Q.Reception.costs c.second) };

    fn len(&self) -> usize {
        self.first.len().min(self.second.len())
    }

    fn cost(&self, place: usize, symbol: u8) -> u16 {
        if place >= self.first.len() || place >= self.second.len() {
            return 0;
        }
        let first = self.first.cost(place, symbol);
        first.saturating_add(self.second.cost(place, symbol))
    }
}
