// A part of a longer reception, as one block of several.
ghost use Rattle.std.specs.Prelude.{◌≡◌};
ghost use Rattle.reception.specs.Layers as Layers;
ghost use Rattle.reception.specs.LayerLaws.{window_lawful};

use crate::Reception;

// At most `count` places, from `start` on. Its length is `count` or what remains below after `start`,
// whichever is smaller, and its place i is the place `start` + i below.
#[derive(Drop)]
pub struct Window<R> {
    under: R,
    start: usize,
    count: usize,
}

impl<R> Window<R> {
    pub fn new(under: R, start: usize, count: usize) -> Window<R>
        ensures under { result.under ≡ under }
        ensures start { result.start ≡ start }
        ensures count { result.count ≡ count }
    {
        Window {
            under,
            start,
            count,
        }
    }
}

impl<R: Reception> Reception for Window<R> {
    ghost costs = { λ w. Layers.window w.start w.count (R.Reception.costs w.under) };

    ghost laws = { λ w. window_lawful w.start w.count (R.Reception.costs w.under) (R.Reception.laws w.under) };

    fn len(&self) -> usize {
        self.count.min(self.under.len().saturating_sub(self.start))
    }

    fn cost(&self, place: usize, symbol: u8) -> u16 {
        let rest = self.under.len().saturating_sub(self.start);
        if place < self.count && place < rest {
            self.under.cost(self.start + place, symbol)
        } else {
            0
        }
    }
}
