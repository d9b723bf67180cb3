// A row of the table: the least costs from the states of one place.
ghost use Rattle.std.specs.Prelude.{◌≡◌, ℕ, ◌+◌, ◌<◌, ◌≤◌, length, take, drop, slice_index};

use crate::cost::Least;

// For each state the least cost of the words from there on, and in how many ways it is had: in none,
// one, or two for more. The costs are small enough to be added to.
#[derive(Clone, Copy)]
pub(crate) struct Row<'a> {
    pub(crate) costs: &'a [u32],
    pub(crate) ways: &'a [u32],
    ghost paired: { length ways.now ≡ length costs.now },
    ghost small: { (s : ℕ) → s < length costs.now → slice_index costs.now s ≤ 1572840 },
    ghost counted: { (s : ℕ) → s < length costs.now → slice_index ways.now s ≤ 2 },
}

impl<'a> Row<'a> {
    ghost use Rattle.trellis.specs.Leasts.{Tells};

    // The row of so many states that stands in the words: its costs, and then its ways.
    pub(crate) fn new(words: &'a [u32], states: usize) -> Row<'a>
        requires long { length words.now ≡ states + states }
        requires small { (s : ℕ) → s < states → slice_index words.now s ≤ 1572840 }
        requires counted { (s : ℕ) → s < states → slice_index words.now (states + s) ≤ 2 }
        ensures costs { result.costs.now ≡ take states words.now }
        ensures ways { result.ways.now ≡ drop states words.now }
    {
        let (costs, ways) = words.split_at(states);
        Row { costs, ways }
    }

    // The least cost over a symbol that has a price and leads to a state.
    pub(crate) fn via(&self, price: u32, state: usize) -> Option<Least>
        requires inside { state < length self.now.costs.now }
        requires small { price ≤ 65535 }
        ensures { Tells result (price + slice_index self.now.costs.now state) (slice_index self.now.ways.now state) }
    {
        let ways = self.ways[state];
        if ways == 0 {
            return None;
        }
        Some(Least {
            cost: price + self.costs[state],
            sole: ways == 1,
        })
    }
}
