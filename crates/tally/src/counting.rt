// A decoding more.
ghost use Rattle.std.specs.Prelude.{◌≡◌};
ghost use Rattle.tally.specs.Tallies.{counts_of, none_yet, Full, Whether, AnsweredCounted, TiedCounted};

use crate::Tally;

// The decodings that a tally counts at most.
const MOST_DECODINGS: u32 = 1_000_000_000;

// The most that a decoding costs: 24 places, each at the most that a place costs.
const MOST_COST: u32 = 24 * 65_535;

impl Tally {
    // Of no decodings. A default is not derived for a type that keeps facts about its fields.
    pub fn new() -> Tally
        ensures { counts_of result ≡ none_yet }
    {
        Tally {
            answered: 0,
            tied: 0,
            cost: 0,
        }
    }

    // Whether no decoding more can be counted.
    pub fn is_full(&self) -> bool
        ensures { Whether (Full (counts_of self.now)) result }
    {
        self.answered + self.tied == MOST_DECODINGS
    }

    // Counts a decoding that was answered at this cost, and tells whether it did: not at a full
    // tally, nor at a cost that no decoding has. The answer is a `bool`, as where an item is put into
    // a set: no value comes with it, and no cause that the caller could not test before.
    pub fn add_answered(&mut self, cost: u32) -> bool
        ensures { AnsweredCounted self.old cost result self.new }
    {
        if self.is_full() || cost > MOST_COST {
            return false;
        }
        self.answered += 1;
        self.cost += u64::from(cost);
        true
    }

    // Counts a decoding that was tied, and tells whether it did, by a `bool` as above: not at a full
    // tally.
    pub fn add_tied(&mut self) -> bool
        ensures { TiedCounted self.old result self.new }
    {
        if self.is_full() {
            return false;
        }
        self.tied += 1;
        true
    }
}
