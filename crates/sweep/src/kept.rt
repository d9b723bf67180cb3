// What a tally should hold.
use refusal::Refusal;
use tally::Tally;

// How many decodings were answered and tied, and what the answered ones cost. It counts as a tally does,
// and apart from it, so that the tally is compared with something.
#[derive(Clone, Copy, Default, PartialEq, Eq)]
pub(crate) struct Kept {
    pub(crate) answered: u32,
    pub(crate) tied: u32,
    pub(crate) cost: u64,
}

impl Kept {
    pub(crate) fn add_answered(&mut self, cost: u32) {
        self.answered = self.answered.saturating_add(1);
        self.cost = self.cost.saturating_add(u64::from(cost));
    }

    pub(crate) fn add_tied(&mut self) {
        self.tied = self.tied.saturating_add(1);
    }

    pub(crate) fn noise_figure(&self) -> Result<u64, Refusal> {
        self.cost
            .saturating_mul(1000)
            .checked_div(u64::from(self.answered))
            .ok_or(Refusal::NoneAnswered)
    }
}

impl From<Tally> for Kept {
    fn from(tally: Tally) -> Kept {
        Kept {
            answered: tally.answered(),
            tied: tally.tied(),
            cost: tally.cost(),
        }
    }
}
