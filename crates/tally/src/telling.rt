// What a tally tells.
ghost use Rattle.std.specs.Prelude.{◌≡◌};
ghost use Rattle.tally.specs.Tallies.{counts_of, FigureTold};

use crate::Tally;
use refusal::Refusal;

impl Tally {
    // How many decodings were answered.
    pub fn answered(&self) -> u32
        ensures { result ≡ (counts_of self.now).answered }
    {
        self.answered
    }

    // How many decodings were tied.
    pub fn tied(&self) -> u32
        ensures { result ≡ (counts_of self.now).tied }
    {
        self.tied
    }

    // What the answered decodings cost, all together.
    pub fn cost(&self) -> u64
        ensures { result ≡ (counts_of self.now).cost }
    {
        self.cost
    }

    // What an answered decoding cost on the average, in thousandths, the fraction dropped. With
    // none answered there is no average.
    pub fn noise_figure(&self) -> Result<u64, Refusal>
        ensures { FigureTold (counts_of self.now) result }
    {
        if self.answered == 0 {
            return Err(Refusal::NoneAnswered);
        }
        Ok(1_000 * self.cost / u64::from(self.answered))
    }
}
