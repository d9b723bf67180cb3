// What a sealed code does with what was received: decoding, and the tally of it; coset leaders and
// the minimum distance.
ghost use Rattle.std.specs.Prelude.{◌≡◌, length, MatchResult, OnErr};
ghost use Rattle.tally.specs.Tallies.{counts_of, none_yet, FigureTold};
ghost use Rattle.trellis.specs.Clearing.{Cleared};
ghost use Rattle.decoding.specs.Decoding.{MessageDecoded, Tallied, WorkLeft};
ghost use Rattle.decoding.specs.Leaders.{LeaderFound};
ghost use Rattle.decoding.specs.Distances.{DistanceFound};

use crate::sealed::Code;
use field::Field;
use reception::Reception;
use refusal::Refusal;
use tally::Tally;

impl<F: Field> Code<F> {
    // Writes the message of the cheapest codeword, and answers its cost. A tie is told, and never
    // broken.
    pub fn decode<R: Reception>(
        &mut self,
        reception: &R,
        work: &mut [u32],
        message: &mut [u8],
    ) -> Result<u32, Refusal>
        ensures told { MessageDecoded F.Field.ops self.old.generator (R.Reception.costs reception.now) (length work.old) (length message.old) (counts_of self.old.tally) message.new result }
        ensures tally { Tallied self.old.tally self.new.tally result }
        ensures generator { self.new.generator ≡ self.old.generator }
        ensures work { WorkLeft work.old work.new result }
        ensures message { OnErr result (message.new ≡ message.old) }
    {
        decoding::decode::<F, R>(&self.generator, &mut self.tally, reception, work, message)
    }

    // Writes the leader of the coset of an index, and answers its weight and whether it is sole.
    pub fn leader(
        &self,
        index: usize,
        work: &mut [u32],
        out: &mut [u8],
    ) -> Result<(u32, bool), Refusal>
        ensures told { LeaderFound F.Field.ops self.now.generator index (length work.old) (length out.old) out.new result }
        ensures work { MatchResult result (λ _. Cleared work.new) (λ _. work.new ≡ work.old) }
        ensures out { OnErr result (out.new ≡ out.old) }
    {
        decoding::leader::<F>(&self.generator, index, work, out)
    }

    // The least number of places in which two different codewords differ; nothing for a code
    // without message symbols.
    pub fn distance(&self, work: &mut [u32]) -> Result<Option<u32>, Refusal>
        ensures told { DistanceFound F.Field.ops self.now.generator (length work.old) result }
        ensures work { MatchResult result (λ _. Cleared work.new) (λ _. work.new ≡ work.old) }
    {
        decoding::distance::<F>(&self.generator, work)
    }

    pub fn clear_tally(&mut self)
        ensures tally { counts_of self.new.tally ≡ none_yet }
        ensures generator { self.new.generator ≡ self.old.generator }
    {
        self.tally = Tally::new();
    }

    // What an answered decoding cost on the average, in thousandths.
    pub fn noise_figure(&self) -> Result<u64, Refusal>
        ensures told { FigureTold (counts_of self.now.tally) result }
    {
        self.tally.noise_figure()
    }
}
