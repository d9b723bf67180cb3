// Coset leaders, and the minimum distance.
ghost use Rattle.std.specs.Prelude.{◌≡◌, length, MatchResult, OnErr};
ghost use Rattle.trellis.specs.Clearing.{Cleared};
ghost use Rattle.decoding.specs.Leaders.{LeaderFound};
ghost use Rattle.decoding.specs.Distances.{DistanceFound};

use field::Field;
use generator::Generator;
use reception::HardWord;
use refusal::Refusal;
use trellis::{cheapest, lightest, weights};

// Writes the leader of a coset, given by its index. Answers the leader's weight, and whether it is
// the only word of that weight in the coset: a pair, since every coset has both.
pub fn leader<F: Field>(
    generator: &Generator,
    index: usize,
    work: &mut [u32],
    out: &mut [u8],
) -> Result<(u32, bool), Refusal>
    ensures told { LeaderFound F.Field.ops generator.now index (length work.old) (length out.old) out.new result }
    ensures work { MatchResult result (λ _. Cleared work.new) (λ _. work.new ≡ work.old) }
    ensures out { OnErr result (out.new ≡ out.old) }
{
    let weights = weights(generator);
    let least = cheapest::<F, HardWord>(generator, &weights, index, work, out)?;
    Ok((least.cost, least.sole))
}

// The least number of places in which two different codewords differ, or nothing for a code that
// has just one codeword.
pub fn distance<F: Field>(generator: &Generator, work: &mut [u32]) -> Result<Option<u32>, Refusal>
    ensures told { DistanceFound F.Field.ops generator.now (length work.old) result }
    ensures work { MatchResult result (λ _. Cleared work.new) (λ _. work.new ≡ work.old) }
{
    // The answer is bound, so that an edit of it alone can be tried.
    let found = lightest::<F>(generator, work)?;
    Ok(found)
}
