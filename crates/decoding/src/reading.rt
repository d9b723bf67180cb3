// Decoding by least cost.
ghost use Rattle.std.specs.Prelude.{◌≡◌, length, OnErr};
ghost use Rattle.tally.specs.Tallies.{counts_of};
ghost use Rattle.decoding.specs.Decoding.{MessageDecoded, Tallied, WorkLeft};

use field::Field;
use generator::Generator;
use reception::Reception;
use refusal::Refusal;
use tally::Tally;
use trellis::{cheapest, check_room};

// Writes the message of the cheapest codeword, and answers its cost. It is tied if another codeword
// costs the same. The codewords are the coset of index 0, and a message is read off its codeword at
// the information places.
pub fn decode<F: Field, R: Reception>(
    generator: &Generator,
    tally: &mut Tally,
    reception: &R,
    work: &mut [u32],
    message: &mut [u8],
) -> Result<u32, Refusal>
    ensures told { MessageDecoded F.Field.ops generator.now (R.Reception.costs reception.now) (length work.old) (length message.old) (counts_of tally.old) message.new result }
    ensures tally { Tallied tally.old tally.new result }
    ensures work { WorkLeft work.old work.new result }
    ensures message { OnErr result (message.new ≡ message.old) }
{
    let n = generator.length();
    if reception.len() != n {
        return Err(Refusal::WrongLength(n));
    }
    check_room::<F>(generator, work.len())?;
    let k = generator.dimension();
    if message.len() != k {
        return Err(Refusal::BufferLength(k));
    }
    if tally.is_full() {
        return Err(Refusal::TallyFull);
    }
    let mut word = [0; 24];
    let least = cheapest::<F, R>(generator, reception, 0, work, &mut word[0..n])?;
    if !least.sole {
        tally.add_tied();
        return Err(Refusal::Tied(least.cost));
    }
    for (j, symbol) in message.iter_mut().enumerate() {
        *symbol = word[generator.place(j)];
    }
    tally.add_answered(least.cost);
    Ok(least.cost)
}
