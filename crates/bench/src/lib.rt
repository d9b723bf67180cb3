// What the benchmark in bench/ measures: the same decoding, many times.
#![tactic(auto)]

ghost use Rattle.std.specs.Prelude.{◌≡◌};
ghost use Rattle.bench.specs.Orders.{Known};

use code::Draft;
use field::{Field, Four, Sixteen, Three, Two};
use reception::HardWord;
use refusal::Refusal;

// The rows of a code end to end, n places each, and a word that is decoded so many times.
#[derive(Clone, Copy)]
struct Task<'a> {
    n: usize,
    rows: &'a [u8],
    word: &'a [u8],
    times: u32,
}

impl<'a> Task<'a> {
    // Seals the code, and decodes the word.
    fn decode<F: Field>(&self, work: &mut [u32], message: &mut [u8]) -> Result<u32, Refusal> {
        let mut draft = Draft::<F>::new();
        draft.set_length(self.n)?;
        for row in self.rows.chunks(self.n) {
            draft.push_row(row)?;
        }
        let mut code = draft.seal();
        let heard = HardWord::new(self.word);
        let mut answer = Ok(0);
        for _ in 0..self.times {
            answer = code.decode(&heard, work, message);
        }
        answer
    }
}

// Answers the cost of the last decoding, or 1,000 plus the number of a refusal, since C is given one
// number. Where there is no field of q symbols it answers 1,000 and does nothing; more is not promised
// of a measurement.
#[unsafe(no_mangle)]
pub extern "C" fn bench_decode(
    q: u32,
    n: u32,
    rows: &[u8],
    word: &[u8],
    work: &mut [u32],
    message: &mut [u8],
    times: u32,
) -> u32
    ensures { (Known q → ⊥) → (result ≡ 1000) × (work.new ≡ work.old) × (message.new ≡ message.old) }
{
    let task = Task {
        n: n as usize,
        rows,
        word,
        times,
    };
    // C names the field by a number, and the field is a type here, so this is where one is chosen.
    let answer = match q {
        2 => task.decode::<Two>(work, message),
        3 => task.decode::<Three>(work, message),
        4 => task.decode::<Four>(work, message),
        16 => task.decode::<Sixteen>(work, message),
        _ => return 1_000,
    };
    answer.unwrap_or_else(|refusal| 1_000 + u32::from(refusal.number()))
}
