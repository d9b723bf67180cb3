// The replies to commands, and what the calls of a code are replied with.
ghost use Rattle.std.specs.Prelude.{◌≡◌, Some, min};
ghost use Rattle.arrayvec.specs.ArrayVec.{array_vec_len};
ghost use Rattle.code.specs.Views.{generator_of};
ghost use Rattle.panel.specs.Calls.{Heard, Sent};
ghost use Rattle.panel.specs.Printed.{printed_answer, printed_reply};

use arrayvec::ArrayVec;
use code::Code;
use field::Field;
use notation::word::InPrint;
use reception::HardWord;
use refusal::Refusal;
use std::fmt;

// The most symbols of a code's word.
const MOST: usize = 24;

#[derive(Drop)]
pub(crate) enum Reply {
    Done,
    // So many rows are held, or message symbols.
    Number(usize),
    Word(ArrayVec<u8, MOST>),
    // A message, and what its codeword costs.
    Decoded {
        message: ArrayVec<u8, MOST>,
        cost: u32,
    },
    // The minimum distance, which a code with just one codeword has none of.
    Distance(Option<u32>),
    // The noise figure.
    Figure(u64),
}

// A command is replied to or refused; one that is out of its state is not answered.
pub(crate) type Answer = Option<Result<Reply, Refusal>>;

impl fmt::Display for Reply {
    ghost output = { λ reply. Some (printed_reply reply) };

    fn fmt<W: fmt::Write>(&self, f: &mut fmt::Formatter<W>) -> fmt::Result {
        match self {
            Reply::Done => f.write_str("ok"),
            Reply::Number(number) => write!(f, "ok {number}"),
            Reply::Word(word) => write!(f, "ok {}", InPrint(word)),
            Reply::Decoded { message, cost } => write!(f, "ok {} {cost}", InPrint(message)),
            Reply::Distance(Some(distance)) => write!(f, "ok {distance}"),
            Reply::Distance(None) => f.write_str("ok none"),
            Reply::Figure(figure) => write!(f, "ok {figure}"),
        }
    }
}

// An answer as the line that the panel prints for it, without the line feed.
#[derive(Drop)]
pub(crate) struct Told(pub(crate) Answer);

impl fmt::Display for Told {
    ghost output = { λ told. Some (printed_answer told.0) };

    fn fmt<W: fmt::Write>(&self, f: &mut fmt::Formatter<W>) -> fmt::Result {
        match &self.0 {
            Some(Ok(reply)) => write!(f, "{reply}"),
            Some(Err(refusal)) => write!(f, "no {}", refusal.number()),
            None => f.write_str("??"),
        }
    }
}

// Room for so many symbols.
fn room(length: usize) -> ArrayVec<u8, MOST>
    ensures { array_vec_len result ≡ min length 24 }
{
    let mut symbols = ArrayVec::from([0; MOST]);
    symbols.truncate(length);
    symbols
}

pub(crate) fn send<F: Field>(code: &Code<F>, message: &[u8]) -> Result<Reply, Refusal>
    ensures { Sent F.Field.ops (generator_of code.now) message.now result }
{
    let mut word = room(code.length());
    code.encode(message, &mut word)?;
    Ok(Reply::Word(word))
}

// Decodes a word of hard decisions.
pub(crate) fn hear<F: Field>(
    code: &mut Code<F>,
    word: &[u8],
    work: &mut [u32],
) -> Result<Reply, Refusal>
    ensures { Heard F.Field.ops code.old word.now work.old code.new result work.new }
{
    let mut message = room(code.dimension());
    let cost = code.decode::<HardWord>(&HardWord::new(word), work, &mut message)?;
    Ok(Reply::Decoded { message, cost })
}
