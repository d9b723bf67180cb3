// A line of the panel, and the command that it says.
ghost use Rattle.std.specs.Prelude.{◌≤◌, length};
ghost use Rattle.notation.specs.Commands.{Alone, Says, With};
ghost use Rattle.notation.specs.Only.{Only};

use crate::word::{LONGEST, Word, read_word};
use numbers::{kind_of, parted};

mod numbers;

// How many symbols a field has.
#[derive(Clone, Copy, Debug, PartialEq, Eq)]
pub enum Order {
    Two,
    Three,
    Four,
    Sixteen,
}

// What a line says.
#[derive(Clone, Copy, Debug, PartialEq, Eq)]
pub enum Command {
    // `kind Q N`: the field has `order` symbols, and a row has `length` of them.
    Kind { order: Order, length: usize },
    // `row S`: one more row, with the symbols `S`.
    Row(Word),
    // `back`: the last row is taken back.
    Back,
    // `seal`: the rows are closed into a code.
    Seal,
    // `send M`: the message with the symbols `M` is sent.
    Send(Word),
    // `hear W`: the word with the symbols `W` was received.
    Hear(Word),
    // `distance`: the minimum distance is asked for.
    Distance,
    // `noise`: the noise figure is asked for.
    Noise,
}

// The command that `line` says. A line of more than 80 bytes says none, and nor does one that is no
// text: each byte of a command is a letter, a digit, a space or `-`.
pub fn read_command(line: &[u8]) -> Option<Command>
    ensures { Only (Says line.now) result }
{
    if line.len() > LONGEST {
        return None;
    }
    match parted(line) {
        Some((name, text)) => command_with(name, text),
        None => command_alone(line),
    }
}

// The command of this name, with `text` after it.
fn command_with(name: &[u8], text: &[u8]) -> Option<Command>
    requires { length text.now ≤ 80 }
    ensures { Only (With name.now text.now) result }
{
    match name {
        b"kind" => {
            let (order, length) = kind_of(text)?;
            Some(Command::Kind { order, length })
        }
        b"row" => read_word(text).map(Command::Row),
        b"send" => read_word(text).map(Command::Send),
        b"hear" => read_word(text).map(Command::Hear),
        _ => None,
    }
}

// The command of this name, with nothing after it.
fn command_alone(name: &[u8]) -> Option<Command>
    ensures { Only (Alone name.now) result }
{
    match name {
        b"back" => Some(Command::Back),
        b"seal" => Some(Command::Seal),
        b"distance" => Some(Command::Distance),
        b"noise" => Some(Command::Noise),
        _ => None,
    }
}
