// From a word to text.
ghost use Rattle.std.specs.Prelude.{◌≡◌, ◌≤◌, length, IfOk, Some, string_bytes};
ghost use Rattle.notation.specs.Only.{Only};
ghost use Rattle.notation.specs.Words.{printed, Prints, Readable, Spells, Writable};

use crate::symbol::char_of;
use std::alloc::{AllocError, Global};
use std::fmt;

// Lent symbols, as a word that prints as its text.
#[derive(Clone, Copy)]
pub struct InPrint<'a>(pub &'a [u8]);

// A symbol stands as the character that writes it, and any other number as `?`.
impl fmt::Display for InPrint<'_> {
    ghost output = { λ word. Some (printed word.0.now) };

    fn fmt<W: fmt::Write>(&self, f: &mut fmt::Formatter<W>) -> fmt::Result {
        if self.0.is_empty() {
            return f.write_char('-');
        }
        for number in self.0 {
            f.write_char(char_of(*number).unwrap_or('?'))?;
        }
        Ok(())
    }
}

// The text of `word`, written straight into the string: by `to_string`, which goes through a formatter,
// it took five times as long. Where all are symbols, the text spells `word` and nothing else, and so up to 80 of them read back as `word`.
pub fn spelled(heap: Global, word: &[u8]) -> Result<String, AllocError>
    ensures printed { IfOk result (λ text. string_bytes text ≡ printed word.now) }
    ensures prints { IfOk result (λ text. Prints (string_bytes text) word.now) }
    ensures spells { Writable word.now → IfOk result (λ text. Only (Spells (string_bytes text)) (Some word.now)) }
    ensures reads_back { Writable word.now → length word.now ≤ 80 → IfOk result (λ text. Only (Readable (string_bytes text)) (Some word.now)) }
{
    let mut text = String::new(heap);
    if word.is_empty() {
        text.push('-')?;
        return Ok(text);
    }
    for number in word {
        text.push(char_of(*number).unwrap_or('?'))?;
    }
    Ok(text)
}
