// From text to a word.
ghost use Rattle.std.specs.Prelude.{◌≡◌, ◌<◌, ◌≤◌, length, MatchResult, nat_eq};
ghost use Rattle.std.specs.Cmp.{partial_equiv_from_equiv};
ghost use Rattle.std.specs.Cmp.Lexicographic.{pointwise, nat_list_eq_equiv};
ghost use Rattle.notation.specs.Only.{Only};
ghost use Rattle.notation.specs.Words.{Readable};

use super::LONGEST;
use crate::symbol::symbol_of;
use arrayvec::CapacityError;
use std::fmt;
use std::marker::Model;

// A word as it was read, in memory of its own. The symbols stand at the front of the array, and 0s
// after them: an `ArrayVec` would say so shorter, but it is not `Copy`, and a word is.
#[derive(Clone, Copy)]
pub struct Word {
    symbols: [u8; LONGEST],
    len: usize,
}

impl Model for Word {
    ghost use Rattle.std.specs.Prelude.{ℕ, List};

    ghost Value = { List ℕ };

    ghost use Rattle.notation.specs.Padded.{front, Padded, padded, padded_front};

    ghost view = { front };

    ghost invariant = { Padded };

    ghost inverse = { padded };

    ghost inverse_ok = { padded_front };
}

impl Word {
    // The symbols of the word, first to last.
    pub fn symbols(&self) -> &[u8]
        ensures value { result.now ≡ self.now }
        ensures fits { length result.now ≤ 80 }
    {
        &self.symbols[..self.len]
    }
}

// The 0s after the symbols are not shown.
impl fmt::Debug for Word {
    fn fmt<W: fmt::Write>(&self, f: &mut fmt::Formatter<W>) -> fmt::Result {
        f.debug_struct("Word")
            .field("symbols", &self.symbols())
            .finish()
    }
}

// Words are equal where their symbols are.
impl PartialEq for Word {
    ghost eq = { λ v w. pointwise nat_eq v w };

    ghost laws = { partial_equiv_from_equiv nat_list_eq_equiv };

    fn eq(&self, other: &Self) -> bool {
        self.symbols() == other.symbols()
    }
}

impl Eq for Word {
    ghost laws = { nat_list_eq_equiv };
}

// A word of lent numbers, unless they are more than 80. Whether they are symbols is not asked.
impl TryFrom<&[u8]> for Word {
    type Error = CapacityError;

    ghost try_from_gives = { λ xs r. MatchResult r (λ w. (w ≡ xs.now) × (length xs.now ≤ 80)) (λ _. 80 < length xs.now) };

    fn try_from(symbols: &[u8]) -> Result<Self, CapacityError> {
        if symbols.len() > LONGEST {
            return Err(CapacityError::new(()));
        }
        let mut padded = [0; LONGEST];
        for (place, symbol) in symbols.iter().enumerate() {
            padded[place] = *symbol;
        }
        Ok(Word {
            symbols: padded,
            len: symbols.len(),
        })
    }
}

// The word that `text` spells, unless it spells none or one with more than 80 symbols.
pub fn read_word(text: &[u8]) -> Option<Word>
    ensures { Only (Readable text.now) result }
{
    let mut symbols = [0; LONGEST];
    if text == b"-".as_slice() {
        return Some(Word { symbols, len: 0 });
    }
    if text.is_empty() || text.len() > LONGEST {
        return None;
    }
    for (place, byte) in text.iter().enumerate() {
        symbols[place] = symbol_of(char::from(*byte))?;
    }
    Some(Word {
        symbols,
        len: text.len(),
    })
}
