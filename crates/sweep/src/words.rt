// Words of any field, and how all words of a length are enumerated.
use arrayvec::ArrayVec;
use field::Field;

// The most places that a word has here.
pub(crate) const LONGEST: usize = 8;

pub(crate) type Word = ArrayVec<u8, LONGEST>;

// No symbol of any field.
const UNWRITTEN: u8 = 170;

// A word of n places that all hold this number.
fn filled(number: u8, n: usize) -> Word {
    let mut word = Word::from([number; LONGEST]);
    word.truncate(n);
    word
}

// What a buffer for n places holds before a call.
pub(crate) fn unwritten(n: usize) -> Word {
    filled(UNWRITTEN, n)
}

// How many words of n symbols there are, or the largest number where they are more.
pub(crate) fn count_words<F: Field>(n: usize) -> usize {
    usize::from(F::order()).saturating_pow(u32::try_from(n).unwrap_or(u32::MAX))
}

// The word of n places whose digits to the base q write this number, the first place first. So a word
// of a larger number has the larger symbol at the first place where the two differ.
pub(crate) fn word_of<F: Field>(number: usize, n: usize) -> Word {
    let base = usize::from(F::order().max(1));
    let mut word = filled(0, n);
    let mut rest = number;
    for symbol in word.iter_mut().rev() {
        *symbol = (rest % base) as u8;
        rest /= base;
    }
    word
}

// In how many places two words differ.
pub(crate) fn differing(a: &[u8], b: &[u8]) -> u32 {
    a.iter().zip(b).fold(
        0,
        |count: u32, (x, y)| count.saturating_add(u32::from(x != y)),
    )
}
