// Words, spans and codes that look random.
use crate::shape::Shape;
use crate::words::{LONGEST, Word};
use arrayvec::ArrayVec;
use code::{Code, Draft};
use field::Field;
use sampling::Numbers;

// A word of n numbers below `count`. As many are drawn for every n.
pub(crate) fn draw_word(numbers: &mut Numbers, count: u8, n: usize) -> Word {
    let mut word = Word::from(numbers.word::<LONGEST>(count));
    word.truncate(n);
    word
}

// A list of one span or two in this word, as `set_spans` takes it.
pub(crate) fn draw_spans(numbers: &mut Numbers, word: &Word) -> ArrayVec<u8, 8> {
    let n = word.len() as u8;
    let offset = numbers.below(n);
    let count = numbers.below(n.saturating_sub(offset)).saturating_add(1);
    let end = offset.saturating_add(count);
    let left = n.saturating_sub(end);
    let gap = numbers.below(left);
    let next = end.saturating_add(gap);
    let more = numbers.below(left.saturating_sub(gap)).saturating_add(1);
    let mut spans = ArrayVec::from([0, offset, 0, count, 0, next, 0, more]);
    if left == 0 {
        spans.truncate(4);
    }
    spans
}

// A code of this shape, if so many rows are found. A row that depends on those held is refused, and
// another is drawn.
pub(crate) fn draw_code<F: Field>(numbers: &mut Numbers, shape: Shape) -> Code<F> {
    let mut draft = Draft::<F>::new();
    let _ = draft.set_length(shape.length);
    for _ in 0..64 {
        if draft.count() < shape.dimension {
            let row = draw_word(numbers, F::order(), shape.length);
            let _ = draft.push_row(&row);
        }
    }
    draft.seal()
}
