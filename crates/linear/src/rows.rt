// Row operations, place by place.
ghost use Rattle.std.specs.Prelude.{◌≡◌, ℕ, ◌<◌, length, slice_index};
ghost use Rattle.algebra.specs.Words as Words;

use field::Field;
use std::array;

// A row of symbols, and the place at which it has its 1.
#[derive(Clone, Copy)]
pub struct Row {
    pub place: usize,
    pub symbols: [u8; 24],
}

// What stands at the place `k` of a word: past its end there are 0s.
pub fn at(word: &[u8], k: usize) -> u8
    ensures { result ≡ slice_index word.now k }
{
    word.get(k).copied().unwrap_or(0)
}

// The first n places of a word, as symbols: a number that is none counts as 0. All else is 0.
pub fn cut<F: Field>(word: &[u8], n: usize) -> [u8; 24]
    ensures { (k : ℕ) → k < 24 → slice_index result k ≡ Words.cut F.Field.ops n (Words.word word.now) k }
{
    array::from_fn(|k| { if k < n { F::product(1, at(word, k)) } else { 0 } })
}

// Multiplies each place of `row` by `factor`.
pub fn scale<F: Field>(row: &mut [u8], factor: u8)
    ensures { (k : ℕ) → k < length row.old → slice_index row.new k ≡ F.Field.ops.product factor (slice_index row.old k) }
{
    for x in row.iter_mut() {
        *x = F::product(factor, *x);
    }
}

// Adds `factor` times `by` to `row`, place by place. Past its end `by` has 0s. The hint is for rows of
// 24 symbols, as which the callers know theirs: in the field of two it takes half the time then.
#[inline(always)]
pub fn add_multiple<F: Field>(row: &mut [u8], by: &[u8], factor: u8)
    ensures { (k : ℕ) → k < length row.old → slice_index row.new k ≡ F.Field.ops.sum (slice_index row.old k) (F.Field.ops.product factor (slice_index by.now k)) }
{
    for (i, x) in row.iter_mut().enumerate() {
        *x = F::sum(*x, F::product(factor, at(by, i)));
    }
}
