// The generator of a code in systematic form: its rows, with a place for each at which a message is carried.
#![tactic(auto)]

ghost use Rattle.std.specs.Prelude.{◌≡◌, ℕ, ◌<◌, ◌≤◌, [], length, ◌≢◌, slice_index, slice_index_or};
ghost use Rattle.algebra.specs.Words.{cells};
ghost use Rattle.linear.specs.Rows.{symbols, places};

pub mod checks;
pub mod encoding;
pub mod making;

use linear::rows::Row;

// `k` rows of `n` places. Each row has 1 at its own information place and 0 at those of the other
// rows, and the places ascend. These facts are of 0s and 1s, so the type has them for every field;
// in a field a stored number that is no symbol counts as 0.
// The rows are an array with their count beside it, and no `ArrayVec`, which is not `Copy`. A basis
// has facts of the same names, but there a row is 0 only at the places of the rows before it.
#[derive(Clone, Copy)]
pub struct Generator {
    n: usize,
    k: usize,
    rows: [Row; 24],
    ghost short: { n ≤ 24 },
    ghost few: { k ≤ n },
    ghost inside: { (i : ℕ) → i < k → slice_index (places rows) i < n },
    ghost ascends: { (i j : ℕ) → (i < j) × (j < k) → slice_index (places rows) i < slice_index (places rows) j },
    ghost own: { (i : ℕ) → i < k → cells (symbols rows) i (slice_index (places rows) i) ≡ 1 },
    ghost others: { (i j : ℕ) → (i < k) × (j < k) × (i ≢ j) → cells (symbols rows) i (slice_index (places rows) j) ≡ 0 },
    ghost ends: { (i p : ℕ) → n ≤ p → cells (symbols rows) i p ≡ 0 },
}
