// Independent rows that grow and shrink at their end.
#![tactic(auto)]

ghost use Rattle.std.specs.Prelude.{◌≡◌, ℕ, ◌<◌, ◌≤◌, slice_index};
ghost use Rattle.algebra.specs.Words.{cells};
ghost use Rattle.linear.specs.Rows.{symbols, places};

pub mod growing;
pub mod parts;
pub mod reducing;

use linear::rows::Row;

// `k` rows of `n` places, each as it is left by those before it: with 1 at its own pivot place and
// 0 at the pivot places of the rows before it. So no row is a sum of multiples of the others, for
// every field; in a field a stored number that is no symbol counts as 0.
// The rows are an array with their count beside it, and no `ArrayVec`, which is not `Copy`: to take
// a row off is to count one less, and all rows stay as they are.
#[derive(Clone, Copy)]
pub struct Basis {
    n: usize,
    k: usize,
    rows: [Row; 24],
    ghost short: { n ≤ 24 },
    ghost few: { k ≤ n },
    ghost inside: { (i : ℕ) → i < k → slice_index (places rows) i < n },
    ghost own: { (i : ℕ) → i < k → cells (symbols rows) i (slice_index (places rows) i) ≡ 1 },
    ghost cleared: { (i j : ℕ) → (j < i) × (i < k) → cells (symbols rows) i (slice_index (places rows) j) ≡ 0 },
    ghost ends: { (i p : ℕ) → (i < k) × (n ≤ p) → cells (symbols rows) i p ≡ 0 },
}
