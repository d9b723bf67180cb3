// A row more, and a row less.
ghost use Rattle.std.specs.Prelude.{◌≡◌, ℕ, ◌<◌, ◌≤◌, min, length, MatchOption, ◌≢◌, slice_index};
ghost use Rattle.algebra.specs.Words as Words;
ghost use Rattle.algebra.specs.Words.{Span};
ghost use Rattle.algebra.specs.Elimination.{Remainder};
ghost use Rattle.basis.specs.Left.{Left};
ghost use Rattle.basis.specs.Parts.{size, count, rows_of, pivots_of, Offered, Shortened};

use crate::Basis;
use field::Field;
use linear::rows::{Row, add_multiple, cut, scale};

impl Basis {
    // No rows, of length n; of length 24 where n is more.
    pub fn empty(n: usize) -> Basis
        ensures long { size result ≡ min n 24 }
        ensures none { count result ≡ 0 }
    {
        let none = Row {
            place: 0,
            symbols: [0; 24],
        };
        Basis {
            n: n.min(24),
            k: 0,
            rows: [none; 24],
        }
    }

    // Takes the last row off, and tells whether there was one, as the `remove` of a set does.
    pub fn shorten(&mut self) -> bool
        ensures { Shortened self.old result self.new }
    {
        if self.k == 0 {
            return false;
        }
        self.k -= 1;
        true
    }

    // What is left of the first n places of a word, once multiples of the rows have made it 0 at
    // their pivot places.
    fn remainder<F: Field>(&self, word: &[u8]) -> [u8; 24]
        ensures rest { Remainder F.Field.ops (rows_of F.Field.ops self.now) (pivots_of self.now) (Words.cut F.Field.ops (size self.now) (Words.word word.now)) (Words.word result) (count self.now) }
        ensures ends { (p : ℕ) → size self.now ≤ p → slice_index result p ≡ 0 }
    {
        let mut rest = cut::<F>(word, self.n);
        for row in self.rows[..self.k].iter() {
            let factor = F::negative(rest[row.place]);
            add_multiple::<F>(&mut rest, &row.symbols, factor);
        }
        rest
    }
}

// The first place at which a word is not 0.
fn first_nonzero(word: &[u8]) -> Option<usize>
    ensures { MatchOption result ((k : ℕ) → slice_index word.now k ≡ 0) (λ p. (p < length word.now) × (slice_index word.now p ≢ 0) × ((k : ℕ) → k < p → slice_index word.now k ≡ 0)) }
{
    word.iter().position(|x| *x != 0)
}

impl Basis {
    // What the rows leave of the first n places of a word, as a row with 1 at the first place that
    // is not 0; nothing where the rows span the word.
    fn left<F: Field>(&self, word: &[u8]) -> Option<Row>
        ensures { MatchOption result (Span F.Field.ops (count self.now) (rows_of F.Field.ops self.now) (Words.cut F.Field.ops (size self.now) (Words.word word.now))) (Left F.Field.ops self.now (Words.cut F.Field.ops (size self.now) (Words.word word.now))) }
    {
        let mut symbols = self.remainder::<F>(word);
        let place = first_nonzero(&symbols)?;
        let factor = F::inverse(symbols[place]);
        scale::<F>(&mut symbols, factor);
        Some(Row { place, symbols })
    }

    // Adds the first n places of a word as a row, unless the rows span them, and tells whether it
    // did, as the `insert` of a set does. A number that is no symbol counts as 0.
    pub fn extend<F: Field>(&mut self, word: &[u8]) -> bool
        ensures { Offered F.Field.ops self.old (Words.cut F.Field.ops (size self.old) (Words.word word.now)) result self.new }
    {
        let Some(row) = self.left::<F>(word) else {
            return false;
        };
        self.rows[self.k] = row;
        self.k += 1;
        true
    }
}
