// Check places, check rows and syndromes.
ghost use Rattle.std.specs.Prelude.{◌≡◌, ℕ, ◌+◌, ◌-◌, ◌<◌, ◌≤◌, length, MatchOption, ◌≢◌, slice_index};
ghost use Rattle.algebra.specs.Words.{total};
ghost use Rattle.algebra.specs.Checks.{index};
ghost use Rattle.generator.specs.Parts.{size, dimension, places_of, check_place_of, check_row_of, syndrome_of, ZeroExactly};

use crate::Generator;
use field::Field;
use linear::rows::at;

impl Generator {
    // The check place i: the places that are no information places, in their order.
    pub fn check_place(&self, i: usize) -> Option<usize>
        ensures { MatchOption result (size self.now ≤ i + dimension self.now) (λ p. (i + dimension self.now < size self.now) × (p < size self.now) × (p ≡ check_place_of self.now i)) }
    {
        if i >= self.n - self.k {
            return None;
        }
        // Each information place at or before it moves the place on by one.
        let mut p = i;
        for row in self.rows[..self.k].iter() {
            if row.place <= p {
                p += 1;
            }
        }
        Some(p)
    }

    // The row whose information place is p, if there is one.
    fn informing_row(&self, p: usize) -> Option<usize>
        ensures { MatchOption result ((j : ℕ) → j < dimension self.now → places_of self.now j ≢ p) (λ j. (j < dimension self.now) × (places_of self.now j ≡ p)) }
    {
        self.rows[..self.k].iter().position(|row| row.place == p)
    }

    // The symbol at p of the check row of the check place `place`.
    fn check_symbol<F: Field>(&self, place: usize, p: usize) -> u8
        ensures { result ≡ check_row_of F.Field.ops self.now place p }
    {
        if p == place {
            return 1;
        }
        match self.informing_row(p) {
            Some(j) => F::negative(self.symbol::<F>(j, place)),
            None => 0,
        }
    }

    // Writes the check row of the check place `place`, as far as `out` goes.
    pub fn check_row<F: Field>(&self, place: usize, out: &mut [u8])
        ensures { (p : ℕ) → p < length out.old → slice_index out.new p ≡ check_row_of F.Field.ops self.now place p }
    {
        for (p, symbol) in out.iter_mut().enumerate() {
            *symbol = self.check_symbol::<F>(place, p);
        }
    }

    // The sum of the products of a word with the check row of the check place `place`.
    fn syndrome_symbol<F: Field>(&self, word: &[u8], place: usize) -> u8
        ensures { result ≡ total F.Field.ops (λ p. F.Field.ops.product (slice_index word.now p) (check_row_of F.Field.ops self.now place p)) (size self.now) }
    {
        (0..self.n).fold(0, |sum, p| {
            F::sum(
                sum,
                F::product(at(word, p), self.check_symbol::<F>(place, p)),
            )
        })
    }

    // The index of a word's syndrome: its symbols as one number in base q, the first most
    // significant. A word of n symbols is a codeword exactly if this is 0.
    pub fn syndrome_index<F: Field>(&self, word: &[u8]) -> u128
        ensures value { result ≡ index F.Field.ops.order (syndrome_of F.Field.ops self.now (λ p. slice_index word.now p)) (size self.now - dimension self.now) }
        ensures codeword { ZeroExactly F.Field.ops self.now (λ p. slice_index word.now p) result }
    {
        let mut index = 0;
        // Check places are asked for by their number, which is the place of nothing that is held.
        for i in 0..self.n - self.k {
            if let Some(place) = self.check_place(i) {
                let symbol = self.syndrome_symbol::<F>(word, place);
                index = index * u128::from(F::order()) + u128::from(symbol);
            }
        }
        index
    }
}
