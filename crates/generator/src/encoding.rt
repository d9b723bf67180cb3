// The parts of a generator, and its codewords.
ghost use Rattle.std.specs.Prelude.{◌≡◌, ℕ, ◌<◌, ◌≤◌, length, slice_index};
ghost use Rattle.algebra.specs.Words.{word, combination};
ghost use Rattle.generator.specs.Parts.{size, dimension, rows_of, places_of};

use crate::Generator;
use field::Field;
use linear::rows::at;

impl Generator {
    pub fn length(&self) -> usize
        ensures { result ≡ size self.now }
    {
        self.n
    }

    // How many rows there are.
    pub fn dimension(&self) -> usize
        ensures { result ≡ dimension self.now }
    {
        self.k
    }

    // The information place of the row j, or 0 where there is no such row.
    pub fn place(&self, j: usize) -> usize
        ensures { (j < dimension self.now → result ≡ places_of self.now j) × (dimension self.now ≤ j → result ≡ 0) }
    {
        self.rows[..self.k].get(j).map_or(0, |row| row.place)
    }

    // The symbol of the row j at the place p, or 0 where there is no such row or place.
    pub fn symbol<F: Field>(&self, j: usize, p: usize) -> u8
        ensures { (j < dimension self.now → result ≡ rows_of F.Field.ops self.now j p) × (dimension self.now ≤ j → result ≡ 0) }
    {
        match self.rows[..self.k].get(j) {
            Some(row) => F::product(1, at(&row.symbols, p)),
            None => 0,
        }
    }

    // The symbol at the place p of the sum of the rows, each times its symbol of the message.
    fn codeword_at<F: Field>(&self, message: &[u8], p: usize) -> u8
        ensures { result ≡ combination F.Field.ops (word message.now) (rows_of F.Field.ops self.now) (dimension self.now) p }
    {
        let mut sum = 0;
        for (j, row) in self.rows[..self.k].iter().enumerate() {
            sum = F::sum(sum, F::product(at(message, j), at(&row.symbols, p)));
        }
        sum
    }

    // Writes the codeword of a message, as far as `out` goes: the sum of the rows, each times its
    // symbol of the message. Past its end a message has 0s.
    pub fn encode<F: Field>(&self, message: &[u8], out: &mut [u8])
        ensures { (p : ℕ) → p < length out.old → slice_index out.new p ≡ combination F.Field.ops (word message.now) (rows_of F.Field.ops self.now) (dimension self.now) p }
    {
        for (p, symbol) in out.iter_mut().enumerate() {
            *symbol = self.codeword_at::<F>(message, p);
        }
    }
}
