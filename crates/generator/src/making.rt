// The generator that rows have in their reduced row echelon form, and what it is made of.
ghost use Rattle.std.specs.Prelude.{◌≡◌, ℕ, ◌<◌, ◌≤◌, min, slice_index};
ghost use Rattle.algebra.specs.Words as Words;
ghost use Rattle.algebra.specs.Words.{cells};
ghost use Rattle.algebra.specs.Reduced.{ReducedForm, OnlyForm, FirstPlace};
ghost use Rattle.linear.specs.Rows as Rows;
ghost use Rattle.linear.specs.Rows.{symbols};
ghost use Rattle.generator.specs.Parts.{size, dimension, rows_of, places_of, first_rows};

use crate::Generator;
use field::Field;
use linear::elimination::{Echelon, reduce};
use linear::rows::{Row, cut};
use std::array;

// The first n places of the first `count` rows, as symbols, and 0s around them.
fn framed<F: Field>(rows: &[[u8; 24]; 24], count: usize, n: usize) -> [[u8; 24]; 24]
    requires few { count ≤ 24 }
    requires short { n ≤ 24 }
    ensures inner { (i p : ℕ) → i < count → cells result i p ≡ Words.cut F.Field.ops n (cells rows.now i) p }
    ensures below { (i p : ℕ) → count ≤ i → cells result i p ≡ 0 }
{
    let mut table = [[0; 24]; 24];
    for (i, row) in rows[..count].iter().enumerate() {
        table[i] = cut::<F>(row, n);
    }
    table
}

// The rows of a table, each with its place.
fn placed(table: &[[u8; 24]; 24], places: &[usize; 24]) -> [Row; 24]
    ensures same { (i p : ℕ) → cells (symbols result) i p ≡ cells table.now i p }
    ensures at { (i : ℕ) → slice_index (Rows.places result) i ≡ slice_index places.now i }
{
    array::from_fn(|i| Row {
        place: places[i],
        symbols: table[i],
    })
}

impl Generator {
    // The generator that is the reduced row echelon form of the first n places of the first `count`
    // rows; both are 24 at most, and a number that is no symbol counts as 0. There is no other
    // reduced form of these rows, and its first information place is the first place at which some
    // row is not 0.
    pub fn of_rows<F: Field>(rows: &[[u8; 24]; 24], count: usize, n: usize) -> Generator
        ensures long { size result ≡ min n 24 }
        ensures form { ReducedForm F.Field.ops (min count 24) (first_rows F.Field.ops (min n 24) rows.now) (dimension result) (rows_of F.Field.ops result) (places_of result) }
        ensures only { OnlyForm F.Field.ops (min count 24) (first_rows F.Field.ops (min n 24) rows.now) (dimension result) (rows_of F.Field.ops result) (places_of result) }
        ensures first { 0 < dimension result → FirstPlace (min count 24) (first_rows F.Field.ops (min n 24) rows.now) (places_of result 0) }
    {
        let n = n.min(24);
        let mut table = framed::<F>(rows, count.min(24), n);
        let Echelon { rank, places } = reduce::<F>(&mut table);
        let rows = placed(&table, &places);
        Generator { n, k: rank, rows }
    }
}
