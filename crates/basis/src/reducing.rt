// The generator of a basis.
ghost use Rattle.std.specs.Prelude.{◌≡◌, ◌<◌};
ghost use Rattle.algebra.specs.Reduced.{ReducedForm, OnlyForm, FirstPlace};
ghost use Rattle.basis.specs.Parts.{size, count, rows_of};
ghost use Rattle.generator.specs.Parts as Generators;

use crate::Basis;
use field::Field;
use generator::Generator;

impl Basis {
    // The generator that is the reduced row echelon form of the rows. It has as many rows, there
    // is no other reduced form of them, and its first information place is the first place at which
    // some row is not 0.
    pub fn generator<F: Field>(&self) -> Generator
        ensures long { Generators.size result ≡ size self.now }
        ensures all { Generators.dimension result ≡ count self.now }
        ensures form { ReducedForm F.Field.ops (count self.now) (rows_of F.Field.ops self.now) (Generators.dimension result) (Generators.rows_of F.Field.ops result) (Generators.places_of result) }
        ensures only { OnlyForm F.Field.ops (count self.now) (rows_of F.Field.ops self.now) (Generators.dimension result) (Generators.rows_of F.Field.ops result) (Generators.places_of result) }
        ensures first { 0 < Generators.dimension result → FirstPlace (count self.now) (rows_of F.Field.ops self.now) (Generators.places_of result 0) }
    {
        let rows = self.rows;
        let table = rows.map(
            |row| -> [u8; 24]
                ensures { result ≡ row.symbols }
            { row.symbols },
        );
        Generator::of_rows::<F>(&table, self.k, self.n)
    }
}
