// The trellis of a code: how the symbols at each place of a word lead from partial syndrome to partial
// syndrome, and what they cost in a reception.
ghost use Rattle.std.specs.Prelude.{◌≡◌, ℕ, ◌*◌, ◌<◌, ◌≤◌, length};
ghost use Rattle.generator.specs.Parts.{size};
ghost use Rattle.cosets.specs.States.{cosets, next};
ghost use Rattle.cheapest.specs.Trellises.{trellis_of};
ghost use Rattle.trellis.specs.Branches.{Branched};
ghost use Rattle.trellis.specs.Columns.{Columns};
ghost use Rattle.trellis.specs.Shapes.{Shaped, states};

use crate::branch::Branch;
use crate::shape::Shape;
use crate::steps::{step, tabulate};
use field::Field;
use generator::Generator;
use reception::Reception;
use std::marker::PhantomData;

// The words that count are those of one coset. For each place the check rows' symbols stand in a
// column.
#[derive(Drop)]
pub(crate) struct Trellis<'a, F: Field, R: Reception> {
    pub(crate) generator: &'a Generator,
    pub(crate) reception: &'a R,
    pub(crate) coset: usize,
    pub(crate) shape: Shape,
    columns: [[u8; 24]; 24],
    field: PhantomData<F>,
    ghost shaped: { Shaped F.Field.ops generator.now shape },
    ghost known: { coset < cosets F.Field.ops generator.now },
    ghost made: { Columns F.Field.ops generator.now columns },
}

impl<'a, F: Field, R: Reception> Trellis<'a, F, R> {
    // The trellis of a generator of that shape, and a reception.
    pub(crate) fn new(
        generator: &'a Generator,
        reception: &'a R,
        coset: usize,
        shape: Shape,
    ) -> Trellis<'a, F, R>
        requires shaped { Shaped F.Field.ops generator.now shape }
        requires known { coset < cosets F.Field.ops generator.now }
        ensures generator { result.generator.now ≡ generator.now }
        ensures reception { result.reception.now ≡ reception.now }
        ensures coset { result.coset ≡ coset }
    {
        Trellis {
            generator,
            reception,
            coset,
            shape,
            columns: check_columns::<F>(generator),
            field: PhantomData,
        }
    }

    // Writes the branches of the first symbols at a place, one for each.
    pub(crate) fn branch(&self, place: usize, branches: &mut [Branch])
        requires inside { place < size self.now.generator.now }
        requires symbols { length branches.old ≤ F.Field.ops.order }
        ensures { Branched (trellis_of F.Field.ops self.now.generator.now (R.Reception.costs self.now.reception.now) self.now.coset) place self.now.shape.highs self.now.shape.lows branches.new }
    {
        let column = self.columns[place];
        let (upper, lower) = column[..self.shape.digits()].split_at(self.shape.high_digits);
        let unit = self.shape.lows as u16;
        for (x, branch) in branches.iter_mut().enumerate() {
            let x = x as u8;
            branch.price = self.reception.cost(place, x) as u32;
            tabulate::<F>(upper, x, unit, &mut branch.high);
            tabulate::<F>(lower, x, 1, &mut branch.low);
        }
    }

    // Where the symbol x leads from a state at a place.
    pub(crate) fn next(&self, place: usize, state: usize, x: u8) -> usize
        requires { place < size self.now.generator.now }
        ensures value { result ≡ next F.Field.ops self.now.generator.now place state x }
        ensures below { result < states self.now.shape }
    {
        let column = self.columns[place];
        step::<F>(&column[..self.shape.digits()], state, x)
    }
}

// The columns of a generator's check rows, which stand in the order of their check places.
fn check_columns<F: Field>(generator: &Generator) -> [[u8; 24]; 24]
    ensures { Columns F.Field.ops generator.now result }
{
    let n = generator.length();
    let mut columns = [[0; 24]; 24];
    // Check places are asked for by their number, under which their rows stand in the columns.
    for i in 0..n - generator.dimension() {
        if let Some(place) = generator.check_place(i) {
            let mut row = [0; 24];
            generator.check_row::<F>(place, &mut row[..n]);
            for (p, &symbol) in row.iter().enumerate() {
                columns[p][i] = symbol;
            }
        }
    }
    columns
}
