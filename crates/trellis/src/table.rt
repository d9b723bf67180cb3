// The table of the least costs: for each place and state the least cost of the symbols from there on,
// and whether one word or more have it. Its rows stand one after the other, and are filled from the
// last place back.
ghost use Rattle.std.specs.Prelude.{◌≡◌, ◌+◌, ◌-◌, ◌*◌, ◌<◌, ◌≤◌, length};
ghost use Rattle.generator.specs.Parts.{size};
ghost use Rattle.least.specs.Tables.{Table};
ghost use Rattle.cheapest.specs.Trellises.{trellis_of};
ghost use Rattle.trellis.specs.Branches.{Branched};
ghost use Rattle.trellis.specs.Rows.{Filled, Holds};
ghost use Rattle.trellis.specs.Shapes.{states};

use crate::branch::Branch;
use crate::code_trellis::Trellis;
use crate::row::Row;
use crate::section::Section;
use field::Field;
use reception::Reception;

// The words of a filled table.
#[derive(Drop)]
pub(crate) struct LeastCosts<'a, F: Field, R: Reception> {
    pub(crate) trellis: &'a Trellis<'a, F, R>,
    pub(crate) words: &'a [u32],
    ghost room: { (size trellis.now.generator.now + 1) * (states trellis.now.shape + states trellis.now.shape) ≤ length words.now },
    ghost filled: { Table (trellis_of F.Field.ops trellis.now.generator.now (R.Reception.costs trellis.now.reception.now) trellis.now.coset) (states trellis.now.shape) (size trellis.now.generator.now) 0 words.now },
}

impl<'a, F: Field, R: Reception> LeastCosts<'a, F, R> {
    // The row of a place.
    pub(crate) fn row(&self, place: usize) -> Row<'a>
        requires { place ≤ size self.now.trellis.now.generator.now }
        ensures states { length result.costs.now ≡ states self.now.trellis.now.shape }
        ensures holds { Holds (trellis_of F.Field.ops self.now.trellis.now.generator.now (R.Reception.costs self.now.trellis.now.reception.now) self.now.trellis.now.coset) (size self.now.trellis.now.generator.now - place) place result.costs.now result.ways.now }
    {
        let words = self.words;
        let states = self.trellis.shape.states();
        let row = states + states;
        Row::new(&words[place * row..place * row + row], states)
    }
}

impl<'a, F: Field, R: Reception> Trellis<'a, F, R> {
    // Fills the row past the last place: the empty word costs nothing, and leads to the coset alone.
    fn fill_last(&self, row: &mut [u32])
        requires { length row.old ≡ states self.now.shape + states self.now.shape }
        ensures { Filled (trellis_of F.Field.ops self.now.generator.now (R.Reception.costs self.now.reception.now) self.now.coset) 0 (size self.now.generator.now) (states self.now.shape) row.new }
    {
        row.fill(0);
        row[self.shape.states() + self.coset] = 1;
    }

    // Fills the row of a place, by the row of the place after it.
    fn fill_row(&self, place: usize, branches: &[Branch], after: &[u32], row: &mut [u32])
        requires inside { place < size self.now.generator.now }
        requires symbols { length branches.now ≡ F.Field.ops.order }
        requires branched { Branched (trellis_of F.Field.ops self.now.generator.now (R.Reception.costs self.now.reception.now) self.now.coset) place self.now.shape.highs self.now.shape.lows branches.now }
        requires next { length after.now ≡ states self.now.shape + states self.now.shape }
        requires long { length row.old ≡ states self.now.shape + states self.now.shape }
        requires done { Filled (trellis_of F.Field.ops self.now.generator.now (R.Reception.costs self.now.reception.now) self.now.coset) (size self.now.generator.now - (place + 1)) (place + 1) (states self.now.shape) after.now }
        ensures { Filled (trellis_of F.Field.ops self.now.generator.now (R.Reception.costs self.now.reception.now) self.now.coset) (size self.now.generator.now - place) place (states self.now.shape) row.new }
    {
        let section = Section {
            trellis: &*self,
            place,
            branches,
            after: Row::new(after, self.shape.states()),
        };
        section.fill(row);
    }

    // Fills the row of a place in a table that is filled from the place after it on.
    fn fill_place(&self, place: usize, branches: &mut [Branch], words: &mut [u32])
        requires inside { place < size self.now.generator.now }
        requires symbols { length branches.old ≡ F.Field.ops.order }
        requires room { (size self.now.generator.now + 1) * (states self.now.shape + states self.now.shape) ≤ length words.old }
        requires done { Table (trellis_of F.Field.ops self.now.generator.now (R.Reception.costs self.now.reception.now) self.now.coset) (states self.now.shape) (size self.now.generator.now) (place + 1) words.old }
        ensures { Table (trellis_of F.Field.ops self.now.generator.now (R.Reception.costs self.now.reception.now) self.now.coset) (states self.now.shape) (size self.now.generator.now) place words.new }
    {
        self.branch(place, branches);
        let row = 2 * self.shape.states();
        let (before, after) = words.split_at_mut(place * row + row);
        self.fill_row(place, branches, &after[..row], &mut before[place * row..]);
    }

    // Fills the whole table.
    pub(crate) fn fill(&self, words: &mut [u32])
        requires { (size self.now.generator.now + 1) * (states self.now.shape + states self.now.shape) ≤ length words.old }
        ensures { Table (trellis_of F.Field.ops self.now.generator.now (R.Reception.costs self.now.reception.now) self.now.coset) (states self.now.shape) (size self.now.generator.now) 0 words.new }
    {
        let n = self.generator.length();
        let row = 2 * self.shape.states();
        self.fill_last(&mut words[n * row..n * row + row]);
        let mut branches = [Branch {
            price: 0,
            high: [0; 256],
            low: [0; 64],
        }; 16];
        let symbols = &mut branches[..self.shape.order as usize];
        // From the last place back, since each row is made of the one after it.
        for place in (0..n).rev() {
            self.fill_place(place, symbols, words);
        }
    }
}
