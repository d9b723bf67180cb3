// The sections of a trellis: all steps from the states at one place to those at the next.
ghost use Rattle.std.specs.Prelude.{◌≡◌, ℕ, ◌+◌, ◌-◌, ◌*◌, ◌<◌, ◌≤◌, length, slice_index};
ghost use Rattle.generator.specs.Parts.{size};
ghost use Rattle.least.specs.Least.{best};
ghost use Rattle.cheapest.specs.Trellises.{trellis_of};
ghost use Rattle.trellis.specs.Rows.{Filled, Holds};
ghost use Rattle.trellis.specs.Branches.{Branched};
ghost use Rattle.trellis.specs.Shapes.{states};

use crate::branch::Branch;
use crate::code_trellis::Trellis;
use crate::row::Row;
use field::Field;
use reception::Reception;

// One place, the branches of its symbols, and the row of the place after it.
#[derive(Drop)]
pub(crate) struct Section<'a, F: Field, R: Reception> {
    pub(crate) trellis: &'a Trellis<'a, F, R>,
    pub(crate) place: usize,
    pub(crate) branches: &'a [Branch],
    pub(crate) after: Row<'a>,
    ghost inside: { place < size trellis.now.generator.now },
    ghost symbols: { length branches.now ≡ F.Field.ops.order },
    ghost branched: { Branched (trellis_of F.Field.ops trellis.now.generator.now (R.Reception.costs trellis.now.reception.now) trellis.now.coset) place trellis.now.shape.highs trellis.now.shape.lows branches.now },
    ghost states: { length after.costs.now ≡ states trellis.now.shape },
    ghost row: { Holds (trellis_of F.Field.ops trellis.now.generator.now (R.Reception.costs trellis.now.reception.now) trellis.now.coset) (size trellis.now.generator.now - (place + 1)) (place + 1) after.costs.now after.ways.now },
}

impl<'a, F: Field, R: Reception> Section<'a, F, R> {
    // The least cost from the state of the upper half u and the lower half v, over all symbols, and
    // in how many ways it is had. Most of the time goes by here, so both are numbers, as in the rows:
    // with a `Least` for each symbol, and `cheaper` in place of the tests here, decoding takes twice
    // as long. The symbols are counted by the field's order, which the compiler knows for each field
    // and the length of a slice it does not: over the branches themselves decoding in the field of
    // two took a third more time.
    fn reach(&self, u: usize, v: usize) -> (u32, u32)
        requires upper { u < self.now.trellis.now.shape.highs }
        requires lower { v < self.now.trellis.now.shape.lows }
        ensures { result ≡ best (trellis_of F.Field.ops self.now.trellis.now.generator.now (R.Reception.costs self.now.trellis.now.reception.now) self.now.trellis.now.coset) (size self.now.trellis.now.generator.now - self.now.place) self.now.place (u * self.now.trellis.now.shape.lows + v) }
    {
        let mut least = 0;
        let mut ways = 0;
        for x in 0..F::order() as usize {
            let branch = &self.branches[x];
            let to = branch.high[u] as usize + branch.low[v] as usize;
            let more = self.after.ways[to];
            if more != 0 {
                let cost = branch.price + self.after.costs[to];
                if ways == 0 || cost < least {
                    least = cost;
                    ways = more;
                } else if cost == least {
                    ways = 2;
                }
            }
        }
        (least, ways)
    }

    // Fills the states of the upper half u.
    fn fill_part(&self, u: usize, costs: &mut [u32], ways: &mut [u32])
        requires upper { u < self.now.trellis.now.shape.highs }
        requires long { length costs.old ≡ self.now.trellis.now.shape.lows }
        requires paired { length ways.old ≡ self.now.trellis.now.shape.lows }
        ensures { (v : ℕ) → v < self.now.trellis.now.shape.lows → (slice_index costs.new v, slice_index ways.new v) ≡ best (trellis_of F.Field.ops self.now.trellis.now.generator.now (R.Reception.costs self.now.trellis.now.reception.now) self.now.trellis.now.coset) (size self.now.trellis.now.generator.now - self.now.place) self.now.place (u * self.now.trellis.now.shape.lows + v) }
    {
        for (v, cost) in costs.iter_mut().enumerate() {
            let least = self.reach(u, v);
            *cost = least.0;
            ways[v] = least.1;
        }
    }

    // Fills the row of the place, by the row of the place after it.
    pub(crate) fn fill(&self, row: &mut [u32])
        requires { length row.old ≡ states self.now.trellis.now.shape + states self.now.trellis.now.shape }
        ensures { Filled (trellis_of F.Field.ops self.now.trellis.now.generator.now (R.Reception.costs self.now.trellis.now.reception.now) self.now.trellis.now.coset) (size self.now.trellis.now.generator.now - self.now.place) self.now.place (states self.now.trellis.now.shape) row.new }
    {
        let shape = self.trellis.shape;
        let (costs, ways) = row.split_at_mut(shape.states());
        // The part of the costs and that of the ways are lent together, so both are cut by number.
        for u in 0..shape.highs {
            let first = u * shape.lows;
            let end = first + shape.lows;
            self.fill_part(u, &mut costs[first..end], &mut ways[first..end]);
        }
    }
}
