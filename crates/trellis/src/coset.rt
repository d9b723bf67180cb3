// The cheapest word of a coset.
ghost use Rattle.std.specs.Prelude.{◌≡◌, ◌+◌, ◌-◌, ◌*◌, ◌<◌, length, IsTrue, ◌↔◌, MatchResult, OnErr};
ghost use Rattle.algebra.specs.Words.{word};
ghost use Rattle.generator.specs.Parts.{size};
ghost use Rattle.cosets.specs.States.{next};
ghost use Rattle.least.specs.Least.{best};
ghost use Rattle.least.specs.Tables.{Picked};
ghost use Rattle.cheapest.specs.Cheapest.{Cheapest, Sole};
ghost use Rattle.cheapest.specs.Trellises.{trellis_of};
ghost use Rattle.trellis.specs.Clearing.{Cleared};
ghost use Rattle.trellis.specs.Told.{CheapestFound};
ghost use Rattle.trellis.specs.Shapes.{states};

use crate::code_trellis::Trellis;
use crate::cost::Least;
use crate::scratch::Scratch;
use crate::shape::Shape;
use crate::table::LeastCosts;
use field::Field;
use generator::Generator;
use reception::Reception;
use refusal::Refusal;

impl<'a, F: Field, R: Reception> LeastCosts<'a, F, R> {
    // Whether the least cost from a state at a place is had by the symbol x.
    fn is_least_by(&self, place: usize, state: usize, x: u8) -> bool
        requires inside { place < size self.now.trellis.now.generator.now }
        requires known { state < states self.now.trellis.now.shape }
        ensures { IsTrue result ↔ ((0 < (best (trellis_of F.Field.ops self.now.trellis.now.generator.now (R.Reception.costs self.now.trellis.now.reception.now) self.now.trellis.now.coset) (size self.now.trellis.now.generator.now - (place + 1)) (place + 1) (next F.Field.ops self.now.trellis.now.generator.now place state x)).1) × ((R.Reception.costs self.now.trellis.now.reception.now).cost place x + (best (trellis_of F.Field.ops self.now.trellis.now.generator.now (R.Reception.costs self.now.trellis.now.reception.now) self.now.trellis.now.coset) (size self.now.trellis.now.generator.now - (place + 1)) (place + 1) (next F.Field.ops self.now.trellis.now.generator.now place state x)).0 ≡ (best (trellis_of F.Field.ops self.now.trellis.now.generator.now (R.Reception.costs self.now.trellis.now.reception.now) self.now.trellis.now.coset) (size self.now.trellis.now.generator.now - place) place state).0)) }
    {
        let least = self.row(place).costs[state];
        let price = self.trellis.reception.cost(place, x) as u32;
        let to = self.trellis.next(place, state, x);
        let after = self.row(place + 1);
        matches!(after.via(price, to), Some(found) if found.cost == least)
    }

    // The largest symbol by which the least cost is had from a state at a place.
    fn pick(&self, place: usize, state: usize) -> u8
        requires inside { place < size self.now.trellis.now.generator.now }
        requires known { state < states self.now.trellis.now.shape }
        requires live { 0 < (best (trellis_of F.Field.ops self.now.trellis.now.generator.now (R.Reception.costs self.now.trellis.now.reception.now) self.now.trellis.now.coset) (size self.now.trellis.now.generator.now - place) place state).1 }
        ensures { Picked F.Field.ops.order (λ x. (R.Reception.costs self.now.trellis.now.reception.now).cost place x + (best (trellis_of F.Field.ops self.now.trellis.now.generator.now (R.Reception.costs self.now.trellis.now.reception.now) self.now.trellis.now.coset) (size self.now.trellis.now.generator.now - (place + 1)) (place + 1) (next F.Field.ops self.now.trellis.now.generator.now place state x)).0) (λ x. (best (trellis_of F.Field.ops self.now.trellis.now.generator.now (R.Reception.costs self.now.trellis.now.reception.now) self.now.trellis.now.coset) (size self.now.trellis.now.generator.now - (place + 1)) (place + 1) (next F.Field.ops self.now.trellis.now.generator.now place state x)).1) (best (trellis_of F.Field.ops self.now.trellis.now.generator.now (R.Reception.costs self.now.trellis.now.reception.now) self.now.trellis.now.coset) (size self.now.trellis.now.generator.now - place) place state).0 result }
    {
        let found = (0..F::order())
            .rev()
            .find(|x| self.is_least_by(place, state, *x));
        found.unwrap()
    }

    // Writes the cheapest word of the coset.
    fn trace(&self, out: &mut [u8]) -> Least
        requires { length out.old ≡ size self.now.trellis.now.generator.now }
        ensures cheapest { Cheapest F.Field.ops self.now.trellis.now.generator.now (R.Reception.costs self.now.trellis.now.reception.now) self.now.trellis.now.coset (word out.new) result.cost }
        ensures sole { Sole F.Field.ops self.now.trellis.now.generator.now (R.Reception.costs self.now.trellis.now.reception.now) self.now.trellis.now.coset (word out.new) result.cost result.sole }
    {
        let mut state = 0;
        for (place, slot) in out.iter_mut().enumerate() {
            let x = self.pick(place, state);
            *slot = x;
            state = self.trellis.next(place, state, x);
        }
        let first = self.row(0);
        Least {
            cost: first.costs[0],
            sole: first.ways[0] == 1,
        }
    }
}

// Writes the cheapest word of a coset, given by the index of its syndrome: of several that cost the
// same, the one with the larger number at the first place where they differ.
pub fn cheapest<F: Field, R: Reception>(
    generator: &Generator,
    reception: &R,
    coset: usize,
    work: &mut [u32],
    word: &mut [u8],
) -> Result<Least, Refusal>
    ensures told { CheapestFound F.Field.ops generator.now (R.Reception.costs reception.now) coset (length work.old) (length word.old) word.new result }
    ensures work { MatchResult result (λ _. Cleared work.new) (λ _. work.new ≡ work.old) }
    ensures word { OnErr result (word.new ≡ word.old) }
{
    let shape = Shape::with_room::<F>(generator, work.len())?;
    let n = generator.length();
    if word.len() != n {
        return Err(Refusal::BufferLength(n));
    }
    let states = shape.states();
    if coset >= states {
        return Err(Refusal::Index(states));
    }
    let trellis = Trellis::<F, R>::new(generator, reception, coset, shape);
    let guard = Scratch { words: work };
    trellis.fill(guard.words);
    let table = LeastCosts {
        trellis: &trellis,
        words: guard.words,
    };
    Ok(table.trace(word))
}
