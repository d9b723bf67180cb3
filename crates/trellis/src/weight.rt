// The least weight of a codeword that is not all 0.
ghost use Rattle.std.specs.Prelude.{◌≡◌, ◌+◌, ◌-◌, ◌<◌, length, MatchResult};
ghost use Rattle.generator.specs.Parts.{size};
ghost use Rattle.reception.specs.Layers.{hard_word};
ghost use Rattle.least.specs.Least.{best_other};
ghost use Rattle.cheapest.specs.Lightest.{weights};
ghost use Rattle.cheapest.specs.Trellises.{trellis_of};
ghost use Rattle.trellis.specs.Clearing.{Cleared};
ghost use Rattle.trellis.specs.Leasts.{told};
ghost use Rattle.trellis.specs.Told.{LightestFound};

use crate::code_trellis::Trellis;
use crate::cost::{Least, after, cheaper};
use crate::scratch::Scratch;
use crate::shape::Shape;
use crate::table::LeastCosts;
use field::Field;
use generator::Generator;
use reception::{HardWord, Reception};
use refusal::Refusal;

impl<'a, F: Field, R: Reception> LeastCosts<'a, F, R> {
    // The least cost from the state 0 at a place, over the words that are not all 0 from there on.
    // After the symbol 0 this is `zeros`, that of the place after it; after another any word will
    // do, so it stands in the row of the place after it.
    fn other_at(&self, place: usize, zeros: Option<Least>) -> Option<Least>
        requires inside { place < size self.now.trellis.now.generator.now }
        requires zeros { told zeros ≡ best_other (trellis_of F.Field.ops self.now.trellis.now.generator.now (R.Reception.costs self.now.trellis.now.reception.now) self.now.trellis.now.coset) (size self.now.trellis.now.generator.now - (place + 1)) (place + 1) }
        ensures { told result ≡ best_other (trellis_of F.Field.ops self.now.trellis.now.generator.now (R.Reception.costs self.now.trellis.now.reception.now) self.now.trellis.now.coset) (size self.now.trellis.now.generator.now - place) place }
    {
        let next = self.row(place + 1);
        let mut least = None;
        for x in 0..F::order() {
            let price = self.trellis.reception.cost(place, x) as u32;
            let other = if x == 0 {
                after(price, zeros)
            } else {
                next.via(price, self.trellis.next(place, 0, x))
            };
            least = cheaper(least, other);
        }
        least
    }

    // The least cost of a word of the coset that is not all 0.
    fn least_other(&self) -> Option<Least>
        ensures { told result ≡ best_other (trellis_of F.Field.ops self.now.trellis.now.generator.now (R.Reception.costs self.now.trellis.now.reception.now) self.now.trellis.now.coset) (size self.now.trellis.now.generator.now) 0 }
    {
        let mut least = None;
        // From the last place back, each by the one after it.
        for place in (0..self.trellis.generator.length()).rev() {
            least = self.other_at(place, least);
        }
        least
    }
}

static ZEROS: [u8; 24] = [0; 24];

// What symbols weigh, as costs: a symbol weighs what it costs where 0 was received.
pub fn weights(generator: &Generator) -> HardWord<'static>
    ensures { hard_word result.bytes.now ≡ weights generator.now }
{
    HardWord::new(&ZEROS[..generator.length()])
}

// The least weight of a codeword that is not all 0, or nothing where there is no such codeword.
pub fn lightest<F: Field>(generator: &Generator, work: &mut [u32]) -> Result<Option<u32>, Refusal>
    ensures told { LightestFound F.Field.ops generator.now (length work.old) result }
    ensures work { MatchResult result (λ _. Cleared work.new) (λ _. work.new ≡ work.old) }
{
    let shape = Shape::with_room::<F>(generator, work.len())?;
    let weights = weights(generator);
    let trellis = Trellis::<F, HardWord>::new(generator, &weights, 0, shape);
    let guard = Scratch { words: work };
    trellis.fill(guard.words);
    let table = LeastCosts {
        trellis: &trellis,
        words: guard.words,
    };
    let weight = table.least_other().map(|least| least.cost);
    Ok(weight)
}
