// How many states a trellis has, and how their digits are halved.
ghost use Rattle.std.specs.Prelude.{◌≡◌, ◌+◌, ◌*◌, ◌^◌, ◌<◌, ◌≤◌, MatchOption};
ghost use Rattle.cosets.specs.States.{cosets};
ghost use Rattle.refusal.specs.Refusals.{accepted};
ghost use Rattle.trellis.specs.Rooms.{with_room};

use field::Field;
use generator::Generator;
use refusal::Refusal;

// The states of a code over `order` symbols, `highs` times `lows` of them: the partial syndromes of
// as many digits as the code has check rows, in an upper and a lower half. There are at most 4,096
// states, so that the steps of both halves fit in small tables.
#[derive(Clone, Copy)]
pub(crate) struct Shape {
    pub(crate) order: u8,
    pub(crate) high_digits: usize,
    pub(crate) low_digits: usize,
    pub(crate) highs: usize,
    pub(crate) lows: usize,
    ghost short: { high_digits + low_digits ≤ 24 },
    ghost upper: { highs ≡ order ^ high_digits },
    ghost lower: { lows ≡ order ^ low_digits },
    ghost few: { highs * lows ≤ 4096 },
    ghost few_highs: { highs ≤ 256 },
    ghost few_lows: { lows ≤ 64 },
}

impl Shape {
    ghost use Rattle.trellis.specs.Shapes.{Shaped};

    // The shape of a generator's trellis, unless its code has more than 4,096 cosets.
    fn of<F: Field>(generator: &Generator) -> Option<Shape>
        ensures { MatchOption result (4096 < cosets F.Field.ops generator.now) (Shaped F.Field.ops generator.now) }
    {
        let order = F::order();
        let checks = generator.length() - generator.dimension();
        let low_digits = checks / 2;
        let high_digits = checks - low_digits;
        let lows = power(order, low_digits)?;
        let highs = power(order, high_digits)?;
        if highs * lows > 4096 {
            return None;
        }
        Some(Shape {
            order,
            high_digits,
            low_digits,
            highs,
            lows,
        })
    }

    // The shape of a generator's trellis, if so many words of work memory are enough for it.
    pub(crate) fn with_room<F: Field>(generator: &Generator, words: usize) -> Result<Shape, Refusal>
        ensures { with_room F.Field.ops generator.now words (accepted (Shaped F.Field.ops generator.now)) result }
    {
        let n = generator.length();
        let Some(shape) = Shape::of::<F>(generator) else {
            return Err(Refusal::Cosets(n - generator.dimension()));
        };
        let needed = (2 * n + 2) * shape.states();
        if words < needed {
            return Err(Refusal::WorkMemory(needed));
        }
        Ok(shape)
    }

    pub(crate) fn states(&self) -> usize
        ensures { result ≡ self.now.highs * self.now.lows }
    {
        self.highs * self.lows
    }

    pub(crate) fn digits(&self) -> usize
        ensures { result ≡ self.now.high_digits + self.now.low_digits }
    {
        self.high_digits + self.low_digits
    }
}

// `base` to the power `digits`, unless that is more than 4,096.
fn power(base: u8, digits: usize) -> Option<usize>
    requires { digits ≤ 24 }
    ensures { MatchOption result (4096 < base ^ digits) (λ p. (p ≡ base ^ digits) × (p ≤ 4096)) }
{
    (base as usize)
        .checked_pow(digits as u32)
        .filter(|power| *power <= 4_096)
}

// Tests whether a code has few enough cosets, and whether so many words of work memory are enough.
pub fn check_room<F: Field>(generator: &Generator, words: usize) -> Result<(), Refusal>
    ensures { with_room F.Field.ops generator.now words (accepted (λ _. Unit {0})) result }
{
    Shape::with_room::<F>(generator, words).map(|_| ())
}
