// One of two kinds of receptions, so that one list can mix them.
ghost use Rattle.std.specs.Prelude.{◌≡◌};
ghost use Rattle.reception.specs.Layers as Layers;
ghost use Rattle.reception.specs.LayerLaws.{either_lawful};

use crate::Reception;

// Has the length and the costs of the reception that it holds. Neither kind stands for a failure or
// for nothing received, so this is no `Result` and no `Option`.
#[derive(Drop)]
pub enum Either<P, Q> {
    First(P),
    Second(Q),
}

impl<P: Reception, Q: Reception> Reception for Either<P, Q> {
    ghost costs = { Layers.either P.Reception.costs Q.Reception.costs };

    ghost laws = { either_lawful P.Reception.costs Q.Reception.costs P.Reception.laws Q.Reception.laws };

    fn len(&self) -> usize {
        match self {
            Either::First(reception) => reception.len(),
            Either::Second(reception) => reception.len(),
        }
    }

    fn cost(&self, place: usize, symbol: u8) -> u16 {
        match self {
            Either::First(reception) => reception.cost(place, symbol),
            Either::Second(reception) => reception.cost(place, symbol),
        }
    }
}
