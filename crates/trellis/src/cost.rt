// The least cost of some words, and whether just one of them has it.
ghost use Rattle.std.specs.Prelude.{◌≡◌, ◌+◌, ◌^◌, ◌<◌};
ghost use Rattle.least.specs.Least.{better};
ghost use Rattle.trellis.specs.Leasts.{Tells, told};

use std::cmp::Ordering;

// What the cheapest word costs, and whether no other word costs the same.
#[derive(Clone, Copy)]
pub struct Least {
    pub cost: u32,
    pub sole: bool,
}

// A least cost after something that has a price.
pub(crate) fn after(price: u32, least: Option<Least>) -> Option<Least>
    requires { price + (told least).0 < 2 ^ 32 }
    ensures { Tells result (price + (told least).0) (told least).1 }
{
    let Least { cost, sole } = least?;
    Some(Least {
        cost: price + cost,
        sole,
    })
}

// The cheaper of two least costs. Where there are no words, there is none.
pub(crate) fn cheaper(least: Option<Least>, other: Option<Least>) -> Option<Least>
    ensures { told result ≡ better (told least).0 (told least).1 (told other).0 (told other).1 }
{
    let Some(new) = other else {
        return least;
    };
    let Some(old) = least else {
        return other;
    };
    Some(match new.cost.cmp(&old.cost) {
        Ordering::Less => new,
        Ordering::Greater => old,
        Ordering::Equal => Least {
            cost: old.cost,
            sole: false,
        },
    })
}
