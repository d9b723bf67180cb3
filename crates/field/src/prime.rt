// The fields of a prime number of symbols, whose arithmetic is by remainder.
ghost use Rattle.std.specs.Prelude.{◌≡◌, ◌==◌};
ghost use Rattle.field.specs.Field.{Laws};
ghost use Rattle.field.specs.Remainders.{remainders};
ghost use Rattle.field.specs.RemainderLaws.{two_laws, three_laws};

use crate::Field;

// The numbers below P, with the remainder by P of each sum and product. They are a field where P is prime.
#[derive(Clone, Copy)]
pub struct Remainders<const P: u8>;

// What a prime P brings: the numbers below it are a field.
pub(crate) trait Prime<const P: u8> {
    ghost laws: { Laws (remainders P) };
}

// The field of two symbols.
pub type Two = Remainders<2>;

// Its one value, by the same name.
pub const Two: Two = Remainders;

impl Prime<2> for Two {
    ghost laws = { two_laws };
}

// The field of three symbols.
pub type Three = Remainders<3>;

// Its one value, by the same name.
pub const Three: Three = Remainders;

impl Prime<3> for Three {
    ghost laws = { three_laws };
}

// There are at most 16 symbols, so their sums and products fit a byte.
impl<const P: u8> Field for Remainders<P>
where
    Self: Prime<P>,
{
    ghost ops = { remainders P };

    ghost laws = { ⟦<Self as Prime<P>>⟧.laws };

    fn order() -> u8 {
        P
    }

    fn sum(a: u8, b: u8) -> u8 {
        if a < P && b < P { (a + b) % P } else { 0 }
    }

    fn negative(a: u8) -> u8 {
        if a < P { (P - a) % P } else { 0 }
    }

    fn product(a: u8, b: u8) -> u8 {
        if a < P && b < P { (a * b) % P } else { 0 }
    }

    // Tries every symbol, from the greatest down, since there are few.
    fn inverse(a: u8) -> u8 {
        let gives_one = |x: &u8| -> bool
            ensures { result ≡ ((remainders P).product a x.entry.now == 1) }
        { Self::product(a, *x) == 1 };
        (0..P).rev().find(gives_one).unwrap_or(0)
    }
}
