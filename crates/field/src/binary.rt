// The fields of 4 and 16 symbols, which stand for polynomials over the field of two symbols:
// bit i of a symbol is the coefficient of αⁱ.
ghost use Rattle.std.specs.Prelude.{◌≡◌, ℕ, ◌^◌, refl};
ghost use Rattle.field.specs.Field.{Laws};
ghost use Rattle.field.specs.Polynomials.{polynomials};
ghost use Rattle.field.specs.PolynomialLaws.{four_laws, sixteen_laws};
ghost use Rattle.field.specs.Tables.{row, table};

use crate::Field;

// The field of N symbols, where α to the power of their number of bits is α + 1, which is the symbol 3.
#[derive(Clone, Copy)]
pub struct Polynomials<const N: usize>;

// What the field of N symbols is computed from: its tables, which are those of the formula.
pub(crate) trait Tables<const N: usize> {
    // How many bits a symbol has.
    ghost digits: { ℕ };

    ghost size: { N ≡ 2 ^ digits };

    ghost laws: { Laws (polynomials digits 3) };

    // Row a has the products of a with 0 to N - 1.
    fn products() -> &'static [[u8; N]; N]
        ensures { let f = polynomials digits 3 in result.now ≡ table f.product f.order };

    // At place a stands the inverse of a. 0 has none, and stands with 0.
    fn inverses() -> &'static [u8; N]
        ensures { let f = polynomials digits 3 in result.now ≡ row f.inverse f.order };
}

// The field of four symbols, where α² = α + 1.
pub type Four = Polynomials<4>;

// Its one value, by the same name.
pub const Four: Four = Polynomials;

impl Tables<4> for Four {
    ghost digits = { 2 };

    ghost size = { refl };

    ghost laws = { four_laws };

    fn products() -> &'static [[u8; 4]; 4] {
        &[[0, 0, 0, 0], [0, 1, 2, 3], [0, 2, 3, 1], [0, 3, 1, 2]]
    }

    fn inverses() -> &'static [u8; 4] {
        &[0, 1, 3, 2]
    }
}

// The field of sixteen symbols, where α⁴ = α + 1.
pub type Sixteen = Polynomials<16>;

// Its one value, by the same name.
pub const Sixteen: Sixteen = Polynomials;

impl Tables<16> for Sixteen {
    ghost digits = { 4 };

    ghost size = { refl };

    ghost laws = { sixteen_laws };

    fn products() -> &'static [[u8; 16]; 16] {
        &[
            [0, 0, 0, 0, 0, 0, 0, 0, 0, 0, 0, 0, 0, 0, 0, 0],
            [0, 1, 2, 3, 4, 5, 6, 7, 8, 9, 10, 11, 12, 13, 14, 15],
            [0, 2, 4, 6, 8, 10, 12, 14, 3, 1, 7, 5, 11, 9, 15, 13],
            [0, 3, 6, 5, 12, 15, 10, 9, 11, 8, 13, 14, 7, 4, 1, 2],
            [0, 4, 8, 12, 3, 7, 11, 15, 6, 2, 14, 10, 5, 1, 13, 9],
            [0, 5, 10, 15, 7, 2, 13, 8, 14, 11, 4, 1, 9, 12, 3, 6],
            [0, 6, 12, 10, 11, 13, 7, 1, 5, 3, 9, 15, 14, 8, 2, 4],
            [0, 7, 14, 9, 15, 8, 1, 6, 13, 10, 3, 4, 2, 5, 12, 11],
            [0, 8, 3, 11, 6, 14, 5, 13, 12, 4, 15, 7, 10, 2, 9, 1],
            [0, 9, 1, 8, 2, 11, 3, 10, 4, 13, 5, 12, 6, 15, 7, 14],
            [0, 10, 7, 13, 14, 4, 9, 3, 15, 5, 8, 2, 1, 11, 6, 12],
            [0, 11, 5, 14, 10, 1, 15, 4, 7, 12, 2, 9, 13, 6, 8, 3],
            [0, 12, 11, 7, 5, 9, 14, 2, 10, 6, 1, 13, 15, 3, 4, 8],
            [0, 13, 9, 4, 1, 12, 8, 5, 2, 15, 11, 6, 3, 14, 10, 7],
            [0, 14, 15, 1, 13, 3, 2, 12, 9, 7, 6, 8, 4, 10, 11, 5],
            [0, 15, 13, 2, 9, 6, 4, 11, 1, 14, 12, 3, 8, 7, 5, 10],
        ]
    }

    fn inverses() -> &'static [u8; 16] {
        &[0, 1, 9, 14, 13, 11, 7, 6, 15, 2, 12, 5, 10, 4, 3, 8]
    }
}

// A number that is no symbol has no place in the tables, and gives 0 there as in a sum.
impl<const N: usize> Field for Polynomials<N>
where
    Self: Tables<N>,
{
    ghost ops = { polynomials ⟦<Self as Tables<N>>⟧.digits 3 };

    ghost laws = { ⟦<Self as Tables<N>>⟧.laws };

    fn order() -> u8 {
        N as u8
    }

    fn sum(a: u8, b: u8) -> u8 {
        if a < Self::order() && b < Self::order() {
            a ^ b
        } else {
            0
        }
    }

    // The sum of a symbol with itself is 0, so each is its own negative.
    fn negative(a: u8) -> u8 {
        if a < Self::order() { a } else { 0 }
    }

    fn product(a: u8, b: u8) -> u8 {
        if a < Self::order() && b < Self::order() {
            Self::products()[usize::from(a)][usize::from(b)]
        } else {
            0
        }
    }

    fn inverse(a: u8) -> u8 {
        if a < Self::order() {
            Self::inverses()[usize::from(a)]
        } else {
            0
        }
    }
}
