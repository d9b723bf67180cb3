// Finite fields of 2 to 16 symbols, as one trait with its laws, and the fields that are built.
#![tactic(auto)]

ghost use Rattle.std.specs.Prelude.{◌≡◌};
ghost use Rattle.field.specs.Field.{Ops, Laws};

mod binary;
mod prime;

pub use binary::{Four, Sixteen};
pub use prime::{Three, Two};

// A finite field. Its symbols are the numbers 0 to `order` - 1; 0 is zero and 1 is one.
// `ops` says what each call answers, for every number, and `laws` that this is a field.
pub trait Field {
    ghost ops: { Ops };

    ghost laws: { Laws ops };

    fn order() -> u8
        ensures { result ≡ ops.order };

    fn sum(a: u8, b: u8) -> u8
        ensures { result ≡ ops.sum a b };

    fn negative(a: u8) -> u8
        ensures { result ≡ ops.negative a };

    fn product(a: u8, b: u8) -> u8
        ensures { result ≡ ops.product a b };

    fn inverse(a: u8) -> u8
        ensures { result ≡ ops.inverse a };
}
