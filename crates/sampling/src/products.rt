// The inner product of two words.
ghost use Rattle.std.specs.Prelude.{◌≡◌, length, min, slice_index};
ghost use Rattle.algebra.specs.Words.{total};

use field::Field;

// The sum of the products of two words, place by place, as far as both go.
pub fn inner_product<F: Field>(a: &[u8], b: &[u8]) -> u8
    ensures { result ≡ total F.Field.ops (λ p. F.Field.ops.product (slice_index a.now p) (slice_index b.now p)) (min (length a.now) (length b.now)) }
{
    a.iter()
        .zip(b)
        .fold(0, |sum, (x, y)| F::sum(sum, F::product(*x, *y)))
}
