// The steps from state to state at a place. A state is a partial syndrome as a number, and a symbol
// moves each of its digits by the symbol that a check row has at the place: these symbols, row by row,
// are the place's column.
ghost use Rattle.std.specs.Prelude.{◌≡◌, ℕ, ◌+◌, ◌*◌, ◌^◌, ◌<◌, ◌≤◌, length, slice_index};
ghost use Rattle.trellis.specs.Steps.{Spread, Widened, Tabulated, stepped};

use field::Field;

// Where the symbol x takes one state, digit by digit from the last.
pub(crate) fn step<F: Field>(column: &[u8], state: usize, x: u8) -> usize
    requires { F.Field.ops.order ^ length column.now ≤ 4096 }
    ensures value { result ≡ stepped F.Field.ops column.now state x }
    ensures below { result < F.Field.ops.order ^ length column.now }
{
    let q = F::order() as usize;
    let mut rest = state;
    let mut unit = 1;
    let mut to = 0;
    for &check in column.iter().rev() {
        let added = F::product(x, check);
        to += F::sum((rest % q) as u8, added) as usize * unit;
        rest /= q;
        unit *= q;
    }
    to
}

// Writes the steps of the states that have one digit more than some state, which moved to `base`.
fn spread<F: Field>(out: &mut [u16], base: u16, added: u8, unit: u16)
    requires one_digit { length out.old ≤ F.Field.ops.order }
    requires small { base + F.Field.ops.order * unit ≤ 4096 }
    ensures { Spread F.Field.ops base added unit out.new }
{
    for (y, to) in out.iter_mut().enumerate() {
        *to = base + F::sum(y as u8, added) as u16 * unit;
    }
}

// From the steps of `count` states to those of the states that have one digit more. The last state
// comes first, so that none is written over before it is used; each is read in one place and written
// in others, so that the loop goes by its number.
fn widen<F: Field>(out: &mut [u16], count: usize, added: u8, unit: u16)
    requires room { count * F.Field.ops.order ≤ length out.old }
    requires small { (u : ℕ) → u < count → slice_index out.old u * F.Field.ops.order + F.Field.ops.order * unit ≤ 4096 }
    ensures { Widened F.Field.ops count added unit out.old out.new }
{
    let q = F::order() as usize;
    for u in (0..count).rev() {
        let base = out[u] * q as u16;
        spread::<F>(&mut out[u * q..u * q + q], base, added, unit);
    }
}

// Writes where the symbol x takes the states of a column's digits, each times `unit`.
pub(crate) fn tabulate<F: Field>(column: &[u8], x: u8, unit: u16, out: &mut [u16])
    requires room { F.Field.ops.order ^ length column.now ≤ length out.old }
    requires small { F.Field.ops.order ^ length column.now * unit ≤ 4096 }
    ensures { Tabulated F.Field.ops column.now x unit out.new }
{
    out[0] = 0;
    let mut count = 1;
    for &check in column {
        widen::<F>(out, count, F::product(x, check), unit);
        count *= F::order() as usize;
    }
}
