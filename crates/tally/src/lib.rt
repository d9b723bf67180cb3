// How many decodings were answered and how many were tied, and what the answered ones cost.
#![tactic(auto)]

ghost use Rattle.std.specs.Prelude.{◌+◌, ◌*◌, ◌≤◌};

pub mod counting;
pub mod telling;

// No more than a thousand million decodings are counted, and none costs more than 24 places of
// 65535 each, which is 1572840. So no sum leaves its type, nor does the noise figure's product.
#[derive(Clone, Copy, Debug, PartialEq, Eq)]
pub struct Tally {
    answered: u32,
    tied: u32,
    cost: u64,
    ghost few: { answered + tied ≤ 1000000000 },
    ghost small: { cost ≤ 1572840 * answered },
}
