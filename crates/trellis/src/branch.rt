// Branches: what one symbol does at a place.
// What the symbol costs, and where it leads: from a state the sum of two numbers, one by the upper half
// of the state's digits and one by the lower half. Both halves have few states, so that they are
// tabulated once for each place.
#[derive(Clone, Copy)]
pub(crate) struct Branch {
    pub(crate) price: u32,
    pub(crate) high: [u16; 256],
    pub(crate) low: [u16; 64],
}
