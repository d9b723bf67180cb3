// Compares decoding, coset leaders and the minimum distance with an exhaustive enumeration, over
// hundreds of codes of each field, and tells how much was compared.
#![tactic(auto)]

use field::{Field, Four, Sixteen, Three, Two};
use std::io;
use sweeping::Sweep;

mod counts;
mod decodings;
mod distances;
mod drawing;
mod kept;
mod leaders;
mod least_cost;
mod sample;
mod shape;
mod subject;
mod sweeping;
mod words;

// Sweeps over a field, and prints how much was compared.
fn sweep<F: Field>(rt: &HostRuntime, longest: usize, samples: usize) -> io::Result<()> {
    let mut sweep = Sweep::new(samples);
    sweep.compare_field::<F>(rt, longest)?;
    let order = F::order();
    let counts = sweep.counts;
    println!(rt; "order {order}: {counts}")
}

// A difference ends the run with an error.
fn main(rt: HostRuntime) -> io::Result<()> {
    sweep::<Two>(&rt, 8, 10)?;
    sweep::<Three>(&rt, 6, 12)?;
    sweep::<Four>(&rt, 6, 12)?;
    sweep::<Sixteen>(&rt, 4, 20)?;
    println!(rt; "all agree")
}
