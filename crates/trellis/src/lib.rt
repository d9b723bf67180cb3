// The cheapest words of a coset, by a dynamic programme over the places of a word.
#![tactic(auto)]

mod branch;
mod code_trellis;
mod coset;
mod cost;
mod row;
mod scratch;
mod section;
mod shape;
mod steps;
mod table;
mod weight;

pub use coset::cheapest;
pub use cost::Least;
pub use shape::check_room;
pub use weight::{lightest, weights};
