// Receptions on examples, at their edges and in piles.
#![tactic(auto)]

#[cfg(test)]
mod even;
#[cfg(test)]
mod layers;
#[cfg(test)]
mod piles;
#[cfg(test)]
mod spans;
