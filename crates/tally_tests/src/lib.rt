// Tallies on examples.
#![tactic(auto)]

#[cfg(test)]
mod tallies;
