// Linear algebra in code, generic over the field, on lent slices of symbols.
#![tactic(auto)]

pub mod elimination;
pub mod rows;
