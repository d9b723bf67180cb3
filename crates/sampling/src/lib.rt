// What samples are drawn and checked with: numbers that look random, and inner products.
#![tactic(auto)]

mod numbers;
mod products;

pub use numbers::Numbers;
pub use products::inner_product;
