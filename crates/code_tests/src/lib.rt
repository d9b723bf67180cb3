// Drafts, codes and what they are made of, on examples.
#![tactic(auto)]

#[cfg(test)]
mod decodings;
#[cfg(test)]
mod edges;
#[cfg(test)]
mod examples;
#[cfg(test)]
mod readings;
#[cfg(test)]
mod reduction;
#[cfg(test)]
mod refusals;
#[cfg(test)]
mod samples;
