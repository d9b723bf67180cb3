// What is read of lines and words, and printed of words, on examples.
#![tactic(auto)]

#[cfg(test)]
mod commands;
#[cfg(test)]
mod words;
