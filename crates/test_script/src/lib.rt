//! The tests of the program, by its arguments and streams.
#![tactic(auto)]

#[cfg(test)]
mod tests;
