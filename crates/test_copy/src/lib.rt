//! The tests of a copy of the unfinished blocks of a range, by its public calls.
#![tactic(auto)]

#[cfg(test)]
mod tests;
