//! The tests of the class driver, by its public calls.
#![tactic(auto)]

#[cfg(test)]
mod tests;
