//! A comparison of the driver and the in-order program, on random lists of requests and on the scripts of
//! such lists.
#![tactic(auto)]

#[cfg(test)]
mod tests;
