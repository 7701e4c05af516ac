//! Tests of the lower crates, by their public calls: host memory, messages, images, the executor and the port. Most
//! cases of the executor and the port are scenarios, in the crate `scenarios`. Here are those over files, callers for
//! any store, what such callers prove, and a port whose allocation fails.
#![tactic(auto)]

#[cfg(test)]
mod tests;
