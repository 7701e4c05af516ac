//! The tests of the printed forms and of the packets of texts, on many made inputs and streams: each is compared with
//! a slower form.
#![tactic(auto)]

#[cfg(test)]
mod tests;
