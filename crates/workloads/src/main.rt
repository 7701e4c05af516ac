//! The jobs that a user waits for, on inputs made from a seed. It prints a digest of all results, and no
//! times. `bench/run` compares the times of two builds by it.
//!
//! The arguments are a job, a seed below 2^32, and a number of rounds. Each round has inputs of its own, of
//! the same kinds and sizes. The jobs are:
//!
//! - `turns`: a guest's commands through the rings of a port, in turns over a slice;
//! - `requests`: lists of requests by a driver over images in memory;
//! - `scripts`: texts of requests, read from a stream;
//! - `rows`: blocks printed as rows in hexadecimal and in octal;
//! - `packets`: packets read from tokens and printed;
//! - `all`: each of them in turn.
#![tactic(auto)]

mod digest;
mod draw;
mod packets;
mod requests;
mod rows;
mod scripts;
mod turns;

use anyhow::{Result, bail};
use digest::Digest;
use draw::Draw;
use std::alloc::Global;
use std::env;

fn main(rt: HostRuntime) -> Result<()> {
    let owned: Vec<String> = env::args(&rt)?.skip(1).collect(rt.alloc())?;
    let words: Vec<&str> = owned.iter().map(|word| word.as_str()).collect(rt.alloc())?;
    let [job, seed, rounds] = words.as_slice() else {
        bail!("words: a job, a seed, a number of rounds");
    };
    let (seed, rounds) = (seed.parse::<u32>()?, rounds.parse::<u32>()?);
    for name in ["turns", "requests", "scripts", "rows", "packets"] {
        if *job == name || *job == "all" {
            let digest = digest_of(rt.alloc(), name, seed, rounds)?;
            println!(rt; "{name} {digest:016x}")?;
        }
    }
    Ok(())
}

// Runs a job, and returns the digest of its results.
fn digest_of(alloc: Global, job: &str, seed: u32, rounds: u32) -> Result<u64> {
    let mut draw = Draw::new(seed);
    let mut digest = Digest::new();
    match job {
        "turns" => turns::run(alloc, &mut draw, rounds, &mut digest)?,
        "requests" => requests::run(alloc, &mut draw, rounds, &mut digest)?,
        "scripts" => scripts::run(alloc, &mut draw, rounds, &mut digest)?,
        "rows" => rows::run(alloc, &mut draw, rounds, &mut digest)?,
        _ => packets::run(alloc, &mut draw, rounds, &mut digest)?,
    }
    Ok(digest.value())
}
