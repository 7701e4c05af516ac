//! The library's calls that allocate. Each is between two lines of its own, `begun` and `ended`. So a test
//! that makes one allocation fail knows the call in which it fails. After a failure a line says so. Then
//! the program prints the same as with enough memory: the values that the call was given, or the same call
//! again.
#![tactic(auto)]

mod counting;
mod run;
mod script;
mod start;
mod tell;

use anyhow::Result;

fn main(rt: HostRuntime) -> Result<()> {
    start::port(&rt)?;
    start::driver(&rt)?;
    run::more_than_eight(&rt)?;
    script::fill_and_read(&rt)
}
