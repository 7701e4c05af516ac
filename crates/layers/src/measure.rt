//! Two ways of executing the same work, and their times.
use anyhow::Result;
use std::time::{CpuClock, Duration};

/// The same work, executed in two ways.
pub trait Contest {
    /// Executes the work in the measured way.
    fn measured(&mut self) -> Result<()>;

    /// Executes the work in the other way.
    fn compared(&mut self) -> Result<()>;
}

/// Runs this many rounds of the two by turns. A round prints the processor time of both.
pub fn by_turns<C: Contest>(rt: &HostRuntime, pair: &mut C, rounds: u32) -> Result<()> {
    for _ in 0..rounds {
        round(rt, pair)?;
    }
    Ok(())
}

fn round<C: Contest>(rt: &HostRuntime, pair: &mut C) -> Result<()> {
    let start = processor_time(rt)?;
    pair.measured()?;
    let middle = processor_time(rt)?;
    pair.compared()?;
    report(rt, start, middle, processor_time(rt)?)
}

fn processor_time(rt: &HostRuntime) -> Result<Duration> {
    Ok(rt.process_cpu_time()?)
}

// Prints the processor time of both, in nanoseconds.
fn report(rt: &HostRuntime, start: Duration, middle: Duration, end: Duration) -> Result<()> {
    let measured = middle.saturating_sub(start).as_nanos();
    let compared = end.saturating_sub(middle).as_nanos();
    println!(rt; "{measured} {compared}")?;
    Ok(())
}
