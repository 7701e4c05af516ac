//! Turns, executions and fetches.
use crate::fault::CaseFault;
use crate::machine::{CaseMachine, CaseSubject};
use crate::op::{EndMessageLine, StatusAndNumbers, command, is_end_of};
use crate::step::Work;
use crate::words::Words;
use std::fmt::Write;
use uda_exec::PENDING;
use uda_port::{Fetched, Turn};

impl CaseMachine {
    /// Runs the port, the executor or the ring, and writes the result.
    pub fn run(
        &mut self,
        work: Work,
        words: &mut Words<'_>,
        wanted: usize,
        came: &mut String,
    ) -> Result<(), CaseFault> {
        match work {
            Work::Ip => {
                let value = self.subject.port()?.read_ip();
                write!(came, "{value:04x}")?;
                Ok(())
            }
            Work::Turn => self.turn(came),
            Work::Turns => self.turns(wanted, came),
            Work::Execute => self.execute(words, came),
            Work::Next => self.next(came),
            Work::Fetch => self.fetch(came),
            Work::Random => self.random(words, came),
            Work::Replay => self.replay(words, came),
            Work::Resume => self.resume(came),
        }
    }

    // Runs one turn, and writes it with its command or end message.
    fn turn(&mut self, came: &mut String) -> Result<(), CaseFault> {
        let trace = self.memory.turn(self.subject.port()?)?;
        write!(came, "{trace}")?;
        Ok(())
    }

    // Runs several turns, and writes their kinds.
    fn turns(&mut self, wanted: usize, came: &mut String) -> Result<(), CaseFault> {
        for _ in 0..wanted {
            let trace = self.memory.turn(self.subject.port()?)?;
            write!(came, "{} ", turn_name(trace.turn()))?;
            writeln!(self.turns, "    {trace}")?;
        }
        Ok(())
    }

    // Queues a command in the executor and executes it at once.
    fn execute(&mut self, words: &mut Words<'_>, came: &mut String) -> Result<(), CaseFault> {
        let command = command(words, 1)?;
        let exec = self.subject.executor()?;
        if exec.pending() >= PENDING {
            return Err(CaseFault::Full);
        }
        exec.accept(command);
        match self.memory.execute(exec)? {
            Some(end) if is_end_of(&end, &command) => write!(came, "{}", StatusAndNumbers(end))?,
            Some(end) => write!(came, "{}", EndMessageLine(end))?,
            None => came.push_str("none")?,
        }
        Ok(())
    }

    // Executes the command that the executor chooses.
    fn next(&mut self, came: &mut String) -> Result<(), CaseFault> {
        match self.memory.execute(self.subject.executor()?)? {
            Some(end) => write!(came, "{} {:04x}", end.reference, end.status)?,
            None => came.push_str("none")?,
        }
        Ok(())
    }

    // Fetches a packet from the ring.
    fn fetch(&mut self, came: &mut String) -> Result<(), CaseFault> {
        let CaseSubject::Ring(ring) = &mut self.subject else {
            return Err(CaseFault::Wanted("a ring before this line"));
        };
        match self.memory.fetch(ring)? {
            Ok(Some(packet)) => write_packet(&packet, came),
            Ok(None) => Ok(came.push_str("none")?),
            Err(fault) => Ok(write!(came, "{fault}")?),
        }
    }
}

fn turn_name(turn: Turn) -> &'static str {
    match turn {
        Turn::Fetched => "fetched",
        Turn::Executed => "executed",
        Turn::Delivered => "delivered",
        Turn::Notified => "notified",
        Turn::Idle => "idle",
        Turn::Dead => "dead",
    }
}

// Writes a packet: both words of its envelope, and the bytes of its text up to the last that isn't 0.
fn write_packet(packet: &Fetched, came: &mut String) -> Result<(), CaseFault> {
    let (length, second) = packet.words;
    write!(came, "{length:04x} {second:04x}")?;
    let mut count = 0;
    for (place, byte) in packet.text.iter().enumerate() {
        if *byte != 0 {
            count = place.saturating_add(1);
        }
    }
    for byte in packet.text.iter().take(count) {
        write!(came, " {byte:02x}")?;
    }
    Ok(())
}
