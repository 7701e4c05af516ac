//! The visible state of a port, an executor or a ring.
use crate::fault::CaseFault;
use crate::machine::{CaseMachine, CaseSubject, NO_UNITS};
use crate::step::Sight;
use std::fmt::Write;
use uda_port::{Phase, Profile, Ring};

impl CaseMachine {
    /// Writes the visible state.
    pub fn show(&mut self, sight: Sight, came: &mut String) -> Result<(), CaseFault> {
        match sight {
            Sight::Load => self.load(came),
            Sight::Debug => self.debug(came),
            Sight::Commands => self.commands(came),
            Sight::Interrupt => self.interrupt(came),
            _ => self.port_sight(sight, came),
        }
    }

    // Writes the visible state that only a port has.
    fn port_sight(&mut self, sight: Sight, came: &mut String) -> Result<(), CaseFault> {
        let port = self.subject.port()?;
        match sight {
            Sight::Sa => write!(came, "{:04x}", port.read_sa())?,
            Sight::Phase => write_phase(port.phase(), came)?,
            Sight::Cause => write_cause(port.phase(), came)?,
            Sight::Looking => came.push_str(if port.is_polling() { "yes" } else { "no" })?,
            Sight::Credits => write!(came, "{}", port.credits())?,
            Sight::Profile => came.push_str(match port.profile() {
                Profile::Strict => "strict",
                Profile::Compatible(_) => "guests",
            })?,
            _ => write_ring(port.responses(), came)?,
        }
        Ok(())
    }

    // Takes the pending request and writes its vector; and that of a second one, if there were one.
    fn interrupt(&mut self, came: &mut String) -> Result<(), CaseFault> {
        let port = self.subject.port()?;
        match port.take_interrupt() {
            Some(vector) => write!(came, "{vector:04x}")?,
            None => came.push_str("none")?,
        }
        if let Some(vector) = port.take_interrupt() {
            write!(came, " {vector:04x}")?;
        }
        Ok(())
    }

    // Writes the number of pending commands and of queued end messages.
    fn load(&mut self, came: &mut String) -> Result<(), CaseFault> {
        match &self.subject {
            CaseSubject::Port(port) => write!(came, "{} {}", port.pending(), port.waiting())?,
            CaseSubject::Executor(exec) => write!(came, "{}", exec.pending())?,
            _ => return Err(NO_UNITS),
        }
        Ok(())
    }

    fn debug(&mut self, came: &mut String) -> Result<(), CaseFault> {
        match &self.subject {
            CaseSubject::Port(port) => write!(came, "{port:?}")?,
            CaseSubject::Executor(exec) => write!(came, "{exec:?}")?,
            _ => return Err(NO_UNITS),
        }
        Ok(())
    }

    // Writes the command ring.
    fn commands(&mut self, came: &mut String) -> Result<(), CaseFault> {
        match &self.subject {
            CaseSubject::Port(port) => write_ring(port.commands(), came),
            CaseSubject::Ring(ring) => write_ring(*ring, came),
            _ => Err(CaseFault::Wanted("a port or a ring before this line")),
        }
    }
}

/// Writes the phase of a port.
pub fn write_phase(phase: Phase, came: &mut String) -> Result<(), CaseFault> {
    came.push_str(match phase {
        Phase::Step1 => "step1",
        Phase::Step2 { .. } => "step2",
        Phase::Step3 { .. } => "step3",
        Phase::Wrap { .. } => "wrap",
        Phase::PurgeTest => "purge",
        Phase::PollTest => "poll",
        Phase::Step4 => "step4",
        Phase::Running => "running",
        Phase::Dead { .. } => "dead",
    })?;
    if let Phase::Dead { cause } = phase {
        write!(came, " {}", cause.code())?;
    }
    Ok(())
}

// Writes the cause of a dead port's fatal error.
fn write_cause(phase: Phase, came: &mut String) -> Result<(), CaseFault> {
    match phase {
        Phase::Dead { cause } => write!(came, "{cause}")?,
        _ => came.push_str("none")?,
    }
    Ok(())
}

// Writes a ring: its base, its number of descriptors, and its next index.
fn write_ring(ring: Ring, came: &mut String) -> Result<(), CaseFault> {
    write!(came, "{:x} {} {}", ring.base(), ring.count(), ring.place())?;
    Ok(())
}
