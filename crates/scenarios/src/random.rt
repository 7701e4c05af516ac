//! Random hosts: random events applied to a port, and checks that every fatal error is allowed.
ghost use Rattle.std.specs.Prelude.{◌<◌};

use crate::fault::CaseFault;
use crate::machine::CaseMachine;
use crate::sight::write_phase;
use crate::words::Words;
use std::fmt::Write;
use uda_port::{Fatal, HostEvent, Phase};

/// The words of initialization with rings of 8 descriptors from the address 8 on.
const START_UP: [u16; 4] = [0x9b00, 0x0008, 0x0000, 0x0001];

/// More fatal errors and more busy turns than this must occur.
const ENOUGH: u32 = 20;

/// A random host, the same for each seed. It mostly follows the rules.
#[derive(Drop)]
struct RandomHost {
    // a linear congruential generator
    state: u64,
    // The next word of initialization; none from 4 on.
    words: usize,
}

impl RandomHost {
    fn new(seed: u32) -> RandomHost {
        RandomHost {
            state: u64::from(seed),
            words: 4,
        }
    }

    fn below(&mut self, bound: u16) -> u16
        requires { 0 < bound }
        ensures { result < bound }
    {
        self.state = self
            .state
            .wrapping_mul(6_364_136_223_846_793_005)
            .wrapping_add(1_442_695_040_888_963_407);
        ((self.state >> 33) % u64::from(bound)) as u16
    }

    fn event(&mut self) -> HostEvent {
        if let Some(&word) = START_UP.get(self.words) {
            self.words += 1;
            return HostEvent::WriteSa(word);
        }
        let i = self.below(16);
        match self.below(100) {
            0 => {
                self.words = 0;
                HostEvent::WriteIp
            }
            1 => HostEvent::WriteIp,
            2..=4 => HostEvent::WriteSa(self.below(65_535)),
            5..=12 => HostEvent::ReadIp,
            choice @ 13..=63 => self.word(i, choice),
            _ => HostEvent::Turn,
        }
    }

    // Returns a write of a word of memory: mostly of a descriptor or a packet.
    fn word(&mut self, i: u16, choice: u16) -> HostEvent {
        let at = u32::from(i);
        let (address, word) = match choice {
            0..=27 => (
                8u32.saturating_add(4 * at),
                0x104u16.saturating_add(i.saturating_mul(64)),
            ),
            28..=42 => (10u32.saturating_add(4 * at), 0x8000),
            43..=57 => (0x100u32.saturating_add(64 * at), 48),
            58..=62 => (0x10cu32.saturating_add(64 * at), self.below(40)),
            _ => (4 * u32::from(self.below(60_000)), self.below(65_535)),
        };
        HostEvent::Word { address, word }
    }
}

// Returns whether the port may have these phases before and after an event.
fn is_lawful(before: Phase, event: HostEvent, after: Phase) -> bool {
    match (before, after) {
        (Phase::Dead { cause }, Phase::Dead { cause: still }) => {
            cause == still && event != HostEvent::WriteIp
        }
        (Phase::Dead { .. }, _) => event == HostEvent::WriteIp && after == Phase::Step1,
        (
            _,
            Phase::Dead {
                cause: Fatal::InitializationError | Fatal::RingWrite,
            },
        ) => event != HostEvent::Turn && before != Phase::Running,
        (_, Phase::Dead { .. }) => event == HostEvent::Turn && before == Phase::Running,
        (_, _) => true,
    }
}

impl CaseMachine {
    /// Applies a number of random events of a seed one by one, and writes whether all phases were allowed.
    pub fn random(&mut self, words: &mut Words<'_>, came: &mut String) -> Result<(), CaseFault> {
        let mut host = RandomHost::new(words.address()?);
        let (mut deaths, mut busy) = (0u32, 0u32);
        for number in 0..words.number()? {
            let event = host.event();
            let before = self.subject.port()?.phase();
            let after = self.play_one(event)?;
            if !is_lawful(before, event, after) {
                write!(came, "event {number} is unlawful")?;
                return Ok(());
            }
            if after != before && matches!(after, Phase::Dead { .. }) {
                deaths = deaths.saturating_add(1);
            }
            if event == HostEvent::Turn && self.is_busy()? {
                busy = busy.saturating_add(1);
            }
        }
        self.played = Some(self.subject.port()?.phase());
        if deaths > ENOUGH && busy > ENOUGH {
            came.push_str("lawful")?;
        } else {
            write!(came, "{deaths} deaths and {busy} busy turns")?;
        }
        Ok(())
    }

    // Applies an event, and returns the port's phase if SA shows it.
    fn play_one(&mut self, event: HostEvent) -> Result<Phase, CaseFault> {
        let port = self.subject.port()?;
        let sa = self.memory.play(port, &[event])?;
        let phase = port.phase();
        if sa == port.read_sa() {
            Ok(phase)
        } else {
            Err(CaseFault::Wanted("an SA that shows the phase"))
        }
    }

    fn is_busy(&mut self) -> Result<bool, CaseFault> {
        let port = self.subject.port()?;
        Ok(port.pending() > 0 || port.waiting() > 0)
    }

    /// Applies the same events in one call, and writes whether the port's phase is the one after the last
    /// random events.
    pub fn replay(&mut self, words: &mut Words<'_>, came: &mut String) -> Result<(), CaseFault> {
        let mut host = RandomHost::new(words.address()?);
        let mut events = Vec::new(self.alloc);
        for _ in 0..words.number()? {
            events.push(host.event())?;
        }
        let port = self.subject.port()?;
        self.memory.play(port, &events)?;
        if self.played == Some(port.phase()) {
            return Ok(came.push_str("same")?);
        }
        write_phase(port.phase(), came)
    }
}
