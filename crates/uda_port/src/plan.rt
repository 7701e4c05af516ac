//! What the next turn will do.
//!
//! UDA50 Programmer's Documentation Kit: command ring polling, message envelopes, fatal errors.
ghost use Rattle.std.specs.Prelude.{◌≡◌, ◌≤◌, IfSome, List, ℕ};
ghost use Rattle.uda_mem.specs.Slices.{IsMemory};
ghost use Rattle.uda_port.specs.MemoryUse.{AgreesInDescriptors};
ghost use Rattle.uda_port.specs.Plan.{HasShortText, IsPlan, next_size, plan_of, plan_running, plan_without_fetch};
ghost use Rattle.uda_port.specs.Plan.{looks_at_commands, looks_at_responses};
ghost use Rattle.uda_port.specs.Ring.{next_descriptor};
ghost use Rattle.uda_port.specs.Turn.{may_fetch};

use crate::descriptor::Descriptor;
use crate::phase::Phase;
use crate::port::Port;
use crate::ring::NextDescriptor;
use uda_image::BlockStore;

/// What the next turn will do, decided by the port and by the descriptors that it reads. The plan leaves open whether
/// the packet or the response buffer is usable.
#[derive(Clone, Copy, Debug, PartialEq, Eq)]
pub enum Plan {
    /// The port doesn't run, and does nothing.
    AtRest,
    /// The port looks for a command, but the next command descriptor isn't in memory: it fails.
    NoCommandRing,
    /// The port fetches the packet of this command descriptor.
    ToFetch(Descriptor),
    /// The port executes a pending command.
    ToExecute,
    /// No message waits: the port has nothing to do.
    NoMessage,
    /// A message waits, and the host owns the next response descriptor.
    ToWait,
    /// A message waits, but the next response descriptor isn't in memory: the port fails.
    NoResponseRing,
    /// The port delivers a message of this many bytes to the buffer of this response descriptor.
    ToDeliver(Descriptor, u16),
}

impl<S: BlockStore> Port<S> {
    /// Returns the plan of the next turn. Of memory only the descriptors matter. [`turn`](Port::turn) applies the same
    /// rules, inlined in its own steps.
    pub fn plan(&self, memory: &[u8]) -> Plan
        requires memory { IsMemory memory.now }
        ensures plan { IsPlan self.now memory.now result }
        ensures by_descriptors { (other : List ℕ) → AgreesInDescriptors self.now memory.now other
            → IsPlan self.now other result }
    {
        self.plan_in(memory)
    }

    // Returns the same, by the phase.
    fn plan_in(&self, memory: &[u8]) -> Plan
        requires memory { IsMemory memory.now }
        ensures plan { result ≡ plan_of self.now memory.now }
        ensures short { HasShortText result }
    {
        match self.phase {
            Phase::Running => self.running_plan(memory),
            _ => Plan::AtRest,
        }
    }

    // Returns whether the next turn looks at the command ring.
    pub(crate) fn looks_at_commands(&self) -> bool
        ensures looks { result ≡ looks_at_commands self.now }
    {
        match self.phase {
            Phase::Running => self.may_fetch(),
            _ => false,
        }
    }

    // Returns whether the next turn may look at the response ring: nothing is pending, and a message waits.
    pub(crate) fn looks_at_responses(&self) -> bool
        ensures looks { result ≡ looks_at_responses self.now }
    {
        match self.phase {
            Phase::Running => self.exec.pending() == 0 && self.next_size().is_some(),
            _ => false,
        }
    }

    // Returns the plan of a running port.
    fn running_plan(&self, memory: &[u8]) -> Plan
        requires memory { IsMemory memory.now }
        ensures plan { result ≡ plan_running (may_fetch self.now) (next_descriptor memory.now self.now.commands)
            (plan_without_fetch self.now memory.now) }
        ensures short { HasShortText result }
    {
        if !self.may_fetch() {
            return self.plan_without_fetch(memory);
        }
        match self.commands.next(memory) {
            NextDescriptor::OutsideMemory => Plan::NoCommandRing,
            NextDescriptor::OwnedByHost => self.plan_without_fetch(memory),
            NextDescriptor::OwnedByPort(next) => Plan::ToFetch(next),
        }
    }

    // Returns the plan of a running port that has nothing to fetch.
    fn plan_without_fetch(&self, memory: &[u8]) -> Plan
        requires memory { IsMemory memory.now }
        ensures plan { result ≡ plan_without_fetch self.now memory.now }
        ensures short { HasShortText result }
    {
        if self.exec.pending() > 0 {
            return Plan::ToExecute;
        }
        let Some(size) = self.next_size() else {
            return Plan::NoMessage;
        };
        match self.responses.next(memory) {
            NextDescriptor::OutsideMemory => Plan::NoResponseRing,
            NextDescriptor::OwnedByHost => Plan::ToWait,
            NextDescriptor::OwnedByPort(next) => Plan::ToDeliver(next, size),
        }
    }

    // Returns the number of bytes of the next message, or None if there is none.
    fn next_size(&self) -> Option<u16>
        ensures size { result ≡ next_size self.now }
        ensures short { IfSome result (λ n. n ≤ 48) }
    {
        match self.notice() {
            Some(notice) => Some(notice.message.size),
            None => Some(self.end_size(self.waiting.front()?)),
        }
    }
}
