//! The posted commands, which only contracts use.
ghost use Rattle.std.specs.Prelude.{◌≡◌, [], ◌∷◌, ◌++◌};

use std::marker::Model;
use std::snapshot::Snapshot;
use uda_packet::Command;

/// The steps of a list of commands, the last first.
#[derive(Drop)]
enum Queue {
    Empty,
    Then(Snapshot<Queue>, Command),
}

/// Every command that was posted since initialization. It occupies no byte, and only contracts read it.
#[derive(Drop)]
pub(crate) struct PostedSoFar {
    queue: Snapshot<Queue>,
}

impl Model for PostedSoFar {
    ghost use Rattle.std.specs.Prelude.{List};
    ghost use Rattle.uda_packet.specs.declared.command.Command.{Command};
    ghost use Rattle.uda_host.specs.Posted.{posted_commands};

    ghost Value = { List Command };

    ghost view = { λ p. posted_commands p.queue.value };
}

impl PostedSoFar {
    /// Returns the empty list.
    pub(crate) fn new() -> PostedSoFar
        ensures { result ≡ [] }
    {
        PostedSoFar {
            queue: Snapshot::of(&Queue::Empty),
        }
    }

    /// Appends a command.
    pub(crate) fn push(&mut self, command: Command)
        ensures { self.new ≡ self.old ++ command ∷ [] }
    {
        let before = std::mem::replace(&mut self.queue, Snapshot::of(&Queue::Empty));
        self.queue = Snapshot::of(&Queue::Then(before, command));
    }
}
