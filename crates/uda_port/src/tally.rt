//! Counts that only contracts use. They occupy no byte at run time.
ghost use Rattle.std.specs.Prelude.{◌≡◌, ◌+◌};

use std::marker::Model;
use std::snapshot::Snapshot;

/// The steps of a count, the latest first.
#[derive(Drop)]
enum Count {
    Zero,
    Next(Snapshot<Count>, usize),
}

/// A natural number without a bound. Only contracts read it, and it occupies no byte.
#[derive(Drop)]
pub(crate) struct Tally {
    count: Snapshot<Count>,
}

impl Model for Tally {
    ghost use Rattle.std.specs.Prelude.{ℕ};
    ghost use Rattle.uda_port.specs.Count.{count_of};

    ghost Value = { ℕ };

    ghost view = { λ t. count_of t.count.value };
}

impl Tally {
    /// Returns the count 0.
    pub(crate) fn new() -> Tally
        ensures { result ≡ 0 }
    {
        Tally {
            count: Snapshot::of(&Count::Zero),
        }
    }

    /// Returns this count.
    pub(crate) fn of(count: usize) -> Tally
        ensures { result ≡ count }
    {
        let mut tally = Tally::new();
        tally.add(count);
        tally
    }

    /// Adds `amount`.
    pub(crate) fn add(&mut self, amount: usize)
        ensures { self.new ≡ self.old + amount }
    {
        let before = std::mem::replace(&mut self.count, Snapshot::of(&Count::Zero));
        self.count = Snapshot::of(&Count::Next(before, amount));
    }
}
