//! Turns of a port over memory through map registers, and words that are written to its SA.
ghost use Rattle.std.specs.Prelude.{◌≡◌, ◌↔◌, ◌%◌, ◌^◌, ◌<◌, ◌≤◌, [], ◌∷◌, All, length, IsTrue, true};
ghost use Rattle.std.specs.Prelude.{IsOk, IfOk, IfErr};
ghost use Rattle.uda_mem.specs.Put.{part};
ghost use Rattle.uda_mem.specs.Ranges.{LiesIn, SameIn, carried};
ghost use Rattle.uda_mem.specs.Slices.{IsMemory};
ghost use Rattle.uda_disk.specs.Units.{AreWellFormed};
ghost use Rattle.uda_exec.specs.BlockChanges.{ChangesOnly};
ghost use Rattle.uda_exec.specs.Disks.{PENDING_LIMIT};
ghost use Rattle.uda_port.specs.BlockUse.{blocks_of, block_bytes_of};
ghost use Rattle.uda_port.specs.MemoryUse.{command_range, response_range, AgreesInDescriptors};
ghost use Rattle.uda_port.specs.Port.{CreditsAgree};
ghost use Rattle.uda_port.specs.Trace.{Traces, turn_of};
ghost use Rattle.uda_bus.specs.Bytes.{stored, AllLead};
ghost use Rattle.uda_bus.specs.Turns.{bus_memory, body_read, stored_ranges, IsBegun, TurnsAsBegun, TurnsThroughMap, WritesSaThroughMap, KeepsBytes};
ghost use Rattle.uda_bus.specs.Turns.{TellsMissing};

use crate::map::BusMap;
use std::alloc::Global;
use std::marker::Model;
use uda_image::BlockStore;
use uda_mem::{ByteRange, NoMemory};
use uda_port::{Body, BusTurn, Missing, Port, Trace, Turn};

/// The memory of a bus as a port sees it for a turn: as many bytes as the bus has addresses.
#[derive(Debug, Drop)]
pub struct Window {
    bytes: Vec<u8>,
}

impl Model for Window {
    ghost use Rattle.std.specs.Prelude.{List, ℕ};
    ghost use Rattle.uda_mem.specs.Slices.{IsMemory};

    ghost Value = { List ℕ };

    ghost view = { λ w. w.bytes.items };

    ghost invariant = { λ w. IsMemory w.bytes.items };
}

impl Window {
    /// Returns a window of no bytes.
    pub fn new(alloc: Global) -> Window
        ensures none { length result ≡ 0 }
    {
        Window {
            bytes: Vec::new(alloc),
        }
    }

    /// Makes the window as long as a bus of `size` addresses. `size` is even and at most
    /// [`SLICE_LIMIT`](uda_mem::SLICE_LIMIT). Does nothing if the window has that length already.
    ///
    /// Fails with [`NoMemory`] and changes nothing if `alloc` cannot allocate the bytes.
    pub fn fit(&mut self, alloc: Global, size: u32) -> Result<(), NoMemory>
        requires even { size % 2 ≡ 0 }
        requires within { size ≤ 2 ^ 22 }
        ensures fits { IfOk result (λ _. length self.new ≡ size) }
        ensures unchanged { IfErr result (λ _. self.new ≡ self.old) }
        ensures ready { length self.old ≡ size → IsOk result }
        ensures same { length self.old ≡ size → self.new ≡ self.old }
    {
        if self.bytes.len() != size as usize {
            self.bytes = Vec::from_elem(alloc, 0, size as usize)?;
        }
        Ok(())
    }
}

impl BusMap<'_> {
    /// Runs one turn of a port over memory through these map registers. The bus has as many addresses as the
    /// window has bytes, and nothing else in the window matters.
    ///
    /// What the turn reads is read from the bus first: the descriptors of the rings at which it looks, and a packet
    /// or a buffer, but not a Read's. What it wrote is then written to the bus in its order. A descriptor, packet or
    /// buffer with an address that leads nowhere is as at the end of memory.
    ///
    /// UDA50 Programmer's Documentation Kit: command ring polling, UNIBUS addresses.
    pub fn turn<S: BlockStore>(
        &self,
        port: &mut Port<S>,
        memory: &mut [u8],
        window: &mut Window,
        trace: &mut Trace,
    ) -> Turn
        ensures effect { TurnsThroughMap self.now (length window.old) (port.old, memory.old) result
            (port.new, memory.new) }
        ensures turn { result ≡ turn_of trace.new }
        ensures accurate { Traces trace.new port.old port.new }
        ensures credits { CreditsAgree port.new }
        ensures four_units { length port.new.exec.units ≡ 4 }
        ensures well_formed { AreWellFormed port.new.exec.units }
        ensures window { length window.new ≡ length window.old }
        ensures length { length memory.new ≡ length memory.old }
    {
        self.turn_in(port, memory, window.bytes.as_mut_slice(), trace)
    }

    // Does the same over the bytes of a window.
    fn turn_in<S: BlockStore>(
        &self,
        port: &mut Port<S>,
        memory: &mut [u8],
        window: &mut [u8],
        trace: &mut Trace,
    ) -> Turn
        requires window { IsMemory window.old }
        ensures effect { TurnsThroughMap self.now (length window.old) (port.old, memory.old) result
            (port.new, memory.new) }
        ensures turn { result ≡ turn_of trace.new }
        ensures accurate { Traces trace.new port.old port.new }
        ensures credits { CreditsAgree port.new }
        ensures four_units { length port.new.exec.units ≡ 4 }
        ensures well_formed { AreWellFormed port.new.exec.units }
        ensures window { length window.new ≡ length window.old }
        ensures length { length memory.new ≡ length memory.old }
    {
        let bus = self.begin(port, memory, window);
        self.end(port, memory, window, &bus, trace)
    }

    /// Reads into a window what the next turn of a port reads from the bus. Returns that turn, for [`end`](BusMap::end).
    /// The bus has as many addresses as the window has bytes, and nothing else in the window matters. The window is one
    /// that a port may have as memory ([`is_memory`](uda_mem::is_memory)).
    pub fn begin<S: BlockStore>(&self, port: &Port<S>, memory: &[u8], window: &mut [u8]) -> BusTurn
        requires window { IsMemory window.old }
        ensures begun { IsBegun self.now (length window.old) (port.now, memory.now) result window.new }
        ensures within { result.place < PENDING_LIMIT }
        ensures length { length window.new ≡ length window.old }
    {
        let missing = self.read_descriptors(port, memory, window);
        let plan = port.plan(window);
        let place = port.next_place(plan);
        let body = port.body(plan, window, place);
        let whole = self.read_body(memory, body, window);
        BusTurn {
            plan,
            place,
            missing: Missing {
                body: !whole,
                ..missing
            },
        }
    }

    /// Takes a turn that was begun, and writes on the bus what it wrote in the window ([`begin`](BusMap::begin)). The port,
    /// the memory and the window are as they were then. Only the blocks of [`blocks_at`](Port::blocks_at) may change.
    pub fn end<S: BlockStore>(
        &self,
        port: &mut Port<S>,
        memory: &mut [u8],
        window: &mut [u8],
        bus: &BusTurn,
        trace: &mut Trace,
    ) -> Turn
        requires window { IsMemory window.old }
        requires begun { IsBegun self.now (length window.old) (port.old, memory.old) bus.now window.old }
        ensures effect { TurnsAsBegun self.now (length window.old) (port.old, memory.old) bus.now
            (result, (port.new, memory.new)) }
        ensures used_blocks { ChangesOnly (blocks_of bus.now.missing port.old window.old bus.now.place)
            (block_bytes_of bus.now.missing port.old window.old bus.now.place) port.old.exec.units port.new.exec.units }
        ensures turn { result ≡ turn_of trace.new }
        ensures accurate { Traces trace.new port.old port.new }
        ensures credits { CreditsAgree port.new }
        ensures four_units { length port.new.exec.units ≡ 4 }
        ensures well_formed { AreWellFormed port.new.exec.units }
        ensures window { length window.new ≡ length window.old }
        ensures length { length memory.new ≡ length memory.old }
    {
        let taken = port.turn_at(window, Some(bus), trace);
        self.store(memory, &taken.written, window);
        taken.turn
    }

    /// Writes `word` to SA of a port over memory through these map registers. The bus has as many addresses as
    /// the window has bytes, and nothing else in the window matters.
    ///
    /// The communication area that the word zeroes is then written to the bus. An area with an address that
    /// leads nowhere is as one past the end of memory.
    ///
    /// UDA50 Programmer's Documentation Kit: initialization, UNIBUS addresses.
    pub fn write_sa<S: BlockStore>(
        &self,
        port: &mut Port<S>,
        word: u16,
        memory: &mut [u8],
        window: &mut Window,
    )
        ensures effect { WritesSaThroughMap self.now (length window.old) (port.old, memory.old) word
            (port.new, memory.new) }
        ensures window { length window.new ≡ length window.old }
        ensures length { length memory.new ≡ length memory.old }
    {
        self.write_sa_in(port, word, memory, window.bytes.as_mut_slice());
    }

    // Does the same over the bytes of a window.
    fn write_sa_in<S: BlockStore>(
        &self,
        port: &mut Port<S>,
        word: u16,
        memory: &mut [u8],
        window: &mut [u8],
    )
        ensures effect { WritesSaThroughMap self.now (length window.old) (port.old, memory.old) word
            (port.new, memory.new) }
        ensures window { length window.new ≡ length window.old }
        ensures length { length memory.new ≡ length memory.old }
    {
        let area = port.range_zeroed(word, window);
        let missing = !self.leads(memory, area.at, area.bytes);
        let written = port.write_sa_at(word, window, missing);
        self.write_range(memory, written, window);
    }

    // Reads into a window the descriptors that a turn reads. Returns which of their addresses lead nowhere.
    fn read_descriptors<S: BlockStore>(
        &self,
        port: &Port<S>,
        memory: &[u8],
        window: &mut [u8],
    ) -> Missing
        requires window { IsMemory window.old }
        ensures agrees { AgreesInDescriptors port.now window.new
            (bus_memory self.now (length window.old) memory.now) }
        ensures commands { TellsMissing self.now memory.now (command_range port.now window.old) result.commands }
        ensures responses { TellsMissing self.now memory.now (response_range port.now window.old) result.responses }
        ensures length { length window.new ≡ length window.old }
    {
        let [command, command_before, response, response_before] = port.descriptor_ranges(window);
        let commands = !self.read_pair(memory, command, command_before, window);
        let responses = !self.read_pair(memory, response, response_before, window);
        Missing {
            commands,
            responses,
            body: false,
        }
    }

    // Reads into a window a descriptor and the one before it. Returns whether each address of the first leads to a byte
    // of memory.
    fn read_pair(
        &self,
        memory: &[u8],
        next: ByteRange,
        before: ByteRange,
        window: &mut [u8],
    ) -> bool
        requires window { IsMemory window.old }
        requires next { LiesIn window.old next }
        requires before { LiesIn window.old before }
        ensures next { SameIn (bus_memory self.now (length window.old) memory.now) window.new next }
        ensures before { SameIn (bus_memory self.now (length window.old) memory.now) window.new before }
        ensures kept { KeepsBytes (bus_memory self.now (length window.old) memory.now) window.old window.new }
        ensures length { length window.new ≡ length window.old }
        ensures whole { IsTrue result ↔ AllLead self.now memory.now next.at next.bytes }
    {
        if self.read_both(memory, next, before, window) {
            return true;
        }
        self.read_range(memory, before, window);
        self.read_range(memory, next, window)
    }

    // Reads both at once, if they are side by side. Returns whether that was done, and each address leads to a byte of
    // memory.
    fn read_both(
        &self,
        memory: &[u8],
        next: ByteRange,
        before: ByteRange,
        window: &mut [u8],
    ) -> bool
        requires window { IsMemory window.old }
        requires next { LiesIn window.old next }
        requires before { LiesIn window.old before }
        ensures next { result ≡ true → SameIn (bus_memory self.now (length window.old) memory.now) window.new next }
        ensures before { result ≡ true
            → SameIn (bus_memory self.now (length window.old) memory.now) window.new before }
        ensures kept { KeepsBytes (bus_memory self.now (length window.old) memory.now) window.old window.new }
        ensures length { length window.new ≡ length window.old }
        ensures whole { result ≡ true → AllLead self.now memory.now next.at next.bytes }
    {
        if before.bytes == 0
            || u64::from(before.at) + u64::from(before.bytes) != u64::from(next.at)
        {
            return false;
        }
        let both = ByteRange {
            at: before.at,
            bytes: before.bytes + next.bytes,
        };
        self.read_range(memory, both, window)
    }

    // Reads the body of a turn into a window, if the turn reads it. Returns whether each of its addresses leads to
    // a byte of memory.
    fn read_body(&self, memory: &[u8], body: Body, window: &mut [u8]) -> bool
        requires within { LiesIn window.old body.range }
        ensures window { window.new
            ≡ body_read body (bus_memory self.now (length window.old) memory.now) window.old }
        ensures length { length window.new ≡ length window.old }
        ensures whole { IsTrue result ↔ AllLead self.now memory.now body.range.at body.range.bytes }
    {
        if body.is_read {
            self.read_range(memory, body.range, window)
        } else {
            self.leads(memory, body.range.at, body.range.bytes)
        }
    }

    // Reads a range of the bus into a window. Returns whether each of its addresses leads to a byte of
    // memory.
    fn read_range(&self, memory: &[u8], range: ByteRange, window: &mut [u8]) -> bool
        requires within { LiesIn window.old range }
        ensures window { window.new
            ≡ carried (range ∷ []) (bus_memory self.now (length window.old) memory.now) window.old }
        ensures length { length window.new ≡ length window.old }
        ensures whole { IsTrue result ↔ AllLead self.now memory.now range.at range.bytes }
    {
        if range.bytes == 0 {
            return true;
        }
        let start = range.at as usize;
        self.read(
            memory,
            range.at,
            &mut window[start..start + range.bytes as usize],
        )
    }

    /// Writes these ranges of a window on the bus, in their order. They lie in the window.
    pub fn store(&self, memory: &mut [u8], ranges: &[ByteRange], window: &[u8])
        requires within { All (LiesIn window.now) ranges.now }
        ensures stored { memory.new ≡ stored_ranges self.now ranges.now window.now memory.old }
        ensures length { length memory.new ≡ length memory.old }
    {
        for range in ranges {
            self.write_range(memory, *range, window);
        }
    }

    // Writes a range of a window on the bus.
    fn write_range(&self, memory: &mut [u8], range: ByteRange, window: &[u8])
        requires within { LiesIn window.now range }
        ensures stored { memory.new
            ≡ stored self.now memory.old range.at (part window.now range.at range.bytes) }
        ensures length { length memory.new ≡ length memory.old }
    {
        if range.bytes == 0 {
            return;
        }
        let start = range.at as usize;
        self.write(
            memory,
            range.at,
            &window[start..start + range.bytes as usize],
        );
    }
}
