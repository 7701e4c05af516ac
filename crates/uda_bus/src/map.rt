//! Map registers, and the bytes that a bus shows through them.
ghost use Rattle.std.specs.Prelude.{◌≡◌, ◌≤◌, ◌↔◌, ◌*◌, IsTrue};
ghost use Rattle.uda_mem.specs.Put.{Overlap};
ghost use Rattle.uda_bus.specs.Longs.{long_in};

use byteorder::{ByteOrder, LittleEndian};

/// How a bus address is split, and how the bits of a register are used.
#[derive(Clone, Copy, Debug, PartialEq, Eq)]
pub struct MapForm {
    /// The number of low bits of an address that are the offset in a page. The bits above them are the number
    /// of the page's register.
    pub page: u32,
    /// The bits of a register that say where the page begins in memory.
    pub frame: u32,
    /// The bits that are all set in a register that is used.
    pub valid: u32,
    /// The number of places by which the bits of `frame` are shifted to the left.
    pub scale: u32,
}

/// The place of the map registers.
#[derive(Clone, Copy, Debug)]
pub enum Registers<'a> {
    /// Outside of memory.
    Apart(&'a [u32]),
    /// In memory, as longwords of four bytes, low byte first.
    InMemory {
        /// The index in memory of the first register.
        at: u64,
        /// The number of registers.
        count: u32,
    },
}

/// A map from bus addresses to the memory of a guest. An address leads nowhere if it has no register, if its
/// register isn't valid, or if memory ends before the byte.
#[derive(Clone, Copy, Debug)]
pub struct BusMap<'a> {
    registers: Registers<'a>,
    form: MapForm,
    ghost split: { form.page ≤ 31 },
    ghost scaled: { form.scale ≤ 31 },
}

impl<'a> BusMap<'a> {
    ghost use Rattle.std.specs.Prelude.{◌≡◌, ◌≤◌, ◌↔◌, IsSome, IfSome};

    /// Returns the map with these registers. Returns `None` if `page` or `scale` is above 31.
    pub fn new(registers: Registers<'a>, form: MapForm) -> Option<BusMap<'a>>
        ensures present { IsSome result ↔ ((form.page ≤ 31) × (form.scale ≤ 31)) }
        ensures registers { IfSome result (λ map. map.registers ≡ registers.entry) }
        ensures form { IfSome result (λ map. map.form ≡ form) }
    {
        if form.page <= 31 && form.scale <= 31 {
            Some(BusMap { registers, form })
        } else {
            None
        }
    }
}

/// The first addresses of a range of bus addresses. They are in one page.
#[derive(Clone, Copy)]
pub(crate) struct Piece {
    /// The number of addresses.
    pub(crate) len: usize,
    /// The index to which the first address leads. The others lead to the indexes after it. They may be past
    /// the end of memory.
    pub(crate) start: Option<u64>,
}

impl BusMap<'_> {
    ghost use Rattle.std.specs.Prelude.{◌≡◌, ◌<◌, ◌≤◌, ◌↔◌, ◌+◌, ◌%◌, ◌^◌, IsTrue};
    ghost use Rattle.uda_bus.specs.Lookup.{register_of, place_of, place_at};
    ghost use Rattle.uda_bus.specs.Pieces.{HasRegister};

    /// Returns the piece at the start of `rest` addresses, from this one on. It is a single address if more would lead
    /// to a map register, since a write to that changes where the others lead.
    pub(crate) fn piece(&self, memory: &[u8], address: u64, rest: usize) -> Piece
        requires rest { 0 < rest }
        ensures some { 0 < result.len }
        ensures most { result.len ≤ rest }
        ensures page { address % 2 ^ self.now.form.page + result.len ≤ 2 ^ self.now.form.page }
        ensures start { result.start ≡ place_at self.now memory.now address }
        ensures apart { 1 < result.len → ¬ HasRegister self.now.registers result.start result.len }
    {
        let start = self.lead(memory, address);
        let len = rest.min((self.page_size() - self.offset(address)) as usize);
        if self.has_register(start, len) {
            Piece { len: 1, start }
        } else {
            Piece { len, start }
        }
    }

    // Returns whether one of `len` bytes of memory from an index on is one of a register.
    fn has_register(&self, start: Option<u64>, len: usize) -> bool
        ensures some { IsTrue result ↔ HasRegister self.now.registers start len }
    {
        match (self.registers, start) {
            (Registers::InMemory { at, count }, Some(start)) => overlap(at, count, start, len),
            _ => false,
        }
    }

    // Returns the number of addresses of a page.
    fn page_size(&self) -> u64
        ensures size { result ≡ 2 ^ self.now.form.page }
        ensures small { result ≤ 2 ^ 31 }
    {
        1u64 << self.form.page
    }

    // Returns the offset of an address in its page.
    fn offset(&self, address: u64) -> u64
        ensures offset { result ≡ address % 2 ^ self.now.form.page }
        ensures within { result < 2 ^ self.now.form.page }
        ensures small { result < 2 ^ 31 }
    {
        address & (self.page_size() - 1)
    }

    // Returns the index to which an address leads, which may be past the end of memory.
    #[tactic(auto, unfolding(crate::specs::Lookup::place_at))]
    fn lead(&self, memory: &[u8], address: u64) -> Option<u64>
        ensures start { result ≡ place_at self.now memory.now address }
    {
        let register = self.register(memory, address >> self.form.page)?;
        self.place(register, self.offset(address))
    }

    // Returns a register.
    fn register(&self, memory: &[u8], number: u64) -> Option<u32>
        ensures register { result ≡ register_of self.now.registers memory.now number }
    {
        match self.registers {
            Registers::Apart(registers) => registers.get(number as usize).copied(),
            Registers::InMemory { at, count } => {
                if number < u64::from(count) {
                    long_at(memory, at.checked_add(4 * number)? as usize)
                } else {
                    None
                }
            }
        }
    }

    // Returns the index to which a register and an offset in its page lead.
    fn place(&self, register: u32, offset: u64) -> Option<u64>
        requires offset { offset < 2 ^ 31 }
        ensures place { result ≡ place_of self.now.form register offset }
    {
        if register & self.form.valid == self.form.valid {
            Some((u64::from(register & self.form.frame) << self.form.scale) + offset)
        } else {
            None
        }
    }
}

// Returns the longword from this index on, low byte first.
#[tactic(auto, unfolding(crate::specs::Longs::long_in, uda_mem::specs::Put::part))]
fn long_at(memory: &[u8], at: usize) -> Option<u32>
    ensures long { result ≡ long_in memory.now at }
{
    let bytes = memory.get(at..at.checked_add(4)?)?;
    Some(LittleEndian::read_u32(bytes))
}

// Returns whether `len` bytes from `start` on and `count` longwords from `at` on have a byte in common.
fn overlap(at: u64, count: u32, start: u64, len: usize) -> bool
    ensures some { IsTrue result ↔ Overlap at (4 * count) start len }
{
    if at <= start {
        len > 0 && start - at < 4 * u64::from(count)
    } else {
        count > 0 && at - start < len as u64
    }
}
