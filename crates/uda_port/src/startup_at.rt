//! Words of initialization, over memory through map registers.
//!
//! UDA50 Programmer's Documentation Kit: initialization, communication area.
ghost use Rattle.std.specs.Prelude.{◌≡◌, length};
ghost use Rattle.uda_mem.specs.Ranges.{LiesIn};
ghost use Rattle.uda_port.specs.StartupUse.{range_zeroed, range_by, range_written, WordEffect, WordIsLocal};
ghost use Rattle.uda_port.specs.Startup.{area_of, refuses_third};

use crate::area::Area;
use crate::phase::Phase;
use crate::port::Port;
use crate::startup::refuses_third;
use uda_image::BlockStore;
use uda_mem::ByteRange;

impl<S: BlockStore> Port<S> {
    /// Returns the range of memory that a write of `word` to SA zeroes. It is the communication area if this is the
    /// third word, it is accepted, and the area is in memory; otherwise it is empty.
    ///
    /// UDA50 Programmer's Documentation Kit: initialization, communication area.
    pub fn range_zeroed(&self, word: u16, memory: &[u8]) -> ByteRange
        ensures range { result ≡ range_zeroed self.now.phase self.now memory.now word }
        ensures within { LiesIn memory.now result }
    {
        match self.phase {
            Phase::Step3 { first, second } => self.range_by(first, second, word, memory),
            _ => ByteRange::EMPTY,
        }
    }

    // Returns the communication area that the third word describes, if the word is accepted and the area is in
    // memory.
    fn range_by(&self, first: u16, second: u16, word: u16, memory: &[u8]) -> ByteRange
        ensures range { result ≡ range_by (refuses_third self.now.profile word)
            (area_of self.now.profile first second word) memory.now }
        ensures within { LiesIn memory.now result }
    {
        if refuses_third(self.profile, word) {
            return ByteRange::EMPTY;
        }
        let area = Area::of_words(self.profile, first, second, word);
        if area.is_in(memory) {
            area.range()
        } else {
            ByteRange::EMPTY
        }
    }

    /// Writes `word` to SA ([`write_sa_in`](Port::write_sa_in)) over a window into memory through map registers.
    /// Nothing in the window matters. If [`range_zeroed`](Port::range_zeroed) leads nowhere (`missing`), the port
    /// fails as at the end of memory. Returns the range that the caller then copies out of the window.
    ///
    /// UDA50 Programmer's Documentation Kit: initialization, communication area.
    pub fn write_sa_at(&mut self, word: u16, memory: &mut [u8], missing: bool) -> ByteRange
        ensures effect { WordEffect missing (self.old, memory.old) word (self.new, memory.new) }
        ensures range { result ≡ range_written missing (self.old, memory.old) word }
        ensures local { WordIsLocal missing (self.old, memory.old) word result (self.new, memory.new) }
        ensures within { LiesIn memory.old result }
    {
        if missing {
            let mut none: [u8; 0] = [];
            self.write_sa_in(word, &mut none);
            return ByteRange::EMPTY;
        }
        let range = self.range_zeroed(word, memory);
        self.write_sa_in(word, memory);
        range
    }
}
