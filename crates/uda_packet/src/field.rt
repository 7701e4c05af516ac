//! The fields of the texts, each with its offset and its width.
//!
//! MSCP Basic Disk Functions Manual: command and end message formats.

ghost use Rattle.std.specs.Prelude.{◌≡◌, ◌+◌, ◌≤◌};
ghost use Rattle.uda_packet.specs.Field.{code_field, field, number_in, with_number};

use byteorder::{ByteOrder, LittleEndian};

// A message's text.
pub(crate) type Text = [u8; 48];

pub(crate) const REFERENCE: Long = Long(0);

pub(crate) const UNIT: Word = Word(4);

pub(crate) const CODE: usize = 8;

pub(crate) const MODIFIERS: Word = Word(10);

pub(crate) const STATUS: Word = Word(10);

pub(crate) const BYTE_COUNT: Long = Long(12);

pub(crate) const NAMED: Long = Long(12);

pub(crate) const PROGRESS: Long = Long(16);

pub(crate) const VERSION: Word = Word(12);

pub(crate) const MULTI_UNIT: Word = Word(12);

pub(crate) const UNIT_FLAGS: Word = Word(14);

pub(crate) const ADDRESS: Long = Long(16);

pub(crate) const TIME_OUT: Word = Word(16);

pub(crate) const CONTROLLER_VERSION: Word = Word(18);

pub(crate) const IDENTIFIER: Quad = Quad(20);

pub(crate) const LBN: Long = Long(28);

pub(crate) const MEDIA_TYPE: Long = Long(28);

pub(crate) const SHADOW_UNIT: Word = Word(32);

pub(crate) const UNIT_SIZE: Long = Long(36);

// Sectors per track.
pub(crate) const TRACK: Word = Word(36);

// Tracks per group.
pub(crate) const GROUP: Word = Word(38);

// Groups per cylinder.
pub(crate) const CYLINDER: Word = Word(40);

// The serial number of a volume.
pub(crate) const SERIAL: Long = Long(40);

// Returns the opcode or end code of a text.
pub(crate) fn code_in(text: &Text) -> u8
    ensures { result ≡ number_in code_field text.now }
{
    text[CODE]
}

// A field of two bytes, given by the offset of its first.
#[derive(Clone, Copy)]
pub(crate) struct Word(usize);

// A field of four bytes, given by the offset of its first.
#[derive(Clone, Copy)]
pub(crate) struct Long(usize);

// A field of eight bytes, given by the offset of its first.
#[derive(Clone, Copy)]
pub(crate) struct Quad(usize);

impl Word {
    pub(crate) fn get(self, text: &Text) -> u16
        requires { self.0 + 2 ≤ 48 }
        ensures { result ≡ number_in (field self.0 2) text.now }
    {
        LittleEndian::read_u16(&text[self.0..])
    }

    pub(crate) fn put(self, text: &mut Text, n: u16)
        requires { self.0 + 2 ≤ 48 }
        ensures { text.new ≡ with_number (field self.0 2) n text.old }
    {
        LittleEndian::write_u16(&mut text[self.0..], n);
    }
}

impl Long {
    pub(crate) fn get(self, text: &Text) -> u32
        requires { self.0 + 4 ≤ 48 }
        ensures { result ≡ number_in (field self.0 4) text.now }
    {
        LittleEndian::read_u32(&text[self.0..])
    }

    pub(crate) fn put(self, text: &mut Text, n: u32)
        requires { self.0 + 4 ≤ 48 }
        ensures { text.new ≡ with_number (field self.0 4) n text.old }
    {
        LittleEndian::write_u32(&mut text[self.0..], n);
    }
}

impl Quad {
    pub(crate) fn put(self, text: &mut Text, n: u64)
        requires { self.0 + 8 ≤ 48 }
        ensures { text.new ≡ with_number (field self.0 8) n text.old }
    {
        LittleEndian::write_u64(&mut text[self.0..], n);
    }
}
