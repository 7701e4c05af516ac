//! The trace of an image file: its calls and what came of them, which only contracts read.
ghost use Rattle.std.specs.Prelude.{◌≡◌, ℕ, Bool, true, false, List, [], ◌∷◌};
ghost use Rattle.std.specs.Borrow.{ftrue};
ghost use Rattle.uda_image.specs.FileCall.{FileCall, call_of};
ghost use Rattle.uda_image.specs.StoredCalls.{calls_code};

use std::fmt;
use std::marker::Model;

/// What a caller supposes of a file: the bytes that it holds when it is opened, and the blocks that writes
/// which fail leave in it, one after another. It takes no memory, and no program can read it.
#[derive(Drop)]
pub struct Supposition {
    pub ghost held: { List ℕ },
    pub ghost blocks_left: { List ℕ },
}

impl Model for Supposition {
    ghost also_owns = { λ _. ftrue };
}

impl Supposition {
    /// Returns the supposition that a file holds the bytes of `_held`, and that writes which fail leave the
    /// blocks of `_blocks_left`.
    pub fn of(_held: &[u8], _blocks_left: &[u8]) -> Supposition
        ensures { result ≡ record { held = _held.now; blocks_left = _blocks_left.now } }
    {
        Supposition {}
    }

    /// Returns a supposition of which nothing is said: what is proved of it holds for each. It has no clause, so
    /// that this is so.
    pub fn any() -> Supposition {
        Supposition::of(&[], &[])
    }
}

/// A call on a file, and what came of it.
#[derive(Clone, Copy, Debug)]
pub enum Call<'a> {
    /// A read of these bytes, from this block on.
    Read { block: u32, bytes: &'a [u8] },
    /// A write of these bytes, from this block on.
    Written { block: u32, bytes: &'a [u8] },
    /// A read of several blocks is next. Its buffer holds these bytes.
    Asked { bytes: &'a [u8] },
    /// That read was declined, and its buffer then holds these bytes.
    Declined { bytes: &'a [u8] },
    /// A call failed that changed no block.
    Failed,
    /// A write of this block failed.
    FailedWrite { block: u32 },
}

/// What was supposed of a file when it was opened, whether that is known to be so, and the calls on it since, the newest
/// first. It takes no memory, and its methods do nothing at run time.
#[derive(Drop)]
pub struct FileTrace {
    pub ghost held: { List ℕ },
    pub ghost blocks_left: { List ℕ },
    pub ghost known: { Bool },
    pub ghost calls: { List FileCall } by { calls_code },
}

impl Model for FileTrace {
    ghost also_owns = { λ _. ftrue };
}

impl fmt::Debug for FileTrace {
    fn fmt<W: fmt::Write>(&self, f: &mut fmt::Formatter<W>) -> fmt::Result {
        f.write_str("FileTrace")
    }
}

impl FileTrace {
    /// Returns the trace of a file of which this is supposed, and on which no call was made.
    pub fn new(_supposed: &Supposition) -> FileTrace
        ensures { result ≡ record {
          held = _supposed.now.held;
          blocks_left = _supposed.now.blocks_left;
          known = false;
          calls = [];
        } }
    {
        FileTrace {}
    }

    /// Returns the trace of a file that is known to be as this supposition says, and on which no call was made.
    pub fn known(_supposed: &Supposition) -> FileTrace
        ensures { result ≡ record {
          held = _supposed.now.held;
          blocks_left = _supposed.now.blocks_left;
          known = true;
          calls = [];
        } }
    {
        FileTrace {}
    }

    // Returns this trace with one call more.
    #[inline(always)]
    fn then(&self, _call: &Call<'_>) -> FileTrace
        ensures { result ≡ record self.now { calls = call_of _call.now ∷ self.now.calls } }
    {
        FileTrace {}
    }

    /// Notes a call.
    #[inline(always)]
    pub fn note(&mut self, call: &Call<'_>)
        ensures { self.new ≡ record self.old { calls = call_of call.now ∷ self.old.calls } }
    {
        *self = self.then(call);
    }
}
