//! Copies from memory and to memory. An index may be past the end of memory.
ghost use Rattle.std.specs.Prelude.{◌≡◌, ◌≤◌, ◌↔◌, length, IsTrue};
ghost use Rattle.uda_bus.specs.Copy.{bytes_from, padded, put_from};

// Copies the bytes of memory from an index on, and zeros for those that it doesn't have. Returns whether
// memory has all of them.
pub(crate) fn copy_out(memory: &[u8], start: Option<u64>, to: &mut [u8]) -> bool
    ensures bytes { to.new ≡ padded (length to.old) (bytes_from memory.now start) }
    ensures whole { IsTrue result ↔ (length to.old ≤ length (bytes_from memory.now start)) }
{
    let there = bytes_there(memory, start);
    if let Some(bytes) = there.get(..to.len()) {
        to.copy_from_slice(bytes);
        return true;
    }
    let (first, rest) = to.split_at_mut(there.len());
    first.copy_from_slice(there);
    rest.fill(0);
    false
}

// Returns the bytes of memory from an index on.
pub(crate) fn bytes_there(memory: &[u8], start: Option<u64>) -> &[u8]
    ensures bytes { result.now ≡ bytes_from memory.now start }
{
    match start {
        Some(start) => memory.get(start as usize..).unwrap_or(&[]),
        None => &[],
    }
}

// Writes bytes to memory from an index on. Those past the end of memory are dropped.
pub(crate) fn copy_in(memory: &mut [u8], start: Option<u64>, bytes: &[u8])
    ensures memory { memory.new ≡ put_from memory.old start bytes.now }
{
    let Some(start) = start else { return };
    let start = start as usize;
    if start < memory.len() {
        let count = bytes.len().min(memory.len() - start);
        memory[start..start + count].copy_from_slice(&bytes[..count]);
    }
}
