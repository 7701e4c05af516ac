//! Division of bytes into blocks.
ghost use Rattle.std.specs.Prelude.{◌≡◌};
ghost use Rattle.uda_disk.specs.Request.{first_block};

/// Returns the first block of these bytes, filled with zeros if there are fewer than 512. The last block of
/// a Write is made so, since its byte count needn't be a multiple of 512.
///
/// MSCP Basic Disk Functions Manual: transfer commands, logical blocks.
pub fn first_block(bytes: &[u8]) -> [u8; 512]
    ensures block { result ≡ first_block bytes.now }
{
    let mut block = [0; 512];
    let count = bytes.len().min(512);
    block[..count].copy_from_slice(&bytes[..count]);
    block
}
