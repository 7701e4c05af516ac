//! Conversion of lengths in bytes to numbers of blocks.
ghost use Rattle.std.specs.Prelude.{◌≡◌, ◌≢◌, ◌*◌, ◌/◌, ◌%◌, ◌<◌, ◌≤◌, ◌⊎◌, ◌↔◌, IfOk, IfErr};

use crate::error::ImageError;

// Returns the number of blocks in `bytes` bytes, at most `limit`. It checks first that the length is a
// whole number of blocks, and then that it is not too large.
pub(crate) fn count_blocks(bytes: u64, limit: u32) -> Result<u32, ImageError>
    ensures whole { IfOk result (λ count. 512 * count ≡ bytes) }
    ensures within_limit { IfOk result (λ count. count ≤ limit) }
    ensures length { (result ≡ Err ImageError.Length) ↔ (bytes % 512 ≢ 0) }
    ensures too_large { (result ≡ Err ImageError.TooLarge)
        ↔ ((bytes % 512 ≡ 0) × (limit < bytes / 512)) }
    ensures errors { IfErr result (λ e. (e ≡ ImageError.Length) ⊎ (e ≡ ImageError.TooLarge)) }
{
    if bytes % 512 != 0 {
        return Err(ImageError::Length);
    }
    if bytes / 512 > u64::from(limit) {
        return Err(ImageError::TooLarge);
    }
    Ok((bytes / 512) as u32)
}
