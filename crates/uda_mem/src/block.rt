//! Conversion of a slice of 512 bytes to an array.
ghost use Rattle.std.specs.Prelude.{◌≡◌, length};
ghost use Rattle.std.specs.Borrow.{sem};
ghost use Rattle.uda_mem.specs.Windows.{LendsWhole};

/// Returns the slice of 512 bytes as an array. Bytes written to the array are written to the slice.
pub fn as_block(bytes: &mut [u8]) -> &mut [u8; 512]
    requires long { length bytes.old ≡ 512 }
    ensures* writes_back { sem 𝓛 (LendsWhole bytes.entry result) }
    ensures value { result.now ≡ bytes.old }
{
    let Some(block) = bytes.as_mut_array() else {
        unreachable!()
    };
    block
}
