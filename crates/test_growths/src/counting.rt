//! A store that counts its calls.
use std::alloc::Global;
use uda_image::{BlockStore, Drive, ImageError, MemImage, StoreError};

/// An image in memory, which is faithful, and the number of its reads and writes.
#[derive(Drop)]
pub struct Counting {
    pub image: MemImage,
    pub calls: u32,
}

impl BlockStore for Counting {
    ghost use Rattle.uda_image.specs.Image.{image_state};
    ghost use Rattle.uda_image.specs.StoreLaws.{block_count-le, HasWholeBlocks-blocks_of};

    ghost state = { λ store. image_state store.image };

    ghost within_limit = { λ store. block_count-le store.image };

    ghost is_image = { λ store _. HasWholeBlocks-blocks_of store.image };

    ghost is_image_if_sound = { λ store _. HasWholeBlocks-blocks_of store.image };

    fn size(&self) -> u32 {
        self.image.size()
    }

    fn read(&mut self, n: u32, to: &mut [u8; 512]) -> Result<(), StoreError> {
        self.calls = self.calls.saturating_add(1);
        self.image.read(n, to)
    }

    fn write(&mut self, n: u32, from: &[u8; 512]) -> Result<(), StoreError> {
        self.calls = self.calls.saturating_add(1);
        self.image.write(n, from)
    }
}

/// The drives of a controller.
pub type Drives = [Option<Drive<Counting>>; 4];

/// Makes one drive of `blocks` blocks of zeros, with this hardware protection.
pub fn one_drive(alloc: Global, blocks: u32, hard: bool) -> Result<Drives, ImageError> {
    let store = Counting {
        image: MemImage::new(alloc, blocks)?,
        calls: 0,
    };
    Ok([Some(Drive { store, hard }), None, None, None])
}
