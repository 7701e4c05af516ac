//! Copies of images in memory: which blocks are copied, and what the map then says.
mod parts;

use parts::{Followed, KnownZeros, Worn, copier_over};
use std::alloc::Global;
use std::process::Abort;
use std::test::Fail;
use uda50_copy::{BlockMap, BlockStatus, Copier, CopyRecord, EndedRecord, copy_unfinished};

// Returns whether the target has a block of the source.
fn is_copied(copier: &mut Copier<Worn>, block: u32) -> bool {
    let mut followed = Followed::new();
    copier
        .compare(block..block.saturating_add(1), &mut followed)
        .is_ok()
}

// Asserts that of the first 40 blocks just those of these ranges are copied.
fn assert_copied(
    rt: &(impl Alloc<A = Global> + Abort),
    copier: &mut Copier<Worn>,
    ranges: &[(u32, u32)],
) {
    for block in 0..40 {
        let is_wanted = ranges
            .iter()
            .any(|range| range.0 <= block && block < range.1);
        assert!(rt; is_copied(copier, block) == is_wanted, "block {}", block);
    }
}

#[test]
fn unfinished_blocks_are_copied(rt: HostRuntime) -> Result<(), Fail> {
    let mut copier = copier_over(rt.alloc(), Worn::NONE, Worn::NONE, false)?;
    let mut map = BlockMap::new(rt.alloc(), 3..30)?;
    map.set(5..10, BlockStatus::Finished)?;
    let mut record = CopyRecord::new(rt.alloc(), map, Followed::new());
    let copied = copy_unfinished(&mut copier, &mut record, &mut KnownZeros, 3..30);
    assert!(rt; copied.is_ok());
    let EndedRecord { map, .. } = record.end();
    assert!(rt; map.next_unfinished(0).is_none());
    assert_copied(&rt, &mut copier, &[(3, 5), (10, 12), (15, 30)]);
    Ok(())
}

#[test]
fn a_range_of_one_block_is_copied(rt: HostRuntime) -> Result<(), Fail> {
    let mut copier = copier_over(rt.alloc(), Worn::NONE, Worn::NONE, false)?;
    let map = BlockMap::new(rt.alloc(), 35..36)?;
    let mut record = CopyRecord::new(rt.alloc(), map, Followed::new());
    let copied = copy_unfinished(&mut copier, &mut record, &mut KnownZeros, 35..36);
    assert!(rt; copied.is_ok());
    assert_copied(&rt, &mut copier, &[(35, 36)]);
    Ok(())
}

#[test]
fn a_lost_block_is_bad(rt: HostRuntime) -> Result<(), Fail> {
    let mut copier = copier_over(rt.alloc(), 7, Worn::NONE, true)?;
    let map = BlockMap::new(rt.alloc(), 0..12)?;
    let mut record = CopyRecord::new(rt.alloc(), map, Followed::new());
    let copied = copy_unfinished(&mut copier, &mut record, &mut KnownZeros, 0..12);
    assert!(rt; copied.is_ok());
    let EndedRecord { map, is_noted, .. } = record.end();
    assert!(rt; is_noted);
    assert!(rt; map.next_unfinished(0) == Some(7..8));
    assert!(rt; map.next_unfinished(8).is_none());
    Ok(())
}

#[test]
fn blocks_that_are_not_written_are_not_reported(rt: HostRuntime) -> Result<(), Fail> {
    let mut copier = copier_over(rt.alloc(), Worn::NONE, 2, false)?;
    let map = BlockMap::new(rt.alloc(), 0..12)?;
    let mut record = CopyRecord::new(rt.alloc(), map, Followed::new());
    let copied = copy_unfinished(&mut copier, &mut record, &mut KnownZeros, 0..12);
    assert!(rt; copied.is_err());
    let EndedRecord { map, log, .. } = record.end();
    assert!(rt; map.next_unfinished(0) == Some(0..12));
    assert!(rt; log.ends == 0);
    Ok(())
}
