//! The target file of a copy. While it is incomplete, its name ends in `.part`.

use crate::create::{check_existing, set_blocks};
use crate::fault::Suffix;
use crate::file_fault::{FileFault, FileRole};
use crate::image::reason;
use crate::lasting;
use crate::map_file::{
    FormerMap, MapFile, check_no_part_map, has_new_part_map, has_part_map, remove_old_part_map,
    remove_part_map,
};
use crate::names::{CopyName, is_link};
use crate::outcome::Outcome;
use crate::reason::{ImageReason, MapReason, Reason, TargetReason};
use std::cell::Cell;
use std::fs;
use std::fs::{File, Metadata};
use std::io::IsTerminal;
use std::ops::Range;
use std::os::unix::fs::FileTypeExt;
use uda50_arguments::{BlockRange, Copy};
use uda50_copy::BlockMap;
use uda50_files::{Access, Failures, OpenError, TargetFile};
use uda50_show::EscapedName;

/// What a copy does with its target.
#[derive(Clone, Copy, PartialEq, Eq)]
pub(crate) enum TargetKind {
    /// A new file is made.
    New,
    /// An existing file becomes a copy of all blocks. It has another name meanwhile.
    Overwrite,
    /// An existing file whose folder can't be written becomes a copy of all blocks.
    InPlace,
    /// Some blocks of an existing file are written.
    Blocks,
    /// Blocks of a device are written.
    Device,
    /// The blocks that an earlier copy lost are written.
    LostBlocks,
    /// A copy that ended early goes on.
    Resume,
}

impl TargetKind {
    /// Returns whether the target has another name while it is incomplete.
    pub(crate) fn has_part(self) -> bool {
        matches!(
            self,
            TargetKind::New | TargetKind::Overwrite | TargetKind::Resume
        )
    }

    /// Returns whether the target gets the length of the source.
    pub(crate) fn is_whole(self) -> bool {
        self.has_part() || self == TargetKind::InPlace
    }

    /// Returns whether an earlier copy goes on.
    pub(crate) fn resumes(self) -> bool {
        matches!(self, TargetKind::Resume | TargetKind::LostBlocks)
    }

    // Chooses what a copy does. Fails if something may not be written or replaced.
    fn checked<'w>(rt: &HostRuntime, copy: &Copy<'w>) -> Result<TargetKind, FileFault> {
        let kind = TargetKind::choose(rt, copy)?;
        MapFile::of(copy, kind).check(rt, copy, kind)?;
        if kind.has_part() && part_of(copy).is_same(rt, &target_of(copy))? {
            return Err(part_of(copy).fault(Reason::Target(TargetReason::PartIsTarget)));
        }
        Ok(kind)
    }

    // Chooses what a copy does. Fails if the target may not be written, or is the source.
    fn choose<'w>(rt: &HostRuntime, copy: &Copy<'w>) -> Result<TargetKind, FileFault> {
        if copy.to.protected {
            return Err(FileRole::Target.fault(Reason::Protected));
        }
        if names_other(copy) {
            return Err(FileRole::Target.fault(Reason::Target(TargetReason::OtherDevice)));
        }
        match fs::metadata(rt, copy.to.path) {
            Ok(metadata) => TargetKind::of_existing(rt, copy, &metadata),
            Err(_) => TargetKind::of_new(rt, copy),
        }
    }

    // Chooses what a copy does whose target doesn't exist.
    fn of_new<'w>(rt: &HostRuntime, copy: &Copy<'w>) -> Result<TargetKind, FileFault> {
        let path = copy.to.path;
        if copy.device.is_some() {
            return Err(FileRole::Target.fault(Reason::NoSuchFile));
        }
        if is_link(rt, path) {
            return Err(FileRole::Target.fault(Reason::Target(TargetReason::LinkToNowhere)));
        }
        check_source(rt, copy)?;
        check_folder(rt, path)?;
        match copy.resumes {
            true => TargetKind::of_resumed(rt, copy),
            false => Ok(TargetKind::New),
        }
    }

    // Chooses what a copy does with an existing target.
    fn of_existing<'w>(
        rt: &HostRuntime,
        copy: &Copy<'w>,
        metadata: &Metadata,
    ) -> Result<TargetKind, FileFault> {
        let is_device = metadata.file_type().is_block_device();
        let has_part = copy.resumes && part_of(copy).found(rt)?.is_some();
        let tries_lost = copy.resumes && !has_part;
        FileRole::Target.of(check_device(copy, is_device))?;
        if tries_lost {
            check_begun(rt, copy)?;
        }
        if !is_device {
            check_overwritten(rt, copy, metadata, tries_lost)?;
        }
        check_source(rt, copy)?;
        Ok(match copy.blocks {
            _ if tries_lost => TargetKind::LostBlocks,
            _ if is_device => TargetKind::Device,
            _ if has_part => TargetKind::Resume,
            Some(_) => TargetKind::Blocks,
            None => TargetKind::Overwrite,
        })
    }

    // Chooses what a copy does that is resumed, and whose target doesn't exist. It begins if nothing was copied before.
    fn of_resumed<'w>(rt: &HostRuntime, copy: &Copy<'w>) -> Result<TargetKind, FileFault> {
        if part_of(copy).found(rt)?.is_some() {
            return Ok(TargetKind::Resume);
        }
        let claims = match MapFile::of_incomplete(copy).read(rt)? {
            Some(map) => map.finished_end() > 0,
            None => copy.map.is_none() && MapFile::of_target(copy).read(rt)?.is_some(),
        };
        if claims {
            return Err(FileRole::Target.fault(Reason::Target(TargetReason::OnlyMap)));
        }
        Ok(TargetKind::New)
    }
}

/// A target that may be written, and of which nothing is changed yet.
#[derive(Drop)]
pub(crate) struct CheckedTarget<'w> {
    copy: Copy<'w>,
    kind: TargetKind,
    map: MapFile<'w>,
    // What the file of the map held before.
    former: FormerMap,
    // Whether the map was there before, and may tell of other blocks of the target too.
    keeps_map: bool,
    // The file, unless it will be made.
    existing: Option<TargetFile>,
}

impl<'w> CheckedTarget<'w> {
    /// Opens the target of a copy of these blocks. If it keeps its length, it must have all of them. Fails if something may
    /// not be written or replaced.
    pub(crate) fn open(
        rt: &HostRuntime,
        copy: &Copy<'w>,
        blocks: &Range<u32>,
    ) -> Result<CheckedTarget<'w>, FileFault> {
        let kind = TargetKind::checked(rt, copy)?;
        let existing = open_existing(rt, copy, kind, blocks)?;
        Ok(CheckedTarget {
            copy: *copy,
            kind,
            map: MapFile::of(copy, kind),
            former: FormerMap::Void,
            keeps_map: false,
            existing,
        })
    }

    /// Returns whether an earlier copy goes on.
    pub(crate) fn resumes(&self) -> bool {
        self.kind.resumes()
    }

    /// Goes on with a copy that ended early. The map of an incomplete copy must be one of just these blocks. That of a
    /// target with its own name must have all of them, and none that a source of `size` blocks doesn't have. The target
    /// must have all blocks that are finished by the map.
    pub(crate) fn resume<'r>(
        self,
        rt: &'r HostRuntime,
        blocks: &Range<u32>,
        size: u32,
    ) -> Result<BegunCopy<'r, 'w>, FileFault> {
        let map = self.resumed_map(rt, blocks, size)?;
        self.into_begun(rt, map)
    }

    // Returns the map of a copy that ended early.
    fn resumed_map(
        &self,
        rt: &HostRuntime,
        blocks: &Range<u32>,
        size: u32,
    ) -> Result<BlockMap, FileFault> {
        let Some(map) = self.map.read(rt)? else {
            return Err(FileRole::Target.fault(Reason::Target(TargetReason::NothingToResume)));
        };
        self.check_map(rt, &map, blocks, size)?;
        if self.map.is_named() {
            self.disclaim_unnamed(rt, blocks.start..blocks.end)?;
        }
        Ok(map)
    }

    // Fails if the map isn't one of the blocks and of the file of the copy.
    fn check_map(
        &self,
        rt: &HostRuntime,
        map: &BlockMap,
        blocks: &Range<u32>,
        size: u32,
    ) -> Result<(), FileFault> {
        let is_of_copy = match self.kind {
            TargetKind::LostBlocks => map.covers(blocks) && map.end() <= size,
            _ => is_of(map, blocks),
        };
        if !is_of_copy {
            return Err(self.map.fault(Reason::Map(MapReason::OfOther)));
        }
        self.check_subject(rt)?;
        self.check_length(map, size)
    }

    // Fails if the map isn't one of the file that will be written.
    fn check_subject(&self, rt: &HostRuntime) -> Result<(), FileFault> {
        let copy = &self.copy;
        if self.kind == TargetKind::LostBlocks {
            return match self.map.tells_of_target(rt)? {
                true => Ok(()),
                false => Err(self.map.fault(Reason::Map(MapReason::OfPart))),
            };
        }
        if !self.map.tells_of_part(rt)? {
            return Err(part_of(copy).fault(Reason::Target(TargetReason::PartOfOther)));
        }
        match self.map.is_named() {
            true => check_no_part_map(rt, copy),
            false => Ok(()),
        }
    }

    // Fails if the target isn't as long as its map says. Without `--force`, a map that claims no block doesn't permit to
    // overwrite a file.
    fn check_length(&self, map: &BlockMap, size: u32) -> Result<(), FileFault> {
        let Some(file) = &self.existing else {
            return Ok(());
        };
        let bytes = file.bytes();
        let blocks = map.finished_end();
        if !self.holds(map) {
            let name = name_of(&self.copy, self.kind);
            return Err(name.fault(Reason::Target(TargetReason::ShorterThanMap { bytes, blocks })));
        }
        if self.kind != TargetKind::LostBlocks || self.copy.device.is_some() {
            return Ok(());
        }
        if self.copy.blocks.is_none() && bytes > 512 * u64::from(size) {
            return Err(FileRole::Target.fault(Reason::Target(TargetReason::LongerThanMap {
                bytes,
                blocks: size,
            })));
        }
        if blocks == 0 && bytes > 0 && !self.copy.force {
            return Err(FileRole::Target.fault(Reason::Exists));
        }
        Ok(())
    }

    // Returns whether the target has all blocks that are finished by a map.
    fn holds(&self, map: &BlockMap) -> bool {
        match &self.existing {
            Some(file) => 512 * u64::from(map.finished_end()) <= file.bytes(),
            None => false,
        }
    }

    /// Begins a copy of blocks. Before anything else is changed, no map on the disk claims one of them any more.
    pub(crate) fn begin<'r>(
        mut self,
        rt: &'r HostRuntime,
        blocks: &Range<u32>,
    ) -> Result<BegunCopy<'r, 'w>, FileFault> {
        let map = self.begun_map(rt, blocks)?;
        self.into_begun(rt, map)
    }

    // Saves the map of a copy that begins. An existing target is written in place if none can be saved.
    fn begun_map(&mut self, rt: &HostRuntime, blocks: &Range<u32>) -> Result<BlockMap, FileFault> {
        if self.map.is_named() {
            self.disclaim_unnamed(rt, blocks.start..blocks.end)?;
        } else if let Some(map) = self.begun_part_map(rt, blocks)? {
            return Ok(map);
        }
        self.former = self.former_map(rt)?;
        match self.kind.has_part() {
            true => self.map.begin(rt, blocks.start..blocks.end),
            false => self.begun_own_map(rt, blocks),
        }
    }

    // Saves the map of a copy that begins, if its target has another name meanwhile. An existing target keeps its own one
    // if none can be saved.
    fn begun_part_map(
        &mut self,
        rt: &HostRuntime,
        blocks: &Range<u32>,
    ) -> Result<Option<BlockMap>, FileFault> {
        if !self.kind.has_part() {
            return Ok(None);
        }
        match self.map.begin(rt, blocks.start..blocks.end) {
            Ok(map) => Ok(Some(map)),
            Err(fault) if self.kind == TargetKind::Overwrite && fault.forbids_names() => {
                self.stay_in_place();
                Ok(None)
            }
            Err(fault) => Err(of_folder(fault)),
        }
    }

    // Returns the map of a copy that begins, and whose target keeps its own name. The map that it has is kept if it tells
    // of more blocks.
    fn begun_own_map(
        &mut self,
        rt: &HostRuntime,
        blocks: &Range<u32>,
    ) -> Result<BlockMap, FileFault> {
        let Range { start, end } = *blocks;
        match self.map.disclaim(rt, start..end)? {
            Some(map) if self.can_keep(&map, blocks) => {
                self.keeps_map = true;
                Ok(map)
            }
            _ if self.map.is_named() => self.map.begin(rt, start..end),
            _ => Ok(BlockMap::new(rt.alloc(), start..end)?),
        }
    }

    // Returns whether a map that the target has can tell of these blocks too.
    fn can_keep(&self, map: &BlockMap, blocks: &Range<u32>) -> bool {
        !self.kind.is_whole() && map.covers(blocks) && self.holds(map)
    }

    // Returns what the file of the map holds. A named one may tell of an incomplete copy that will be replaced.
    fn former_map(&self, rt: &HostRuntime) -> Result<FormerMap, FileFault> {
        if self.kind.has_part() && part_of(&self.copy).found(rt)?.is_some() {
            return Ok(FormerMap::Void);
        }
        Ok(match self.map.read_if_map(rt)? {
            Some(map) => FormerMap::Kept(map),
            None => FormerMap::None,
        })
    }

    // Lets no map that isn't named claim one of these blocks, which will be written.
    fn disclaim_unnamed(&self, rt: &HostRuntime, blocks: Range<u32>) -> Result<(), FileFault> {
        let unnamed = Copy {
            map: None,
            ..self.copy
        };
        let map = MapFile::of(&unnamed, self.kind);
        if self.map.is_named() && self.map.is_same(rt, &map)? {
            return Ok(());
        }
        if self.kind.has_part() {
            return remove_part_map(rt, &self.copy);
        }
        map.disclaim(rt, blocks)?;
        Ok(())
    }

    /// Begins a copy that has no map and can't be resumed. Before anything else is changed, no map on the disk claims one
    /// of its blocks any more.
    pub(crate) fn begin_unmapped<'r>(
        mut self,
        rt: &'r HostRuntime,
    ) -> Result<BegunCopy<'r, 'w>, FileFault> {
        let (start, end) = match self.copy.blocks {
            Some(range) => (range.start, range.end),
            None => (0, u32::MAX),
        };
        match self.disclaim_unnamed(rt, start..end) {
            Err(fault) if self.kind == TargetKind::Overwrite && fault.forbids_names() => {
                self.stay_in_place();
                self.disclaim_unnamed(rt, start..end)?;
            }
            disclaimed => disclaimed?,
        }
        let map = BlockMap::new(rt.alloc(), start..end)?;
        self.into_begun(rt, map)
    }

    // Lets an existing target have its own name while it is incomplete.
    fn stay_in_place(&mut self) {
        self.kind = TargetKind::InPlace;
        self.map = MapFile::of(&self.copy, self.kind);
    }

    // Makes the target, whose map is saved.
    fn into_begun<'r>(
        mut self,
        rt: &'r HostRuntime,
        map: BlockMap,
    ) -> Result<BegunCopy<'r, 'w>, FileFault> {
        let failures = Failures::none(rt.alloc())?;
        let file = self.make_or_restore(rt)?;
        let handle = FileRole::Target.of_call(file.handle())?;
        let target = self.into_target(rt, handle, failures);
        Ok(BegunCopy { target, file, map })
    }

    // Returns the target of a copy that begins, with a handle of its file.
    fn into_target<'r>(
        self,
        rt: &'r HostRuntime,
        file: File,
        failures: Failures,
    ) -> CopyTarget<'r, 'w> {
        let CheckedTarget {
            copy,
            kind,
            map,
            former,
            keeps_map,
            ..
        } = self;
        CopyTarget {
            rt,
            copy,
            kind,
            map,
            former,
            keeps_map,
            file,
            failures,
            copied: Cell::new(0),
            stage: Cell::new(Stage::Copying),
            lasts: Cell::new(false),
        }
    }

    // Makes the target. If that fails, lets the map be as it was.
    fn make_or_restore(&mut self, rt: &HostRuntime) -> Result<TargetFile, FileFault> {
        let made = self.make(rt);
        if made.is_err() && !self.kind.resumes() {
            self.map.restore(rt, &self.former)?;
        }
        made
    }

    // Makes a new target, empties one that an earlier copy left, or gives an existing one its other name.
    fn make(&mut self, rt: &HostRuntime) -> Result<TargetFile, FileFault> {
        let part = part_of(&self.copy).path(rt.alloc())?;
        match self.existing.take() {
            Some(file) => self.prepare(rt, file, part.as_str()),
            None => opened(
                &target_of(&self.copy),
                TargetFile::create(rt, part.as_str()),
            ),
        }
    }

    // Empties a file that an earlier copy left, or gives an existing target its other name.
    fn prepare(
        &mut self,
        rt: &HostRuntime,
        mut file: TargetFile,
        part: &str,
    ) -> Result<TargetFile, FileFault> {
        match self.kind {
            TargetKind::New => FileRole::Target.of_call(file.empty())?,
            TargetKind::Overwrite => self.give_part_name(rt, part)?,
            _ => {}
        }
        Ok(file)
    }

    // Gives an existing target its other name. It keeps its own one if its folder permits no other.
    fn give_part_name(&mut self, rt: &HostRuntime, part: &str) -> Result<(), FileFault> {
        let to = self.copy.to.path;
        match FileRole::Target.of_call(fs::rename(rt, to, part)) {
            Ok(()) => FileRole::Target.of_call(lasting::sync_renamed(rt, to, part)),
            Err(fault) if fault.forbids_names() => self.keep_name(rt),
            Err(fault) => Err(fault),
        }
    }

    // Lets an existing target keep its own name. So its map has another name too.
    fn keep_name(&mut self, rt: &HostRuntime) -> Result<(), FileFault> {
        if !self.map.is_named() {
            remove_old_part_map(rt, &self.copy)?;
        }
        self.stay_in_place();
        if !self.map.is_named() {
            self.former = self.former_map(rt)?;
        }
        self.disclaim_unnamed(rt, 0..u32::MAX)
    }
}

/// A copy whose target may be written now.
#[derive(Drop)]
pub(crate) struct BegunCopy<'r, 'w> {
    /// The target.
    pub(crate) target: CopyTarget<'r, 'w>,
    /// The file of the target.
    pub(crate) file: TargetFile,
    /// The map.
    pub(crate) map: BlockMap,
}

/// The target of a copy, and how far the copy is.
#[derive(Drop)]
pub(crate) struct CopyTarget<'r, 'w> {
    rt: &'r HostRuntime,
    copy: Copy<'w>,
    kind: TargetKind,
    map: MapFile<'w>,
    former: FormerMap,
    keeps_map: bool,
    file: File,
    /// The failures of the file.
    pub(crate) failures: Failures,
    /// The number of blocks that were copied.
    pub(crate) copied: Cell<u32>,
    stage: Cell<Stage>,
    // Whether the name of the file is on the disk. It is before the first map that claims a block.
    lasts: Cell<bool>,
}

// How far a copy is.
#[derive(Clone, Copy, PartialEq, Eq)]
enum Stage {
    // Its blocks are copied.
    Copying,
    // Its blocks are copied. They are compared or synced, so it isn't known whether they are right.
    Checking,
    // It has its own name.
    Named,
}

/// What can be done after a copy ended early.
#[derive(Clone, Copy, PartialEq, Eq)]
pub(crate) enum Resumption {
    /// It can't be resumed.
    Impossible,
    /// It can be resumed.
    Possible,
    /// It can be resumed, but ends at the same block again unless it continues after blocks that can't be read.
    Continuing,
    /// It can be resumed, but overwrites the target only with `--force`.
    Forced,
}

impl Resumption {
    // Returns the text that follows that of the incomplete copy.
    fn text(self) -> &'static str {
        match self {
            Resumption::Impossible => "",
            Resumption::Possible => "; --resume goes on with it",
            Resumption::Continuing =>
                "; --resume goes on with it, and --continue skips blocks that can't be read",
            Resumption::Forced => "; --resume --force goes on with it",
        }
    }
}

impl<'r, 'w> CopyTarget<'r, 'w> {
    /// Returns what the copy does with the target.
    pub(crate) fn kind(&self) -> TargetKind {
        self.kind
    }

    /// Returns the names of the map.
    pub(crate) fn map(&self) -> &MapFile<'w> {
        &self.map
    }

    /// Returns whether the map is saved from time to time, and not only if blocks are lost.
    pub(crate) fn saves_maps(&self) -> bool {
        self.kind.has_part() || self.map.is_named()
    }

    /// Returns whether the map is saved when the copy ends: if it was named, or if it tells of other blocks too.
    pub(crate) fn leaves_map(&self) -> bool {
        self.map.is_named() || self.keeps_map || self.kind == TargetKind::LostBlocks
    }

    /// Prints what an interrupt leaves of the copy, if standard error is a terminal.
    pub(crate) fn announce(&self, is_resumable: bool) -> Result<(), FileFault> {
        if !self.rt.stderr().is_terminal() {
            return Ok(());
        }
        let path = name_of(&self.copy, self.kind).path(self.rt.alloc())?;
        let name = EscapedName(path.as_str());
        let again = if is_resumable && (self.saves_maps() || self.kind.resumes()) {
            "; then the same command with --resume goes on"
        } else if self.copy.device.is_some() {
            "; then the copy has to begin anew"
        } else {
            "; then the copy has to begin anew, with --force"
        };
        let _ = eprintln!(self.rt; "uda50: an interrupt leaves the incomplete copy {name}{again}");
        Ok(())
    }

    /// Puts all that was written on the disk, with a length of at least that many blocks.
    pub(crate) fn sync(&self, blocks: u32) -> Result<(), FileFault> {
        let found = FileRole::Target.of_call(self.file.metadata())?;
        if found.is_file() && found.len() < 512 * u64::from(blocks) {
            FileRole::Target.of_call(set_blocks(&self.file, blocks))?;
        }
        if let Err(error) = self.file.sync_data() {
            self.stage.set(Stage::Checking);
            return Err(FileRole::Target.fault(Reason::Image(ImageReason::SyncFailed(error))));
        }
        Ok(())
    }

    /// Puts the name of the file on the disk, after its content. Then a map may claim its blocks.
    pub(crate) fn sync_name(&self) -> Result<(), FileFault> {
        let path = self.copy.to.path;
        if !self.lasts.get() && self.kind.has_part() {
            FileRole::Target.of_call(lasting::sync_folder(self.rt, path))?;
        }
        self.lasts.set(true);
        Ok(())
    }

    /// Gives the target the length of the source, if all blocks are copied, and begins to check it.
    pub(crate) fn set_length(&self, blocks: u32) -> Result<(), FileFault> {
        self.stage.set(Stage::Checking);
        if self.kind.is_whole() {
            FileRole::Target.of_call(set_blocks(&self.file, blocks))?;
        }
        Ok(())
    }

    /// Notes that the blocks are right.
    pub(crate) fn note_checked(&self) {
        self.stage.set(Stage::Copying);
    }

    /// Fails if somebody else has made a file with the target's own name. It is overwritten only with `--force`.
    pub(crate) fn check_name(&self) -> Result<(), FileFault> {
        let path = self.copy.to.path;
        let is_new = matches!(self.kind, TargetKind::New | TargetKind::Resume);
        if is_new && !self.copy.force && fs::symlink_metadata(self.rt, path).is_ok() {
            return Err(FileRole::Target.fault(Reason::Exists));
        }
        Ok(())
    }

    /// Gives a complete target its own name. Before that no map tells of what had this name, unless this copy saved it.
    pub(crate) fn complete(&self, saved_map: bool) -> Result<(), FileFault> {
        self.check_name()?;
        if self.kind.is_whole() && (self.map.is_named() || !saved_map) {
            self.map.retire(self.rt, &self.copy)?;
        }
        self.give_name()
    }

    // Gives the target its own name.
    fn give_name(&self) -> Result<(), FileFault> {
        let path = self.copy.to.path;
        if self.has_part_name() {
            let part = part_of(&self.copy).path(self.rt.alloc())?;
            FileRole::Target.of_call(fs::rename(self.rt, part.as_str(), path))?;
            self.stage.set(Stage::Named);
            FileRole::Target.of_call(lasting::sync_folder(self.rt, path))?;
        }
        self.stage.set(Stage::Named);
        Ok(())
    }

    /// Removes the map of the incomplete copy, after the target got its own name.
    pub(crate) fn discard_part_map(&self) -> Result<(), FileFault> {
        match self.kind {
            TargetKind::LostBlocks if self.map.is_named() => Ok(()),
            TargetKind::LostBlocks => remove_old_part_map(self.rt, &self.copy),
            _ => self.map.discard(self.rt),
        }
    }

    // Returns whether the target has its other name.
    fn has_part_name(&self) -> bool {
        self.kind.has_part() && self.stage.get() != Stage::Named
    }

    /// Ends a copy of these blocks after a fault, which it prints. Undoes what was made of a target on which nothing was
    /// copied, and prints what is left of any other.
    pub(crate) fn abandon(
        &self,
        fault: FileFault,
        blocks: Range<u32>,
        resumption: Resumption,
    ) -> Result<Outcome, FileFault> {
        fault.named(&self.copy).print(self.rt);
        self.leave(blocks, resumption)?;
        Ok(Outcome::FaultReported)
    }

    // Undoes what was made of a target on which nothing was copied. Prints what is left of any other.
    fn leave(&self, blocks: Range<u32>, resumption: Resumption) -> Result<(), FileFault> {
        if self.is_untouched() {
            return self.undo();
        }
        match self.stage.get() {
            Stage::Copying => self.print_rest(resumption),
            Stage::Checking => {
                self.map.forget(self.rt, blocks)?;
                self.print_rest(Resumption::Impossible)
            }
            Stage::Named => Ok(()),
        }
    }

    /// Returns whether the copy can be resumed if it ends now.
    pub(crate) fn is_resumable(&self) -> bool {
        self.stage.get() == Stage::Copying && !self.is_untouched()
    }

    // Returns whether the target is as it was before: a new one if no block was copied, and an existing one if it was
    // not written.
    fn is_untouched(&self) -> bool {
        match self.kind {
            TargetKind::New => self.copied.get() == 0,
            TargetKind::Overwrite | TargetKind::InPlace => {
                let is_copying = self.stage.get() == Stage::Copying;
                is_copying && !self.lasts.get() && !self.failures.was_written()
            }
            _ => false,
        }
    }

    // Removes a new target, or gives an existing one its own name, and lets the map be as it was.
    fn undo(&self) -> Result<(), FileFault> {
        let part = part_of(&self.copy).path(self.rt.alloc())?;
        match self.kind {
            TargetKind::New => drop(fs::remove_file(self.rt, part.as_str())),
            _ => self.give_name()?,
        }
        self.map.restore(self.rt, &self.former)
    }

    // Prints a line that names the incomplete copy, or how lost blocks can be skipped.
    fn print_rest(&self, resumption: Resumption) -> Result<(), FileFault> {
        let path = EscapedName(self.copy.to.path);
        let is_in_place = self.copy.device.is_some() || self.kind == TargetKind::InPlace;
        if is_in_place && self.failures.was_written() {
            let _ = eprintln!(self.rt; "uda50: {path}: is the incomplete copy");
        }
        if self.kind == TargetKind::LostBlocks && resumption == Resumption::Continuing {
            let _ = eprintln!(self.rt; "uda50: {path}: --continue skips blocks that can't be read");
        }
        if self.has_part_name() {
            let part = part_of(&self.copy).path(self.rt.alloc())?;
            let part = EscapedName(part.as_str());
            let _ = eprintln!(self.rt;
                "uda50: {part}: is the incomplete copy{}",
                resumption.text()
            );
        }
        Ok(())
    }
}

// Returns whether `--device` names another file than the target.
fn names_other(copy: &Copy<'_>) -> bool {
    match copy.device {
        Some(device) => device != copy.to.path,
        None => false,
    }
}

// Returns the name of a target.
fn target_of<'w>(copy: &Copy<'w>) -> CopyName<'w> {
    CopyName::argument(FileRole::Target, copy.to.path)
}

// Returns the name of a target while it is incomplete.
fn part_of<'w>(copy: &Copy<'w>) -> CopyName<'w> {
    CopyName::derived(copy.to.path, Suffix::Part)
}

// Returns the name that a target has during a copy.
fn name_of<'w>(copy: &Copy<'w>, kind: TargetKind) -> CopyName<'w> {
    if kind.has_part() {
        part_of(copy)
    } else {
        target_of(copy)
    }
}

// Fails if the source is the target of the copy, complete or not.
fn check_source<'w>(rt: &HostRuntime, copy: &Copy<'w>) -> Result<(), FileFault> {
    let source = CopyName::argument(FileRole::Source, copy.from.path);
    let target = target_of(copy);
    if source.is_same(rt, &target)? || source.is_same(rt, &part_of(copy))? {
        return Err(FileRole::Target.fault(Reason::Target(TargetReason::SameFile)));
    }
    Ok(())
}

// Fails if a copy over an existing target saved its first map, or began to, and ended before that got its other name. The
// target is then one of an earlier copy, and so is its map.
fn check_begun<'w>(rt: &HostRuntime, copy: &Copy<'w>) -> Result<(), FileFault> {
    if copy.map.is_some() || MapFile::of_target(copy).read(rt)?.is_none() {
        return Ok(());
    }
    let is_begun = match MapFile::of_incomplete(copy).read(rt) {
        Ok(Some(map)) => map.finished_end() == 0,
        _ => has_new_part_map(rt, copy)?,
    };
    match is_begun {
        true => Err(FileRole::Target.fault(Reason::Target(TargetReason::NotBegun))),
        false => Ok(()),
    }
}

// Fails if an existing target is a device that `--device` doesn't name, or none that it names.
fn check_device(copy: &Copy<'_>, is_device: bool) -> Result<(), Reason> {
    match (is_device, copy.device) {
        (true, None) => Err(Reason::Target(TargetReason::Device)),
        (false, Some(_)) => Err(Reason::Target(TargetReason::NoDevice)),
        _ => Ok(()),
    }
}

// Fails if a copy may not overwrite an existing target that is no device.
fn check_overwritten<'w>(
    rt: &HostRuntime,
    copy: &Copy<'w>,
    metadata: &Metadata,
    tries_lost: bool,
) -> Result<(), FileFault> {
    check_part(rt, copy, metadata)?;
    FileRole::Target.of(check_existing(copy.force || tries_lost, metadata))
}

// Fails if a copy over a whole target would replace a file with its other name that isn't an incomplete copy. Without
// `--force` it replaces none.
fn check_part<'w>(rt: &HostRuntime, copy: &Copy<'w>, metadata: &Metadata) -> Result<(), FileFault> {
    let is_overwritten = copy.blocks.is_none() && !copy.resumes && metadata.is_file();
    if !is_overwritten || part_of(copy).found(rt)?.is_none() {
        return Ok(());
    }
    if !has_part_map(rt, copy)? && !has_named_part_map(rt, copy)? {
        return Err(part_of(copy).fault(Reason::Target(TargetReason::NoPart)));
    }
    match copy.force {
        true => Ok(()),
        false => Err(FileRole::Target.fault(Reason::Target(TargetReason::BothExist))),
    }
}

// Returns whether there is a named map that tells of the incomplete copy.
fn has_named_part_map<'w>(rt: &HostRuntime, copy: &Copy<'w>) -> Result<bool, FileFault> {
    let map = MapFile::of_incomplete(copy);
    Ok(copy.map.is_some() && map.read_if_map(rt)?.is_some() && map.tells_of_part(rt)?)
}

// Fails if the folder of a new target isn't there.
fn check_folder<'w>(rt: &HostRuntime, path: &'w str) -> Result<(), FileFault> {
    let folder = FileRole::Target.of_call(fs::metadata(rt, lasting::folder_of(path)))?;
    match folder.is_dir() {
        true => Ok(()),
        false => Err(FileRole::Target.fault(Reason::NoSuchFile)),
    }
}

// Returns whether a map has these blocks, and no others.
fn is_of(map: &BlockMap, blocks: &Range<u32>) -> bool {
    map.covers(blocks) && map.start() == blocks.start && map.end() == blocks.end
}

// Returns the fault of the first map of a new target. If the system doesn't make that file, it is a fault of the target.
fn of_folder(fault: FileFault) -> FileFault {
    match fault.reason {
        Reason::NoSuchFile | Reason::PermissionDenied | Reason::System(_)
            if fault.suffix == Suffix::PartMap => { FileRole::Target.fault(fault.reason) }
        reason => FileFault { reason, ..fault },
    }
}

// Opens the file of a target that exists already, under the name that it has now.
fn open_existing<'w>(
    rt: &HostRuntime,
    copy: &Copy<'w>,
    kind: TargetKind,
    blocks: &Range<u32>,
) -> Result<Option<TargetFile>, FileFault> {
    match kind {
        TargetKind::New => part_to_empty(rt, copy, blocks),
        TargetKind::Resume => Ok(Some(open_part(rt, copy)?)),
        TargetKind::Overwrite | TargetKind::InPlace => {
            if part_of(copy).found(rt)?.is_some() {
                drop(open_part(rt, copy)?);
            }
            let file = TargetFile::open(rt, copy.to.path, Access::Write);
            Ok(Some(opened(&target_of(copy), file)?))
        }
        TargetKind::Blocks | TargetKind::LostBlocks | TargetKind::Device => {
            Ok(Some(open_with_blocks(rt, copy, kind, blocks.end)?))
        }
    }
}

// Opens what an earlier copy left of a new target. It will be emptied, and that needs `--force`. If it is one of the same
// blocks, it can be resumed.
fn part_to_empty<'w>(
    rt: &HostRuntime,
    copy: &Copy<'w>,
    blocks: &Range<u32>,
) -> Result<Option<TargetFile>, FileFault> {
    if part_of(copy).found(rt)?.is_none() {
        return Ok(None);
    }
    if copy.force {
        return Ok(Some(open_part(rt, copy)?));
    }
    let reason = match MapFile::of_incomplete(copy).read(rt) {
        Ok(Some(map)) if is_of(&map, blocks) && !copy.from.is_stream() => Reason::Target(
            TargetReason::PartExists,
        ),
        _ => Reason::Target(TargetReason::PartWithoutMap),
    };
    Err(part_of(copy).fault(reason))
}

// Opens what an earlier copy left of a target.
fn open_part<'w>(rt: &HostRuntime, copy: &Copy<'w>) -> Result<TargetFile, FileFault> {
    let part = part_of(copy);
    let path = part.path(rt.alloc())?;
    part.found(rt)?;
    opened(&part, TargetFile::open(rt, path.as_str(), Access::Write))
}

// Returns an open target, or the fault of one that can't be opened.
fn opened<'w>(
    name: &CopyName<'w>,
    file: Result<TargetFile, OpenError>,
) -> Result<TargetFile, FileFault> {
    match file {
        Ok(file) => Ok(file),
        Err(error) => Err(name.fault(reason(error))),
    }
}

// Opens a target that keeps its length. It must have all blocks of the copy, unless lost blocks are tried of a file that
// another program left too short.
fn open_with_blocks<'w>(
    rt: &HostRuntime,
    copy: &Copy<'w>,
    kind: TargetKind,
    end: u32,
) -> Result<TargetFile, FileFault> {
    let access = if copy.device.is_some() {
        Access::WriteDevice
    } else {
        Access::Write
    };
    let file = opened(&target_of(copy), TargetFile::open(rt, copy.to.path, access))?;
    let becomes_longer = copy.device.is_none()
        && copy.blocks.is_none()
        && kind == TargetKind::LostBlocks;
    if becomes_longer && file.bytes() < 512 * u64::from(end) {
        return Ok(file);
    }
    let blocks = match file.whole_blocks() {
        Ok(blocks) => blocks,
        Err(error) => return Err(FileRole::Target.fault(reason(error))),
    };
    match copy.blocks.or(BlockRange::between(0, end)) {
        Some(range) if end > blocks => Err(FileRole::Target.fault(Reason::Image(
            ImageReason::PastEnd { range, blocks },
        ))),
        _ => Ok(file),
    }
}
