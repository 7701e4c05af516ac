//! The file with the map of a copy.
//!
//! A map on the disk claims no block that isn't on the disk. So a map is saved only after the target was synced, and it
//! is written to a new file, which is synced before it takes the place of the old map.

use crate::fault::Suffix;
use crate::file_fault::{FileFault, FileRole};
use crate::lasting;
use crate::names::{CopyName, last_of};
use crate::reason::{MapReason, Reason, TargetReason};
use crate::target::TargetKind;
use std::alloc::AllocError;
use std::fs::{File, OpenFile};
use std::io::{ErrorKind, Read};
use std::ops::Range;
use std::{fs, io};
use uda50_arguments::Copy;
use uda50_copy::{BlockMap, BlockStatus};
use uda50_show::EscapedName;

/// The beginning of each map that `uda50` writes.
const BEGINNING: &str = "# Mapfile. Created by uda50\n";

/// The beginning of the last line of a named map that tells of a file whose name ends in `.part`.
const OF_PART: &str = "# Blocks of the ";

/// What a map tells of.
#[derive(Clone, Copy)]
enum Subject {
    // The target with its own name. No line of the map says otherwise.
    Target,
    // The incomplete copy.
    Incomplete,
    // The complete copy, before it got its own name.
    Complete,
    // The copy of another target.
    Other,
}

impl Subject {
    // Returns the last line of a map of a target, or an empty text.
    fn line(self, rt: &HostRuntime, target: &str) -> Result<String, AllocError> {
        let state = match self {
            Subject::Incomplete => "incomplete",
            Subject::Complete => "complete",
            Subject::Target | Subject::Other => return Ok(String::new(rt.alloc())),
        };
        let name = EscapedName(last_of(target));
        format!(in rt.alloc(); "{OF_PART}{state} copy {name}.part\n")
    }
}

/// The names of the map of a copy.
#[derive(Clone, Copy)]
pub(crate) struct MapFile<'w> {
    // The name during the copy, and afterwards.
    during: CopyName<'w>,
    afterwards: CopyName<'w>,
    // The target, and whether it has another name during the copy, which ends in `.part`.
    target: &'w str,
    is_of_part: bool,
}

impl<'w> MapFile<'w> {
    /// Returns the names of the map of a copy, whose target may have another name during the copy.
    pub(crate) fn of(copy: &Copy<'w>, kind: TargetKind) -> MapFile<'w> {
        if kind.has_part() {
            MapFile::of_incomplete(copy)
        } else {
            MapFile::of_target(copy)
        }
    }

    /// Returns the names of the map of an incomplete copy, which has another name than the target.
    pub(crate) fn of_incomplete(copy: &Copy<'w>) -> MapFile<'w> {
        MapFile {
            is_of_part: true,
            ..MapFile::named_or(copy, part_map_of(copy))
        }
    }

    /// Returns the name of the map of a target that has its own name.
    pub(crate) fn of_target(copy: &Copy<'w>) -> MapFile<'w> {
        MapFile::named_or(copy, map_of(copy))
    }

    // Returns the name that `--map` gives to the map, or the names that are made from that of the target: this one during
    // the copy.
    fn named_or(copy: &Copy<'w>, during: CopyName<'w>) -> MapFile<'w> {
        match copy.map {
            Some(path) => MapFile {
                during: CopyName::argument(FileRole::Map, path),
                afterwards: CopyName::argument(FileRole::Map, path),
                target: copy.to.path,
                is_of_part: false,
            },
            None => MapFile {
                during,
                afterwards: map_of(copy),
                target: copy.to.path,
                is_of_part: false,
            },
        }
    }

    /// Returns whether the map was named.
    pub(crate) fn is_named(&self) -> bool {
        self.afterwards.suffix == Suffix::None
    }

    /// Fails if a file that is no map would be replaced by the map, or a file of the copy. Without `--force`, a copy that
    /// begins replaces no map of an earlier one.
    pub(crate) fn check(
        &self,
        rt: &HostRuntime,
        copy: &Copy<'w>,
        kind: TargetKind,
    ) -> Result<(), FileFault> {
        self.check_names(rt, copy)?;
        if self.is_named() && self.during.is_same_place(rt, &part_map_of(copy))? {
            return Err(self.fault(Reason::Map(MapReason::OfPart)));
        }
        self.check_replaced(rt, copy, kind)?;
        match copy.force {
            true => Ok(()),
            false => self.check_earlier(rt, copy, kind),
        }
    }

    // Fails if a file that is no map would be replaced by the map.
    fn check_replaced(
        &self,
        rt: &HostRuntime,
        copy: &Copy<'w>,
        kind: TargetKind,
    ) -> Result<(), FileFault> {
        if kind.has_part() {
            check_replaceable(rt, &part_map_of(copy))?;
        }
        if copy.resumes && self.is_named() || kind == TargetKind::LostBlocks {
            read_map(rt, &self.afterwards)?;
        }
        if leaves_map(copy) || kind == TargetKind::LostBlocks {
            check_replaceable(rt, &self.afterwards)?;
        }
        Ok(())
    }

    // Fails if a copy that begins would replace the map of an earlier one.
    fn check_earlier(
        &self,
        rt: &HostRuntime,
        copy: &Copy<'w>,
        kind: TargetKind,
    ) -> Result<(), FileFault> {
        if leaves_map(copy) && !copy.resumes && self.afterwards.found(rt)?.is_some() {
            return Err(self.afterwards.fault(Reason::Exists));
        }
        match kind {
            TargetKind::New => check_no_map_of(rt, copy.to.path),
            _ => Ok(()),
        }
    }

    // Fails if a map has the name of an image of the copy.
    fn check_names(&self, rt: &HostRuntime, copy: &Copy<'w>) -> Result<(), FileFault> {
        let images = [
            CopyName::argument(FileRole::Source, copy.from.path),
            CopyName::argument(FileRole::Target, copy.to.path),
            CopyName::derived(copy.to.path, Suffix::Part),
        ];
        for map in [
            self.during,
            self.afterwards,
            part_map_of(copy),
            map_of(copy),
        ] {
            check_images(rt, &map, &images)?;
            check_images(rt, &new_of(&map), &images)?;
        }
        Ok(())
    }

    /// Saves the first map of a copy that begins: no block is copied. So none on the disk claims a block any more. If there
    /// was none, also of a target with its own name, the first one need not last.
    pub(crate) fn begin(
        &self,
        rt: &HostRuntime,
        blocks: Range<u32>,
    ) -> Result<BlockMap, FileFault> {
        let map = BlockMap::new(rt.alloc(), blocks)?;
        let lasts = self.during.found(rt)?.is_some() || self.read_afterwards(rt)?.is_some();
        let text = self.text(rt, &map, Subject::Incomplete)?;
        write_map(rt, &self.during, text.as_str(), lasts)?;
        Ok(map)
    }

    /// Lets the map claim none of these blocks, which will be written or may not be right. Returns the map, if there is
    /// one of this file.
    pub(crate) fn disclaim(
        &self,
        rt: &HostRuntime,
        blocks: Range<u32>,
    ) -> Result<Option<BlockMap>, FileFault> {
        let Some(mut map) = read_if_map(rt, &self.during)? else {
            return Ok(None);
        };
        if !self.is_of_part && !self.tells_of_target(rt)? {
            return Ok(None);
        }
        map.set(blocks, BlockStatus::NonTried)?;
        self.save(rt, &map)?;
        Ok(Some(map))
    }

    /// Reads the map of a copy that ended early. Returns `None` if there is none.
    pub(crate) fn read(&self, rt: &HostRuntime) -> Result<Option<BlockMap>, FileFault> {
        read_map(rt, &self.during)
    }

    // Reads the map that the target has under its own name. Returns `None` if there is none.
    fn read_afterwards(&self, rt: &HostRuntime) -> Result<Option<BlockMap>, FileFault> {
        read_if_map(rt, &self.afterwards)
    }

    /// Reads the map that a copy will replace. Returns `None` if there is none, or another file.
    pub(crate) fn read_if_map(&self, rt: &HostRuntime) -> Result<Option<BlockMap>, FileFault> {
        read_if_map(rt, &self.during)
    }

    /// Returns whether the map tells of the file whose name ends in `.part`. A named map says so.
    pub(crate) fn tells_of_part(&self, rt: &HostRuntime) -> Result<bool, FileFault> {
        Ok(!self.is_named() || matches!(self.subject(rt)?, Subject::Incomplete | Subject::Complete))
    }

    /// Returns whether the map tells of the target with its own name. If it is one of the complete copy, that has this
    /// name unless it still has the other one.
    pub(crate) fn tells_of_target(&self, rt: &HostRuntime) -> Result<bool, FileFault> {
        let part = CopyName::derived(self.target, Suffix::Part);
        Ok(match self.subject(rt)? {
            Subject::Target => true,
            Subject::Complete => part.found(rt)?.is_none(),
            Subject::Incomplete | Subject::Other => false,
        })
    }

    // Returns what the map tells of, by its text.
    fn subject(&self, rt: &HostRuntime) -> Result<Subject, FileFault> {
        let path = self.during.path(rt.alloc())?;
        let text = self.during.of_call(fs::read_to_string(rt, path.as_str()))?;
        match text.as_str().lines().find(|line| line.starts_with(OF_PART)) {
            Some(line) => Ok(self.subject_of(rt, line)?),
            None => Ok(Subject::Target),
        }
    }

    // Returns what a map tells of whose text has this line.
    fn subject_of(&self, rt: &HostRuntime, line: &str) -> Result<Subject, AllocError> {
        for subject in [Subject::Incomplete, Subject::Complete] {
            let own = subject.line(rt, self.target)?;
            if line.trim_end() == own.as_str().trim_end() {
                return Ok(subject);
            }
        }
        Ok(Subject::Other)
    }

    // Returns the text of a map that tells of this. Only a named one says so.
    fn text(
        &self,
        rt: &HostRuntime,
        map: &BlockMap,
        subject: Subject,
    ) -> Result<String, AllocError> {
        if !self.is_named() || !self.is_of_part {
            return format!(in rt.alloc(); "{map}");
        }
        let line = subject.line(rt, self.target)?;
        format!(in rt.alloc(); "{map}{line}")
    }

    /// Writes the map during a copy.
    pub(crate) fn save(&self, rt: &HostRuntime, map: &BlockMap) -> Result<(), FileFault> {
        let text = self.text(rt, map, Subject::Incomplete)?;
        write_map(rt, &self.during, text.as_str(), true)
    }

    /// Writes the map after a copy. That of the incomplete copy gets the same content before, so that it tells that the
    /// copy was complete if it outlasts the copy.
    pub(crate) fn finish(&self, rt: &HostRuntime, map: &BlockMap) -> Result<(), FileFault> {
        if self.is_moved() {
            self.save(rt, map)?;
        }
        let text = self.text(rt, map, Subject::Complete)?;
        write_map(rt, &self.afterwards, text.as_str(), true)
    }

    /// Forgets that these blocks are copied, since they may not be right.
    pub(crate) fn forget(&self, rt: &HostRuntime, blocks: Range<u32>) -> Result<(), FileFault> {
        if self.is_moved() {
            return remove(rt, &self.during);
        }
        self.disclaim(rt, blocks)?;
        Ok(())
    }

    /// Undoes the map of a copy that is undone. The old one has its unfinished blocks again, but claims none: if the copy
    /// is resumed, it begins. So the first map of a copy over a target that has a map of its own stays.
    pub(crate) fn restore(&self, rt: &HostRuntime, former: &FormerMap) -> Result<(), FileFault> {
        match former {
            FormerMap::Kept(map) => {
                let map = without_claims(rt, map)?;
                let text = format!(in rt.alloc(); "{map}")?;
                write_map(rt, &self.during, text.as_str(), true)
            }
            FormerMap::None | FormerMap::Void if self.is_named() => remove(rt, &self.during),
            FormerMap::Void if self.is_moved() && self.read_afterwards(rt)?.is_none() => {
                remove(rt, &self.during)
            }
            FormerMap::None | FormerMap::Void => Ok(()),
        }
    }

    /// Returns whether the map has the name of another one, during the copy. Another name of the same file is none, since
    /// a map that is saved takes the place of one name.
    pub(crate) fn is_same(
        &self,
        rt: &HostRuntime,
        other: &MapFile<'_>,
    ) -> Result<bool, AllocError> {
        self.during.is_same_place(rt, &other.during)
    }

    // Returns whether the map has one name during the copy, and another one afterwards.
    fn is_moved(&self) -> bool {
        self.during.suffix != self.afterwards.suffix
    }

    /// Lets no map be that of the incomplete copy, after the target got its own name: a named one becomes the target's, and
    /// another one is removed. It need not be so after a loss of power, or if the system fails it.
    pub(crate) fn discard(&self, rt: &HostRuntime) -> Result<(), FileFault> {
        if self.is_moved() {
            let path = self.during.path(rt.alloc())?;
            let _ = fs::remove_file(rt, path.as_str());
        } else if self.is_of_part {
            let _ = self.settle(rt);
        }
        Ok(())
    }

    // Lets the map be that of the target.
    fn settle(&self, rt: &HostRuntime) -> Result<(), FileFault> {
        if let Some(map) = self.read_if_map(rt)? {
            let text = format!(in rt.alloc(); "{map}")?;
            write_map(rt, &self.during, text.as_str(), true)?;
        }
        Ok(())
    }

    /// Removes the map with the target's name, unless it is this map. It tells of what the target was.
    pub(crate) fn retire(&self, rt: &HostRuntime, copy: &Copy<'w>) -> Result<(), FileFault> {
        let name = map_of(copy);
        if self.is_named() && self.afterwards.is_same_place(rt, &name)? {
            return Ok(());
        }
        remove_if_map(rt, &name)
    }

    /// Returns the fault of the map.
    pub(crate) fn fault(&self, reason: Reason) -> FileFault {
        self.during.fault(reason)
    }
}

/// What the file of a map held before a copy that can be undone.
#[derive(Drop)]
pub(crate) enum FormerMap {
    /// It was no map, or there was none.
    None,
    /// It was this map.
    Kept(BlockMap),
    /// It may have been a map of an incomplete copy that isn't there any more. So it isn't restored.
    Void,
}

/// Removes the map of a file that won't be what it was. Returns the map.
pub(crate) fn remove_map_of<'w>(
    rt: &HostRuntime,
    path: &'w str,
) -> Result<Option<BlockMap>, FileFault> {
    let name = CopyName::derived(path, Suffix::Map);
    let map = read_if_map(rt, &name)?;
    if map.is_some() {
        remove(rt, &name)?;
    }
    Ok(map)
}

/// Saves the map of a file that is as it was.
pub(crate) fn restore_map_of<'w>(
    rt: &HostRuntime,
    path: &'w str,
    map: &BlockMap,
) -> Result<(), FileFault> {
    let text = format!(in rt.alloc(); "{map}")?;
    write_map(
        rt,
        &CopyName::derived(path, Suffix::Map),
        text.as_str(),
        true,
    )
}

/// Removes the map of an incomplete copy that begins anew without a map of that name.
pub(crate) fn remove_part_map<'w>(rt: &HostRuntime, copy: &Copy<'w>) -> Result<(), FileFault> {
    remove(rt, &part_map_of(copy))
}

/// Removes the map of an incomplete copy that isn't there any more.
pub(crate) fn remove_old_part_map<'w>(rt: &HostRuntime, copy: &Copy<'w>) -> Result<(), FileFault> {
    remove_if_map(rt, &part_map_of(copy))
}

/// Returns whether there is a map of the incomplete copy with the name that is made from that of the target.
pub(crate) fn has_part_map<'w>(rt: &HostRuntime, copy: &Copy<'w>) -> Result<bool, FileFault> {
    Ok(read_if_map(rt, &part_map_of(copy))?.is_some())
}

/// Fails if there is a map of the incomplete copy with the name that is made from that of the target. A copy with a named
/// map would have removed it, so the named one is older.
pub(crate) fn check_no_part_map<'w>(rt: &HostRuntime, copy: &Copy<'w>) -> Result<(), FileFault> {
    match has_part_map(rt, copy)? {
        true => Err(part_map_of(copy).fault(Reason::Map(MapReason::OfPart))),
        false => Ok(()),
    }
}

/// Returns whether a first map of an incomplete copy was begun, and not saved.
pub(crate) fn has_new_part_map<'w>(rt: &HostRuntime, copy: &Copy<'w>) -> Result<bool, FileFault> {
    Ok(new_of(&part_map_of(copy)).found(rt)?.is_some())
}

// Returns a map in which those blocks are lost that aren't finished, and the others are not tried.
fn without_claims<'w>(rt: &HostRuntime, map: &BlockMap) -> Result<BlockMap, FileFault> {
    let mut rest = BlockMap::new(rt.alloc(), map.start()..map.end())?;
    let mut at = map.start();
    for _ in 0..u32::MAX {
        let Some(lost) = map.next_unfinished(at) else {
            break;
        };
        at = lost.end;
        rest.set(lost, BlockStatus::Bad)?;
    }
    Ok(rest)
}

// Removes a file if it is a map.
fn remove_if_map<'w>(rt: &HostRuntime, name: &CopyName<'w>) -> Result<(), FileFault> {
    match read_if_map(rt, name)? {
        Some(_map) => remove(rt, name),
        None => Ok(()),
    }
}

// Removes a file, and syncs its folder. There may be none.
fn remove<'w>(rt: &HostRuntime, name: &CopyName<'w>) -> Result<(), FileFault> {
    let path = name.path(rt.alloc())?;
    name.of_call(lasting::remove(rt, path.as_str()))
}

// Returns the name of the map of an incomplete copy, made from that of the target.
fn part_map_of<'w>(copy: &Copy<'w>) -> CopyName<'w> {
    CopyName::derived(copy.to.path, Suffix::PartMap)
}

// Returns the name of the map of a target, made from its own.
fn map_of<'w>(copy: &Copy<'w>) -> CopyName<'w> {
    CopyName::derived(copy.to.path, Suffix::Map)
}

/// Fails if there is a map of a file that isn't there, and says that blocks of it are copied.
pub(crate) fn check_no_map_of<'w>(rt: &HostRuntime, path: &'w str) -> Result<(), FileFault> {
    let name = CopyName::derived(path, Suffix::Map);
    match read_if_map(rt, &name)? {
        Some(map) if map.finished_end() > 0 => Err(name.fault(Reason::Exists)),
        _ => Ok(()),
    }
}

// Returns whether a copy leaves a map.
fn leaves_map(copy: &Copy<'_>) -> bool {
    copy.skips_lost || copy.map.is_some()
}

// Fails if a file of a map has the name of one of the images.
fn check_images<'w>(
    rt: &HostRuntime,
    name: &CopyName<'w>,
    images: &[CopyName<'w>],
) -> Result<(), FileFault> {
    for image in images {
        if name.is_same(rt, image)? {
            return Err(name.fault(Reason::Map(MapReason::IsImage)));
        }
    }
    Ok(())
}

// Returns the name of the file to which a map is written first.
fn new_of<'w>(map: &CopyName<'w>) -> CopyName<'w> {
    map.with_suffix(map.suffix.of_new())
}

// Fails if there is a file in the place of a map, or of the file to which it is written first, that is none.
fn check_replaceable<'w>(rt: &HostRuntime, name: &CopyName<'w>) -> Result<(), FileFault> {
    for name in [*name, new_of(name)] {
        let is_whole = match name.found(rt)? {
            None => true,
            Some(found) if !found.is_file() => return Err(name.fault(Reason::NotPlain)),
            Some(found) => found.len() == 0 || is_begun(rt, &name)?,
        };
        if !is_whole && read_if_map(rt, &name)?.is_none() {
            return Err(name.fault(Reason::Map(MapReason::NoMap)));
        }
    }
    Ok(())
}

// Returns whether a file begins as a map of `uda50`, whose end may be lost.
fn is_begun<'w>(rt: &HostRuntime, name: &CopyName<'w>) -> Result<bool, FileFault> {
    let path = name.path(rt.alloc())?;
    let mut bytes = [0; BEGINNING.len()];
    let mut file = name.of_call(File::open(rt, path.as_str()))?;
    Ok(file.read_exact(&mut bytes).is_ok() && bytes.as_slice() == BEGINNING.as_bytes())
}

// Reads a map. Returns `None` if there is none.
fn read_map<'w>(rt: &HostRuntime, name: &CopyName<'w>) -> Result<Option<BlockMap>, FileFault> {
    match read_text(rt, name)? {
        Some(text) => read_map_of(rt, name, text.as_str()),
        None => Ok(None),
    }
}

// Reads the text of a map. Returns `None` if there is none.
fn read_text<'w>(rt: &HostRuntime, name: &CopyName<'w>) -> Result<Option<String>, FileFault> {
    name.found(rt)?;
    let path = name.path(rt.alloc())?;
    match lasting::read(rt, path.as_str()) {
        Ok(text) => Ok(text),
        Err(error) => Err(name.fault(reason_of_text(error))),
    }
}

// Returns the reason why the text of a map can't be read.
fn reason_of_text(error: io::Error) -> Reason {
    match error.kind() {
        ErrorKind::InvalidData => Reason::Map(MapReason::NoText),
        _ => Reason::of(error),
    }
}

// Reads the map that a text is.
fn read_map_of<'w>(
    rt: &HostRuntime,
    name: &CopyName<'w>,
    text: &str,
) -> Result<Option<BlockMap>, FileFault> {
    match BlockMap::parse(rt.alloc(), text) {
        Ok(map) => Ok(Some(map)),
        Err(error) => Err(name.fault(Reason::Map(MapReason::Invalid(error)))),
    }
}

// Reads a file if it is a map. Returns `None` if there is none, or if it is a link or another file.
fn read_if_map<'w>(rt: &HostRuntime, name: &CopyName<'w>) -> Result<Option<BlockMap>, FileFault> {
    match read_map(rt, name) {
        Err(
            FileFault {
                reason: Reason::Target(TargetReason::Link)
                | Reason::NotPlain
                | Reason::Map(MapReason::Invalid(_))
                | Reason::Map(MapReason::NoText),
                ..
            },
        ) => Ok(None),
        read => read,
    }
}

// Writes the text of a map to a new file, which then takes the place of the old one. What an interrupted copy left of such
// is removed. If the map is to last, the new file and its folder are synced.
fn write_map<'w>(
    rt: &HostRuntime,
    name: &CopyName<'w>,
    text: &str,
    lasts: bool,
) -> Result<(), FileFault> {
    let path = name.path(rt.alloc())?;
    let new_path = new_of(name).path(rt.alloc())?;
    remove_interrupted(rt, name, new_path.as_str())?;
    name.of_call(lasting::replace(rt, path.as_str(), new_path.as_str(), text, lasts))
}

// Removes what an interrupted copy left of a new map, which has this path.
fn remove_interrupted<'w>(
    rt: &HostRuntime,
    name: &CopyName<'w>,
    new_path: &str,
) -> Result<(), FileFault> {
    let new = new_of(name);
    if new.found(rt)?.is_some() {
        check_replaceable(rt, name)?;
        new.of_call(fs::remove_file(rt, new_path))?;
    }
    Ok(())
}
