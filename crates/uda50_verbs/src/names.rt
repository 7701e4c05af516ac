//! The names of the files of a copy.

use crate::fault::Suffix;
use crate::file_fault::{FileFault, FileRole};
use crate::lasting::folder_of;
use crate::reason::{Reason, TargetReason};
use std::alloc::{AllocError, Global};
use std::fs::Metadata;
use std::os::unix::fs::MetadataExt;
use std::{fs, io};

/// The most links of which one leads to the next.
const LINKS: u32 = 40;

/// A name that a copy uses: that of an argument, or one that is made from it.
#[derive(Clone, Copy)]
pub(crate) struct CopyName<'w> {
    // The argument, and which one it is.
    base: &'w str,
    role: FileRole,
    /// What follows it.
    pub(crate) suffix: Suffix,
}

impl<'w> CopyName<'w> {
    /// Returns the name of an argument.
    pub(crate) fn argument(role: FileRole, base: &'w str) -> CopyName<'w> {
        CopyName {
            base,
            role,
            suffix: Suffix::None,
        }
    }

    /// Returns the name of a target with a suffix.
    pub(crate) fn derived(target: &'w str, suffix: Suffix) -> CopyName<'w> {
        CopyName {
            base: target,
            role: FileRole::Target,
            suffix,
        }
    }

    /// Returns the name with another suffix.
    pub(crate) fn with_suffix(&self, suffix: Suffix) -> CopyName<'w> {
        CopyName { suffix, ..*self }
    }

    /// Returns the path.
    pub(crate) fn path(&self, alloc: Global) -> Result<String, AllocError> {
        let mut path = String::from_str(alloc, self.base)?;
        path.push_str(self.suffix.text())?;
        Ok(path)
    }

    /// Returns the fault of the file.
    pub(crate) fn fault(&self, reason: Reason) -> FileFault {
        FileFault {
            role: self.role,
            suffix: self.suffix,
            reason,
        }
    }

    /// Returns the result of a call of the system on the file, with the fault if it failed.
    pub(crate) fn of_call<T>(&self, called: io::Result<T>) -> Result<T, FileFault> {
        match called {
            Ok(value) => Ok(value),
            Err(error) => Err(self.fault(Reason::of(error))),
        }
    }

    /// Returns what the file is, if there is one. Fails if the name is that of a link and is made from an argument,
    /// since a copy follows no such link.
    pub(crate) fn found(&self, rt: &HostRuntime) -> Result<Option<Metadata>, FileFault> {
        let path = self.path(rt.alloc())?;
        if self.suffix == Suffix::None {
            return Ok(fs::metadata(rt, path.as_str()).ok());
        }
        match fs::symlink_metadata(rt, path.as_str()) {
            Ok(metadata) if metadata.is_symlink() => Err(self.fault(Reason::Target(
                TargetReason::Link,
            ))),
            found => Ok(found.ok()),
        }
    }

    /// Returns whether both names are of one file: of one that exists, or of one that would be made.
    pub(crate) fn is_same(
        &self,
        rt: &HostRuntime,
        other: &CopyName<'_>,
    ) -> Result<bool, AllocError> {
        let (one, other) = (self.path(rt.alloc())?, other.path(rt.alloc())?);
        Ok(
            is_same_file(rt, one.as_str(), other.as_str())
                || is_same_place(rt, one.as_str(), other.as_str()),
        )
    }

    /// Returns whether both are one name in one folder.
    pub(crate) fn is_same_place(
        &self,
        rt: &HostRuntime,
        other: &CopyName<'_>,
    ) -> Result<bool, AllocError> {
        let (one, other) = (self.path(rt.alloc())?, other.path(rt.alloc())?);
        Ok(is_same_place(rt, one.as_str(), other.as_str()))
    }
}

/// Returns whether two paths are of one file that exists.
pub(crate) fn is_same_file(rt: &HostRuntime, one: &str, other: &str) -> bool {
    match (fs::metadata(rt, one), fs::metadata(rt, other)) {
        (Ok(one), Ok(other)) => one.dev() == other.dev() && one.ino() == other.ino(),
        _ => false,
    }
}

// Returns whether two paths are one name in one folder.
fn is_same_place(rt: &HostRuntime, one: &str, other: &str) -> bool {
    last_of(one) == last_of(other) && is_same_file(rt, folder_of(one), folder_of(other))
}

/// Returns the last name of a path.
pub(crate) fn last_of(path: &str) -> &str {
    match path.rsplit_once('/') {
        Some((_, last)) => last,
        None => path,
    }
}

/// Returns whether a path is that of a link.
pub(crate) fn is_link(rt: &HostRuntime, path: &str) -> bool {
    match fs::symlink_metadata(rt, path) {
        Ok(metadata) => metadata.is_symlink(),
        Err(_error) => false,
    }
}

/// Returns the path to which links lead. The file there need not exist.
pub(crate) fn end_of_links(
    rt: &HostRuntime,
    role: FileRole,
    path: &str,
) -> Result<String, FileFault> {
    let mut end = String::from_str(rt.alloc(), path)?;
    for _ in 0..LINKS {
        if !is_link(rt, end.as_str()) {
            return Ok(end);
        }
        let led = role.of_call(fs::read_link(rt, end.as_str()))?.into_string();
        end = from_folder(rt.alloc(), end.as_str(), led)?;
    }
    Err(role.fault(Reason::Target(TargetReason::LinksInCircle)))
}

// Returns the path of a link's text, which is one from the folder of the link unless it begins with a slash.
fn from_folder(alloc: Global, link: &str, text: String) -> Result<String, AllocError> {
    if text.as_str().starts_with('/') {
        return Ok(text);
    }
    let mut path = String::from_str(alloc, folder_of(link))?;
    path.push_str("/")?;
    path.push_str(text.as_str())?;
    Ok(path)
}
