//! Where the files of a store are, and how those beside are made.

use super::names::Name;
use std::alloc::Global;
use std::fs::{Files, Metadata, OpenFile, OpenOptions, Permissions};
use std::io;
use std::io::ErrorKind;
use std::os::unix::fs::{MetadataExt, OpenOptionsExt, PermissionsExt};
use std::path::Path;

/// Who may read and write a file that is made where there is no store yet, but for what the process keeps back.
const NEW_MODE: u32 = 0o666;

/// Who may read and write a file before it has the mode of the store's file: its owner.
const OWN_MODE: u32 = 0o600;

/// Which rights of a file are kept.
const RIGHTS: u32 = 0o777;

/// The rights of a group.
const GROUP_RIGHTS: u32 = 0o070;

/// The paths of a store's file, of its journal, of those that are made beside them, of the lock, and of their folder.
#[derive(Drop)]
pub struct Places {
    folder: String,
    store: String,
    store_beside: String,
    journal: String,
    journal_beside: String,
    lock: String,
}

impl Places {
    /// The places of a store's file. A link is followed once, here: all stand beside what it leads to.
    ///
    /// # Errors
    ///
    /// Where the folder isn't there or can't be looked at, where a link leads nowhere, where the path ends with no name, and
    /// where no memory is found.
    pub fn of<R: Files>(files: &R, alloc: Global, path: &str) -> io::Result<Places> {
        let store = resolved(files, alloc, path)?;
        let (folder, name) = parts_of(store.as_str())?;
        Ok(Places {
            folder: String::from_str(alloc, folder)?,
            store_beside: format!(in alloc; "{}/.{}.sfstore-store", folder, name)?,
            journal: format!(in alloc; "{}.journal", store.as_str())?,
            journal_beside: format!(in alloc; "{}/.{}.sfstore-journal", folder, name)?,
            lock: format!(in alloc; "{}.lock", store.as_str())?,
            store,
        })
    }

    /// The path of a file.
    pub fn at(&self, name: Name) -> &str {
        match name {
            Name::Store => self.store.as_str(),
            Name::StoreBeside => self.store_beside.as_str(),
            Name::Journal => self.journal.as_str(),
            Name::JournalBeside => self.journal_beside.as_str(),
        }
    }

    /// The path of the folder.
    pub fn folder(&self) -> &str {
        self.folder.as_str()
    }

    /// The path of the lock.
    pub fn lock(&self) -> &str {
        self.lock.as_str()
    }
}

/// A path with its links followed.
pub(crate) fn resolved<R: Files>(files: &R, alloc: Global, path: &str) -> io::Result<String> {
    match files.canonicalize(alloc, path) {
        Ok(found) => Ok(found.into_string()),
        Err(fault) if fault.kind() == ErrorKind::NotFound => to_come(files, alloc, path),
        Err(fault) => Err(fault),
    }
}

/// The path of a file that isn't there yet, with the links to its folder followed.
fn to_come<R: Files>(files: &R, alloc: Global, path: &str) -> io::Result<String> {
    if found(files.symlink_metadata(path))?.is_some() {
        return Err(io::Error::new(ErrorKind::NotFound, "the link leads nowhere"));
    }
    let (folder, name) = parts_of(path)?;
    let mut place = files.canonicalize(alloc, folder)?;
    place.push(name)?;
    Ok(place.into_string())
}

/// The folder and the name of a file.
pub(crate) fn parts_of(path: &str) -> io::Result<(&str, &str)> {
    let Some(name) = Path::new(path).file_name() else {
        return Err(io::Error::new(ErrorKind::InvalidInput, "the path ends with no name"));
    };
    let folder = match Path::new(path).parent() {
        Some(parent) => parent.as_str(),
        None => "",
    };
    Ok((if folder.is_empty() { "." } else { folder }, name))
}

/// What is known of a file; None where it isn't there.
pub(crate) fn found(looked: io::Result<Metadata>) -> io::Result<Option<Metadata>> {
    match looked {
        Ok(metadata) => Ok(Some(metadata)),
        Err(fault) if fault.kind() == ErrorKind::NotFound => Ok(None),
        Err(fault) => Err(fault),
    }
}

/// Takes away what an earlier process has left under a name.
pub(crate) fn remove_leftover<R: Files>(files: &R, path: &str) -> io::Result<()> {
    match files.remove_file(path) {
        Err(fault) if fault.kind() != ErrorKind::NotFound => Err(fault),
        _ => Ok(()),
    }
}

/// Makes an empty file under a name that nothing has, open for writing and reading. It has the mode and the group of the file `like`;
/// where that isn't there, those of any new file. At no moment has it more rights than that file.
pub(crate) fn made<R: Files>(files: &R, path: &str, like: &str) -> io::Result<R::File> {
    let Some(wanted) = found(files.metadata(like))? else {
        return new_file(files, path, NEW_MODE);
    };
    let file = new_file(files, path, OWN_MODE)?;
    give(files, path, &file, &wanted, wanted.mode() & RIGHTS)?;
    Ok(file)
}

/// Makes an empty file under a name that nothing has, open for writing, and for reading what was written.
fn new_file<R: Files>(files: &R, path: &str, mode: u32) -> io::Result<R::File> {
    OpenOptions::new()
        .read(true)
        .write(true)
        .create_new(true)
        .mode(mode)
        .open(files, path)
}

/// Gives an open file a mode, and the group and, where that can be, the owner of another one. Where the group can't be had
/// it gets no rights: they were meant for another group.
pub(crate) fn give<R: Files>(
    files: &R,
    path: &str,
    file: &R::File,
    like: &Metadata,
    mode: u32,
) -> io::Result<()> {
    let before = file.metadata()?;
    if before.uid() != like.uid() {
        let _ = files.lchown(path, Some(like.uid()), Some(like.gid()));
    }
    if before.gid() != like.gid() {
        let _ = files.lchown(path, None, Some(like.gid()));
    }
    let rights = if file.metadata()?.gid() == like.gid() {
        mode
    } else {
        mode & !GROUP_RIGHTS
    };
    file.set_permissions(Permissions::from_mode(rights))
}

/// Opens a file to read it; None where it isn't there.
///
/// # Errors
///
/// Where it can't be opened, and where a link, a pipe or anything else stands in its place.
pub(crate) fn open_to_read<R: Files>(files: &R, path: &str) -> io::Result<Option<R::File>> {
    match found(files.symlink_metadata(path))? {
        None => Ok(None),
        // A link would lead elsewhere, and who opens a pipe waits for whoever writes to it.
        Some(metadata) if !metadata.is_file() => Err(io::Error::new(
            ErrorKind::InvalidInput,
            "something else stands in the place of a file",
        )),
        Some(_) => Ok(Some(OpenOptions::new().read(true).open(files, path)?)),
    }
}
