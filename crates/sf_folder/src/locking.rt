//! The lock of a store: one session at a time.

use super::names::Name;
use super::places::{Places, found, give};
use super::seen::is_same;
use std::fs::{File, Files, OpenFile, OpenOptions, Permissions, TryLockError};
use std::io;
use std::io::ErrorKind;
use std::os::unix::fs::{MetadataExt, OpenOptionsExt, PermissionsExt};

/// Who may read and write the lock of a store that isn't there yet: its owner.
const OWN_MODE: u32 = 0o600;

/// The rights to write.
const WRITE_RIGHTS: u32 = 0o222;

/// The lock of a store, which is held until this is dropped, or the process ends in whatever way.
#[derive(Drop)]
pub struct Lock {
    file: File,
}

/// Takes the lock of a store; None where another session has it. What stands in the lock's file stays as it is.
///
/// # Errors
///
/// Where the lock can't be made or opened, and where a link stands in its place.
pub fn take_lock<R: Files<File = File>>(files: &R, places: &Places) -> io::Result<Option<Lock>> {
    let file = open_lock(files, places.lock())?;
    match file.try_lock() {
        Ok(()) => {}
        Err(TryLockError::WouldBlock) => return Ok(None),
        Err(TryLockError::Error(fault)) => return Err(fault),
    }
    // Another session may have found it taken away, and made the one that counts.
    if !is_at(files, &file, places.lock())? {
        return Ok(None);
    }
    keep_to_writers(files, &file, places)?;
    Ok(Some(Lock { file }))
}

impl Lock {
    /// Whether the lock still stands under its name: where it was taken away, another session may have begun.
    pub fn stands<R: Files<File = File>>(&self, files: &R, places: &Places) -> io::Result<bool> {
        is_at(files, &self.file, places.lock())
    }
}

/// Opens the file of a lock, or makes it for its owner alone.
fn open_lock<R: Files<File = File>>(files: &R, path: &str) -> io::Result<File> {
    if let Some(metadata) = found(files.symlink_metadata(path))? {
        if metadata.is_symlink() {
            return Err(io::Error::new(
                ErrorKind::InvalidInput,
                "a link stands in the place of the lock",
            ));
        }
    }
    OpenOptions::new()
        .read(true)
        .append(true)
        .create(true)
        .mode(OWN_MODE)
        .open(files, path)
}

/// Whether an open file is the one under a path, and no link leads to it.
pub(crate) fn is_at<R: Files>(files: &R, file: &R::File, path: &str) -> io::Result<bool> {
    let open = file.metadata()?;
    match found(files.symlink_metadata(path))? {
        Some(there) => Ok(is_same(&open, &there)),
        None => Ok(false),
    }
}

/// Has only those open the lock who may write the store's file: others could keep all out. Who may not change it leaves it.
fn keep_to_writers<R: Files<File = File>>(
    files: &R,
    file: &File,
    places: &Places,
) -> io::Result<()> {
    let given = match found(files.metadata(places.at(Name::Store)))? {
        None => file.set_permissions(Permissions::from_mode(OWN_MODE)),
        Some(store) => {
            let writers = store.mode() & WRITE_RIGHTS;
            give(
                files,
                places.lock(),
                file,
                &store,
                OWN_MODE | writers | writers << 1,
            )
        }
    };
    match given {
        Err(fault) if fault.kind() != ErrorKind::PermissionDenied => Err(fault),
        _ => Ok(()),
    }
}
