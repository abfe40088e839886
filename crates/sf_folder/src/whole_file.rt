//! A file that takes the place of another one when it is whole, and not before.

use super::locking::is_at;
use super::places::{found, made, open_to_read, parts_of, resolved};
use std::alloc::Global;
use std::fs::{File, Files, OpenFile, OpenOptions, TryLockError};
use std::io;
use std::io::ErrorKind;

/// How often a name beside is tried, of which each time another process takes away what stands there.
const TRIES: u32 = 100;

/// Where the system's devices and open files have their names: what is under them is written in place.
const DEVICES: &str = "/dev";

const PROCESSES: &str = "/proc/";

/// A file on its way to its place. It is locked, so that no other process takes it for one that a crash has left.
#[derive(Drop)]
pub struct WholeFile {
    file: File,
    beside: String,
    folder: String,
    place: String,
}

impl WholeFile {
    /// Begins an empty file beside a path, with the mode and the group of the file that is there; links are followed. None
    /// where no file can take the place of what the path names: a pipe, a device, a file that is open under another name
    /// of the system's, a link that leads nowhere.
    ///
    /// # Errors
    ///
    /// Where the folder isn't there or no file can be made in it, and where another process is at the same: then nothing
    /// was changed.
    pub fn begin<R: Files<File = File>>(
        files: &R,
        alloc: Global,
        path: &str,
    ) -> io::Result<Option<WholeFile>> {
        if !can_be_replaced(files, alloc, path)? {
            return Ok(None);
        }
        let place = resolved(files, alloc, path)?;
        let (folder, name) = parts_of(place.as_str())?;
        let beside = format!(in alloc; "{}/.{}.sfstore-save", folder, name)?;
        let folder = String::from_str(alloc, folder)?;
        let file = begun(files, beside.as_str(), place.as_str())?;
        Ok(Some(WholeFile {
            file,
            beside,
            folder,
            place,
        }))
    }

    /// The file, to be written.
    pub fn file(&mut self) -> &mut File {
        &mut self.file
    }

    /// Has the file take its place, once its bytes are on the disk.
    ///
    /// # Errors
    ///
    /// Where the disk fails, and where another process took the file away. Where its bytes could not be synced the old file
    /// stands.
    pub fn finish<R: Files<File = File>>(self, files: &R) -> io::Result<()> {
        if let Err(fault) = self.take_place(files) {
            self.give_up(files);
            return Err(fault);
        }
        let folder = OpenOptions::new()
            .read(true)
            .open(files, self.folder.as_str())?;
        folder.sync_all()
    }

    /// Takes the place of the old file.
    fn take_place<R: Files<File = File>>(&self, files: &R) -> io::Result<()> {
        self.file.sync_all()?;
        if !self.stands(files)? {
            return Err(io::Error::from(ErrorKind::NotFound));
        }
        files.rename(self.beside.as_str(), self.place.as_str())
    }

    /// Takes the file away: the old one stays.
    pub fn give_up<R: Files<File = File>>(self, files: &R) {
        // What can't be taken away now the next save takes away.
        if matches!(self.stands(files), Ok(true)) {
            let _ = files.remove_file(self.beside.as_str());
        }
    }

    /// Whether the file still stands beside.
    fn stands<R: Files<File = File>>(&self, files: &R) -> io::Result<bool> {
        is_at(files, &self.file, self.beside.as_str())
    }
}

/// Whether a file may take the place of what a path names: a regular file, or nothing.
fn can_be_replaced<R: Files>(files: &R, alloc: Global, path: &str) -> io::Result<bool> {
    let (folder, _) = parts_of(path)?;
    let folder = files.canonicalize(alloc, folder)?;
    let folder = folder.as_path().as_str();
    if folder == DEVICES || folder.starts_with(PROCESSES) {
        return Ok(false);
    }
    match found(files.metadata(path))? {
        Some(there) => Ok(there.is_file()),
        None => Ok(found(files.symlink_metadata(path))?.is_none()),
    }
}

/// Makes an empty file under a name, with the mode and the group of another one, and locks it. What a crash has left there
/// goes first; what another process is at stays.
fn begun<R: Files<File = File>>(files: &R, beside: &str, like: &str) -> io::Result<File> {
    for _ in 0..TRIES {
        match made(files, beside, like) {
            Ok(file) if takes_lock(&file)? && is_at(files, &file, beside)? => return Ok(file),
            Ok(_) => {}
            Err(fault) if fault.kind() == ErrorKind::AlreadyExists => {
                remove_left(files, beside)?;
            }
            Err(fault) => return Err(fault),
        }
    }
    Err(io::Error::from(ErrorKind::ResourceBusy))
}

/// Locks a file; false where another process has it locked.
fn takes_lock(file: &File) -> io::Result<bool> {
    match file.try_lock() {
        Ok(()) => Ok(true),
        Err(TryLockError::WouldBlock) => Ok(false),
        Err(TryLockError::Error(fault)) => Err(fault),
    }
}

/// Takes away what stands under a name and no process is at.
///
/// # Errors
///
/// `ResourceBusy` where one is.
fn remove_left<R: Files<File = File>>(files: &R, path: &str) -> io::Result<()> {
    let Some(file) = open_to_read(files, path)? else {
        return Ok(());
    };
    if !takes_lock(&file)? {
        return Err(io::Error::from(ErrorKind::ResourceBusy));
    }
    if is_at(files, &file, path)? {
        files.remove_file(path)?;
    }
    Ok(())
}
