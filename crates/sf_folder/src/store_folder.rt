//! The folder of a store's file on a disk of the system: four files, each under its name.

use super::folder::Folder;
use super::locking::{Lock, is_at};
use super::names::Name;
use super::places::{Places, found, made, open_to_read, remove_leftover};
use super::seen::Seen;
use sf_journal::{FileSum, SumFault, sum_of};
use std::alloc::Global;
use std::fs::{File, Files, OpenFile, OpenOptions};
use std::io;
use std::io::{ErrorKind, Read, Seek, SeekFrom, Write};

/// The first byte of a journal that is being written anew: no journal begins with it.
const UNFINISHED: u8 = b'!';

/// What is known of the store's file: no other program is to have changed it when another file takes its place.
#[derive(Clone, Copy, Debug)]
struct Known {
    /// None where there is no file.
    seen: Option<Seen>,
    /// The sum of its bytes; of no meaning where there is no file.
    sum: FileSum,
}

/// The folder of a store's file. What was begun stays open for writing, also under its next name.
#[derive(Drop)]
pub struct StoreFolder<'a, R: Files> {
    files: &'a R,
    alloc: Global,
    places: Places,
    known: Known,
    store: Option<R::File>,
    store_beside: Option<R::File>,
    journal: Option<R::File>,
    journal_beside: Option<R::File>,
}

impl<'a, R: Files> StoreFolder<'a, R> {
    /// The folder with these places. Nothing is done to it yet, and no file of a store is known there.
    pub fn new(files: &'a R, alloc: Global, places: Places) -> StoreFolder<'a, R> {
        StoreFolder {
            files,
            alloc,
            places,
            known: Known {
                seen: None,
                sum: FileSum {
                    size: 0,
                    digest: [0; 32],
                },
            },
            store: None,
            store_beside: None,
            journal: None,
            journal_beside: None,
        }
    }

    /// The bytes of a file; None where it isn't there.
    ///
    /// # Errors
    ///
    /// Where it can't be read, where a link stands in its place, and where no memory is found.
    pub fn read(&self, name: Name) -> io::Result<Option<Vec<u8>>> {
        let Some(mut file) = open_to_read(self.files, self.places.at(name))? else {
            return Ok(None);
        };
        let mut bytes = Vec::new(self.alloc);
        file.read_to_end(&mut bytes)?;
        Ok(Some(bytes))
    }

    /// Where its files are.
    pub fn places(&self) -> &Places {
        &self.places
    }

    /// From now on the store's file is the one of which that is seen, with this sum.
    pub fn know(&mut self, seen: Seen, sum: FileSum) {
        self.known = Known {
            seen: Some(seen),
            sum,
        };
    }

    /// The store's file is the one that a save has just put there, with this sum.
    pub fn has_saved(&mut self, sum: FileSum) {
        self.known.sum = sum;
    }

    /// Whether that is seen of the store's file that is known.
    pub fn is_known(&self, seen: Seen) -> bool {
        self.known.seen == Some(seen)
    }

    /// Whether the store's file is still the one that is known. Where that can't be known from outside, its bytes are summed.
    ///
    /// # Errors
    ///
    /// Where it can't be looked at or read, and where no memory is found.
    pub fn has_known_store(&mut self) -> io::Result<bool> {
        let path = self.places.at(Name::Store);
        let Some(there) = found(self.files.metadata(path))? else {
            return Ok(self.known.seen.is_none());
        };
        let seen = Some(Seen::of(&there));
        if seen == self.known.seen {
            return Ok(true);
        }
        if self.known.seen.is_none() || self.sum_at(Name::Store)? != Some(self.known.sum) {
            return Ok(false);
        }
        self.known.seen = seen;
        Ok(true)
    }

    /// The sum of a file; None where it isn't there.
    fn sum_at(&self, name: Name) -> io::Result<Option<FileSum>> {
        let Some(mut file) = open_to_read(self.files, self.places.at(name))? else {
            return Ok(None);
        };
        match sum_of(self.alloc, &mut file) {
            Ok(sum) => Ok(Some(sum)),
            Err(SumFault::Memory) => Err(io::Error::from(ErrorKind::OutOfMemory)),
            Err(SumFault::Read) => Err(io::Error::from(ErrorKind::Other)),
        }
    }

    /// Has the journal that was synced under its name: where it was taken away, its bytes are written anew.
    ///
    /// # Errors
    ///
    /// Where another file stands in its place, and where it can't be looked at or written anew.
    pub fn keep_journal(&mut self) -> io::Result<()> {
        let path = self.places.at(Name::Journal);
        let Some(file) = &self.journal else {
            return Err(not_begun());
        };
        if is_at(self.files, file, path)? {
            return Ok(());
        }
        if found(self.files.symlink_metadata(path))?.is_some() {
            return Err(io::Error::new(
                ErrorKind::ResourceBusy,
                "another file stands in the place of the journal",
            ));
        }
        self.write_journal_anew()
    }

    /// Writes the bytes of the journal that is open to a new one under its name. Until all of them are on the disk it begins as no
    /// journal does: where the session is ended before, the next opening refuses it, and takes no part for the whole.
    fn write_journal_anew(&mut self) -> io::Result<()> {
        let bytes = self.journal_bytes()?;
        let Some((first, rest)) = bytes.as_slice().split_first() else {
            return Err(not_begun());
        };
        let file = made(
            self.files,
            self.places.at(Name::Journal),
            self.places.at(Name::Store),
        )?;
        self.keep(Name::Journal, Some(file));
        self.write(Name::Journal, &[UNFINISHED])?;
        self.write(Name::Journal, rest)?;
        self.sync(Name::Journal)?;
        self.sync_folder()?;
        self.finish_journal(*first)
    }

    /// The bytes of the journal that is open, which is so no longer.
    fn journal_bytes(&mut self) -> io::Result<Vec<u8>> {
        let Some(mut file) = self.take(Name::Journal) else {
            return Err(not_begun());
        };
        file.seek(SeekFrom::Start(0))?;
        let mut bytes = Vec::new(self.alloc);
        file.read_to_end(&mut bytes)?;
        Ok(bytes)
    }

    /// Puts the first byte of a journal in its place, once the others are on the disk. What is appended goes behind them.
    fn finish_journal(&mut self, first: u8) -> io::Result<()> {
        let Some(mut file) = self.take(Name::Journal) else {
            return Err(not_begun());
        };
        file.seek(SeekFrom::Start(0))?;
        file.write_all(&[first])?;
        file.seek(SeekFrom::End(0))?;
        file.sync_data()?;
        self.keep(Name::Journal, Some(file));
        Ok(())
    }

    /// What is seen of the file that stands for a name, of the open file and not by its name.
    fn seen(&self, name: Name) -> io::Result<Seen> {
        let file = match name {
            Name::Store => &self.store,
            Name::StoreBeside => &self.store_beside,
            Name::Journal => &self.journal,
            Name::JournalBeside => &self.journal_beside,
        };
        match file {
            Some(file) => Ok(Seen::of(&file.metadata()?)),
            None => Err(not_begun()),
        }
    }

    /// Puts a file in the place of the store's, where that is the one that is known. From then on the new one is: it is seen
    /// as the open file, so that what another program puts there right behind is not taken for it.
    ///
    /// # Errors
    ///
    /// Where another program has changed the store's file, or writes to the new one at once, and where a call fails.
    fn replace_store(&mut self, from: Name) -> io::Result<()> {
        if !self.has_known_store()? {
            return Err(changed());
        }
        let written = self.seen(from)?;
        self.files
            .rename(self.places.at(from), self.places.at(Name::Store))?;
        let there = self.seen(from)?;
        let file = self.take(from);
        self.keep(Name::Store, file);
        if !written.has_bytes_of(&there) {
            return Err(changed());
        }
        self.known.seen = Some(there);
        Ok(())
    }

    /// Has an open file, or none, stand for a name.
    fn keep(&mut self, name: Name, file: Option<R::File>) {
        match name {
            Name::Store => self.store = file,
            Name::StoreBeside => self.store_beside = file,
            Name::Journal => self.journal = file,
            Name::JournalBeside => self.journal_beside = file,
        }
    }

    /// The open file that stands for a name, which it does no longer.
    fn take(&mut self, name: Name) -> Option<R::File> {
        match name {
            Name::Store => self.store.take(),
            Name::StoreBeside => self.store_beside.take(),
            Name::Journal => self.journal.take(),
            Name::JournalBeside => self.journal_beside.take(),
        }
    }
}

impl<'a, R: Files<File = File>> StoreFolder<'a, R> {
    /// Whether the lock still stands under its name.
    ///
    /// # Errors
    ///
    /// Where it can't be looked at.
    pub fn has_lock(&self, lock: &Lock) -> io::Result<bool> {
        lock.stands(self.files, &self.places)
    }
}

/// Nothing was begun under a name.
fn not_begun() -> io::Error {
    io::Error::new(ErrorKind::NotFound, "nothing was begun under this name")
}

/// Another program has changed the store's file. Callers distinguish it from other faults by its kind, which no call of the system
/// here gives.
fn changed() -> io::Error {
    io::Error::new(
        ErrorKind::StaleNetworkFileHandle,
        "another program has changed the store's file",
    )
}

impl<'a, R: Files> Folder for StoreFolder<'a, R> {
    fn begin(&mut self, name: Name) -> io::Result<()> {
        let path = self.places.at(name);
        remove_leftover(self.files, path)?;
        let file = made(self.files, path, self.places.at(Name::Store))?;
        self.keep(name, Some(file));
        Ok(())
    }

    fn write(&mut self, name: Name, bytes: &[u8]) -> io::Result<()> {
        let Some(mut file) = self.take(name) else {
            return Err(not_begun());
        };
        let written = file.write_all(bytes);
        self.keep(name, Some(file));
        written
    }

    fn sync(&mut self, name: Name) -> io::Result<()> {
        let Some(file) = self.take(name) else {
            return Err(not_begun());
        };
        let synced = match name {
            Name::Journal => file.sync_data(),
            Name::Store | Name::StoreBeside | Name::JournalBeside => file.sync_all(),
        };
        self.keep(name, Some(file));
        synced
    }

    fn rename(&mut self, from: Name, to: Name) -> io::Result<()> {
        if to == Name::Store {
            return self.replace_store(from);
        }
        self.files.rename(self.places.at(from), self.places.at(to))?;
        let file = self.take(from);
        self.keep(to, file);
        Ok(())
    }

    fn sync_folder(&mut self) -> io::Result<()> {
        let folder = OpenOptions::new()
            .read(true)
            .open(self.files, self.places.folder())?;
        folder.sync_all()
    }
}
