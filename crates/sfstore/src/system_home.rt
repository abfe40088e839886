//! A store that is kept, on the system's disk: its lock, its files, and the output of its session.

use super::ending::Ending;
use sf_folder::{Folder, Lock, Name, Places, Seen, StoreFolder, take_lock};
use sf_journal::{FileSum, SumFault, sum_of};
use sf_session::{Desk, Home, HomeFault, Opened, WriteFault, run_session};
use sf_streams::{flush, send};
use std::alloc::Global;
use std::fs::{File, Files, OpenFile};
use std::io::{ErrorKind, Read, Seek, SeekFrom, Write};
use std::{fs, io};

/// The lock, once it is taken, the folder of a store's file, and an output.
#[derive(Drop)]
struct SystemHome<'a, R: Files<File = File>, W: Write> {
    files: &'a R,
    alloc: Global,
    folder: StoreFolder<'a, R>,
    // It is held until the run ends.
    lock: Option<Lock>,
    output: W,
}

impl<'a, R: Files<File = File>, W: Write> SystemHome<'a, R, W> {
    /// Whether what was synced is in the journal that the next session reads, and no other session can have begun.
    fn keeps(&mut self) -> bool {
        match &self.lock {
            Some(lock) => {
                matches!(self.folder.has_lock(lock), Ok(true)) && self.folder.keep_journal().is_ok()
            }
            None => false,
        }
    }

    /// The sum of a file that is open, with the file at its beginning. From then on the store's file is known to be this one.
    fn summed(&mut self, file: File) -> Result<Opened<File>, HomeFault> {
        let mut file = file;
        let seen = seen_of(&file)?;
        let sum = sum_of(self.alloc, &mut file).map_err(sum_fault)?;
        if file.seek(SeekFrom::Start(0)).is_err() {
            return Err(HomeFault::Open);
        }
        self.folder.know(seen, sum);
        Ok(Opened { file, sum })
    }
}

impl<'a, R: Files<File = File>, W: Write> Folder for SystemHome<'a, R, W> {
    fn begin(&mut self, name: Name) -> io::Result<()> {
        self.folder.begin(name)
    }

    fn write(&mut self, name: Name, bytes: &[u8]) -> io::Result<()> {
        self.folder.write(name, bytes)
    }

    fn sync(&mut self, name: Name) -> io::Result<()> {
        self.folder.sync(name)
    }

    fn rename(&mut self, from: Name, to: Name) -> io::Result<()> {
        self.folder.rename(from, to)
    }

    fn sync_folder(&mut self) -> io::Result<()> {
        self.folder.sync_folder()
    }
}

impl<'a, R: Files<File = File>, W: Write> Desk for SystemHome<'a, R, W> {
    fn append(&mut self, bytes: &[u8]) -> Result<(), sf_session::AppendFault> {
        self.folder
            .write(Name::Journal, bytes)
            .map_err(|_| sf_session::AppendFault)
    }

    fn sync_journal(&mut self) -> Result<(), sf_session::AppendFault> {
        self.folder
            .sync(Name::Journal)
            .map_err(|_| sf_session::AppendFault)?;
        if self.keeps() {
            Ok(())
        } else {
            Err(sf_session::AppendFault)
        }
    }

    fn answer(&mut self, bytes: &[u8]) -> Result<(), WriteFault> {
        send(&mut self.output, bytes)?;
        flush(&mut self.output)
    }
}

impl<'a, R: Files<File = File> + Eprint, W: Write> Home for SystemHome<'a, R, W> {
    type File = File;

    fn lock(&mut self) -> Result<(), HomeFault> {
        match take_lock(self.files, self.folder.places()) {
            Ok(Some(lock)) => {
                self.lock = Some(lock);
                Ok(())
            }
            Ok(None) => Err(HomeFault::Taken),
            Err(_) => Err(HomeFault::Open),
        }
    }

    fn open(&mut self) -> Result<Option<Opened<File>>, HomeFault> {
        match opened(self.files, self.folder.places().at(Name::Store))? {
            Some(file) => Ok(Some(self.summed(file)?)),
            None => Ok(None),
        }
    }

    fn close(&mut self, file: File) -> Result<(), HomeFault> {
        let seen = seen_of(&file)?;
        if self.folder.is_known(seen) {
            Ok(())
        } else {
            Err(HomeFault::Changed)
        }
    }

    fn read(&mut self, name: Name) -> io::Result<Option<Vec<u8>>> {
        self.folder.read(name)
    }

    fn warn_of_cut(&mut self) {
        // Where nothing can be told, the run goes on: what was dropped was never answered.
        let _ = self.files.eprint(
            "warning: a record of the journal was not written to its end, and is dropped\n",
        );
    }

    fn has_known_store(&mut self) -> io::Result<bool> {
        self.folder.has_known_store()
    }

    fn know(&mut self, sum: FileSum) {
        self.folder.has_saved(sum);
    }
}

/// Why a file has no sum.
fn sum_fault(fault: SumFault) -> HomeFault {
    match fault {
        SumFault::Memory => HomeFault::Memory,
        SumFault::Read => HomeFault::Read,
    }
}

/// What is seen of an open file.
fn seen_of(file: &File) -> Result<Seen, HomeFault> {
    match file.metadata() {
        Ok(metadata) => Ok(Seen::of(&metadata)),
        Err(_) => Err(HomeFault::Open),
    }
}

/// Whether a pipe, a socket or a device is there. A pipe is not even opened before somebody writes to it, and meanwhile the
/// lock would keep others out.
fn is_no_file<R: Files>(files: &R, path: &str) -> bool {
    match files.metadata(path) {
        Ok(metadata) => !metadata.is_file() && !metadata.is_dir(),
        Err(_) => false,
    }
}

/// A file, open to be read; None where it isn't there. One that can't be opened is never taken as none.
fn opened<R: Files<File = File>>(files: &R, path: &str) -> Result<Option<File>, HomeFault> {
    if is_no_file(files, path) {
        return Err(HomeFault::Open);
    }
    match fs::open(files, path) {
        Ok(file) => Ok(Some(file)),
        Err(fault) if fault.kind() == ErrorKind::NotFound => Ok(None),
        Err(_) => Err(HomeFault::Open),
    }
}

/// The whole run over a store that is kept. Where `keep` is asked for, its end saves nothing, and the journal has the edits.
pub fn run_stored<R: Files<File = File> + Eprint, I: Read, W: Write + Drop>(
    rt: &R,
    alloc: Global,
    path: &str,
    keep: bool,
    reader: &mut I,
    output: W,
) -> Result<(), Ending> {
    let Ok(places) = Places::of(rt, alloc, path) else {
        return Err(Ending::LoadOpen);
    };
    let mut home = SystemHome {
        files: rt,
        alloc,
        folder: StoreFolder::new(rt, alloc, places),
        lock: None,
        output,
    };
    run_session(alloc, &mut home, keep, reader).map_err(Ending::Session)
}
