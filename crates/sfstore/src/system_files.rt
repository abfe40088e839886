//! The files of a run, on the system's disk.

use sf_folder::WholeFile;
use sf_run::{BeginFault, OpenFault, RunFiles, SaveFault};
use std::alloc::Global;
use std::fs::{File, Files};
use std::io::{ErrorKind, Write};
use std::{fs, io};

/// Files of the system, by their paths.
#[derive(Drop)]
pub struct SystemFiles<'a, R> {
    files: &'a R,
    alloc: Global,
}

impl<'a, R: Files<File = File>> SystemFiles<'a, R> {
    /// Those that these calls reach.
    pub fn new(files: &'a R, alloc: Global) -> SystemFiles<'a, R> {
        SystemFiles { files, alloc }
    }
}

/// A file that is written. A regular file is the old one until the new one is on the disk.
#[derive(Drop)]
pub enum Target {
    /// A file beside, which takes its place.
    Beside(WholeFile),
    /// A pipe or a device, which is written in place.
    InPlace(File),
}

impl Write for Target {
    fn write(&mut self, bytes: &[u8]) -> io::Result<usize> {
        match self {
            Target::Beside(file) => file.file().write(bytes),
            Target::InPlace(file) => file.write(bytes),
        }
    }

    fn flush(&mut self) -> io::Result<()> {
        match self {
            Target::Beside(file) => file.file().flush(),
            Target::InPlace(file) => file.flush(),
        }
    }
}

impl<R: Files<File = File>> RunFiles for SystemFiles<'_, R> {
    type Source = File;

    type Target = Target;

    fn open(&mut self, path: &str) -> Result<File, OpenFault> {
        fs::open(self.files, path).map_err(|_| OpenFault)
    }

    fn begin(&mut self, path: &str) -> Result<Target, BeginFault> {
        match WholeFile::begin(self.files, self.alloc, path) {
            Ok(Some(file)) => Ok(Target::Beside(file)),
            Ok(None) => match fs::create(self.files, path) {
                Ok(file) => Ok(Target::InPlace(file)),
                Err(_) => Err(BeginFault::Open),
            },
            Err(fault) => Err(begin_fault(&fault)),
        }
    }

    fn finish(&mut self, target: Target) -> Result<(), SaveFault> {
        match target {
            Target::Beside(file) => file.finish(self.files).map_err(|_| SaveFault::Write),
            Target::InPlace(_) => Ok(()),
        }
    }

    fn give_up(&mut self, target: Target) {
        match target {
            Target::Beside(file) => file.give_up(self.files),
            Target::InPlace(_) => {}
        }
    }
}

/// Why a file could not be begun.
fn begin_fault(fault: &io::Error) -> BeginFault {
    match fault.kind() {
        ErrorKind::OutOfMemory => BeginFault::Memory,
        _ => BeginFault::Open,
    }
}
