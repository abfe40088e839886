//! How a session ends before its time.

use sf_keeping::KeepFault;
use sf_loading::LoadFault;
use sf_saving::SaveFault;

/// Why a store's lock or its file could not be had.
#[derive(Clone, Copy, Debug, PartialEq, Eq)]
pub enum HomeFault {
    /// The lock or the file can't be opened or looked at, or something else than a file stands there.
    Open,
    /// Another session has the lock.
    Taken,
    /// The file could not be read.
    Read,
    /// Another program wrote to the file while it was loaded.
    Changed,
    Memory,
}

/// Why a journal could not be opened. Places are bytes from its beginning.
#[derive(Clone, Copy, Debug, PartialEq, Eq)]
pub enum JournalFault {
    Memory,
    Read,
    /// It could not be written anew.
    Write,
    /// It goes on from another file.
    OtherFile,
    /// What stands there is no record behind those before it.
    Damaged(usize),
    /// The record there is no edit that is accepted.
    NotAccepted(usize),
}

/// Why a session ended before its time.
#[derive(Debug, Drop)]
pub enum SessionFault {
    /// The lock or the file could not be had.
    Home(HomeFault),
    /// The file has no content.
    Load(LoadFault),
    /// The journal could not be opened.
    Journal(JournalFault),
    /// Serving ended before the input did.
    Serve(KeepFault),
    /// What was served could not be saved.
    Save(SaveFault),
    /// Another program has changed the store's file since it was loaded or saved: nothing took its place.
    SaveChanged,
}
