//! Where edits are kept and answers go.
ghost use Rattle.std.specs.Prelude.{◌≡◌, [], ◌∷◌, OnOk, OnErr};
ghost use Rattle.sf_keeping.specs.Desks.{Makes, AnswerFails, Answers, append_fails, appends, sync_fails, syncs};
ghost use Rattle.sf_keeping.specs.declared.desk.KeepFault.TheVariants.{Journal, Memory, Read, Write};

use sf_folder::Folder;
use sf_streams::{ReadFault, WriteFault};
use std::alloc::AllocError;

/// The journal could not be written, or not be synced. What it has is not known then.
#[derive(Clone, Copy, Debug, PartialEq, Eq)]
pub struct JournalFault;

/// Why a session ended before its input did.
#[derive(Clone, Copy, Debug, PartialEq, Eq)]
pub enum KeepFault {
    /// The input could not be read.
    Read,
    /// The output could not be written.
    Write,
    /// The journal could not be written or synced.
    Journal,
    /// Out of memory.
    Memory,
}

impl From<AllocError> for KeepFault {
    ghost from_gives = { λ _ fault. fault ≡ Memory };

    fn from(_error: AllocError) -> KeepFault {
        KeepFault::Memory
    }
}

impl From<ReadFault> for KeepFault {
    ghost from_gives = { λ _ fault. fault ≡ Read };

    fn from(_fault: ReadFault) -> KeepFault {
        KeepFault::Read
    }
}

impl From<WriteFault> for KeepFault {
    ghost from_gives = { λ _ fault. fault ≡ Write };

    fn from(_fault: WriteFault) -> KeepFault {
        KeepFault::Write
    }
}

impl From<JournalFault> for KeepFault {
    ghost from_gives = { λ _ fault. fault ≡ Journal };

    fn from(_fault: JournalFault) -> KeepFault {
        KeepFault::Journal
    }
}

/// A folder whose journal is written, and an output. Contracts see the calls in their order, where they are known, as those of
/// `Write` see the bytes that a writer has.
pub trait Desk: Folder {
    /// Puts all of these bytes behind the journal.
    ///
    /// # Errors
    ///
    /// Where that fails; a front of the bytes may stand there then.
    fn append(&mut self, bytes: &[u8]) -> Result<(), JournalFault>
        ensures ok { OnOk result (Makes (Self.calls self.old) (Self.calls self.new) (appends bytes.now ∷ [])) }
        ensures failed { OnErr result (Makes (Self.calls self.old) (Self.calls self.new) (append_fails bytes.now ∷ [])) };

    /// Returns once all that was put behind the journal is on the disk.
    ///
    /// # Errors
    ///
    /// Where that is not known.
    fn sync_journal(&mut self) -> Result<(), JournalFault>
        ensures ok { OnOk result (Makes (Self.calls self.old) (Self.calls self.new) (syncs ∷ [])) }
        ensures failed { OnErr result (Makes (Self.calls self.old) (Self.calls self.new) (sync_fails ∷ [])) };

    /// Puts all of these bytes out, and flushes the output.
    ///
    /// # Errors
    ///
    /// Where that fails; a front of the bytes may be out then.
    fn answer(&mut self, bytes: &[u8]) -> Result<(), WriteFault>
        ensures ok { OnOk result (Makes (Self.calls self.old) (Self.calls self.new) (Answers bytes.now ∷ [])) }
        ensures failed { OnErr result (Makes (Self.calls self.old) (Self.calls self.new) (AnswerFails bytes.now ∷ [])) };
}
