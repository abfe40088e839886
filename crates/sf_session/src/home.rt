//! What a session asks of the system.
ghost use Rattle.std.specs.Prelude.{◌≡◌, [], ◌∷◌, option_map, MatchOption, IfOk, OnOk, OnErr};
ghost use Rattle.sf_folder.specs.Calls.{Does, Locks, FindsNone, Opens, Stays, Reads, Refuses, Warns, Knows};
ghost use Rattle.sf_session.specs.Openings.{IsSumOf};

use super::fault::HomeFault;
use sf_folder::Name;
use sf_journal::FileSum;
use sf_keeping::Desk;
use std::io;
use std::io::Read;

/// A file of a store that is open to be read from its beginning, and the sum of its bytes.
#[derive(Drop)]
pub struct Opened<F> {
    pub file: F,
    pub sum: FileSum,
}

/// The lock, the files and the output of a store that is kept.
pub trait Home: Desk {
    /// The store's file, to be read.
    type File: Read + Drop;

    /// Takes the lock, which is held from then on.
    ///
    /// # Errors
    ///
    /// `Taken` where another session has it.
    fn lock(&mut self) -> Result<(), HomeFault>
        ensures locked { OnOk result (Does (Self.calls self.old) (Self.calls self.new) (Locks ∷ [])) }
        ensures refused { OnErr result (Does (Self.calls self.old) (Self.calls self.new) (Refuses ∷ [])) };

    /// Opens the store's file; None where it isn't there.
    ///
    /// # Errors
    ///
    /// Where something is there, and can't be opened or read.
    fn open(&mut self) -> Result<Option<Opened<Self::File>>, HomeFault>
        ensures found { IfOk result (λ found. MatchOption found
            (Does (Self.calls self.old) (Self.calls self.new) (FindsNone ∷ []))
            (λ opened. Does (Self.calls self.old) (Self.calls self.new) (Opens (Self.File.remaining opened.file) ∷ [])
            × IsSumOf (Self.File.remaining opened.file) opened.sum.size opened.sum.digest)) }
        ensures refused { OnErr result (Does (Self.calls self.old) (Self.calls self.new) (Refuses ∷ [])) };

    /// Gives the file back that was opened, where nobody has written to it since.
    ///
    /// # Errors
    ///
    /// `Changed` where somebody has.
    fn close(&mut self, file: Self::File) -> Result<(), HomeFault>
        ensures stayed { OnOk result (Does (Self.calls self.old) (Self.calls self.new) (Stays ∷ [])) }
        ensures refused { OnErr result (Does (Self.calls self.old) (Self.calls self.new) (Refuses ∷ [])) };

    /// The bytes of a journal; None where it isn't there.
    ///
    /// # Errors
    ///
    /// Where it can't be read, and where no memory is found.
    fn read(&mut self, name: Name) -> io::Result<Option<Vec<u8>>>
        ensures read { IfOk result (λ bytes.
            Does (Self.calls self.old) (Self.calls self.new) (Reads name (option_map (λ bytes. bytes.items) bytes) ∷ [])) }
        ensures refused { OnErr result (Does (Self.calls self.old) (Self.calls self.new) (Refuses ∷ [])) };

    /// Warns somebody that a record of the journal was not written to its end, and is dropped.
    fn warn_of_cut(&mut self)
        ensures { Does (Self.calls self.old) (Self.calls self.new) (Warns ∷ []) };

    /// Whether the store's file is still the one that is known.
    ///
    /// # Errors
    ///
    /// Where it can't be looked at.
    fn has_known_store(&mut self) -> io::Result<bool>
        ensures { Self.calls self.new ≡ Self.calls self.old };

    /// From now on the store's file is known to be the one of this sum.
    fn know(&mut self, sum: FileSum)
        ensures { Does (Self.calls self.old) (Self.calls self.new) (Knows sum.size sum.digest ∷ []) };
}
