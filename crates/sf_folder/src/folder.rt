//! What is asked of a folder.
ghost use Rattle.std.specs.Prelude.{[], ◌∷◌, List, Option, None, OnOk, OnErr};
ghost use Rattle.sf_folder.specs.Calls.{Call, Begins, Writes, SyncsFile, Renames, SyncsFolder, Does, Tries};

use super::names::Name;
use std::io;

/// A folder with the files of a store. Where a call fails it may have taken place or not, and of a writing a part.
pub trait Folder {
    /// The calls that were made, where they are known.
    ghost calls: { Self → Option (List Call) } = { λ _. None };

    /// A new empty file takes the name.
    fn begin(&mut self, name: Name) -> io::Result<()>
        ensures done { OnOk result (Does (calls self.old) (calls self.new) (Begins name ∷ [])) }
        ensures tried { OnErr result (Tries (calls self.old) (calls self.new) (Begins name ∷ [])) };

    /// Puts bytes, all of them, behind those of a file that was begun.
    fn write(&mut self, name: Name, bytes: &[u8]) -> io::Result<()>
        ensures done { OnOk result (Does (calls self.old) (calls self.new) (Writes name bytes.now ∷ [])) }
        ensures tried { OnErr result (Tries (calls self.old) (calls self.new) (Writes name bytes.now ∷ [])) };

    /// Has the bytes of a file on the disk.
    fn sync(&mut self, name: Name) -> io::Result<()>
        ensures done { OnOk result (Does (calls self.old) (calls self.new) (SyncsFile name ∷ [])) }
        ensures tried { OnErr result (Tries (calls self.old) (calls self.new) (SyncsFile name ∷ [])) };

    /// A file takes another name, in the place of the file that had it.
    fn rename(&mut self, from: Name, to: Name) -> io::Result<()>
        ensures done { OnOk result (Does (calls self.old) (calls self.new) (Renames from to ∷ [])) }
        ensures tried { OnErr result (Tries (calls self.old) (calls self.new) (Renames from to ∷ [])) };

    /// Has the names of the folder on the disk.
    fn sync_folder(&mut self) -> io::Result<()>
        ensures done { OnOk result (Does (calls self.old) (calls self.new) (SyncsFolder ∷ [])) }
        ensures tried { OnErr result (Tries (calls self.old) (calls self.new) (SyncsFolder ∷ [])) };
}
