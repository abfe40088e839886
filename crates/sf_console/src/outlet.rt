//! Where answers go.

use sf_streams::{WriteFault, flush};
use std::io::Write;

/// A writer of which is known what has left it for whoever reads the answers.
pub trait Outlet: Write {
    ghost use Rattle.std.specs.Prelude.{ℕ, List, Option, None, OnOk};
    ghost use Rattle.std.specs.Io.KnownBytes.{Keeps};
    ghost use Rattle.sf_console.specs.Outlets.{HasLeft};

    /// The bytes that have left it, where they are known.
    ghost left: { Self → Option (List ℕ) } = { λ _. None };

    /// Lets all bytes that were written leave.
    ///
    /// # Errors
    ///
    /// Where the writer fails.
    fn let_leave(&mut self) -> Result<(), WriteFault>
        ensures kept { Keeps (Self.contents self.old) (Self.contents self.new) }
        ensures left { OnOk result (HasLeft (left self.new) (Self.contents self.new)) };
}

impl<W: Write> Outlet for W {
    fn let_leave(&mut self) -> Result<(), WriteFault> {
        flush(self)
    }
}
