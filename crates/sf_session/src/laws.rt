//! Laws of sessions, each the contract of a function that does nothing.
ghost use Rattle.sf_session.specs.Laws.{KeepingLaw, OpeningLaw};

/// Where a crash has left a folder that opens to a file and to texts, an opening leads to all of it, or memory runs out, or
/// the journal can't be written anew.
pub fn opening_law()
    ensures { OpeningLaw }
{}

/// At each moment of lines that are served behind an opening, whatever a crash leaves of the disk opens to all that was
/// answered.
pub fn keeping_law()
    ensures { KeepingLaw }
{}
