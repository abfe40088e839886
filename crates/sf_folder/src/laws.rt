//! Laws of saves, each the contract of a function that does nothing.
ghost use Rattle.sf_folder.specs.Laws.{WritingLaw, SaveLaw, ReplacedLaw, SavedLaw, RenewLaw, RefusalLaw};

/// While the new file is written, a crash leaves the old one with its journal.
pub fn writing_law()
    ensures { WritingLaw }
{}

/// At each moment of a save, a crash leaves the old file with its journal, or the new file and no texts.
pub fn save_law()
    ensures { SaveLaw }
{}

/// Once the new file has its place on the disk, a crash leaves it and no texts; or it is the old one.
pub fn replaced_law()
    ensures { ReplacedLaw }
{}

/// After a save, a crash leaves the new file and no texts.
pub fn saved_law()
    ensures { SavedLaw }
{}

/// While the journal is written anew, a crash leaves the file and the texts as they were.
pub fn renew_law()
    ensures { RenewLaw }
{}

/// No front of a journal of one file goes on from another file.
pub fn refusal_law()
    ensures { RefusalLaw }
{}
