//! Laws of journals, each the contract of a function that does nothing.
ghost use Rattle.sf_journal.specs.Fronts.{FrontLaw};

/// Whatever front of the records of some texts a crash leaves, where it has all records of the first of them, it
/// reads as these and a front of the others.
pub fn front_law()
    ensures { FrontLaw }
{}
