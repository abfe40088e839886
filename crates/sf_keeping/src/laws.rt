//! Laws of sessions that are kept in a journal, each the contract of a function that does nothing.
ghost use Rattle.sf_keeping.specs.Laws.{RecoveryLaw, ReplayLaw};

/// Whatever a crash leaves of the journal is read without damage, and leads to the machine after some first lines, which
/// have all that was answered.
pub fn recovery_law()
    ensures { RecoveryLaw }
{}

/// Bytes that read without damage, as texts that lead to a machine, are replayed to it, or memory runs out.
pub fn replay_law()
    ensures { ReplayLaw }
{}
