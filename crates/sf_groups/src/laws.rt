//! Laws of groups, each the contract of a function that does nothing.
ghost use Rattle.sf_groups.specs.Laws.{GroupsKeepWellFormed, OneIsTheEdit, ScratchesDoAlike};
ghost use Rattle.sf_groups.specs.Local.{StepsAreLocal};

/// A step of an edit of features reads the head of its layer and its feature, and writes this feature and the next
/// identifier alone.
pub fn steps_are_local()
    ensures { StepsAreLocal }
{}

/// What a group gives on a scratch content that shows what it looks at, and why it is refused there, are as of the whole
/// content.
pub fn scratches_do_alike()
    ensures { ScratchesDoAlike }
{}

/// A group leads from a well-formed content to a well-formed content.
pub fn groups_keep_well_formed()
    ensures { GroupsKeepWellFormed }
{}

/// One edit alone as a group is the edit.
pub fn one_is_the_edit()
    ensures { OneIsTheEdit }
{}
