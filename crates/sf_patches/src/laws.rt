//! Laws of patches, each the contract of a function that does nothing.
ghost use Rattle.sf_patches.specs.Laws.{HalvesTakeBack, PatchesTakeBack, PatchesOfAllChangesLead};

/// A patch is taken back by the one that it leaves, which needs memory first where the first does.
pub fn patches_take_back()
    ensures { PatchesTakeBack }
{}

/// Halves are taken back by the halves that they leave, which fit and leave the first ones again.
pub fn halves_take_back()
    ensures { HalvesTakeBack }
{}

/// A patch that has all in which two contents differ, read off the second, leads from the first to the second.
pub fn patches_of_all_changes_lead()
    ensures { PatchesOfAllChangesLead }
{}
