//! Laws of the definitions, each proved as the contract of a function that does nothing.
ghost use Rattle.sf_format.specs.Laws.{CanonicalBytesLoad, CanonicalBytesDiffer, FirstVersionLoads, FirstVersionIsKept, FirstCanonicalBytesLoad, FilesAreJudgedOverThePlane, FilesAreRuledWell, FilesAreWellFormed, RuledBytesDiffer, RuledBytesLoad, RulesOfFilesHold, SecondCanonicalBytesLoad, SecondVersionIsKept, ThirdCanonicalBytesLoad};

/// The canonical bytes of a well-formed content with rules load as it.
pub fn ruled_bytes_load()
    ensures { RuledBytesLoad }
{}

/// The canonical bytes of a well-formed content with rules are those of no other one.
pub fn ruled_bytes_differ()
    ensures { RuledBytesDiffer }
{}

/// Only well-formed contents with rules have files.
pub fn files_are_ruled_well()
    ensures { FilesAreRuledWell }
{}

/// The rules of a file hold in its content, over all points of the plane.
pub fn rules_of_files_hold()
    ensures { RulesOfFilesHold }
{}

/// The canonical bytes of a well-formed content load as it.
pub fn canonical_bytes_load()
    ensures { CanonicalBytesLoad }
{}

/// The canonical bytes of a well-formed content are those of no other.
pub fn canonical_bytes_differ()
    ensures { CanonicalBytesDiffer }
{}

/// A file of the first version loads as the content that it has there, without rules.
pub fn first_version_loads()
    ensures { FirstVersionLoads }
{}

/// Behind the first bytes of the first version nothing has changed: the same content without rules, or the same first fault.
pub fn first_version_is_kept()
    ensures { FirstVersionIsKept }
{}

/// Nor behind those of the second version.
pub fn second_version_is_kept()
    ensures { SecondVersionIsKept }
{}

/// The bytes that the first version has for a content whose points are of 20 bits load as it.
pub fn first_canonical_bytes_load()
    ensures { FirstCanonicalBytesLoad }
{}

/// The bytes that the second version has for a content whose points are of 24 bits load as it.
pub fn second_canonical_bytes_load()
    ensures { SecondCanonicalBytesLoad }
{}

/// The bytes that the third version has for a content with rules between layers, by matrices, whose points are of 24 bits load as it.
pub fn third_canonical_bytes_load()
    ensures { ThirdCanonicalBytesLoad }
{}

/// Only well-formed contents have files.
pub fn files_are_well_formed()
    ensures { FilesAreWellFormed }
{}

/// A file that is refused for a fault of shape has at the place that is reported a geometry of which that is the first
/// fault over all points of the plane.
pub fn files_are_judged_over_the_plane()
    ensures { FilesAreJudgedOverThePlane }
{}
