//! Laws of contents with rules, each the contract of a function that does nothing.

ghost use Rattle.sf_ruled_store.specs.Laws.{RefusalsNameBreaks, RuledStepsKeepRules};

/// An accepted step leads from a content in which all rules hold, over all points of the plane, to one in which all of its rules
/// do.
pub fn ruled_steps_keep_rules()
    ensures { RuledStepsKeepRules }
{}

/// A step that is refused for a rule would have led to a content in which this rule is broken, by the features that are reported.
pub fn refusals_name_breaks()
    ensures { RefusalsNameBreaks }
{}
