//! Laws of rules, each the contract of a function that does nothing.

ghost use Rattle.sf_rules.specs.Holds.{BreaksAreOverThePlane, ReportedRulesAreBroken, RulesAreOverThePlane, ValueBreaksAreThese};
ghost use Rattle.sf_rules.specs.Near.{BreaksAreNear};

/// What breaks a rule as it is computed is just what breaks it over all points of the plane, the least first; nothing does just
/// where the rule holds.
pub fn breaks_are_over_the_plane()
    ensures { BreaksAreOverThePlane }
{}

/// What breaks a rule on values as it is computed is just what breaks it, the least first; nothing does just where the rule holds.
pub fn value_breaks_are_these()
    ensures { ValueBreaksAreThese }
{}

/// No rule is broken, as it is computed, just where all of them hold over all points of the plane.
pub fn rules_are_over_the_plane()
    ensures { RulesAreOverThePlane }
{}

/// A rule that is reported is broken: by two features that are there and are as asked or have one value, or by one that has no
/// other or no value.
pub fn reported_rules_are_broken()
    ensures { ReportedRulesAreBroken }
{}

/// Of a rule that held, the first break after a change is among the features that were changed, and those that are near one as it
/// was.
pub fn breaks_are_near()
    ensures { BreaksAreNear }
{}
