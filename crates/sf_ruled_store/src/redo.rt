use super::rules::Rules;
use sf_edits::Reverted;
use sf_rules::Rule;

/// What makes a step again that was taken back.
#[derive(Debug, Drop)]
pub enum Redo {
    /// Of a change that leaves the rules as they are.
    Change(super::changes::Redo),
    /// Of another name for a layer that rules name: the rules with that name.
    Renamed { reverted: Reverted, rules: Rules },
    /// Of a rule that is added.
    AddRule(Rule),
    /// Of the rule at a place that is dropped.
    DropRule { place: usize },
}
