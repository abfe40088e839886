use super::rules::Rules;
use sf_rules::Rule;
use sf_steps::Inverse;

/// What takes a step of a store with rules back.
#[derive(Debug, Drop)]
pub enum Undo {
    /// Of a change that left the rules as they were.
    Change(super::changes::Undo),
    /// Of another name for a layer that rules name: the rules as they were.
    Renamed { inverse: Inverse, rules: Rules },
    /// Of a rule that was added: it stands last.
    AddedRule,
    /// Of a rule that was dropped: its place, and the rule.
    DroppedRule { place: usize, rule: Rule },
}
