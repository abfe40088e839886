//! Contents with the rules that hold in them: steps carried out, taken back and made again.
#![tactic(auto)]

mod changes;
mod edits;
mod in_place;
pub mod laws;
mod redo;
mod redoing;
mod refusal;
mod ruled;
mod rules;
mod undo;
mod undoing;

pub use edits::{Edited, Grouped};
pub use redo::Redo;
pub use refusal::Refusal;
pub use ruled::Ruled;
pub use rules::{RULES_MAX, Rules};
pub use sf_groups::Group;
pub use sf_rules::{
    AllowedValues, Ask, BoxedRange, Break, Demand, Form, LayerRule, PairAsk, Rule, Says,
    VALUES_MAX, ValueRule,
};
pub use sf_steps::{Answer, Edit};
pub use undo::Undo;
