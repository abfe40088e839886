//! A store and its rules with the history of their steps: what was done can be undone, and redone.
#![tactic(auto)]

mod editor;
pub mod laws;

pub use editor::{Depths, Editor};
pub use sf_refusals::Refusal;
pub use sf_ruled_store::{
    AllowedValues, Break, Demand, Form, LayerRule, Refusal as StepRefusal, Rule, Rules, Says,
    VALUES_MAX, ValueRule,
};
