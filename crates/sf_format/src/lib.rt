//! The files of a store with rules: the content and the rules of a file's bytes, or the first fault in
//! them, and the canonical bytes of both. Definitions, with their laws.
#![tactic(auto)]

mod defect;
pub mod laws;
mod range_ends;
mod rule_form;
mod version;

pub use defect::Defect;
pub use range_ends::RangeEnds;
pub use rule_form::{DemandForm, RuleForm};
pub use sf_ruled_store::{
    AllowedValues, Ask, BoxedRange, Demand, Form, LayerRule, PairAsk, Refusal as StepRefusal, Rule,
    Ruled, Rules as KeptRules, Says, VALUES_MAX, ValueRule,
};
pub use version::Version;
