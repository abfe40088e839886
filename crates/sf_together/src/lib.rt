//! Several edits of features carried out on a store as one step: all of them, or none; and what takes them back.
#![tactic(auto)]

mod carrying;
mod members;
mod outcome;
mod planning;
mod removals;
mod scratch;
mod slots;

pub use carrying::together;
pub use outcome::{Plan, Refusal, Together};
pub use planning::plan;
