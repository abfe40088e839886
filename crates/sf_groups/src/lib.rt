//! Several edits of features carried out as one step: all of them, or none.
#![tactic(auto)]

mod group;
pub mod laws;
mod member;

pub use group::{Group, NotTaken};
pub use member::Member;
