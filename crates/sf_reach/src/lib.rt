//! Which features of a layer chains lead to from given ones: each feature of a chain is as asked with the next.
#![tactic(auto)]

mod chains;
mod found;
pub mod laws;
mod reaching;
mod until;

pub use reaching::{reached, reached_until};
