//! Joins: the pairs of features of two layers whose matrix or distance is as asked.
#![tactic(auto)]

mod joined;
mod joining;
pub mod laws;
mod turning;

pub use joined::{Beside, Joined};
pub use joining::{join, join_one};
pub use sf_near::{Ask, PairAsk, ids_asked, ids_asked_behind};
pub use turning::{converse, converse_pair};
