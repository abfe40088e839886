//! Which features of a layer are within a distance of a geometry, how far one is from it, and which are as asked with it.
#![tactic(auto)]

mod asked;
mod distant;
mod grown;
pub mod laws;
mod near;
mod nearest;
mod pair_ask;
mod span;
mod surroundings;

pub use asked::{ids_asked, ids_asked_behind};
pub use distant::Distant;
pub use near::{distance_to, features_within};
pub use nearest::nearest_to;
pub use pair_ask::PairAsk;
pub use sf_query::{Ask, Refusal};
