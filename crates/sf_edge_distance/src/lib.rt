//! How near two lists of edges are to one another: the least square of their distance, and whether it is at most a bound. The
//! lists are halved again and again, and halves are left out whose boxes are too far apart; so lists in which edges near one
//! another stand near one another are compared in little more time than it takes to go through them. It takes no memory.
#![tactic(auto)]

mod boxes;
mod search;

pub use boxes::square_of_gap;
pub use search::{are_within, least_square};
