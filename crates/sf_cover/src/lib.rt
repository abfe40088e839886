//! Gaps: which points of a geometry lie in none of several others, and that a change leaves none.
#![tactic(auto)]

pub mod laws;
