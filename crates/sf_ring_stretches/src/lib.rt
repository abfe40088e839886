//! Laws of a ring of which a stretch of edges was exchanged: what is kept of it outside of a box with the stretch.
#![tactic(auto)]

pub mod laws;
