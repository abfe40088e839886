//! Laws of valid geometries: interiors and boundaries have no point in common, the dimensions of their kinds, and the parity of the edges
//! above, which stays along a path that meets no edge.
#![tactic(auto)]

pub mod laws;
