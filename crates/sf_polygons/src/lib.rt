//! What is wrong with polygons whose rings are simple: how their rings lie to one another.
#![tactic(auto)]

mod between;
mod colours;
mod faults;
mod found;
mod within;

pub use colours::colours_of;
pub use faults::first_fault;
