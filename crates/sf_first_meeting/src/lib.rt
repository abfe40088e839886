//! Whether edges of a line or ring meet, by a sweep from left to right that ends at the first meeting
//! (Shamos and Hoey, 1976): the edges that go on stand in order from the lowest, and those that
//! become neighbours are compared.
#![tactic(auto)]

mod apart;
mod doubt;
mod doubts;
mod passing;
mod sides;
mod spot;
mod sweep;
mod vertices;

pub use doubt::Doubt;
pub use sweep::first_meeting;
