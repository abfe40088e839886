//! Pictures of a store: its layers in drawing order, as scalable vector graphics.
#![tactic(auto)]

mod asked;
mod choice;
mod draw_fault;
mod drawing;
mod elements;
mod framing;
mod layers;
pub mod options;
mod view;

pub use asked::{Asked, AskedFault};
pub use choice::Choice;
pub use draw_fault::DrawFault;
pub use drawing::draw;
pub use view::View;
