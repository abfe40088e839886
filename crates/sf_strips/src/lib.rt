//! One column of a plane that edges and dots cut: its levels from the top, and the edges that go on
//! from it to the right.
#![tactic(auto)]

mod active;
mod contact;
mod cut;
mod level;
mod next;
mod onward;
mod part;
mod piece;
mod slanted;
mod strip;
mod vertex;

pub use active::Active;
pub use contact::Contact;
pub use cut::Cut;
pub use level::Level;
pub use next::next_column;
pub use part::Part;
pub use piece::Piece;
pub use slanted::Slanted;
pub use strip::Strip;
pub use vertex::{Role, Vertex, vertices};
