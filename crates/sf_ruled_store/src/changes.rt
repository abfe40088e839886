//! What takes a change of a store back, and what makes it again: of an edit, and of several edits as one step.

mod redo;
mod undo;

pub use redo::{Redo, make_again};
pub use undo::{Undo, take_back};
