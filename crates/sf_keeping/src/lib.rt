//! A session that is kept in a journal: what was answered is on the disk.
#![tactic(auto)]

mod carrying;
mod desk;
mod input;
mod keeping;
pub mod laws;
mod pending;
mod replaying;

pub use desk::{Desk, JournalFault, KeepFault};
pub use input::Input;
pub use keeping::{Stop, serve_kept};
pub use pending::Pending;
pub use replaying::{ReplayFault, Replayed, replay};
pub use sf_console::Editor;
