//! A session over a store that is kept: opened, its journal's edits replayed, served, saved.
#![tactic(auto)]

mod fault;
mod home;
pub mod laws;
mod opening;
mod session;

pub use fault::{HomeFault, JournalFault, SessionFault};
pub use home::{Home, Opened};
pub use session::run_session;
pub use sf_keeping::{Desk, JournalFault as AppendFault, KeepFault};
pub use sf_streams::WriteFault;
