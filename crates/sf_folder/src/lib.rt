//! How a store's file and its journal take their place on a disk that may crash at any moment.
#![tactic(auto)]

mod beside;
mod choosing;
mod folder;
mod journals;
pub mod laws;
mod locking;
mod names;
mod places;
mod saving;
mod seen;
mod store_folder;
mod whole_file;

pub use beside::Source;
pub use choosing::{Chosen, choose};
pub use folder::Folder;
pub use journals::renew;
pub use locking::{Lock, take_lock};
pub use names::Name;
pub use places::Places;
pub use saving::save;
pub use seen::Seen;
pub use store_folder::StoreFolder;
pub use whole_file::WholeFile;
