//! The whole run of the program over readers and writers: from the bytes of a file, over the lines of an input,
//! to the bytes of a file.
#![tactic(auto)]

mod files;
mod running;

pub use files::{BeginFault, FilesFault, OpenFault, RunFiles, run_between};
pub use running::{RunFault, Served, run, run_from};
pub use sf_console::ServeFault;
pub use sf_loading::{LoadFault, Ruled, load};
pub use sf_saving::{SaveFault, save};
