//! What the words of the program's command line ask for.
#![tactic(auto)]

mod asked;
pub mod options;

pub use asked::{Options, OptionsFault};
