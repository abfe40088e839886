//! Bytes of a reader, looked at ahead, and bytes on their way to a writer.
#![tactic(auto)]

mod chunk;
mod output;
mod sending;
mod window;

pub use chunk::{Chunk, READS_MAX, ReadFault};
pub use output::Output;
pub use sending::{WriteFault, flush, send};
pub use window::{AHEAD_MAX, Window};
