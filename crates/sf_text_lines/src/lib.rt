//! Lines of a stream of bytes: where they end, how long they may be, and the one that has not ended yet.
#![tactic(auto)]

mod line_buffer;
mod line_ends;

pub use line_buffer::{LINE_MAX, LineBuffer};
pub use line_ends::{line_feed, without_return};
