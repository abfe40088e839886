//! The journal of a store as bytes: a head that names the file which it goes on from, and a record for each edit since.
#![tactic(auto)]

mod crc;
mod file_sums;
mod heads;
pub mod laws;
mod sums;

pub use file_sums::{SumFault, sum_of};
pub use heads::{FileSum, head, is_head_alone};
pub use sums::{MARK_LEN, Sum};
