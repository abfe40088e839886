//! The sum of a file.
ghost use Rattle.std.specs.Prelude.{◌≡◌, IfOk};
ghost use Rattle.sf_journal.specs.Sums.{Sums};
ghost use Rattle.sf_journal.specs.declared.file_sums.SumFault.TheVariants.{Memory, Read as IsRead};

use super::heads::FileSum;
use sf_streams::{Chunk, READS_MAX, ReadFault};
use sha2::{Digest, Sha256};
use std::alloc::{AllocError, Global};
use std::io::Read;

/// Why a file has no sum.
#[derive(Clone, Copy, Debug, PartialEq, Eq)]
pub enum SumFault {
    Memory,
    /// It could not be read, or not to its end.
    Read,
}

impl From<AllocError> for SumFault {
    ghost from_gives = { λ _ fault. fault ≡ Memory };

    fn from(_error: AllocError) -> SumFault {
        SumFault::Memory
    }
}

impl From<ReadFault> for SumFault {
    ghost from_gives = { λ _ fault. fault ≡ IsRead };

    fn from(_fault: ReadFault) -> SumFault {
        SumFault::Read
    }
}

/// Reads all that is left, and gives its sum.
///
/// # Errors
///
/// `Read` where the reader fails or gives no end within 1,000,000,000 reads, `Memory` where no memory is found.
pub fn sum_of<R: Read>(alloc: Global, reader: &mut R) -> Result<FileSum, SumFault>
    ensures { IfOk result (λ sum. Sums (R.remaining reader.old) (R.remaining reader.new) sum) }
{
    let mut chunk = Chunk::new(alloc)?;
    let mut hasher = Sha256::new();
    let mut size: u64 = 0;
    for _ in 0..READS_MAX {
        chunk.fill(reader)?;
        let bytes = chunk.as_bytes();
        if bytes.is_empty() {
            return Ok(FileSum {
                size,
                digest: hasher.finalize(),
            });
        }
        hasher.update(bytes);
        size += bytes.len() as u64;
    }
    Err(SumFault::Read)
}
