//! The bytes of one read.
ghost use Rattle.std.specs.Prelude.{◌≡◌, ◌≤◌, [], length, IfOk, OnOk, OnErr};
ghost use Rattle.std.specs.Io.KnownBytes.{Consumes, IsAtEnd, Keeps};

use std::alloc::{AllocError, Global};
use std::io::Read;
use std::marker::Model;

/// How many bytes are asked of a reader at a time.
pub(crate) const CHUNK_LEN: usize = 65_536;

/// How often a reader is asked at most. `Chunk` doesn't count; whoever reads in a loop does, so that a reader that
/// never ends is a fault, and not a loop.
pub const READS_MAX: u32 = 1_000_000_000;

/// A reader failed, or was asked too often.
#[derive(Clone, Copy, Debug, PartialEq, Eq)]
pub struct ReadFault;

/// The bytes that were read last. Their room is on the heap, and is taken before the first read.
#[derive(Drop)]
pub struct Chunk {
    room: Vec<u8>,
    len: usize,
}

impl Model for Chunk {
    ghost use Rattle.std.specs.Prelude.{ℕ, List, ◌≡◌, ◌≤◌, length, take};

    ghost Value = { List ℕ };

    ghost view = { λ a. take a.len a.room.items };

    ghost invariant = { λ a. (length a.room.items ≡ 65536) × (a.len ≤ length a.room.items) };
}

impl Chunk {
    /// No byte yet.
    pub fn new(alloc: Global) -> Result<Chunk, AllocError>
        ensures { IfOk result (λ chunk. chunk ≡ []) }
    {
        Ok(Chunk {
            room: Vec::from_elem(alloc, 0, CHUNK_LEN)?,
            len: 0,
        })
    }

    /// Reads once, in place of what was read before. No byte comes at the end of the input alone.
    ///
    /// # Errors
    ///
    /// Where the reader fails; it then gave no byte.
    pub fn fill<R: Read>(&mut self, reader: &mut R) -> Result<(), ReadFault>
        ensures consumed { OnOk result (Consumes (R.remaining reader.old) (R.remaining reader.new) self.new) }
        ensures end { OnOk result (self.new ≡ [] → IsAtEnd (R.remaining reader.new)) }
        ensures kept { OnErr result (Keeps (R.remaining reader.old) (R.remaining reader.new)) }
    {
        match reader.read(self.room.as_mut_slice()) {
            Ok(len) => {
                self.len = len;
                Ok(())
            }
            Err(_) => Err(ReadFault),
        }
    }

    /// The bytes, at most 65,536.
    pub fn as_bytes(&self) -> &[u8]
        ensures bytes { result.now ≡ self.now }
        ensures few { length result.now ≤ 65536 }
    {
        &self.room[..self.len]
    }
}
