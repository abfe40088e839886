//! The bytes of a reader that were read ahead.
ghost use Rattle.std.specs.Prelude.{◌≡◌, ◌+◌, ◌<◌, ◌≤◌, true, false, nat_le, length, take, drop, IfOk, vec_capacity};
ghost use Rattle.std.specs.Io.KnownBytes.{IsAtEnd};
ghost use Rattle.sf_streams.specs.Streams.{ReadsAhead, ahead_max, nothing_ahead, without_front};

use super::chunk::{CHUNK_LEN, Chunk, READS_MAX, ReadFault};
use std::alloc::{AllocError, Global};
use std::io::Read;
use std::marker::Model;

/// How many bytes can be looked at together, in bytes.
pub const AHEAD_MAX: usize = 2_097_152;

/// The bytes of a reader that were read and not gone past, with the place in the input of the first of
/// them. It has room for the longest field from the beginning. A reader is named at each call, and
/// should be the same.
#[derive(Drop)]
pub struct Window {
    bytes: Vec<u8>,
    // Where those begin that were not gone past.
    start: usize,
    place: u64,
    chunk: Chunk,
    reads: u32,
}

impl Model for Window {
    ghost use Rattle.std.specs.Prelude.{◌≤◌, ◌+◌, ◌-◌, ◌*◌, length, drop, vec_capacity};
    ghost use Rattle.sf_streams.specs.Streams.{Left};

    ghost Value = { Left };

    ghost view = { λ a. record { place = a.place; bytes = drop a.start a.bytes.items } };

    ghost invariant = { λ a. (a.start ≤ length a.bytes.items) × (2162688 ≤ vec_capacity a.bytes)
        × (a.place + (length a.bytes.items - a.start) ≤ a.reads * 65536) × (a.reads ≤ 1000000000) };
}

impl Window {
    /// No byte yet, and the input begins at place 0.
    pub fn new(alloc: Global) -> Result<Window, AllocError>
        ensures { IfOk result (λ window. window ≡ nothing_ahead) }
    {
        Ok(Window {
            bytes: Vec::with_capacity(alloc, AHEAD_MAX + CHUNK_LEN)?,
            start: 0,
            place: 0,
            chunk: Chunk::new(alloc)?,
            reads: 0,
        })
    }

    /// The place in the input of the first byte ahead.
    pub fn place(&self) -> u64
        ensures { result ≡ self.now.place }
    {
        self.place
    }

    /// The place in the input behind the last byte ahead.
    pub fn end(&self) -> u64
        ensures { result ≡ self.now.place + length self.now.bytes }
    {
        self.place + self.len() as u64
    }

    /// The first bytes ahead.
    pub fn front(&self, count: usize) -> &[u8]
        requires { count ≤ length self.now.bytes }
        ensures { result.now ≡ take count self.now.bytes }
    {
        self.bytes
            .as_slice()
            .split_at(self.start)
            .1
            .split_at(count)
            .0
    }

    /// Goes past the first bytes ahead.
    pub fn skip(&mut self, count: usize)
        requires { count ≤ length self.old.bytes }
        ensures { self.new ≡ without_front count self.old }
    {
        self.start += count;
        self.place += count as u64;
    }

    /// Reads until so many bytes stand ahead, or the reader is at its end. Says whether they do.
    ///
    /// # Errors
    ///
    /// Where the reader fails, or was read 1,000,000,000 times already.
    pub fn need<R: Read>(&mut self, reader: &mut R, count: usize) -> Result<bool, ReadFault>
        requires { count ≤ ahead_max }
        ensures ahead { ReadsAhead (R.remaining reader.old) (R.remaining reader.new) self.old self.new }
        ensures enough { IfOk result (λ enough. enough ≡ nat_le count (length self.new.bytes)) }
        ensures end { IfOk result (λ enough. enough ≡ false → IsAtEnd (R.remaining reader.new)) }
    {
        while self.len() < count {
            if !self.fill(reader)? {
                return Ok(false);
            }
        }
        Ok(true)
    }

    fn len(&self) -> usize
        ensures { result ≡ length self.now.bytes }
    {
        self.bytes.len() - self.start
    }

    /// Reads once more. Says whether a byte came; where none did, the reader is at its end.
    fn fill<R: Read>(&mut self, reader: &mut R) -> Result<bool, ReadFault>
        requires { length self.old.bytes ≤ ahead_max }
        ensures ahead { ReadsAhead (R.remaining reader.old) (R.remaining reader.new) self.old self.new }
        ensures more { IfOk result (λ more. more ≡ true → length self.old.bytes < length self.new.bytes) }
        ensures none { IfOk result (λ more. more ≡ false → length self.new.bytes ≡ length self.old.bytes) }
        ensures end { IfOk result (λ more. more ≡ false → IsAtEnd (R.remaining reader.new)) }
    {
        if self.reads == READS_MAX {
            return Err(ReadFault);
        }
        self.chunk.fill(reader)?;
        self.reads += 1;
        drop_front(&mut self.bytes, self.start);
        self.start = 0;
        let bytes = self.chunk.as_bytes();
        self.bytes.extend_from_slice(bytes).unwrap();
        Ok(!bytes.is_empty())
    }
}

/// Drops bytes from the front; the others close up.
fn drop_front(bytes: &mut Vec<u8>, count: usize)
    requires { count ≤ length bytes.old.items }
    ensures items { bytes.new.items ≡ drop count bytes.old.items }
    ensures capacity { vec_capacity bytes.new ≡ vec_capacity bytes.old }
{
    if count == 0 {
        // A long field takes many reads: nothing moves between them.
        return;
    }
    let len = bytes.len() - count;
    bytes.as_mut_slice().copy_within(count.., 0);
    bytes.truncate(len);
}
