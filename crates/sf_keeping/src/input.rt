//! What was read last, line by line.
ghost use Rattle.std.specs.Prelude.{◌≡◌, [], true, false, IfOk, OnOk, OnErr};
ghost use Rattle.std.specs.Io.KnownBytes.{Consumes, IsAtEnd, Keeps};
ghost use Rattle.sf_text_lines.specs.Buffers.{nothing_buffered};
ghost use Rattle.sf_keeping.specs.Inputs.{Ahead, EndsLine, GoesOn, with_new_line};

use sf_streams::{Chunk, ReadFault};
use sf_text_lines::{LineBuffer, line_feed};
use std::alloc::{AllocError, Global};
use std::io::Read;
use std::marker::Model;

/// The bytes of the last read, and the line of them that is under way. All room is taken at the beginning.
#[derive(Drop)]
pub struct Input {
    chunk: Chunk,
    // Where those begin that were not gone past.
    start: usize,
    line: LineBuffer,
}

impl Model for Input {
    ghost use Rattle.std.specs.Prelude.{◌≤◌, length, drop};
    ghost use Rattle.sf_keeping.specs.Inputs.{Ahead};

    ghost Value = { Ahead };

    ghost view = { λ a. record { begun = a.line; rest = drop a.start a.chunk } };

    ghost invariant = { λ a. a.start ≤ length a.chunk };
}

impl Input {
    /// Nothing was read yet.
    pub fn new(alloc: Global) -> Result<Input, AllocError>
        ensures { IfOk result (λ input. input ≡ record { begun = nothing_buffered; rest = [] }) }
    {
        Ok(Input {
            chunk: Chunk::new(alloc)?,
            start: 0,
            line: LineBuffer::new(alloc)?,
        })
    }

    /// Goes to the end of the line, where it ends in what was read; else past all of that. Says whether it ends.
    pub(crate) fn end_line(&mut self) -> bool
        ensures ends { result ≡ true → EndsLine self.old self.new }
        ensures goes_on { result ≡ false → GoesOn self.old self.new }
    {
        let rest = self.chunk.as_bytes().split_at(self.start).1;
        match line_feed(rest) {
            Some(end) => {
                self.line.extend(rest.split_at(end).0);
                self.start += end + 1;
                true
            }
            None => {
                self.line.extend(rest);
                self.start += rest.len();
                false
            }
        }
    }

    /// The line that is under way.
    pub(crate) fn line(&self) -> &LineBuffer
        ensures { result.now ≡ self.now.begun }
    {
        &self.line
    }

    /// Begins a new line.
    pub(crate) fn begin_line(&mut self)
        ensures { self.new ≡ with_new_line self.old }
    {
        self.line.clear();
    }

    /// Reads once. Says whether a byte came; where none did, the reader is at its end.
    pub(crate) fn fill<R: Read>(&mut self, reader: &mut R) -> Result<bool, ReadFault>
        ensures consumed { OnOk result (Consumes (R.remaining reader.old) (R.remaining reader.new) self.new.rest) }
        ensures begun { self.new.begun ≡ self.old.begun }
        ensures end { IfOk result (λ more. more ≡ false → (self.new.rest ≡ []) × IsAtEnd (R.remaining reader.new)) }
        ensures kept { OnErr result (Keeps (R.remaining reader.old) (R.remaining reader.new)) }
    {
        self.start = 0;
        self.chunk.fill(reader)?;
        Ok(!self.chunk.as_bytes().is_empty())
    }
}
