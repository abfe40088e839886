ghost use Rattle.std.specs.Prelude.{◌≡◌, ◌↔◌, IsTrue, IfOk, option_copied};
ghost use Rattle.sf_text_lines.specs.Buffers.{nothing_buffered, buffered_with, line_buffered};

use std::alloc::{AllocError, Global};
use std::marker::Model;

/// How many bytes a line has at most, before its line feed.
pub const LINE_MAX: usize = 4_194_304;

/// The bytes of a line that has not ended yet, or a mark that they are too many for a line. It has room
/// for the longest line from the beginning.
#[derive(Drop)]
pub struct LineBuffer {
    bytes: Vec<u8>,
    overlong: bool,
}

impl Model for LineBuffer {
    ghost use Rattle.std.specs.Prelude.{◌≤◌, length, vec_capacity};
    ghost use Rattle.sf_text_lines.specs.Lines.{line_max};
    ghost use Rattle.sf_text_lines.specs.Buffers.{Buffered};

    ghost Value = { Buffered };

    ghost view = { λ a. record { bytes = a.bytes.items; overlong = a.overlong } };

    ghost invariant = { λ a. (length a.bytes.items ≤ line_max) × (line_max ≤ vec_capacity a.bytes) };
}

impl LineBuffer {
    /// No byte yet.
    pub fn new(alloc: Global) -> Result<LineBuffer, AllocError>
        ensures { IfOk result (λ buffer. buffer ≡ nothing_buffered) }
    {
        Ok(LineBuffer {
            bytes: Vec::with_capacity(alloc, LINE_MAX)?,
            overlong: false,
        })
    }

    /// The bytes, or None where they are too many.
    pub fn line(&self) -> Option<&[u8]>
        ensures { option_copied result ≡ line_buffered self.now }
    {
        if self.overlong {
            None
        } else {
            Some(self.bytes.as_slice())
        }
    }

    /// Whether no byte came yet.
    pub fn is_empty(&self) -> bool
        ensures { IsTrue result ↔ (self.now ≡ nothing_buffered) }
    {
        !self.overlong && self.bytes.is_empty()
    }

    /// Goes on with further bytes.
    pub fn extend(&mut self, more: &[u8])
        ensures { self.new ≡ buffered_with self.old more.now }
    {
        if self.overlong || more.len() > LINE_MAX - self.bytes.len() {
            self.bytes.clear();
            self.overlong = true;
        } else {
            self.bytes.extend_from_slice(more).unwrap();
        }
    }

    /// Begins a new line.
    pub fn clear(&mut self)
        ensures { self.new ≡ nothing_buffered }
    {
        self.bytes.clear();
        self.overlong = false;
    }
}
