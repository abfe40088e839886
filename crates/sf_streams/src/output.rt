//! Bytes on their way to a writer.
ghost use Rattle.std.specs.Prelude.{◌≡◌, [], ◌++◌, IfOk, OnOk, OnErr};
ghost use Rattle.std.specs.Int.{w64, cast_unsigned};
ghost use Rattle.std.specs.Io.KnownBytes.{Appends};
ghost use Rattle.byteorder.specs.Endian.{big_bytes};
ghost use Rattle.sf_streams.specs.Streams.{Puts, WritesFront};

use super::sending::{WriteFault, flush, send};
use byteorder::{BigEndian, ByteOrder};
use std::alloc::{AllocError, Global};
use std::io::Write;
use std::marker::Model;

/// How many bytes are held at most.
const HELD_MAX: usize = 65_536;

/// Bytes that were put and not sent yet. Their room is taken at the beginning; what is longer than it
/// is sent at once. A writer is named at each call, and should be the same.
#[derive(Drop)]
pub struct Output {
    held: Vec<u8>,
}

impl Model for Output {
    ghost use Rattle.std.specs.Prelude.{ℕ, List, ◌≤◌, length, vec_capacity};

    ghost Value = { List ℕ };

    ghost view = { λ a. a.held.items };

    ghost invariant = { λ a. (length a.held.items ≤ 65536) × (65536 ≤ vec_capacity a.held) };
}

impl Output {
    /// No byte yet.
    pub fn new(alloc: Global) -> Result<Output, AllocError>
        ensures { IfOk result (λ output. output ≡ []) }
    {
        Ok(Output {
            held: Vec::with_capacity(alloc, HELD_MAX)?,
        })
    }

    /// Sends all that is held.
    fn send_held<W: Write>(&mut self, writer: &mut W) -> Result<(), WriteFault>
        ensures ok { OnOk result (Appends (W.contents writer.old) (W.contents writer.new) self.old) }
        ensures broken { OnErr result (WritesFront (W.contents writer.old) (W.contents writer.new) self.old) }
        ensures empty { self.new ≡ [] }
    {
        let sent = send(writer, self.held.as_slice());
        self.held.clear();
        sent
    }

    /// Puts bytes behind those that were put before, and sends some where there is no room for more.
    ///
    /// # Errors
    ///
    /// Where the writer fails or takes no byte. A front of all that was put was written then, and
    /// nothing is held any more, so that `finish` sends nothing behind a gap; nothing should be put.
    pub fn put<W: Write>(&mut self, writer: &mut W, bytes: &[u8]) -> Result<(), WriteFault>
        ensures ok { OnOk result (Puts (W.contents writer.old) (W.contents writer.new) self.old self.new bytes.now) }
        ensures broken { OnErr result (WritesFront (W.contents writer.old) (W.contents writer.new) (self.old ++ bytes.now)) }
        ensures empty { OnErr result (self.new ≡ []) }
    {
        if bytes.len() > HELD_MAX - self.held.len() {
            self.send_held(writer)?;
            if bytes.len() > HELD_MAX {
                return send(writer, bytes);
            }
        }
        self.held.extend_from_slice(bytes).unwrap();
        Ok(())
    }

    /// Puts a number of one byte.
    pub fn put_u8<W: Write>(&mut self, writer: &mut W, n: u8) -> Result<(), WriteFault>
        ensures ok { OnOk result (Puts (W.contents writer.old) (W.contents writer.new) self.old self.new (big_bytes 1 n)) }
        ensures broken { OnErr result (WritesFront (W.contents writer.old) (W.contents writer.new) (self.old ++ big_bytes 1 n)) }
        ensures empty { OnErr result (self.new ≡ []) }
    {
        self.put(writer, &[n])
    }

    /// Puts a number of two bytes, the most significant first.
    pub fn put_u16<W: Write>(&mut self, writer: &mut W, n: u16) -> Result<(), WriteFault>
        ensures ok { OnOk result (Puts (W.contents writer.old) (W.contents writer.new) self.old self.new (big_bytes 2 n)) }
        ensures broken { OnErr result (WritesFront (W.contents writer.old) (W.contents writer.new) (self.old ++ big_bytes 2 n)) }
        ensures empty { OnErr result (self.new ≡ []) }
    {
        let mut bytes = [0; 2];
        BigEndian::write_u16(&mut bytes, n);
        self.put(writer, &bytes)
    }

    /// Puts a number of four bytes, the most significant first.
    pub fn put_u32<W: Write>(&mut self, writer: &mut W, n: u32) -> Result<(), WriteFault>
        ensures ok { OnOk result (Puts (W.contents writer.old) (W.contents writer.new) self.old self.new (big_bytes 4 n)) }
        ensures broken { OnErr result (WritesFront (W.contents writer.old) (W.contents writer.new) (self.old ++ big_bytes 4 n)) }
        ensures empty { OnErr result (self.new ≡ []) }
    {
        let mut bytes = [0; 4];
        BigEndian::write_u32(&mut bytes, n);
        self.put(writer, &bytes)
    }

    /// Puts a number of eight bytes, the most significant first.
    pub fn put_u64<W: Write>(&mut self, writer: &mut W, n: u64) -> Result<(), WriteFault>
        ensures ok { OnOk result (Puts (W.contents writer.old) (W.contents writer.new) self.old self.new (big_bytes 8 n)) }
        ensures broken { OnErr result (WritesFront (W.contents writer.old) (W.contents writer.new) (self.old ++ big_bytes 8 n)) }
        ensures empty { OnErr result (self.new ≡ []) }
    {
        let mut bytes = [0; 8];
        BigEndian::write_u64(&mut bytes, n);
        self.put(writer, &bytes)
    }

    /// Puts a number of eight bytes in two's complement, the most significant byte first.
    pub fn put_i64<W: Write>(&mut self, writer: &mut W, n: i64) -> Result<(), WriteFault>
        ensures ok { OnOk result (Puts (W.contents writer.old) (W.contents writer.new) self.old self.new
            (big_bytes 8 (cast_unsigned w64 n))) }
        ensures broken { OnErr result (WritesFront (W.contents writer.old) (W.contents writer.new)
            (self.old ++ big_bytes 8 (cast_unsigned w64 n))) }
        ensures empty { OnErr result (self.new ≡ []) }
    {
        let mut bytes = [0; 8];
        BigEndian::write_i64(&mut bytes, n);
        self.put(writer, &bytes)
    }

    /// Sends all that is held, and flushes the writer.
    ///
    /// # Errors
    ///
    /// Where the writer fails or takes no byte. A front of what was held was written then.
    pub fn finish<W: Write>(&mut self, writer: &mut W) -> Result<(), WriteFault>
        ensures ok { OnOk result (Appends (W.contents writer.old) (W.contents writer.new) self.old) }
        ensures broken { OnErr result (WritesFront (W.contents writer.old) (W.contents writer.new) self.old) }
        ensures empty { self.new ≡ [] }
    {
        self.send_held(writer)?;
        flush(writer)
    }
}
