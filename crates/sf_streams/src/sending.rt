//! Bytes to a writer.
ghost use Rattle.std.specs.Prelude.{◌≢◌, [], OnOk, OnErr};
ghost use Rattle.std.specs.Io.KnownBytes.{Appends, Keeps};
ghost use Rattle.sf_streams.specs.Streams.{WritesFront};

use std::io::Write;

/// A writer failed, or took no byte.
#[derive(Clone, Copy, Debug, PartialEq, Eq)]
pub struct WriteFault;

/// Writes all of these bytes.
///
/// # Errors
///
/// Where the writer fails or takes no byte; a front of the bytes was written then.
pub fn send<W: Write>(writer: &mut W, bytes: &[u8]) -> Result<(), WriteFault>
    ensures ok { OnOk result (Appends (W.contents writer.old) (W.contents writer.new) bytes.now) }
    ensures broken { OnErr result (WritesFront (W.contents writer.old) (W.contents writer.new) bytes.now) }
    ensures something { OnErr result (bytes.now ≢ []) }
{
    let mut rest = bytes;
    while !rest.is_empty() {
        match writer.write(rest) {
            Ok(0) | Err(_) => return Err(WriteFault),
            Ok(count) => rest = rest.split_at(count).1,
        }
    }
    Ok(())
}

/// Flushes a writer.
///
/// # Errors
///
/// Where the writer fails.
pub fn flush<W: Write>(writer: &mut W) -> Result<(), WriteFault>
    ensures { Keeps (W.contents writer.old) (W.contents writer.new) }
{
    writer.flush().map_err(|_| WriteFault)
}
