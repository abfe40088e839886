//! Texts behind their lengths.
ghost use Rattle.std.specs.Prelude.{◌++◌, OnErr, OnOk};
ghost use Rattle.sf_format.specs.Canonical.{behind_length};
ghost use Rattle.sf_streams.specs.Streams.{Puts, WritesFront};

use sf_streams::{Output, WriteFault};
use std::io::Write;

/// Puts a name behind the byte of its length, of which it has far less than 256.
pub(crate) fn put_name<W: Write>(
    output: &mut Output,
    writer: &mut W,
    name: &str,
) -> Result<(), WriteFault>
    ensures ok { OnOk result (Puts (W.contents writer.old) (W.contents writer.new) output.old output.new
        (behind_length 1 name.now)) }
    ensures broken { OnErr result (WritesFront (W.contents writer.old) (W.contents writer.new)
        (output.old ++ behind_length 1 name.now)) }
{
    output.put_u8(writer, (name.len() % 256) as u8)?;
    output.put(writer, name.as_bytes())
}

/// Puts the text of a value behind the two bytes of its length, of which it has less than 65,536.
pub(crate) fn put_text<W: Write>(
    output: &mut Output,
    writer: &mut W,
    text: &str,
) -> Result<(), WriteFault>
    ensures ok { OnOk result (Puts (W.contents writer.old) (W.contents writer.new) output.old output.new
        (behind_length 2 text.now)) }
    ensures broken { OnErr result (WritesFront (W.contents writer.old) (W.contents writer.new)
        (output.old ++ behind_length 2 text.now)) }
{
    output.put_u16(writer, (text.len() % 65536) as u16)?;
    output.put(writer, text.as_bytes())
}
