//! Numbers of a file, the most significant byte first.
ghost use Rattle.std.specs.Prelude.{◌≡◌, ◌≤◌, length, OnOk, IfErr};
ghost use Rattle.sf_streams.specs.Streams.{ReadsAhead, ahead_max};
ghost use Rattle.sf_format.specs.Readings.{bytes as read_bytes, number};
ghost use Rattle.sf_format.specs.Format.{signed_number};
ghost use Rattle.sf_loading.specs.Streaming.{Ends, Gives};

use super::halt::Halt;
use byteorder::{BigEndian, ByteOrder};
use sf_format::Defect;
use sf_streams::Window;
use std::io::Read;

/// Makes so many bytes stand ahead, or reports that the file ends before them.
pub(crate) fn require<R: Read>(
    window: &mut Window,
    reader: &mut R,
    count: usize,
) -> Result<(), Halt>
    requires { count ≤ ahead_max }
    ensures ahead { ReadsAhead (R.remaining reader.old) (R.remaining reader.new) window.old window.new }
    ensures enough { OnOk result (count ≤ length window.new.bytes) }
    ensures cut { IfErr result (λ halt. Ends (read_bytes count) (R.remaining reader.old)
        (R.remaining reader.new) window.old halt) }
{
    if window.need(reader, count)? {
        Ok(())
    } else {
        Err(Halt::Found(window.end(), Defect::Truncated))
    }
}

/// A number of one byte.
pub(crate) fn number_u8<R: Read>(window: &mut Window, reader: &mut R) -> Result<u8, Halt>
    ensures { Gives (λ n. n) (number 1) (R.remaining reader.old) (R.remaining reader.new) window.old window.new result }
{
    require(window, reader, 1)?;
    let n = window.front(1)[0];
    window.skip(1);
    Ok(n)
}

/// A number of two bytes.
pub(crate) fn number_u16<R: Read>(window: &mut Window, reader: &mut R) -> Result<u16, Halt>
    ensures { Gives (λ n. n) (number 2) (R.remaining reader.old) (R.remaining reader.new) window.old window.new result }
{
    require(window, reader, 2)?;
    let n = BigEndian::read_u16(window.front(2));
    window.skip(2);
    Ok(n)
}

/// A number of four bytes.
pub(crate) fn number_u32<R: Read>(window: &mut Window, reader: &mut R) -> Result<u32, Halt>
    ensures { Gives (λ n. n) (number 4) (R.remaining reader.old) (R.remaining reader.new) window.old window.new result }
{
    require(window, reader, 4)?;
    let n = BigEndian::read_u32(window.front(4));
    window.skip(4);
    Ok(n)
}

/// A number of eight bytes.
pub(crate) fn number_u64<R: Read>(window: &mut Window, reader: &mut R) -> Result<u64, Halt>
    ensures { Gives (λ n. n) (number 8) (R.remaining reader.old) (R.remaining reader.new) window.old window.new result }
{
    require(window, reader, 8)?;
    let n = BigEndian::read_u64(window.front(8));
    window.skip(8);
    Ok(n)
}

/// A number of eight bytes in two's complement.
pub(crate) fn number_i64<R: Read>(window: &mut Window, reader: &mut R) -> Result<i64, Halt>
    ensures { Gives (λ n. n) signed_number (R.remaining reader.old) (R.remaining reader.new) window.old window.new result }
{
    require(window, reader, 8)?;
    let n = BigEndian::read_i64(window.front(8));
    window.skip(8);
    Ok(n)
}
