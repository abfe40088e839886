//! The bytes of a store with rules to a writer.
ghost use Rattle.std.specs.Prelude.{OnErr, OnOk};
ghost use Rattle.std.specs.Io.KnownBytes.{Appends};
ghost use Rattle.sf_format.specs.Canonical.{canonical_ruled};
ghost use Rattle.sf_streams.specs.Streams.{WritesFront};

use super::layers::put_layers;
use super::rules::put_rules;
use super::save_fault::SaveFault;
use sf_format::Ruled;
use sf_streams::Output;
use std::alloc::Global;
use std::io::Write;

/// The bytes at the front of a file: of the fourth version, with coordinates of 31 bits.
const FRONT: &str = "SFSTORE4\x1f";

/// How many bytes a binary geometry has at most.
const ROW_MAX: usize = 2_097_152;

/// Writes the canonical bytes of a store with its rules, and flushes the writer.
///
/// # Errors
///
/// `Write` where the writer fails or takes no byte, `Memory` where no memory is found. A front of the
/// bytes was written then.
pub fn save<W: Write>(alloc: Global, ruled: &Ruled, writer: &mut W) -> Result<(), SaveFault>
    ensures ok { OnOk result (Appends (W.contents writer.old) (W.contents writer.new) (canonical_ruled ruled.now)) }
    ensures broken { OnErr result (WritesFront (W.contents writer.old) (W.contents writer.new) (canonical_ruled ruled.now)) }
{
    let mut output = Output::new(alloc)?;
    let mut row = Vec::with_capacity(alloc, ROW_MAX)?;
    let rules = ruled.rules().as_slice();
    output.put(writer, FRONT.as_bytes())?;
    put_layers(&mut output, &mut row, writer, ruled.store())?;
    put_rules(&mut output, writer, rules)?;
    output.finish(writer)?;
    Ok(())
}
