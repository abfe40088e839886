//! The geometries of features.
ghost use Rattle.std.specs.Prelude.{◌≡◌, ◌≤◌, Ok, Err, Result, nat_le, IfOk, IsTrue};
ghost use Rattle.sf_geometry.specs.declared.geometry.Geometry.{Geometry as Shape};
ghost use Rattle.sf_geometry.specs.Kinds.{kind_of};
ghost use Rattle.sf_geometry.specs.Size.{IsSized};
ghost use Rattle.sf_valid_rules.specs.Verdicts.{first_fault};
ghost use Rattle.sf_validity.specs.Held.{IsHeld};
ghost use Rattle.sf_wkb.specs.declared.fault.WkbFault.{WkbFault as RowFault};
ghost use Rattle.sf_wkb.specs.Grammar.{OrMemory, read_in};
ghost use Rattle.sf_layers.specs.Content.{admits};
ghost use Rattle.sf_format.specs.declared.defect.Defect.TheVariants.{TooManyVertices};
ghost use Rattle.sf_format.specs.Readings.{field, number};
ghost use Rattle.sf_format.specs.Format.{admitted as admitted_of, allowed as allowed_of, geometry as geometry_of, row_max, without_fault};
ghost use Rattle.sf_loading.specs.Streaming.{Gives, Judges};

use super::fields::allowed;
use super::halt::Halt;
use super::numbers::{number_u32, require};
use sf_format::Defect;
use sf_geometry::Geometry;
use sf_layers::LayerKind;
use sf_streams::Window;
use sf_validity::{Refusal, Valid, validate};
use sf_wkb::{Grid, WkbFault};
use std::alloc::Global;
use std::io::Read;

/// How many bytes a binary geometry has at most.
const ROW_MAX: u32 = 2_097_152;

/// The length of a binary geometry.
fn row_size<R: Read>(window: &mut Window, reader: &mut R) -> Result<u32, Halt>
    ensures gives { Gives (λ n. n) (field (number 4) (λ size. allowed_of (nat_le size row_max) TooManyVertices size))
        (R.remaining reader.old) (R.remaining reader.new) window.old window.new result }
    ensures few { IfOk result (λ size. size ≤ row_max) }
{
    let place = window.place();
    let size = number_u32(window, reader)?;
    if size > ROW_MAX {
        return Err(Halt::Found(place, Defect::TooManyVertices));
    }
    Ok(size)
}

/// The geometry at a place, where it is valid.
fn valid(alloc: Global, place: u64, geometry: Geometry) -> Result<Valid, Halt>
    requires { IsSized geometry }
    ensures judged { Judges (λ v. v) place (without_fault geometry (first_fault geometry)) result }
    ensures kept { IfOk result (λ v. v ≡ geometry) }
    ensures held { IfOk result IsHeld }
{
    match validate(alloc, geometry) {
        Ok(valid) => Ok(valid),
        Err(invalid) => match invalid.refusal {
            Refusal::Memory => Err(Halt::Memory),
            Refusal::Invalid(fault) => Err(Halt::Found(place, Defect::Invalid(fault))),
            _ => unreachable!(),
        },
    }
}

/// The geometry that was read at a place, where it is of the layer's kind, and valid.
fn admitted(
    alloc: Global,
    place: u64,
    kind: LayerKind,
    read: Result<Geometry, WkbFault>,
) -> Result<Valid, Halt>
    requires { IfOk read (λ geometry. IsSized geometry) }
    ensures judged { (expected : Result Shape RowFault) → OrMemory expected read →
        Judges (λ v. v) place (admitted_of kind expected) result }
    ensures kind { IfOk result (λ v. IsTrue (admits kind (kind_of v))) }
    ensures held { IfOk result IsHeld }
{
    match read {
        Ok(geometry) if kind.admits(geometry.kind()) => valid(alloc, place, geometry),
        Ok(_) => Err(Halt::Found(place, Defect::WrongKind)),
        Err(WkbFault::Memory) => Err(Halt::Memory),
        Err(fault) => Err(Halt::Found(place, Defect::Wkb(fault))),
    }
}

/// A binary geometry on a grid, behind its length.
pub(crate) fn geometry<R: Read>(
    alloc: Global,
    window: &mut Window,
    reader: &mut R,
    grid: Grid,
    kind: LayerKind,
) -> Result<Valid, Halt>
    ensures gives { Gives (λ v. v) (geometry_of (read_in grid) kind) (R.remaining reader.old)
        (R.remaining reader.new) window.old window.new result }
    ensures kind { IfOk result (λ v. IsTrue (admits kind (kind_of v))) }
    ensures held { IfOk result IsHeld }
{
    let size = row_size(window, reader)? as usize;
    require(window, reader, size)?;
    let place = window.place();
    let read = sf_wkb::read_in(alloc, window.front(size), grid);
    window.skip(size);
    admitted(alloc, place, kind, read)
}
