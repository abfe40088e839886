//! Simplicity.

ghost use Rattle.std.specs.Prelude.{◌↔◌, ◌≡◌, IfOk, IsTrue};
ghost use Rattle.sf_valid_rules.specs.Conditions.{any_two};
ghost use Rattle.sf_valid_rules.specs.Simplicity.{IsSimple};
ghost use Rattle.sf_geometry.specs.Lists.{is_same};
ghost use Rattle.sf_grid.specs.Sharing.{comes_before};
ghost use Rattle.std.specs.Ordering.{is_lt};

use super::valid::Valid;
use sf_geometry::{Geometry, tight_length};
use sf_grid::GridPoint;
use std::alloc::{AllocError, Global};
use std::cmp::Ordering;

/// Whether a geometry is simple: whether it nowhere passes through itself or stands twice.
pub fn is_simple(alloc: Global, valid: &Valid) -> Result<bool, AllocError>
    ensures { IfOk result (λ simple. IsTrue simple ↔ IsSimple valid.now) }
{
    match valid.geometry() {
        Geometry::LineString(points) => Ok(!sf_strands::meets_itself(alloc, points.as_slice())?),
        Geometry::MultiLineString(lines) => Ok(!sf_strands::are_tangled(alloc, lines.as_slice())?),
        Geometry::MultiPoint(points) => Ok(!has_repeats(alloc, points.as_slice())?),
        Geometry::Point(_) | Geometry::Polygon(_) | Geometry::MultiPolygon(_) => Ok(true),
    }
}

/// Whether a point stands twice in a list.
fn has_repeats(alloc: Global, points: &[GridPoint]) -> Result<bool, AllocError>
    ensures { IfOk result (λ found. found ≡ any_two is_same points.now) }
{
    let mut sorted = points.to_vec(alloc)?;
    sorted.sort_unstable_by(|a, b| order(a, b));
    Ok(tight_length(sorted.as_slice()) < sorted.len())
}

/// Points by x, and then by y.
fn order(a: &GridPoint, b: &GridPoint) -> Ordering
    ensures { is_lt result ≡ comes_before a.now b.now }
{
    a.x().cmp(&b.x()).then(a.y().cmp(&b.y()))
}
