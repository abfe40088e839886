//! Boxes with grid steps more on each side.

ghost use Rattle.std.specs.Prelude.{◌≡◌, ◌≤◌, ◌^◌};
ghost use Rattle.sf_near.specs.Grown.{grown as grown_by, lowered as lowered_by, raised as raised_by};

use sf_geometry::Extent;

/// A box with so many grid steps more on each side, as far as its numbers reach.
pub(crate) fn grown(extent: Extent, steps: u64) -> Extent
    requires { steps ≤ 2 ^ 32 }
    ensures { result ≡ grown_by steps extent }
{
    Extent {
        min_x: lowered(extent.min_x, steps),
        min_y: lowered(extent.min_y, steps),
        max_x: raised(extent.max_x, steps),
        max_y: raised(extent.max_y, steps),
    }
}

/// A coordinate less so many steps, or the least number.
fn lowered(coordinate: i32, steps: u64) -> i32
    requires { steps ≤ 2 ^ 32 }
    ensures { result ≡ lowered_by steps coordinate }
{
    let lower = i64::from(coordinate) - steps as i64;
    lower.max(i64::from(i32::MIN)) as i32
}

/// A coordinate and so many steps, or the greatest number.
fn raised(coordinate: i32, steps: u64) -> i32
    requires { steps ≤ 2 ^ 32 }
    ensures { result ≡ raised_by steps coordinate }
{
    let higher = i64::from(coordinate) + steps as i64;
    higher.min(i64::from(i32::MAX)) as i32
}
