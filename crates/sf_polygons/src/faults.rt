//! The first fault of polygons.

ghost use Rattle.sf_geometry.specs.Size.{points_max};
ghost use Rattle.std.specs.Prelude.{◌≡◌, ◌≤◌, IfOk, length};
ghost use Rattle.std.specs.List.{flat_map};
ghost use Rattle.sf_geometry.specs.Parts.{joined};
ghost use Rattle.sf_valid_rules.specs.Rules.{polygon_rules, ring_rules};
ghost use Rattle.sf_valid_rules.specs.Validity.{IsFirstIn, NoneApplies};
ghost use Rattle.sf_polygons.specs.Found.{AreRingFaults, both_faults, first_found};

use crate::between::faults_between;
use crate::found::{PolygonFaults, RingFaults};
use crate::within::faults_within;
use sf_geometry::Sequence;
use sf_grid::GridPoint;
use sf_valid_rules::Fault;
use std::alloc::{AllocError, Global};

/// The first fault of polygons in how their rings lie to one another, or None. Each polygon is its
/// rings, the shell first; each ring by itself has no fault.
pub fn first_fault(
    alloc: Global,
    polygons: &[Sequence<Sequence<GridPoint>>],
) -> Result<Option<Fault>, AllocError>
    requires few { length (joined (joined polygons.now)) ≤ points_max }
    requires rings { NoneApplies (flat_map ring_rules (joined polygons.now)) }
    ensures { IfOk result (λ fault. IsFirstIn (polygon_rules polygons.now) fault) }
{
    let within = faults_within_each(alloc, polygons)?;
    let between = faults_between(alloc, polygons)?;
    Ok(first_of(within, between))
}

/// The faults of each polygon's rings, of all polygons together.
fn faults_within_each(
    alloc: Global,
    polygons: &[Sequence<Sequence<GridPoint>>],
) -> Result<RingFaults, AllocError>
    requires few { length (joined (joined polygons.now)) ≤ points_max }
    requires sound { NoneApplies (flat_map ring_rules (joined polygons.now)) }
    ensures { IfOk result (λ found. AreRingFaults polygons.now found) }
{
    let mut found = RingFaults {
        meet: false,
        outside: false,
        nested: false,
    };
    for rings in polygons {
        found = either(found, faults_within(alloc, rings.as_slice())?);
    }
    Ok(found)
}

/// The faults of the one and the other.
fn either(some: RingFaults, others: RingFaults) -> RingFaults
    ensures { result ≡ both_faults some others }
{
    RingFaults {
        meet: some.meet || others.meet,
        outside: some.outside || others.outside,
        nested: some.nested || others.nested,
    }
}

/// The first of the faults, in the order of the rules.
fn first_of(within: RingFaults, between: PolygonFaults) -> Option<Fault>
    ensures { result ≡ first_found within between }
{
    if within.meet || between.meet {
        Some(Fault::RingsMeet)
    } else if within.outside {
        Some(Fault::HoleOutside)
    } else if within.nested {
        Some(Fault::HolesNested)
    } else if between.overlap {
        Some(Fault::PolygonsOverlap)
    } else {
        None
    }
}
