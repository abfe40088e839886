//! What shows something of the matrix of a feature's geometry with the given one, without a walk over both.

ghost use Rattle.std.specs.Prelude.{◌≡◌, ◌||◌, IfSome, IsTrue, is_some, nat_le, option_map, true};
ghost use Rattle.std.specs.List.{AllByRecursion};
ghost use Rattle.sf_grid.specs.Plane.{Coordinates};
ghost use Rattle.sf_geometry.specs.declared.geometry.Geometry.TheVariants.{Point};
ghost use Rattle.sf_geometry.specs.Size.{point_count};
ghost use Rattle.sf_valid_rules.specs.Validity.{IsValid};
ghost use Rattle.sf_known.specs.Known.{Holds, exactly, nothing_known};
ghost use Rattle.sf_relate.specs.Contact.{has_first_point_in};
ghost use Rattle.sf_relate.specs.Matrices.{matrix_of};
ghost use Rattle.sf_contact.specs.Few.{few_points};

use super::given::Given;
use sf_contact::{FEW_POINTS, contact_between, known_by_sides};
use sf_geometry::Geometry;
use sf_linework::{
    known_alongside, known_beside, known_by_cover, known_by_crossed_lines, known_by_ends,
    known_by_points,
};
use sf_prepared::{matrix_nearby, matrix_with_area};
use sf_relate::{
    Known, Matrix, known_by_crossing, known_of_kinds, known_of_place, locate, matrix_alike,
    matrix_apart, matrix_by_boxes, shares_first_point,
};
use sf_validity::Valid;
use std::alloc::Global;

/// A way to know something of a matrix. None of them is ever out of memory: then it shows nothing.
#[derive(Clone, Copy, Debug, PartialEq, Eq)]
pub(crate) enum Evidence {
    /// No edge of the given geometry, as it was prepared, has a point of the feature's box.
    Clear,
    /// Those edges of the given geometry, as it was prepared, that are near the feature.
    Prepared,
    /// Geometries that are written alike.
    Alike,
    /// Boxes that share no point.
    Boxes,
    /// The place of a Point in the given geometry, or of a given Point in the feature's.
    Place,
    /// The places of a MultiPoint's points in lines.
    Points,
    /// First points that lie in the other geometry.
    Starts,
    /// Edges that share a point, or that none do: those of a small geometry one by one, and of two large ones those near one another.
    Edges,
    /// A line through an edge of one of two small areas, which has them on its two sides.
    Sides,
    /// Edges of lines and areas that cross.
    Crossing,
    /// Those edges of a large area that are near a small geometry: of the feature's, or of the given one.
    Nearby,
    /// Whether all edges of lines lie in edges of another line or of an area's border, and all edges of the border in those of lines, or some
    /// end off them.
    Cover,
    /// The places of lines' ends in the other geometry, and what is left beside lines or points.
    Ends,
    /// Edges of a line that run along the other geometry's, or that none does.
    Along,
}

impl Evidence {
    /// What the evidence shows of the matrix, if anything.
    pub(crate) fn shown(self, alloc: Global, geometry: &Valid, given: &Given) -> Option<Known>
        ensures { IfSome result (λ known. Holds known (matrix_of geometry.now given.now)) }
    {
        match self {
            Evidence::Clear => exactly(given.matrix_clear(alloc, geometry)),
            Evidence::Prepared => exactly(given.matrix_prepared(alloc, geometry)),
            Evidence::Alike => exactly(matrix_alike(geometry, given.valid)),
            Evidence::Boxes => exactly(matrix_by_boxes(geometry, given.valid, given.extent)),
            Evidence::Place => by_place(geometry, given.valid),
            Evidence::Points => known_by_points(alloc, geometry, given.valid),
            Evidence::Starts => by_starts(geometry, given.valid),
            Evidence::Edges => by_contact(alloc, geometry, given.valid),
            Evidence::Sides => known_by_sides(geometry, given.valid),
            Evidence::Crossing => by_crossing(alloc, geometry, given.valid),
            Evidence::Nearby if given.points <= FEW_POINTS => {
                exactly(matrix_nearby(alloc, geometry, given.valid))
            }
            Evidence::Nearby => exactly(matrix_with_area(alloc, geometry, given.valid)),
            Evidence::Cover => known_by_cover(alloc, geometry, given.valid),
            Evidence::Ends => by_ends(geometry, given.valid),
            Evidence::Along => known_alongside(alloc, geometry, given.valid),
        }
    }
}

/// What each kind of evidence shows of the matrix of a feature's geometry with the given one, one beside the other: clear of what
/// was prepared, near it, alike, place, points, first points, edges, sides, crossing, nearby, cover, ends, along.
pub fn shown_by_each(alloc: Global, geometry: &Valid, given: &Valid) -> [Option<Known>; 13]
    ensures { AllByRecursion (λ shown. IfSome shown (λ known. Holds known (matrix_of geometry.now given.now))) result }
{
    let given = Given::new(given).prepared(alloc);
    [
        Evidence::Clear.shown(alloc, geometry, &given),
        Evidence::Prepared.shown(alloc, geometry, &given),
        Evidence::Alike.shown(alloc, geometry, &given),
        Evidence::Place.shown(alloc, geometry, &given),
        Evidence::Points.shown(alloc, geometry, &given),
        Evidence::Starts.shown(alloc, geometry, &given),
        Evidence::Edges.shown(alloc, geometry, &given),
        Evidence::Sides.shown(alloc, geometry, &given),
        Evidence::Crossing.shown(alloc, geometry, &given),
        Evidence::Nearby.shown(alloc, geometry, &given),
        Evidence::Cover.shown(alloc, geometry, &given),
        Evidence::Ends.shown(alloc, geometry, &given),
        Evidence::Along.shown(alloc, geometry, &given),
    ]
}

/// Edges that cross show most of the matrix of two areas, and some of that of lines.
fn by_crossing(alloc: Global, geometry: &Valid, given: &Valid) -> Option<Known>
    ensures { IfSome result (λ known. Holds known (matrix_of geometry.now given.now)) }
{
    match known_by_crossing(alloc, geometry, given) {
        Some(known) => Some(known),
        None => known_by_crossed_lines(alloc, geometry, given),
    }
}

/// A Point's place shows its row, and that of a given Point its column.
fn by_place(geometry: &Valid, given: &Valid) -> Option<Known>
    requires { IsValid given.now }
    ensures holds { IfSome result (λ known. Holds known (matrix_of geometry.now given.now)) }
    ensures answers { (p : Coordinates) → geometry.now ≡ Point p → is_some result ≡ true }
    ensures given { (p : Coordinates) → given.now ≡ Point p → is_some result ≡ true }
{
    match geometry.geometry() {
        Geometry::Point(point) => Some(known_of_place(locate(given, *point))),
        _ => by_given_place(geometry, given),
    }
}

/// The place of a given Point shows its column.
fn by_given_place(geometry: &Valid, given: &Valid) -> Option<Known>
    requires { IsValid geometry.now }
    ensures holds { IfSome result (λ known. Holds known (matrix_of geometry.now given.now)) }
    ensures answers { (p : Coordinates) → given.now ≡ Point p → is_some result ≡ true }
{
    match given.geometry() {
        Geometry::Point(point) => Some(known_of_place(locate(geometry, *point)).transposed()),
        _ => None,
    }
}

/// Edges that meet show contact, and the matrix where none do.
fn by_contact(alloc: Global, geometry: &Valid, given: &Valid) -> Option<Known>
    ensures holds { IfSome result (λ known. Holds known (matrix_of geometry.now given.now)) }
    ensures few { IsTrue (nat_le (point_count given.now) few_points || nat_le (point_count geometry.now) few_points)
        → is_some result ≡ true }
{
    let has_contact = contact_between(alloc, geometry, given)?;
    if has_contact {
        return Some(sharing());
    }
    Some(Known::exactly(&matrix_apart(geometry, given)))
}

/// First points that lie in the other geometry show contact.
fn by_starts(geometry: &Valid, given: &Valid) -> Option<Known>
    ensures holds { IfSome result (λ known. Holds known (matrix_of geometry.now given.now)) }
    ensures answers { is_some result
        ≡ (has_first_point_in geometry.now given.now || has_first_point_in given.now geometry.now) }
{
    shares_first_point(geometry, given).then_some(sharing())
}

/// The ends of lines show what their boundary has. A line has more than points, and an area more than lines; and no entry has more
/// than the kinds allow.
fn by_ends(geometry: &Valid, given: &Valid) -> Option<Known>
    ensures { IfSome result (λ known. Holds known (matrix_of geometry.now given.now)) }
{
    let ends = known_by_ends(geometry, given)?;
    let beside = known_beside(geometry, given)?;
    Some(ends.and(&beside).and(&known_of_kinds(geometry, given)))
}

/// That the geometries share a point.
fn sharing() -> Known
    ensures { result ≡ record nothing_known { contact = true } }
{
    Known {
        contact: true,
        ..Known::nothing()
    }
}

/// That the matrix is this one, where there is one.
fn exactly(matrix: Option<Matrix>) -> Option<Known>
    ensures { result ≡ option_map (λ matrix. exactly matrix.0) matrix }
{
    matrix.map(|matrix| Known::exactly(&matrix))
}
