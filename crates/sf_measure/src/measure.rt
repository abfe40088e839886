/// What is measured of a geometry.
#[derive(Clone, Copy, Debug, PartialEq, Eq)]
pub enum Measure {
    /// The area of its polygons, in squared grid steps.
    Area,
    /// The length of its lines, or of the rings of its polygons, in grid steps.
    Length,
}
