//! DE-9IM matrices of two geometries, patterns, and the named predicates.
#![tactic(auto)]

mod alike;
mod areas;
mod at_most;
mod by_kinds;
mod first_points;
mod grouping;
pub mod laws;
mod locating;
mod nearby;
mod place;
mod placed;
mod relating;
mod shape;
mod sink;
mod walking;

pub use areas::{are_crossed, are_known_to_overlap, known_by_crossing};
pub use at_most::known_of_kinds;
pub use by_kinds::{matrix_alike, matrix_apart, matrix_by_boxes, matrix_within};
pub use first_points::shares_first_point;
pub use locating::{is_in, locate};
pub use nearby::relate_nearby;
pub use place::Place;
pub use placed::known_of_place;
pub use relating::{relate, relate_from};
pub use sf_known::{Aim, Goal, Known, Letter, Matrix, Pattern, Predicate, Refusal, holds};
pub use sf_plane::Dim;
pub use shape::{Shape, dimension};
pub use sink::KnownSink;
pub use walking::{meets, meets_from, walked};
