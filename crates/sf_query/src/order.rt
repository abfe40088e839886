//! The way to an answer: which evidence is asked for in which order, and from which sizes on; when something is made of the given
//! geometry; and when a walk comes. All of it lies in this file. A question (`is_asked`) asks in turn: can any matrix be as asked; do
//! small geometries meet, if that is all; is a feature clear of what was prepared; the order; one geometry prepared for the other; a walk.

ghost use Rattle.std.specs.Prelude.{◌≡◌, IfOk, IfSome};
ghost use Rattle.sf_known.specs.Known.{Holds};
ghost use Rattle.sf_relate.specs.Matrices.{matrix_of};
ghost use Rattle.sf_query.specs.Answers.{is_asked};

use super::ask::Ask;
use super::evidence::Evidence::{
    self, Alike, Along, Boxes, Clear, Cover, Crossing, Edges, Ends, Nearby, Place, Points,
    Prepared, Sides, Starts,
};
use super::given::Given;
use sf_contact::{FEW_POINTS, SIDED_POINTS, contact_between};
use sf_geometry::{Extent, Geometry};
use sf_grid::GridPoint;
use sf_relate::{
    Aim, Dim, Goal, Known, Matrix, Place as PlaceIn, Predicate, locate, matrix_by_boxes,
    meets_from, relate_from,
};
use sf_validity::Valid;
use std::alloc::{AllocError, Global};

/// How many features there are at least for what is made of the given geometry to pay.
const MANY_FEATURES: usize = 8;

/// The same of a small one: to look at its few edges for each feature takes little.
const MANY_FEATURES_OF_FEW_POINTS: usize = 32;

/// How many points a geometry has at least for those of its edges to be picked that are near a small one: with fewer, a walk over
/// all of them is as quick. Where a feature has so many, a walk over it and what was prepared takes more than to look for
/// edges that cross. And where both have so many, to prepare one of them pays for the other alone.
const MANY_POINTS: usize = 32;

/// How many points one of two geometries has at least for their edges to be sorted, to see whether they cover one another. A walk over
/// fewer takes as little.
const COVER_POINTS: usize = 64;

/// How many lines the two geometries have together at most for the places of all their ends to be looked for: that takes a pass over both
/// for each end, and with more of them a walk takes less.
const FEW_LINES: usize = 128;

/// Where contact is asked for by name, a first point shows it soonest where both geometries are large, and edges that meet show it, or
/// that there is none, of small ones and of large ones.
static OF_CONTACT: [Evidence; 4] = [Place, Points, Starts, Edges];

/// The same where the given geometry was prepared, and a feature has few points: what was prepared shows most.
static OF_CONTACT_WITH_FEW: [Evidence; 5] = [Prepared, Place, Points, Edges, Starts];

/// Where the feature has many points, a walk over those nearby comes last: it takes all of the feature's edges.
static OF_CONTACT_WITH_MANY: [Evidence; 4] = [Points, Starts, Edges, Prepared];

/// Whatever else is asked, edges nearby show most of a feature with few points, and geometries written alike show all: under a rule of
/// a layer with itself each feature is asked with itself. Edges that cross show most too, and of areas side by side all is known but how
/// their boundaries meet. Edges that meet show no more than that there is contact, which is of both boundaries where areas lie side by
/// side. Of lines that cross, ends and edges along the other geometry show what is left; of lines that only have contact, first of all
/// whether they cover one another.
static OF_MATRIX: [Evidence; 11] = [
    Prepared, Alike, Crossing, Sides, Place, Points, Edges, Nearby, Cover, Ends, Along,
];

/// Where small geometries may lie side by side, that is seen sooner than that no edges cross, and so is that none meet.
static OF_MATRIX_BESIDE: [Evidence; 11] = [
    Prepared, Alike, Sides, Edges, Crossing, Place, Points, Nearby, Cover, Ends, Along,
];

/// Where it is asked of these whether they touch, a line between them shows it only with contact, and without contact none is needed.
static OF_TOUCH_BESIDE: [Evidence; 11] = [
    Prepared, Alike, Edges, Sides, Crossing, Place, Points, Nearby, Cover, Ends, Along,
];

/// Where the given geometry was prepared and the feature has many points, a walk over those nearby comes later.
static OF_MATRIX_WITH_MANY: [Evidence; 10] = [
    Alike, Crossing, Sides, Points, Prepared, Edges, Nearby, Cover, Ends, Along,
];

/// Where all entries of one feature are asked, and the given geometry has few points: edges nearby show all of them, whether or not
/// boxes meet. Of areas side by side nothing is left once they are known to share a point. Edges look at first points too, which are
/// asked by themselves where that search was given up.
static OF_ENTRIES_OF_FEW: [Evidence; 12] = [
    Alike, Place, Points, Nearby, Boxes, Crossing, Sides, Edges, Starts, Cover, Ends, Along,
];

/// Where it has many, boxes come before.
static OF_ENTRIES_OF_MANY: [Evidence; 12] = [
    Alike, Boxes, Place, Points, Nearby, Crossing, Sides, Edges, Starts, Cover, Ends, Along,
];

/// Where that is not enough and both have many points, one is prepared for the other alone: that takes far less than a walk over both.
static OF_ENTRIES_PREPARED: [Evidence; 2] = [Clear, Prepared];

impl Evidence {
    /// Whether it is worth a look, by what is known and by the sizes. Edges can't cross where interiors share nothing. What lines show
    /// beside is of use once something of an entry is known, and whether they cover one another where no edges were found that cross.
    /// What shows no more than contact is of no use where that is known.
    fn pays(self, known: &Known, geometry: &Valid, given: &Given) -> bool {
        match self {
            Crossing => known.most[0] != Dim::Nothing,
            Cover => !has_entry(known) && more_points(geometry, given) >= COVER_POINTS,
            Ends => has_entry(known) && has_few_lines(geometry, given),
            Along => has_entry(known),
            Starts | Edges => !shows_contact(known),
            Nearby => {
                let points = geometry.geometry().point_count();
                points.min(given.points) <= FEW_POINTS && points.max(given.points) >= MANY_POINTS
            }
            _ => true,
        }
    }
}

/// Whether an entry is known to have something.
fn has_entry(known: &Known) -> bool {
    known.least.iter().any(|entry| *entry != Dim::Nothing)
}

/// Whether the geometries are known to share a point.
fn shows_contact(known: &Known) -> bool {
    let [ii, ib, _, bi, bb, ..] = known.least;
    known.contact || [ii, ib, bi, bb].iter().any(|entry| *entry != Dim::Nothing)
}

/// Whether the two geometries have at most [`FEW_LINES`] lines together.
fn has_few_lines(geometry: &Valid, given: &Given) -> bool {
    line_count(geometry.geometry()).saturating_add(line_count(given.valid.geometry())) <= FEW_LINES
}

/// How many lines a geometry has; points and areas have none.
fn line_count(geometry: &Geometry) -> usize {
    match geometry {
        Geometry::LineString(_) => 1,
        Geometry::MultiLineString(lines) => lines.as_slice().len(),
        _ => 0,
    }
}

/// How many points the larger of two geometries has.
fn more_points(geometry: &Valid, given: &Given) -> usize {
    geometry.geometry().point_count().max(given.points)
}

/// The order for what is asked of a feature.
fn order_of(ask: &Ask, given: &Given, geometry: &Valid) -> &'static [Evidence] {
    let is_prepared = given.prepared.is_some();
    let has_many = is_prepared && geometry.geometry().point_count() >= MANY_POINTS;
    match (ask.is_of_contact(), is_prepared, has_many) {
        (true, false, _) => &OF_CONTACT,
        (true, true, false) => &OF_CONTACT_WITH_FEW,
        (true, true, true) => &OF_CONTACT_WITH_MANY,
        (false, true, true) => &OF_MATRIX_WITH_MANY,
        (false, _, _) if !may_be_beside(geometry, given) => &OF_MATRIX,
        (false, _, _) if matches!(ask, Ask::Named(Predicate::Touches)) => &OF_TOUCH_BESIDE,
        (false, _, _) => &OF_MATRIX_BESIDE,
    }
}

/// Whether two geometries are small and may lie side by side, by their boxes, or else by the middle of what these have in common: it
/// isn't inside both.
fn may_be_beside(geometry: &Valid, given: &Given) -> bool {
    if more_points(geometry, given) > SIDED_POINTS {
        return false;
    }
    let extent = geometry.geometry().envelope();
    if are_across(&extent, &given.extent) || are_across(&given.extent, &extent) {
        return false;
    }
    let common = extent.common(given.extent);
    common.min_x == common.max_x
        || common.min_y == common.max_y
        || !have_middle_inside(&common, geometry, given)
}

/// Whether the one box reaches beyond the other on the left and the right, and that one beyond it above and below: areas that fill such
/// boxes from side to side cross one another.
fn are_across(wide: &Extent, high: &Extent) -> bool {
    wide.min_x < high.min_x
        && high.max_x < wide.max_x
        && high.min_y < wide.min_y
        && wide.max_y < high.max_y
}

/// Whether the middle of a box is inside of both geometries.
fn have_middle_inside(extent: &Extent, geometry: &Valid, given: &Given) -> bool {
    let x = extent.min_x.saturating_add(extent.max_x) / 2;
    let y = extent.min_y.saturating_add(extent.max_y) / 2;
    GridPoint::new(x, y).is_some_and(|middle| {
        locate(given.valid, middle) == PlaceIn::Interior
            && locate(geometry, middle) == PlaceIn::Interior
    })
}

impl Given<'_> {
    /// The same, prepared where so many features are asked about it that this pays. Of a small one its own edges show contact as
    /// soon, and of a Point its place shows more.
    pub(crate) fn prepared_for(self, alloc: Global, ask: &Ask, features: usize) -> Self
        ensures { result ≡ self.entry }
    {
        let is_point = matches!(self.valid.geometry(), Geometry::Point(_));
        let is_small = self.points <= FEW_POINTS;
        let many = if is_small {
            MANY_FEATURES_OF_FEW_POINTS
        } else {
            MANY_FEATURES
        };
        if features < many || is_point || (is_small && ask.is_of_contact()) {
            return self;
        }
        self.prepared(alloc)
    }

    /// Whether the matrix of a feature's geometry with this one is as asked, where their boxes may share no point.
    pub(crate) fn is_asked_beside(
        &self,
        alloc: Global,
        ask: &Ask,
        geometry: &Valid,
    ) -> Result<bool, AllocError>
        ensures { IfOk result (λ answer. answer ≡ is_asked ask.now geometry.now self.now) }
    {
        match matrix_by_boxes(geometry, self.valid, self.extent) {
            Some(matrix) => Ok(ask.goal(geometry, self.valid).is_met(&matrix)),
            None => self.is_asked(alloc, ask, geometry),
        }
    }

    /// Whether the matrix of a feature's geometry with this one is as asked.
    pub(crate) fn is_asked(
        &self,
        alloc: Global,
        ask: &Ask,
        geometry: &Valid,
    ) -> Result<bool, AllocError>
        ensures { IfOk result (λ answer. answer ≡ is_asked ask.now geometry.now self.now) }
    {
        if let Some(answer) = self.answer_by_contact(alloc, ask, geometry) {
            return Ok(answer);
        }
        let goal = ask.goal(geometry, self.valid);
        if let Goal::Never = goal {
            return Ok(false);
        }
        if let Some(matrix) = self.matrix_clear(alloc, geometry) {
            return Ok(goal.is_met(&matrix));
        }
        let mut known = Known::nothing();
        let mut is_first = true;
        for evidence in order_of(ask, self, geometry) {
            if !evidence.pays(&known, geometry, self) {
                continue;
            }
            let Some(shown) = evidence.shown(alloc, geometry, self) else {
                continue;
            };
            if let Some(answer) = shown.answer(&goal) {
                return Ok(answer);
            }
            known = known.and(&shown).with_contact_placed();
            // What the first one shows has been asked by itself.
            if is_first {
                is_first = false;
                continue;
            }
            if let Some(answer) = known.answer(&goal) {
                return Ok(answer);
            }
        }
        let known = self.known_prepared(alloc, geometry, &known);
        meets_from(alloc, &goal, geometry, self.valid, &known)
    }

    /// Whether it is as asked, by edges and first points alone, where contact or its absence is asked for by name, one of the
    /// two is small, and nothing was prepared. Of a Point its place shows as much.
    fn answer_by_contact(&self, alloc: Global, ask: &Ask, geometry: &Valid) -> Option<bool>
        ensures { IfSome result (λ answer. answer ≡ is_asked ask.now geometry.now self.now) }
    {
        let is_point = matches!(geometry.geometry(), Geometry::Point(_));
        let has_few = self.points <= FEW_POINTS || geometry.geometry().point_count() <= FEW_POINTS;
        if self.prepared.is_some() || is_point || !has_few {
            return None;
        }
        match ask {
            Ask::Named(Predicate::Intersects) => contact_between(alloc, geometry, self.valid),
            Ask::Named(Predicate::Disjoint) => {
                contact_between(alloc, geometry, self.valid).map(|has_contact| !has_contact)
            }
            _ => None,
        }
    }

    /// The matrix of a feature's geometry with this one. How the boundaries of two areas share points is left to edges that
    /// run along one another.
    pub(crate) fn matrix_with(&self, alloc: Global, geometry: &Valid) -> Result<Matrix, AllocError>
        ensures { IfOk result (λ matrix. matrix.0 ≡ matrix_of geometry.now self.now) }
    {
        let order: &[Evidence] = if self.points <= FEW_POINTS {
            &OF_ENTRIES_OF_FEW
        } else {
            &OF_ENTRIES_OF_MANY
        };
        let known = self.known_by(alloc, geometry, order, &Known::nothing());
        if known.is_enough(&Aim::ButBoundaries) {
            return relate_from(alloc, geometry, self.valid, &known);
        }
        let known = self.known_prepared(alloc, geometry, &known);
        relate_from(alloc, geometry, self.valid, &known)
    }

    /// What is known once one of the two is prepared for the other alone, where nothing was prepared yet and that pays: the feature's
    /// geometry where its box has all of this one's, which then lies in it or near its border, and else this one.
    fn known_prepared(&self, alloc: Global, geometry: &Valid, from: &Known) -> Known
        requires { Holds from.now (matrix_of geometry.now self.now) }
        ensures { Holds result (matrix_of geometry.now self.now) }
    {
        let fewer = geometry.geometry().point_count().min(self.points);
        if self.prepared.is_some() || fewer < MANY_POINTS {
            return *from;
        }
        if geometry.geometry().envelope().common(self.extent) == self.extent {
            let prepared = Given::new(geometry).prepared(alloc);
            let turned = from.transposed();
            let known = prepared.known_by(alloc, self.valid, &OF_ENTRIES_PREPARED, &turned);
            return known.transposed();
        }
        let prepared = Given::new(self.valid).prepared(alloc);
        prepared.known_by(alloc, geometry, &OF_ENTRIES_PREPARED, from)
    }

    /// What is known of the matrix, all but how the boundaries of two areas share points, by one evidence after another, from
    /// what was known before.
    fn known_by(&self, alloc: Global, geometry: &Valid, order: &[Evidence], from: &Known) -> Known
        requires { Holds from.now (matrix_of geometry.now self.now) }
        ensures { Holds result (matrix_of geometry.now self.now) }
    {
        let mut known = *from;
        for evidence in order {
            if !evidence.pays(&known, geometry, self) {
                continue;
            }
            if let Some(shown) = evidence.shown(alloc, geometry, self) {
                known = known.and(&shown).with_contact_placed();
                if known.is_enough(&Aim::ButBoundaries) {
                    break;
                }
            }
        }
        known
    }
}
