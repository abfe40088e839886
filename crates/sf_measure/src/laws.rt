//! Laws of areas and lengths, each the contract of a function that does nothing.

ghost use Rattle.sf_measure.specs.Laws.{AreaIsOfTrapezoids, CutAddsUp, EdgesAreRoundedDown, MovedIsAlike, RectanglesAreSides, StartIsFree, TrianglesAreHalves, TurnedIsNegative};

/// Twice the area of a rectangle is twice its width times its height.
pub fn rectangles_are_sides()
    ensures { RectanglesAreSides }
{}

/// Twice the area of a triangle is its base times its height.
pub fn triangles_are_halves()
    ensures { TrianglesAreHalves }
{}

/// The other way round, the sum of a triangle has the other sign.
pub fn turned_is_negative()
    ensures { TurnedIsNegative }
{}

/// A ring that is moved keeps its area.
pub fn moved_is_alike()
    ensures { MovedIsAlike }
{}

/// A ring that begins at another of its points keeps its area.
pub fn start_is_free()
    ensures { StartIsFree }
{}

/// A ring that is cut from point to point falls into two whose sums add up to its own.
pub fn cut_adds_up()
    ensures { CutAddsUp }
{}

/// The sum is that of the trapezoids between the ring's steps and the axis.
pub fn area_is_of_trapezoids()
    ensures { AreaIsOfTrapezoids }
{}

/// The length of an edge is the root of its square, too short by less than one part of a step.
pub fn edges_are_rounded_down()
    ensures { EdgesAreRoundedDown }
{}
