//! Laws of the counts that a point has, each the contract of a function that does nothing.

ghost use Rattle.sf_pieces.specs.Marked.{ItemsCount, ItemsPassAsPoints};

/// The counts of a point's cell are those of each group's pieces.
pub fn items_count()
    ensures { ItemsCount }
{}

/// Some item passes a test that goes upward with the dimension just where some point of the plane
/// does.
pub fn items_pass_as_points()
    ensures { ItemsPassAsPoints }
{}
