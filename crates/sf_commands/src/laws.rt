//! Laws of the definitions, each proved as the contract of a function that does nothing.
ghost use Rattle.sf_commands.specs.Laws.{CommandsBringGridPoints, MembersBringGridPoints};

/// The points that the edit of a line brings are on the grid.
pub fn commands_bring_grid_points()
    ensures { CommandsBringGridPoints }
{}

/// The points that the members of a text bring are on the grid.
pub fn members_bring_grid_points()
    ensures { MembersBringGridPoints }
{}
