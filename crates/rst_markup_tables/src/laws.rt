//! Laws on the definitions, each by a function that does nothing and whose contract is the law.
ghost use Rattle.rst_markup_tables.specs.Laws.{HaveOneTiling, NoGridAfter, NoSimpleAfter, TilingIsFound, GridIsFound};

/// A grid has at most one tiling by drawn rectangles.
pub fn one_tiling()
    ensures { HaveOneTiling }
{}

/// No grid table begins at a line after a grid table that the scan for this table went over.
pub fn no_grid_after()
    ensures { NoGridAfter }
{}

/// No simple table begins at a line after a simple table that the scan for the last border of this table went over.
pub fn no_simple_after()
    ensures { NoSimpleAfter }
{}

/// The tiling that is found square by square is the tiling of a grid.
pub fn tiling_is_found()
    ensures tiling { TilingIsFound }
    ensures table { GridIsFound }
{}
