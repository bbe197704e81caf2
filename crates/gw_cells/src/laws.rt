ghost use Rattle.std.specs.Prelude.{List, IsPermutation};
ghost use Rattle.gw_cells.specs.Held.{AreCellsOf};
ghost use Rattle.gw_cells.specs.declared.cells.Cells.{Cells as Own};
ghost use Rattle.gw_rows.specs.model.Rows.{Row as Plain};

/// The law of cells: in whichever order some rows stand, they have the same cells.
pub fn order_is_free()
    ensures { (rows others : List Plain) (cells : Own) → IsPermutation rows others → AreCellsOf rows cells → AreCellsOf others cells }
{}
