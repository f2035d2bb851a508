//! Laws of the rows of data. Each function does nothing, and its contract is the law.

ghost use Rattle.ns_code.specs.declared.program.CodeProgram.{CodeProgram};
ghost use Rattle.ns_world.specs.declared.value.Value.{Value};
ghost use Rattle.ns_world.specs.World.{World};
ghost use Rattle.ns_world.specs.declared.kernel_parts.DataRow.{DataRow};
ghost use Rattle.ns_kdata.specs.Datum.{row_outcome};
ghost use Rattle.ns_kdata.specs.Leading.{LeadsOn};
ghost use Rattle.ns_kdata.specs.Stated.{DataIsLive, RowsKeepLawful, FilledCellsKeepLawful};

/// In a lawful world a row's answer is a live value, where the value that `at:put:` stores is one.
pub fn answers_are_live()
    ensures { DataIsLive }
{}

/// A row leaves a lawful world lawful, where the value that `at:put:` stores is live.
pub fn rows_keep_lawful()
    ensures { RowsKeepLawful }
{}

/// A lawful world in which a cell is made together with what it holds is lawful, where the cell may
/// be made and may hold it.
pub fn filled_cells_keep_lawful()
    ensures { FilledCellsKeepLawful }
{}

/// A row leads to a later world: it makes a cell, writes a word of an array, or changes nothing.
pub fn rows_lead_on()
    ensures { (world : World) (code : CodeProgram) (row : DataRow) (receiver one two : Value) → LeadsOn world (row_outcome world code row receiver one two) }
{}
