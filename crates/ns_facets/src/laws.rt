//! Laws of the rows of facets. Each function does nothing, and its contract is the law.

ghost use Rattle.ns_code.specs.declared.program.CodeProgram.{CodeProgram};
ghost use Rattle.ns_world.specs.declared.value.Value.{Value};
ghost use Rattle.ns_world.specs.World.{World};
ghost use Rattle.ns_world.specs.Lawful.{IsLawful};
ghost use Rattle.ns_kdata.specs.Living.{AnswersLive};
ghost use Rattle.ns_kdata.specs.Lawful.{LeavesLawful};
ghost use Rattle.ns_facets.specs.declared.board.Board.{Board};
ghost use Rattle.ns_world.specs.declared.kernel_parts.FacetRow.{FacetRow};
ghost use Rattle.ns_facets.specs.Facet.{row_outcome};
ghost use Rattle.ns_kdata.specs.Leading.{LeadsOn};

/// A row's answer is a live value in every world.
pub fn answers_are_live()
    ensures { (world : World) (code : CodeProgram) (row : FacetRow) (first second : Value) (board : Board) →
        AnswersLive code (row_outcome world code row first second board) }
{}

/// A row leaves a lawful world lawful: it prints, or changes nothing.
pub fn rows_keep_lawful()
    ensures { (world : World) (code : CodeProgram) (row : FacetRow) (first second : Value) (board : Board) →
        IsLawful world code → LeavesLawful code (row_outcome world code row first second board) }
{}

/// A row leads to a later world: it prints, or changes nothing.
pub fn rows_lead_on()
    ensures { (old : World) (code : CodeProgram) (row : FacetRow) (one two : Value) (board : Board) → LeadsOn old (row_outcome old code row one two board) }
{}
