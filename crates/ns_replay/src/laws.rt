//! Laws of replays. Each function does nothing but name the laws that it rests on, and its contract is the law.

ghost use Rattle.ns_code.specs.declared.program.CodeProgram.{CodeProgram};
ghost use Rattle.ns_facets.specs.declared.row.Grants.{Grants};
ghost use Rattle.ns_replay.specs.Laws.{PositionsAreLeast, StartedCanBegin};

/// A position is the step that was asked for, or the last one of the run where that is less. So a run goes to any of its steps, and
/// from behind its end back to the end.
pub fn positions_are_least()
    ensures { (code : CodeProgram) (grants : Grants) → PositionsAreLeast code grants }
{
    ns_moves::move_laws::turns_add();
    ns_moves::move_laws::ended_runs_stay();
    ns_moves::move_laws::moves_charge_as_told();
    ns_moves::valid_frames::moves_keep_valid();
}

/// A machine that was made and started can be replayed: no step is used, and its run goes on or was ended by its start.
pub fn started_machines_can_begin()
    ensures { (code : CodeProgram) (grants : Grants) → StartedCanBegin code grants }
{}
