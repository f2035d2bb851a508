//! Laws of runs that are paused. Each function does nothing but name the laws that it rests on, and its contract is the law.

ghost use Rattle.ns_code.specs.declared.program.CodeProgram.{CodeProgram};
ghost use Rattle.ns_facets.specs.declared.row.Grants.{Grants};
ghost use Rattle.ns_resolved.specs.Program.{Meant};
ghost use Rattle.ns_run_snap.specs.Laws.{ResumesAsMeant, TurnsGoOn};

/// A turn leads to a valid state, and doesn't change where the run comes to rest.
pub fn turns_go_on()
    ensures { (code : CodeProgram) (grants : Grants) → TurnsGoOn code grants }
{
    ns_moves::valid_frames::moves_keep_valid();
    ns_run_code::laws::valid_runs_come_to_rest();
}

/// What is stored of a run that is paused goes on to what the program means: so `snap` and then `resume` are `run`, after
/// however many steps.
pub fn snapshots_resume_as_meant()
    ensures { (meant : Meant) → ResumesAsMeant meant }
{
    turns_go_on();
    ns_moves::valid_world::new_machines_are_valid();
    ns_moves::valid_world::opening_sends_are_valid();
    ns_frozen::laws::states_thaw_back();
    ns_frozen::laws::valid_states_freeze();
    ns_snapshot::laws::written_snapshot_is_read();
    ns_run_code::laws::code_comes_to_its_end();
    ns_run_code::laws::valid_runs_come_to_rest();
    ns_run_code::laws::code_runs_as_meant();
}
