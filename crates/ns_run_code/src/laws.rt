//! Laws of the runs of code. Each function does nothing but name the laws that it rests on, and its contract is the law.

ghost use Rattle.ns_code.specs.declared.program.CodeProgram.{CodeProgram};
ghost use Rattle.ns_facets.specs.declared.row.Grants.{Grants};
ghost use Rattle.ns_resolved.specs.Program.{Meant};
ghost use Rattle.ns_run_code.specs.Laws.{CodeEnds, CodeRunsAsMeant};
ghost use Rattle.ns_run_code.specs.Resting.{ValidComesToRest, MovesKeepRest, StillIsRested};
ghost use Rattle.ns_run_code.specs.Resting.{ValidEndsAtRest, RunsEndAtRest, SendsEndAtRest};

/// From each valid state a run comes to rest: moves don't change where, and a state that moves no more is there already.
pub fn valid_runs_come_to_rest()
    ensures rests { (code : CodeProgram) (grants : Grants) → ValidComesToRest code grants }
    ensures moves { (code : CodeProgram) (grants : Grants) → MovesKeepRest code grants }
    ensures still { (code : CodeProgram) (grants : Grants) → StillIsRested code grants }
{
    ns_moves::move_laws::moves_add();
    ns_moves::move_laws::ended_runs_stay();
    ns_moves::valid_frames::moves_keep_valid();
    ns_moves::falling::moves_lower();
    ns_moves::falling::left_is_below_a_power();
}

/// A run from a valid state to an end has come to where it comes to rest: the run of admitted code from its start on, and any
/// send of a host.
pub fn runs_end_at_rest()
    ensures valid { (code : CodeProgram) (grants : Grants) → ValidEndsAtRest code grants }
    ensures runs { (code : CodeProgram) → RunsEndAtRest code }
    ensures sends { (code : CodeProgram) (grants : Grants) → SendsEndAtRest code grants }
{
    valid_runs_come_to_rest();
    ns_moves::move_laws::moves_add();
    ns_moves::move_laws::ended_runs_stay();
    ns_moves::valid_world::new_machines_are_valid();
    ns_moves::valid_world::opening_sends_are_valid();
    ns_moves::valid_world::sends_of_a_host_are_valid();
}

/// Each run of admitted code ends, with limits in their ranges: where moves lead no further it has ended, and there it is
/// after as many moves as it can make at most.
pub fn code_comes_to_its_end()
    ensures { (code : CodeProgram) → CodeEnds code }
{
    valid_runs_come_to_rest();
    ns_moves::valid_world::new_machines_are_valid();
    ns_moves::valid_world::opening_sends_are_valid();
}

/// The run of a program's code is the run that its source means, with all arguments and at all limits.
pub fn code_runs_as_meant()
    ensures { (meant : Meant) → CodeRunsAsMeant meant }
{
    code_comes_to_its_end();
    ns_moves::move_laws::moves_add();
    ns_moves::move_laws::ended_runs_stay();
    ns_link::laws::the_machine_does_what_is_meant();
}
