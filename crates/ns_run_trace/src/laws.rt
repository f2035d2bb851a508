//! Laws of traces. Each function does nothing but name the laws that it rests on, and its contract is the law.

ghost use Rattle.ns_code.specs.declared.program.CodeProgram.{CodeProgram};
ghost use Rattle.ns_facets.specs.declared.row.Grants.{Grants};
ghost use Rattle.ns_run_trace.specs.Laws.{FirstIsTheCaller, RunsEndAfterIt, TracesTellFrames};

/// From each valid state that moves on, moves lead to the state that a trace tells of, the next move leads to where the run comes to
/// rest, and there is no other such state.
pub fn runs_end_after_it()
    ensures { (code : CodeProgram) (grants : Grants) → RunsEndAfterIt code grants }
{
    ns_moves::move_laws::moves_add();
    ns_moves::move_laws::ended_runs_stay();
    ns_moves::valid_frames::moves_keep_valid();
    ns_moves::falling::left_is_below_a_power();
    ns_run_code::laws::valid_runs_come_to_rest();
}

/// Each send of a trace is that of a frame of this state.
#[tactic(auto, using(crate::proofs::Telling::traces_tell_frames))]
pub fn traces_tell_frames()
    ensures { (code : CodeProgram) → TracesTellFrames code }
{}

/// The first that is told behind an error's own send is its caller: all sends within are told as that one.
#[tactic(auto, using(crate::proofs::Telling::first_is_the_caller))]
pub fn the_first_is_the_caller()
    ensures { FirstIsTheCaller }
{}
