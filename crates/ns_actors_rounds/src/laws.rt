//! Laws of rounds. Each function does nothing but name the laws that it rests on, and its contract is the law.

ghost use Rattle.ns_actors_rounds.specs.Laws.{ActorsRest, ProgramsHaveRounds, ProgramsRest, RoundsKeepActors, RoundsLeaveLess};
ghost use Rattle.ns_base.specs.declared.limits.Limits.{Limits};
ghost use Rattle.ns_code.specs.declared.program.CodeProgram.{CodeProgram};

/// A round of actors that don't all rest leaves less to do, and they stay actors.
pub fn rounds_leave_less()
    ensures lower { RoundsLeaveLess }
    ensures keep { RoundsKeepActors }
{
    ns_actors::laws::actors_stay_actors();
    ns_actors::laws::outboxes_are_short();
    ns_actors::laws::rounds_come_to_rest();
    ns_actors::laws::sends_begin_in_reach();
    ns_actors::laws::steps_are_within();
    ns_moves::move_laws::ended_runs_stay();
    ns_moves::move_laws::moves_charge_as_told();
    ns_moves::move_laws::moves_go_onward();
    ns_moves::valid_frames::moves_keep_valid();
    ns_session::laws::applications_stay_in_reach();
    ns_session::laws::turns_use_steps_up();
    ns_session::robin_laws::turns_are_made();
}

/// So actors rest after their rounds, where there are rounds enough.
pub fn actors_come_to_rest()
    ensures { ActorsRest }
{
    rounds_leave_less();
    ns_actors::laws::rounds_come_to_rest();
}

/// For the actors of a program there are rounds enough, whatever letter the first of them gets: so they come to rest.
pub fn programs_come_to_rest()
    ensures rounds { (code : CodeProgram) (limits : Limits) → ProgramsHaveRounds code limits }
    ensures rest { (code : CodeProgram) (limits : Limits) → ProgramsRest code limits }
{
    actors_come_to_rest();
    ns_actors::laws::actors_stay_actors();
}
