//! Laws of sessions. Each function does nothing but name the laws that it rests on, and its contract is the law.

ghost use Rattle.ns_code.specs.declared.program.CodeProgram.{CodeProgram};
ghost use Rattle.ns_resolved.specs.Program.{Meant};
ghost use Rattle.ns_session.specs.Member.{Application};
ghost use Rattle.ns_session.specs.Session.{Pair};
ghost use Rattle.ns_session.specs.Laws.{StartsAlone, TurnsStayAlone, AloneLeads, LongTurnsRest, SourceLeads};
ghost use Rattle.ns_session.specs.Laws.{StartsReached, TurnsReach, BegunStays, TurnsLower, AddingPlays, TurnsPlay, EqualStepsAgree};

/// An application begins where its run on its own begins.
pub fn applications_start_alone()
    ensures { (application : Application) → StartsAlone application }
{
    ns_moves::move_laws::ended_runs_stay();
    ns_moves::move_laws::moves_charge_as_told();
    ns_moves::valid_world::new_machines_are_valid();
    ns_moves::valid_world::opening_sends_are_valid();
    ns_moves::valid_frames::moves_keep_valid();
}

/// A turn without the board leads on in the application's run on its own, whatever turns others had before.
pub fn turns_stay_alone()
    ensures { (application : Application) → TurnsStayAlone application }
{
    ns_moves::move_laws::turns_add();
    ns_moves::move_laws::ended_runs_stay();
    ns_moves::move_laws::moves_charge_as_told();
    ns_moves::valid_world::new_machines_are_valid();
    ns_moves::valid_world::opening_sends_are_valid();
    ns_moves::valid_frames::moves_keep_valid();
}

/// So an application without the board that has ended has the ending and the transcript of its run on its own, and one that
/// hasn't has a beginning of that transcript.
pub fn applications_keep_to_themselves()
    ensures { (application : Application) → AloneLeads application }
{
    ns_moves::move_laws::moves_add();
    ns_moves::move_laws::ended_runs_stay();
    ns_moves::move_laws::moves_go_onward();
}

/// The run of an application on its own comes to rest in a turn of more steps than its limit.
pub fn long_turns_rest()
    ensures { (application : Application) → LongTurnsRest application }
{
    ns_moves::move_laws::ended_runs_stay();
    ns_moves::move_laws::moves_charge_as_told();
    ns_moves::move_laws::moves_go_onward();
    ns_moves::valid_world::new_machines_are_valid();
    ns_moves::valid_world::opening_sends_are_valid();
    ns_moves::valid_frames::moves_keep_valid();
}

/// In whatever turns, with the board or without, an application stands in a valid state of a run that has begun, within its
/// limits.
pub fn applications_stay_in_reach()
    ensures start { (application : Application) → StartsReached application }
    ensures turns { (application : Application) → TurnsReach application }
{
    ns_moves::move_laws::moves_go_onward();
    ns_moves::valid_world::new_machines_are_valid();
    ns_moves::valid_world::opening_sends_are_valid();
    ns_moves::valid_world::swaps_keep_valid();
    ns_moves::valid_frames::moves_keep_valid();
}

/// A run that has begun stays so.
pub fn begun_runs_stay_begun()
    ensures { (code : CodeProgram) → BegunStays code }
{}

/// There each turn of at least one step uses up steps or ends the run.
pub fn turns_use_steps_up()
    ensures { (application : Application) → TurnsLower application }
{
    ns_moves::move_laws::ended_runs_stay();
    ns_moves::move_laws::moves_charge_as_told();
    ns_moves::move_laws::moves_go_onward();
    ns_moves::valid_world::swaps_keep_valid();
    ns_moves::valid_frames::moves_keep_valid();
}

/// Where its code is that of a program, this is what the program means.
pub fn applications_mean_their_sources()
    ensures { (meant : Meant) → SourceLeads meant }
{
    ns_link::laws::turns_are_on_the_way();
}

/// A session that was made by adding applications and giving turns, in any order, is one in which all of them were there
/// from the beginning and the turns were a schedule.
pub fn calls_play_schedules()
    ensures adding { (application : Application) → AddingPlays application }
    ensures turns { (pair : Pair) → TurnsPlay pair }
{}

/// Two sessions that gave an application without the board equally many steps have it in the same state: what is told of it
/// is the same, and what its next turn does.
pub fn equal_steps_agree()
    ensures { (application : Application) → EqualStepsAgree application }
{
    applications_start_alone();
    ns_moves::move_laws::turns_add();
}
