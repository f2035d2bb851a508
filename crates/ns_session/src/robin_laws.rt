//! Laws of turns and of the round robin. Each function does nothing but name the laws that it rests on, and its contract
//! is the law.

ghost use Rattle.std.specs.Prelude.{ℕ};
ghost use Rattle.ns_code.specs.declared.program.CodeProgram.{CodeProgram};
ghost use Rattle.ns_facets.specs.declared.row.Grants.{Grants};
ghost use Rattle.ns_session.specs.Member.{Application};
ghost use Rattle.ns_session.specs.RobinLaws.{TurnsAreMade, TurnsAreTurned, TurnsAreTurnedBeside, RoundRobinIsRobin, SessionsRun};

/// In a valid state a turn leaves one state, which a function gives.
pub fn turns_are_a_function()
    ensures { (code : CodeProgram) (grants : Grants) → TurnsAreTurned code grants }
{
    ns_moves::move_laws::turns_add();
    ns_moves::valid_frames::moves_keep_valid();
    ns_moves::falling::moves_lower();
    ns_moves::falling::left_is_below_a_power();
}

/// And what the function gives some turn leaves.
pub fn turns_are_made()
    ensures { (code : CodeProgram) (grants : Grants) → TurnsAreMade code grants }
{
    ns_moves::move_laws::turns_add();
    ns_moves::valid_frames::moves_keep_valid();
    ns_moves::falling::moves_lower();
    ns_moves::falling::left_is_below_a_power();
}

/// So is the turn of an application, with the shared board or without it.
pub fn turns_beside_a_board_are_a_function()
    ensures { (application : Application) → TurnsAreTurnedBeside application }
{
    turns_are_a_function();
    ns_moves::valid_world::swaps_keep_valid();
}

/// The round robin of applications that stand where turns lead is a function of them.
pub fn round_robins_are_a_function()
    ensures { (quantum : ℕ) → RoundRobinIsRobin quantum }
{
    turns_beside_a_board_are_a_function();
    crate::laws::applications_stay_in_reach();
    crate::laws::turns_use_steps_up();
}

/// So what a session of applications that were admitted comes to under the round robin is a function of them and the
/// quantum.
pub fn sessions_run_as_a_function()
    ensures { (quantum : ℕ) → SessionsRun quantum }
{
    round_robins_are_a_function();
    crate::laws::applications_stay_in_reach();
}
