//! What a run can touch. Each function does nothing but name the laws that it rests on, and its contract is the law.

ghost use Rattle.ns_code.specs.declared.program.CodeProgram.{CodeProgram};
ghost use Rattle.ns_facets.specs.declared.row.Grants.{Grants};
ghost use Rattle.ns_machine_reach.specs.Reached.{MovesStayInReach, SendsStayInReach, TurnsStayInReach};

/// From a valid state that goes on, moves change no cell but those that are reached from it and those that they make. They
/// print nothing where no Console is reached, and change no board where no Board is. And what is reached in the end was
/// reached at first or was made since, and holds such cells alone: no code gets at what it wasn't handed.
pub fn moves_stay_in_reach()
    ensures { (code : CodeProgram) (grants : Grants) → MovesStayInReach code grants }
{
    ns_kint::laws::answers_are_integers_and_booleans();
    ns_moves::laws::rows_that_are_found_suit();
    ns_moves::finding::enclosing_objects_are_there();
    ns_moves::valid_frames::moves_keep_frames_valid();
    ns_moves::valid_frames::moves_keep_valid();
}

/// So it is with each turn.
pub fn turns_stay_in_reach()
    ensures { (code : CodeProgram) (grants : Grants) → TurnsStayInReach code grants }
{
    moves_stay_in_reach();
}

/// So it is with a send of the host, in any number of moves: from its receiver and its arguments.
pub fn sends_stay_in_reach()
    ensures { (code : CodeProgram) (grants : Grants) → SendsStayInReach code grants }
{
    ns_moves::valid_world::sends_of_a_host_are_valid();
    moves_stay_in_reach();
}
