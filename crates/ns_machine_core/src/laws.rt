//! Laws of the machine. Each function does nothing but name the laws that it rests on, and its contract is the law.

ghost use Rattle.ns_code.specs.declared.program.CodeProgram.{CodeProgram};
ghost use Rattle.ns_facets.specs.declared.row.Grants.{Grants};
ghost use Rattle.ns_machine_core.specs.Entering.{WhatIsReachedIsEntered, ArgumentsAreLocals};
ghost use Rattle.ns_machine_core.specs.Framed.{ValidIsFramed, WaitingHasRoom, ArgumentsAreFew};
ghost use Rattle.ns_machine_core.specs.Moving.{ValidHasNextStep};
ghost use Rattle.ns_machine_core.specs.Passing.{PassingKeepsReady, DoneIsPassed};
ghost use Rattle.ns_machine_core.specs.Turning.{TurnsBegin, FreeMovesGoOn, ChargedMovesGoOn, TurnsEnd, TurnsRest};
ghost use Rattle.ns_machine_core.specs.Ready.{MovesKeepReady, StepsCanBeDone, DoneIsMoved};

/// A valid run that goes on with a body has a next step there, whose instruction finds all that it asks for behind it,
/// and what that does is the move of the run.
pub fn valid_runs_have_a_next_step()
    ensures { (code : CodeProgram) (grants : Grants) → ValidHasNextStep code grants }
{
    ns_verify::laws::heights_agree();
    ns_verify::laws::sound_instructions_are_usable();
    ns_moves::valid_frames::moves_keep_frames_valid();
}

/// What holds of a machine at every moment holds after each of its moves: the state stays valid, the memory is enough,
/// and kept lookups, which were right in the world before, are right in the world after.
pub fn moves_keep_machines_ready()
    ensures moves { (code : CodeProgram) (grants : Grants) → MovesKeepReady code grants }
    ensures can { (code : CodeProgram) (grants : Grants) → StepsCanBeDone code grants }
    ensures done { (code : CodeProgram) → DoneIsMoved code }
{
    ns_verify::laws::heights_agree();
    ns_moves::valid_frames::moves_keep_valid();
    ns_moves::move_laws::moves_go_onward();
    ns_find::laws::lookups_stay();
}

/// The same after two moves that were made as one; and an instruction that was done behind the next step, with the move
/// after it, is two moves.
pub fn passing_keeps_machines_ready()
    ensures moves { (code : CodeProgram) (grants : Grants) → PassingKeepsReady code grants }
    ensures done { (code : CodeProgram) → DoneIsPassed code }
{
    ns_moves::valid_frames::moves_keep_valid();
    ns_moves::move_laws::moves_go_onward();
    ns_find::laws::lookups_stay();
}

/// The frames of a valid run are as many as depth is charged, and each answer has room where it goes.
pub fn valid_frames_are_framed()
    ensures framed { (code : CodeProgram) (grants : Grants) → ValidIsFramed code grants }
    ensures waiting { (code : CodeProgram) (grants : Grants) → WaitingHasRoom code grants }
{
    ns_verify::laws::heights_agree();
}

/// The arguments of a selector are no more than the most of the code's, for which memory was taken.
#[tactic(auto, using(crate::proofs::Arguments::arguments_few))]
pub fn arguments_are_few()
    ensures { (code : CodeProgram) → ArgumentsAreFew code }
{}

/// How a turn is told move by move: what holds at its beginning and after each of its moves, by the steps that are
/// left, and where it ends.
pub fn turns_go_by_moves()
    ensures begin { (code : CodeProgram) → TurnsBegin code }
    ensures free { (code : CodeProgram) → FreeMovesGoOn code }
    ensures charged { (code : CodeProgram) → ChargedMovesGoOn code }
    ensures last { (code : CodeProgram) → TurnsEnd code }
    ensures rest { (code : CodeProgram) → TurnsRest code }
{}

/// A body that an action of sound code has reached can be entered: it has as many arguments as it asks for, and the
/// limit on depth, within which its frame was charged, gives it room.
pub fn what_is_reached_can_be_entered()
    ensures entered { (code : CodeProgram) → WhatIsReachedIsEntered code }
    ensures arguments { (code : CodeProgram) → ArgumentsAreLocals code }
{
    ns_verify::laws::sound_bodies_stand_right();
    ns_machine_frames::laws::frames_have_room();
}
