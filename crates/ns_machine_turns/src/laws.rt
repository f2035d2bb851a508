//! Laws of turns. Each function does nothing but name the laws that it rests on, and its contract is the law.

ghost use Rattle.ns_code.specs.declared.program.CodeProgram.{CodeProgram};
ghost use Rattle.ns_machine_turns.specs.Turning.{MovesChargeOne, MovesGoAlong, PassingChargesOne, PassingGoesAlong};

use ns_machine_core::laws::{
    moves_keep_machines_ready, passing_keeps_machines_ready, turns_go_by_moves,
};
use ns_moves::falling::moves_lower;
use ns_moves::move_laws::{moves_charge_as_told, moves_go_onward};
use ns_moves::valid_frames::moves_keep_valid;

/// Moves of a machine go along, one after another, as long as steps are left, and none takes a step back.
pub fn moves_go_along()
    ensures { (code : CodeProgram) → MovesGoAlong code }
{
    turns_go_by_moves();
    moves_charge_as_told();
    moves_keep_valid();
    moves_keep_machines_ready();
    moves_go_onward();
    moves_lower();
}

/// Two moves that are made as one go along too, where a step was left before them: the second charges none.
pub fn passing_goes_along()
    ensures { (code : CodeProgram) → PassingGoesAlong code }
{
    turns_go_by_moves();
    moves_charge_as_told();
    moves_keep_valid();
    passing_keeps_machines_ready();
    moves_go_onward();
    moves_lower();
}

/// A move charges one step at most, and so do two that are made as one.
pub fn moves_charge_one()
    ensures moves { (code : CodeProgram) → MovesChargeOne code }
    ensures passing { (code : CodeProgram) → PassingChargesOne code }
{
    moves_charge_as_told();
    moves_keep_valid();
}
