//! How these calls make up the actions of a run. Each function does nothing, and its contract is
//! the law.

ghost use Rattle.ns_code.specs.declared.program.CodeProgram.{CodeProgram};
ghost use Rattle.ns_world.specs.declared.value.Value.{Value};
ghost use Rattle.ns_world.specs.Heap.{Heap};
ghost use Rattle.ns_world.specs.Lawful.{IsLiveValue};
ghost use Rattle.ns_kdata.specs.Arguments.{CellIsThere};
ghost use Rattle.ns_moves.specs.StatedAnswers.{SentIsItsAnswer, PlainIsItsAnswer};

/// A send of running code charges its step, and is then what its target finds answers; and so is a
/// send that no code makes, of whatever code.
pub fn a_send_is_its_step_and_its_answer()
    ensures running { (code : CodeProgram) → SentIsItsAnswer code }
    ensures plain { (code : CodeProgram) → PlainIsItsAnswer code }
{}

/// A live value is there.
pub fn live_values_are_there()
    ensures { (heap : Heap) (code : CodeProgram) (value : Value) → IsLiveValue heap code value → CellIsThere heap value }
{}
