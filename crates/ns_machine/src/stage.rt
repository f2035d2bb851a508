//! Where a machine stands.

ghost use Rattle.std.specs.Prelude.{◌≡◌};
ghost use Rattle.ns_code.specs.declared.program.CodeProgram.{CodeProgram};
ghost use Rattle.ns_machine_core.specs.Shown.{shown};
ghost use Rattle.ns_machine.specs.Machine as spec;
ghost use Rattle.ns_machine.specs.Turned as spec_turn;

use ns_machine_core::state::{Core, Next};
use ns_world::cell::CellLimit;
use ns_world::ending::Ending;

/// Nothing was begun, and the array of the arguments has that number; or a run goes on there, or has ended.
#[derive(Clone, Copy)]
pub enum Stage {
    Unbegun { arguments: u32 },
    Begun(Next),
}

/// What a turn answers: that the run goes on, or how it has ended.
#[derive(Clone, Copy)]
pub enum Turn {
    Going,
    Ended(Ending),
}

/// What a turn answers that leads there.
pub fn turn_at(core: &Core, next: Next) -> Turn
    ensures { (code : CodeProgram) → result ≡ spec_turn.turn_at (shown code core.now next) }
{
    match next {
        Next::Ended => Turn::Ended(core.ending),
        Next::On(_) | Next::Waits(_) => Turn::Going,
    }
}

/// Where a machine stands after its start, whose ending is the limit on cells.
pub fn stage_after(made: Result<u32, CellLimit>) -> Stage
    ensures { result ≡ spec.stage_after made }
{
    match made {
        Ok(arguments) => Stage::Unbegun { arguments },
        Err(_) => Stage::Begun(Next::Ended),
    }
}
