//! Returns of blocks from their homes.

ghost use Rattle.std.specs.Prelude.{◌≡◌, ◌≤◌, Option};
ghost use Rattle.ns_base.specs.declared.place.Place.{Place as SourcePlace};
ghost use Rattle.ns_code.specs.declared.instruction.Instr.TheVariants as instr;
ghost use Rattle.ns_moves.specs.Control.{Progress, in_world};
ghost use Rattle.ns_moves.specs.Room.{SameRest};
ghost use Rattle.ns_machine_frames.specs.Stated.{parts_ended};
ghost use Rattle.ns_machine_core.specs.Doing.{CanDo, IsDone};
ghost use Rattle.ns_machine_core.specs.Own.{AreOwn};
ghost use Rattle.ns_machine_returns.specs.Unwinding.{CanUnwind, IsUnwound};

use crate::handing::hand;
use ns_code::program::CodeProgram;
use ns_machine_core::own::OwnSends;
use ns_machine_core::settling::{ending_at, running};
use ns_machine_core::state::{Core, Next};
use ns_machine_frames::laws::returns_unwind;
use ns_machine_frames::registers::Registers;
use ns_world::ending::{Fault, Kind};
use ns_world::lawful::charging_keeps_lawful;
use ns_world::value::Value;
use ns_world::world::World;

/// Returns the topmost operand from the home of the block that runs, or ends the run where the home has ended.
pub fn return_home(code: &CodeProgram, core: &mut Core, at: Registers, own: OwnSends) -> Next
    requires can { CanDo code.now core.old at instr.ReturnHome }
    requires own { AreOwn code.now core.old.places own }
    ensures { (place : Option SourcePlace) → IsDone code.now instr.ReturnHome place core.old at core.new result }
{
    returns_unwind();
    let frame = running(&core.stack);
    let home = frame.activation.home;
    let (value, below) = core.stack.pop(at);
    match core.stack.frames_to(home) {
        Some(count) => unwind(code, core, below, own, home, count, value),
        None => {
            let fault = Fault::Kind(Kind::DeadReturn);
            core.ending = ending_at(&core.places, frame.activation.site, fault);
            Next::Ended
        }
    }
}

/// Gives so many frames back, down to a home, whose answer the value is.
fn unwind(
    code: &CodeProgram,
    core: &mut Core,
    at: Registers,
    own: OwnSends,
    home: u64,
    count: u32,
    value: Value,
) -> Next
    requires can { CanUnwind code.now core.old at home count value }
    requires own { AreOwn code.now core.old.places own }
    ensures { IsUnwound code.now core.old at home value core.new result }
{
    returns_unwind();
    charging_keeps_lawful();
    let _home = home;
    give_back(&mut core.run.world, count);
    let here = core.stack.unwind(at, count);
    hand(code, core, here, own, value)
}

/// Gives the depth of so many frames back.
pub fn give_back(world: &mut World, count: u32)
    requires { count ≤ world.old.world.depth }
    ensures ended { (rest : Progress) → in_world rest world.new.world ≡ parts_ended count (in_world rest world.old.world) }
    ensures rest { SameRest world.old world.new }
{
    'frames: for _ in 0..count {
        world.leave();
    }
}
