//! Returns of blocks from a home that is there and has a frame below it, by the quick way: registers alone come back.

ghost use Rattle.std.specs.Prelude.{◌<◌, Option, length};
ghost use Rattle.ns_base.specs.declared.place.Place.{Place as SourcePlace};
ghost use Rattle.ns_code.specs.declared.instruction.Instr.TheVariants as instr;
ghost use Rattle.ns_machine_core.specs.declared.state.Next.TheVariants as next;
ghost use Rattle.ns_machine_core.specs.Doing.{CanDo};
ghost use Rattle.ns_machine_core.specs.Tried.{DoesOrNot};
ghost use Rattle.ns_machine_returns.specs.Unwinding.{CanUnwind, IsUnwound, UnwindsOrNot};

use crate::answering::hand;
use crate::homes::give_back;
use ns_code::program::CodeProgram;
use ns_machine_core::settling::running;
use ns_machine_core::state::Core;
use ns_machine_frames::laws::returns_unwind;
use ns_machine_frames::registers::Registers;
use ns_world::lawful::charging_keeps_lawful;
use ns_world::value::Value;

/// Returns the topmost operand from the home of the block that runs.
#[inline(always)]
pub fn return_home(code: &CodeProgram, core: &mut Core, at: Registers) -> Option<Registers>
    requires { CanDo code.now core.old at instr.ReturnHome }
    ensures { (place : Option SourcePlace) → DoesOrNot code.now instr.ReturnHome place core.old at core.new result }
{
    returns_unwind();
    let home = running(&core.stack).activation.home;
    let (value, below) = core.stack.pop(at);
    let count = match core.stack.frames_to(home) {
        Some(count) => count,
        None => return None,
    };
    match unwind(code, core, below, home, count, value) {
        Some(to) => Some(to),
        None => None,
    }
}

/// Gives so many frames back, down to a home, whose answer the value is, where another frame stands below them.
#[inline(always)]
fn unwind(
    code: &CodeProgram,
    core: &mut Core,
    at: Registers,
    home: u64,
    count: u32,
    value: Value,
) -> Option<Registers>
    requires { CanUnwind code.now core.old at home count value }
    ensures { UnwindsOrNot code.now core.old at home value core.new result }
{
    if core.stack.count() <= count {
        return None;
    }
    Some(unwind_to(code, core, at, home, count, value))
}

/// Gives them back, and brings the value to the frame below them.
#[inline(always)]
fn unwind_to(
    code: &CodeProgram,
    core: &mut Core,
    at: Registers,
    home: u64,
    count: u32,
    value: Value,
) -> Registers
    requires can { CanUnwind code.now core.old at home count value }
    requires some { count < length core.old.stack.frames.items }
    ensures { IsUnwound code.now core.old at home value core.new (next.On result) }
{
    returns_unwind();
    charging_keeps_lawful();
    let _home = home;
    give_back(&mut core.run.world, count);
    let here = core.stack.unwind(at, count);
    hand(code, core, here, value)
}
