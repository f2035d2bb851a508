//! Jumps. One that goes to its own or an earlier instruction charges a step.

ghost use Rattle.std.specs.Prelude.{Option};
ghost use Rattle.ns_base.specs.declared.place.Place.{Place as SourcePlace};
ghost use Rattle.ns_code.specs.declared.instruction.Instr.TheVariants as instr;
ghost use Rattle.ns_machine_core.specs.Doing.{CanDo, IsDone, IsRunning};
ghost use Rattle.ns_machine_core.specs.Jumping.{CanJump, Jumps, EndsWithoutBoolean};

use crate::places::Places;
use crate::settling::{ending_at, running};
use crate::state::{Core, Next};
use ns_code::program::CodeProgram;
use ns_machine_frames::registers::Registers;
use ns_machine_frames::stack::Stack;
use ns_moves::move_laws::jumps_go_back;
use ns_world::ending::{Ending, Fault, Kind};
use ns_world::value::Value;

/// Takes a jump: goes on with another instruction of the body that runs, and charges a step where that isn't behind
/// the jump.
#[inline(always)]
fn take(code: &CodeProgram, core: &mut Core, at: Registers, target: u32) -> Next
    requires { CanJump code.now core.old at target }
    ensures { Jumps code.now core.old at target core.new result }
{
    jumps_go_back();
    let _code = code;
    let to = Registers { next: target, ..at };
    if at.next <= target {
        return Next::On(to);
    }
    match core.run.world.step() {
        Ok(()) => Next::On(to),
        Err(limit) => {
            core.ending = Ending::Limit(limit);
            Next::Ended
        }
    }
}

/// How a run ends at a jump that finds no boolean.
fn no_boolean(stack: &Stack, places: &Places) -> Ending
    requires { IsRunning stack.now.frames.items }
    ensures { EndsWithoutBoolean places.now stack.now.frames.items result }
{
    let site = running(stack).activation.site;
    ending_at(places, site, Fault::Kind(Kind::MustBeBoolean))
}

/// Jumps.
#[inline(always)]
pub fn jump(code: &CodeProgram, core: &mut Core, at: Registers, target: u32) -> Next
    requires { CanDo code.now core.old at (instr.Jump target) }
    ensures { (place : Option SourcePlace) → IsDone code.now (instr.Jump target) place core.old at core.new result }
{
    take(code, core, at, target)
}

/// Takes the topmost operand off, and jumps where it is false.
#[inline(always)]
#[tactic(auto, using(crate::specs::laws::Pushed::runs, crate::specs::laws::Taken::some_operand))]
pub fn jump_false(code: &CodeProgram, core: &mut Core, at: Registers, target: u32) -> Next
    requires { CanDo code.now core.old at (instr.JumpFalse target) }
    ensures { (place : Option SourcePlace) → IsDone code.now (instr.JumpFalse target) place core.old at core.new result }
{
    let (value, below) = core.stack.pop(at);
    match value {
        Value::False => take(code, core, below, target),
        Value::True => Next::On(below),
        _ => {
            core.ending = no_boolean(&mut core.stack, &mut core.places);
            Next::Ended
        }
    }
}

/// Takes the topmost operand off, and jumps where it is true.
#[inline(always)]
#[tactic(auto, using(crate::specs::laws::Pushed::runs, crate::specs::laws::Taken::some_operand))]
pub fn jump_true(code: &CodeProgram, core: &mut Core, at: Registers, target: u32) -> Next
    requires { CanDo code.now core.old at (instr.JumpTrue target) }
    ensures { (place : Option SourcePlace) → IsDone code.now (instr.JumpTrue target) place core.old at core.new result }
{
    let (value, below) = core.stack.pop(at);
    match value {
        Value::True => take(code, core, below, target),
        Value::False => Next::On(below),
        _ => {
            core.ending = no_boolean(&mut core.stack, &mut core.places);
            Next::Ended
        }
    }
}
