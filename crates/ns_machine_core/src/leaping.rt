//! Jumps by the quick way: one that finds no step left or no boolean isn't made. One that goes forward leads straight on, and so
//! does one that goes back, with a step charged.

ghost use Rattle.std.specs.Prelude.{Option};
ghost use Rattle.ns_base.specs.declared.place.Place.{Place as SourcePlace};
ghost use Rattle.ns_code.specs.declared.instruction.Instr.TheVariants as instr;
ghost use Rattle.ns_machine_core.specs.Doing.{CanDo};
ghost use Rattle.ns_machine_core.specs.Jumping.{CanJump};
ghost use Rattle.ns_machine_core.specs.Tried.{LeadsOrChangesNothing, JumpLeads};

use crate::led::Led;
use crate::state::Core;
use ns_code::program::CodeProgram;
use ns_machine_frames::registers::Registers;
use ns_moves::move_laws::jumps_go_back;
use ns_world::value::Value;

/// Takes a jump, unless it charges a step and none is left.
#[inline(always)]
#[tactic(auto, using(crate::specs::laws::Charged::step_on_top))]
fn take(code: &CodeProgram, core: &mut Core, at: Registers, target: u32) -> Led
    requires { CanJump code.now core.old at target }
    ensures { JumpLeads code.now core.old at target core.new result }
{
    jumps_go_back();
    let _code = code;
    let to = Registers { next: target, ..at };
    if at.next <= target {
        return Led::Straight(to);
    }
    match core.run.world.step() {
        Ok(()) => Led::Charged(to),
        Err(_) => Led::Nowhere,
    }
}

/// Jumps.
#[inline(always)]
#[tactic(auto, using(crate::specs::laws::Straight::same_straight, crate::specs::laws::Straight::charged_straight))]
pub fn jump(code: &CodeProgram, core: &mut Core, at: Registers, target: u32) -> Led
    requires { CanDo code.now core.old at (instr.Jump target) }
    ensures { (place : Option SourcePlace) → LeadsOrChangesNothing code.now (instr.Jump target) place core.old at core.new result }
{
    match take(code, core, at, target) {
        Led::Straight(to) => Led::Straight(to),
        Led::Charged(to) => Led::Charged(to),
        Led::On(to) => Led::On(to),
        Led::Answered(to) => Led::Answered(to),
        Led::Nowhere => Led::Nowhere,
    }
}

/// Takes the topmost operand off, and jumps where it is false.
#[inline(always)]
#[tactic(auto, using(crate::specs::laws::Taken::some_operand, crate::specs::laws::Straight::same_straight, crate::specs::laws::Straight::charged_straight))]
pub fn jump_false(code: &CodeProgram, core: &mut Core, at: Registers, target: u32) -> Led
    requires { CanDo code.now core.old at (instr.JumpFalse target) }
    ensures { (place : Option SourcePlace) → LeadsOrChangesNothing code.now (instr.JumpFalse target) place core.old at core.new result }
{
    let (value, below) = core.stack.pop(at);
    match value {
        Value::False => match take(code, core, below, target) {
            Led::Straight(to) => Led::Straight(to),
            Led::Charged(to) => Led::Charged(to),
            Led::On(to) => Led::On(to),
            Led::Answered(to) => Led::Answered(to),
            Led::Nowhere => Led::Nowhere,
        },
        Value::True => Led::Straight(below),
        _ => Led::Nowhere,
    }
}

/// Takes the topmost operand off, and jumps where it is true.
#[inline(always)]
#[tactic(auto, using(crate::specs::laws::Taken::some_operand, crate::specs::laws::Straight::same_straight, crate::specs::laws::Straight::charged_straight))]
pub fn jump_true(code: &CodeProgram, core: &mut Core, at: Registers, target: u32) -> Led
    requires { CanDo code.now core.old at (instr.JumpTrue target) }
    ensures { (place : Option SourcePlace) → LeadsOrChangesNothing code.now (instr.JumpTrue target) place core.old at core.new result }
{
    let (value, below) = core.stack.pop(at);
    match value {
        Value::True => match take(code, core, below, target) {
            Led::Straight(to) => Led::Straight(to),
            Led::Charged(to) => Led::Charged(to),
            Led::On(to) => Led::On(to),
            Led::Answered(to) => Led::Answered(to),
            Led::Nowhere => Led::Nowhere,
        },
        Value::False => Led::Straight(below),
        _ => Led::Nowhere,
    }
}
