//! Instructions that take operands off or pick them.

ghost use Rattle.std.specs.Prelude.{Option};
ghost use Rattle.ns_base.specs.declared.place.Place.{Place as SourcePlace};
ghost use Rattle.ns_code.specs.declared.instruction.Instr.TheVariants as instr;
ghost use Rattle.ns_machine_core.specs.declared.state.Next.TheVariants as next;
ghost use Rattle.ns_machine_core.specs.Doing.{CanDo, IsDone};

use crate::settling::push;
use crate::state::Core;
use ns_code::program::CodeProgram;
use ns_machine_frames::laws::operands_are_taken;
use ns_machine_frames::registers::Registers;

/// Drops the topmost operand.
#[inline(always)]
#[tactic(auto, using(crate::specs::laws::Taken::some_operand, crate::proofs::Taken::pop_done))]
pub fn pop(code: &CodeProgram, core: &mut Core, at: Registers) -> Registers
    requires { CanDo code.now core.old at instr.Pop }
    ensures { (place : Option SourcePlace) → IsDone code.now instr.Pop place core.old at core.new (next.On result) }
{
    let _code = code;
    core.stack.pop(at).1
}

/// Pushes the operand so many below the topmost.
#[inline(always)]
#[tactic(auto, using(crate::specs::laws::Taken::some_operand, crate::specs::laws::Pushed::one_more, crate::proofs::Taken::pick_done))]
pub fn pick(code: &CodeProgram, core: &mut Core, at: Registers, number: u8) -> Registers
    requires { CanDo code.now core.old at (instr.Pick number) }
    ensures { (place : Option SourcePlace) → IsDone code.now (instr.Pick number) place core.old at core.new (next.On result) }
{
    operands_are_taken();
    let value = core.stack.operand(at, u32::from(number));
    push(code, core, at, value)
}
