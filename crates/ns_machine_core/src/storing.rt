//! Instructions that store a value.

ghost use Rattle.std.specs.Prelude.{Option};
ghost use Rattle.ns_base.specs.declared.place.Place.{Place as SourcePlace};
ghost use Rattle.ns_code.specs.declared.instruction.Instr.TheVariants as instr;
ghost use Rattle.ns_machine_core.specs.declared.state.Next.TheVariants as next;
ghost use Rattle.ns_machine_core.specs.Doing.{CanDo, IsDone};

use crate::settling::{running, running_code};
use crate::state::Core;
use ns_code::program::CodeProgram;
use ns_machine_frames::registers::Registers;
use ns_moves::finding::enclosing_objects_are_there;
use ns_moves::slots::fill_slot;

/// Takes the topmost operand off and fills a slot of self with it.
#[inline(always)]
#[tactic(auto, using(crate::specs::laws::Pushed::runs, crate::specs::laws::Taken::some_operand, crate::proofs::Stored::slot_lawful, crate::proofs::Stored::slot_fits, crate::proofs::Stored::slot_class))]
pub fn store_slot(code: &CodeProgram, core: &mut Core, at: Registers, slot: u16) -> Registers
    requires { CanDo code.now core.old at (instr.StoreSlot slot) }
    ensures { (place : Option SourcePlace) → IsDone code.now (instr.StoreSlot slot) place core.old at core.new (next.On result) }
{
    enclosing_objects_are_there();
    let code_here = running_code(running(&mut core.stack).activation);
    let (value, below) = core.stack.pop(at);
    fill_slot(&mut core.run.world, code, code_here, slot, value);
    below
}
