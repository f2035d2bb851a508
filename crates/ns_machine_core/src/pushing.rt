//! Instructions that push a value which they name.

ghost use Rattle.std.specs.Prelude.{Option};
ghost use Rattle.ns_base.specs.declared.place.Place.{Place as SourcePlace};
ghost use Rattle.ns_code.specs.declared.instruction.Instr.TheVariants as instr;
ghost use Rattle.ns_machine_core.specs.declared.state.Next.TheVariants as next;
ghost use Rattle.ns_machine_core.specs.Doing.{CanDo, IsDone};

use crate::settling::{push, running, running_code};
use crate::state::Core;
use ns_base::selector::Sel;
use ns_code::program::CodeProgram;
use ns_machine_frames::registers::Registers;
use ns_moves::enclosing::enclosing_object;
use ns_world::value::Value;

/// Pushes nil.
#[inline(always)]
#[tactic(auto, using(crate::specs::laws::Pushed::one_more, crate::proofs::Pushed::nil_done))]
pub fn push_nil(code: &CodeProgram, core: &mut Core, at: Registers) -> Registers
    requires { CanDo code.now core.old at instr.PushNil }
    ensures { (place : Option SourcePlace) → IsDone code.now instr.PushNil place core.old at core.new (next.On result) }
{
    push(code, core, at, Value::Nil)
}

/// Pushes true.
#[inline(always)]
#[tactic(auto, using(crate::specs::laws::Pushed::one_more, crate::proofs::Pushed::true_done))]
pub fn push_true(code: &CodeProgram, core: &mut Core, at: Registers) -> Registers
    requires { CanDo code.now core.old at instr.PushTrue }
    ensures { (place : Option SourcePlace) → IsDone code.now instr.PushTrue place core.old at core.new (next.On result) }
{
    push(code, core, at, Value::True)
}

/// Pushes false.
#[inline(always)]
#[tactic(auto, using(crate::specs::laws::Pushed::one_more, crate::proofs::Pushed::false_done))]
pub fn push_false(code: &CodeProgram, core: &mut Core, at: Registers) -> Registers
    requires { CanDo code.now core.old at instr.PushFalse }
    ensures { (place : Option SourcePlace) → IsDone code.now instr.PushFalse place core.old at core.new (next.On result) }
{
    push(code, core, at, Value::False)
}

/// Pushes an integer.
#[inline(always)]
#[tactic(auto, using(crate::specs::laws::Pushed::one_more, crate::proofs::Pushed::int_done))]
pub fn push_int(code: &CodeProgram, core: &mut Core, at: Registers, number: i64) -> Registers
    requires { CanDo code.now core.old at (instr.PushInt number) }
    ensures { (place : Option SourcePlace) → IsDone code.now (instr.PushInt number) place core.old at core.new (next.On result) }
{
    push(code, core, at, Value::Int(number))
}

/// Pushes a symbol.
#[inline(always)]
#[tactic(auto, using(crate::specs::laws::Pushed::one_more, crate::proofs::Pushed::sym_done))]
pub fn push_sym(code: &CodeProgram, core: &mut Core, at: Registers, sel: Sel) -> Registers
    requires { CanDo code.now core.old at (instr.PushSym sel) }
    ensures { (place : Option SourcePlace) → IsDone code.now (instr.PushSym sel) place core.old at core.new (next.On result) }
{
    push(code, core, at, Value::Sym(sel))
}

/// Pushes self.
#[inline(always)]
#[tactic(auto, using(crate::specs::laws::Pushed::one_more, crate::specs::laws::Pushed::runs, crate::proofs::Pushed::self_done))]
pub fn push_self(code: &CodeProgram, core: &mut Core, at: Registers) -> Registers
    requires { CanDo code.now core.old at instr.PushSelf }
    ensures { (place : Option SourcePlace) → IsDone code.now instr.PushSelf place core.old at core.new (next.On result) }
{
    let me = running(&mut core.stack).activation.me;
    push(code, core, at, me)
}

/// Pushes the enclosing object so many declarations further out.
#[inline(always)]
#[tactic(auto, using(crate::specs::laws::Pushed::one_more, crate::specs::laws::Pushed::runs, crate::specs::laws::Finds::fits_anywhere, crate::proofs::Enclosed::lawful_there, crate::proofs::Enclosed::declared_there))]
pub fn push_outer(code: &CodeProgram, core: &mut Core, at: Registers, level: u8) -> Registers
    requires { CanDo code.now core.old at (instr.PushOuter level) }
    ensures { (place : Option SourcePlace) → IsDone code.now (instr.PushOuter level) place core.old at core.new (next.On result) }
{
    let here = running_code(running(&mut core.stack).activation);
    let object = enclosing_object(&mut core.run.world, code, &mut core.run.memo, here, level);
    push(code, core, at, object)
}
