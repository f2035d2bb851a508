//! Instructions that make a cell.

ghost use Rattle.std.specs.Prelude.{◌≡◌, Option};
ghost use Rattle.ns_base.specs.declared.place.Place.{Place as SourcePlace};
ghost use Rattle.ns_code.specs.declared.instruction.Instr.TheVariants as instr;
ghost use Rattle.ns_moves.specs.Steps as steps;
ghost use Rattle.ns_machine_core.specs.Doing.{CanDo, IsDone};

use crate::settling::{running, running_code, settle};
use crate::state::{Core, Next};
use ns_code::program::CodeProgram;
use ns_machine_frames::laws::operands_are_taken;
use ns_machine_frames::registers::Registers;
use ns_moves::cells::{new_array, new_block, new_text};

/// Pushes a new block of a body that stands in the one that runs.
#[inline(always)]
#[tactic(auto, using(crate::specs::laws::Pushed::one_more, crate::specs::laws::Pushed::runs, crate::proofs::Made::block_done))]
pub fn push_block(code: &CodeProgram, core: &mut Core, at: Registers, body: u32) -> Next
    requires { CanDo code.now core.old at (instr.PushBlock body) }
    ensures { (place : Option SourcePlace) → IsDone code.now (instr.PushBlock body) place core.old at core.new result }
{
    let activation = running(&mut core.stack).activation;
    let answer = new_block(&mut core.run.world, running_code(activation), body);
    settle(code, core, at, activation.site, answer)
}

/// The literal text of a number.
#[inline(always)]
fn literal(code: &CodeProgram, text: u32) -> &[u8]
    ensures { result.now ≡ steps.literal code.now text }
{
    match code.texts.as_slice().get(text as usize) {
        Some(literal) => literal.bytes(),
        None => b"".as_slice(),
    }
}

/// Pushes a new text.
#[inline(always)]
#[tactic(auto, using(crate::specs::laws::Pushed::one_more, crate::specs::laws::Pushed::runs, crate::proofs::Made::text_done))]
pub fn push_text(code: &CodeProgram, core: &mut Core, at: Registers, text: u32) -> Next
    requires { CanDo code.now core.old at (instr.PushText text) }
    ensures { (place : Option SourcePlace) → IsDone code.now (instr.PushText text) place core.old at core.new result }
{
    let site = running(&mut core.stack).activation.site;
    let answer = new_text(&mut core.run.world, literal(code, text));
    settle(code, core, at, site, answer)
}

/// Makes an array of so many topmost operands, the deepest first, and pushes it in their place.
#[inline(always)]
#[tactic(auto, using(crate::specs::laws::Pushed::one_more, crate::specs::laws::Pushed::runs, crate::specs::laws::Taken::some_operand, crate::proofs::Made::array_done))]
pub fn make_array(code: &CodeProgram, core: &mut Core, at: Registers, count: u8) -> Next
    requires { CanDo code.now core.old at (instr.MakeArray count) }
    ensures { (place : Option SourcePlace) → IsDone code.now (instr.MakeArray count) place core.old at core.new result }
{
    operands_are_taken();
    let site = running(&mut core.stack).activation.site;
    let items = core.stack.operands(at, u32::from(count));
    let answer = new_array(&mut core.run.world, items);
    let below = Registers {
        top: at.top - u32::from(count),
        ..at
    };
    settle(code, core, below, site, answer)
}
