//! Blocks that are to be evaluated.

ghost use Rattle.std.specs.Prelude.{length};
ghost use Rattle.ns_world.specs.declared.value.Value.TheVariants.{Ref};
ghost use Rattle.ns_kdata.specs.Arguments.{CellIsThere};
ghost use Rattle.ns_moves.specs.declared.control.Given.TheVariants as given;
ghost use Rattle.ns_moves.specs.declared.control.Reached.TheVariants as reached;
ghost use Rattle.ns_kernel_rows.specs.Plain.{IsGivenThere};
ghost use Rattle.ns_machine_core.specs.Arriving.{Arrives};
ghost use Rattle.ns_machine_sends.specs.Going.{control_at, ControlGoesOn, IsLeft};
ghost use Rattle.ns_machine_sends.specs.Kept.{kept_control};

use crate::placing::keep_items;
use crate::sent::Sent;
use ns_code::program::CodeProgram;
use ns_machine_core::arriving::{wait_for_block, wait_for_block_kept};
use ns_machine_core::state::{Core, Next};
use ns_machine_frames::registers::Registers;
use ns_moves::control::Given;
use ns_world::value::Value;

/// Lets the evaluation of a block wait, with its arguments where they stand, or with the elements of an array.
#[inline(always)]
pub fn wait_for(
    code: &CodeProgram,
    core: &mut Core,
    at: Registers,
    sent: Sent,
    block: Value,
    given: Given,
) -> Next
    requires left { IsLeft code.now core.old at sent }
    requires goes { ControlGoesOn code.now (length core.old.stack.frames.items) (control_at code.now core.old at sent
        (reached.Evaluates block given)) }
    requires given { IsGivenThere core.old.run.world.world.cells given }
    ensures { Arrives code.now core.old at sent.floor (control_at code.now core.old at sent
        (reached.Evaluates block given)) core.new result }
{
    match given {
        Given::Listed => {
            wait_for_block(code, core, at, block, sent.site, sent.floor, sent.first)
        }
        Given::Items(array) => wait_with_items(code, core, at, sent, block, array),
        Given::Message(_) => unreachable!(),
    }
}

/// Lets the evaluation of a block wait with the arguments that are kept, or with the elements of an array.
pub fn wait_for_kept(
    code: &CodeProgram,
    core: &mut Core,
    at: Registers,
    sent: Sent,
    block: Value,
    given: Given,
) -> Next
    requires left { IsLeft code.now core.old at sent }
    requires goes { ControlGoesOn code.now (length core.old.stack.frames.items) (kept_control code.now core.old sent
        (reached.Evaluates block given)) }
    requires given { IsGivenThere core.old.run.world.world.cells given }
    ensures { Arrives code.now core.old at sent.floor (kept_control code.now core.old sent
        (reached.Evaluates block given)) core.new result }
{
    match given {
        Given::Listed => wait_kept(code, core, at, sent, block),
        Given::Items(array) => wait_with_items(code, core, at, sent, block, array),
        Given::Message(_) => unreachable!(),
    }
}

/// Lets the evaluation of a block wait with the elements of an array, which are kept.
#[inline(never)]
#[tactic(auto, using(crate::proofs::Placed::keeping_left, crate::proofs::Placed::items_wait))]
fn wait_with_items(
    code: &CodeProgram,
    core: &mut Core,
    at: Registers,
    sent: Sent,
    block: Value,
    array: u32,
) -> Next
    requires left { IsLeft code.now core.old at sent }
    requires goes { ControlGoesOn code.now (length core.old.stack.frames.items) (control_at code.now core.old at sent
        (reached.Evaluates block (given.Items array))) }
    requires there { CellIsThere core.old.run.world.world.cells (Ref array) }
    ensures { Arrives code.now core.old at sent.floor (control_at code.now core.old at sent
        (reached.Evaluates block (given.Items array))) core.new result }
{
    keep_items(core, array);
    wait_kept(code, core, at, sent, block)
}

/// Lets the evaluation of a block wait with the arguments that are kept.
#[inline(always)]
#[tactic(auto, using(crate::proofs::Placed::floor_waits))]
fn wait_kept(code: &CodeProgram, core: &mut Core, at: Registers, sent: Sent, block: Value) -> Next
    requires { IsLeft code.now core.old at sent }
    ensures { Arrives code.now core.old at sent.floor (kept_control code.now core.old sent
        (reached.Evaluates block given.Listed)) core.new result }
{
    wait_for_block_kept(code, core, at, block, sent.site, sent.floor)
}
