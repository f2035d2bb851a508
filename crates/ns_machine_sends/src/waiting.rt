//! What waits: the evaluation of a block, with its arguments where they stand or with those that are kept.

ghost use Rattle.std.specs.Prelude.{◌+◌, ◌<◌, ◌≤◌, length};
ghost use Rattle.ns_facets.specs.declared.row.Grants.{Grants};
ghost use Rattle.ns_machine_core.specs.declared.state.Next.TheVariants as next;
ghost use Rattle.ns_machine_core.specs.Ready.{MakesMove};
ghost use Rattle.ns_machine_core.specs.Standing.{AreStanding, ArgumentsWait};
ghost use Rattle.ns_machine_core.specs.Arriving.{Arrives};
ghost use Rattle.ns_machine_sends.specs.Going.{arguments_in, control_at, ControlGoesOn, IsGiven, IsLeft, Leads};
ghost use Rattle.ns_machine_sends.specs.Waiting.{BlockWaits, BlockWaitsKept, EntersOrEnds, HasMadePlace, IsWaiting, evaluated_with, with_block};

use crate::arriving::arrive_kept;
use crate::blocks::enter_quickly;
use crate::ending::{fail, refuse};
use crate::entering::enter_reached;
use crate::sent::Sent;
use ns_code::program::CodeProgram;
use ns_machine_core::state::{Core, Next};
use ns_machine_frames::registers::Registers;
use ns_moves::control::Reached;
use ns_moves::laws::{
    actions_spend_exactly, sends_keep_lawful, sites_stay, what_is_handed_on_fits,
};
use ns_world::value::Value;

/// Evaluates the block that waits.
#[inline(always)]
pub fn evaluate(
    code: &CodeProgram,
    core: &mut Core,
    at: Registers,
    sent: Sent,
    block: Value,
) -> Next
    requires { (grants : Grants) × BlockWaits code.now grants core.old at sent block }
    ensures { MakesMove code.now core.old (next.Waits at) core.new result }
{
    make_place(code, core, at, sent);
    enter_block(code, core, at, sent, block)
}

/// Evaluates a block for whose answer a place is there, as if its evaluation waited: nothing that waits is written or read.
#[inline(always)]
pub fn evaluate_at_once(
    code: &CodeProgram,
    core: &mut Core,
    at: Registers,
    sent: Sent,
    block: Value,
) -> Next
    requires waits { (grants : Grants) × BlockWaits code.now grants (with_block sent block core.old) at sent block }
    requires place { sent.floor < length core.old.stack.values.items }
    ensures { MakesMove code.now (with_block sent block core.old) (next.Waits at) core.new result }
{
    enter_block(code, core, at, sent, block)
}

/// Evaluates the block that waits, with the arguments that are kept.
pub fn evaluate_kept(
    code: &CodeProgram,
    core: &mut Core,
    at: Registers,
    sent: Sent,
    block: Value,
) -> Next
    requires { (grants : Grants) × BlockWaitsKept code.now grants core.old at sent block }
    ensures { MakesMove code.now core.old (next.Waits at) core.new result }
{
    make_place(code, core, at, sent);
    enter_block_kept(code, core, at, sent, block)
}

/// Enters a block at once, or goes where its evaluation leads.
#[inline(always)]
fn enter_block(code: &CodeProgram, core: &mut Core, at: Registers, sent: Sent, block: Value) -> Next
    requires left { IsLeft code.now core.old at sent }
    requires is { IsWaiting code.now core.old (arguments_in core.old at sent) block }
    ensures { Leads code.now core.old at sent.floor (evaluated_with code.now core.old sent
        (arguments_in core.old at sent) block) core.new result }
{
    match enter_quickly(code, core, at, sent, block) {
        Some(to) => Next::On(to),
        None => evaluate_in(code, core, at, sent, block),
    }
}

/// Checks the arguments of a block, charges its step and its frame, and goes where that leads.
#[inline(never)]
#[tactic(auto, using(crate::proofs::Evaluated::block_there, crate::proofs::Stepped::left_in, crate::proofs::Leads::plain_given))]
fn evaluate_in(code: &CodeProgram, core: &mut Core, at: Registers, sent: Sent, block: Value) -> Next
    requires left { IsLeft code.now core.old at sent }
    requires is { IsWaiting code.now core.old (arguments_in core.old at sent) block }
    ensures { Leads code.now core.old at sent.floor (evaluated_with code.now core.old sent
        (arguments_in core.old at sent) block) core.new result }
{
    sends_keep_lawful();
    what_is_handed_on_fits();
    actions_spend_exactly();
    sites_stay();
    let arguments = core.stack.from(at, sent.first);
    let reached = ns_moves::blocks::evaluate(&mut core.run.world, code, block, arguments);
    arrive_in(code, core, at, sent, reached)
}

/// The same with the arguments that are kept.
#[tactic(auto, using(crate::proofs::Evaluated::block_there, crate::proofs::Stepped::left_in, crate::proofs::Leads::plain_given))]
fn enter_block_kept(
    code: &CodeProgram,
    core: &mut Core,
    at: Registers,
    sent: Sent,
    block: Value,
) -> Next
    requires left { IsLeft code.now core.old at sent }
    requires is { IsWaiting code.now core.old core.old.arguments.items block }
    ensures { Leads code.now core.old at sent.floor (evaluated_with code.now core.old sent core.old.arguments.items block) core.new result }
{
    sends_keep_lawful();
    what_is_handed_on_fits();
    actions_spend_exactly();
    sites_stay();
    let arguments = core.arguments.as_slice();
    let reached = ns_moves::blocks::evaluate(&mut core.run.world, code, block, arguments);
    arrive_kept(code, core, at, sent, reached)
}

/// Goes into the body that an evaluation has reached, or ends the run.
#[inline(always)]
fn arrive_in(
    code: &CodeProgram,
    core: &mut Core,
    at: Registers,
    sent: Sent,
    reached: Reached,
) -> Next
    requires left { IsLeft code.now core.old at sent }
    requires goes { ControlGoesOn code.now (length core.old.stack.frames.items) (control_at code.now core.old at sent reached) }
    requires given { IsGiven core.old.run.world.world.cells reached }
    requires enters { EntersOrEnds reached }
    ensures { Arrives code.now core.old at sent.floor (control_at code.now core.old at sent reached) core.new result }
{
    match reached {
        Reached::Enters { exit, entered } => {
            Next::On(enter_reached(code, core, at, sent, exit, entered))
        }
        Reached::Fails(fault) => fail(code, core, at, sent, fault),
        Reached::Refused(sel) => refuse(code, core, at, sent, sel),
        Reached::Gives(_) => unreachable!(),
        Reached::Evaluates { .. } => unreachable!(),
        Reached::Begins { .. } => unreachable!(),
        Reached::Performs { .. } => unreachable!(),
    }
}

/// Fills the values so far that an answer has a place behind the caller's.
#[tactic(auto, using(crate::proofs::Awaited::place_there, crate::proofs::Awaited::top_fits))]
pub fn make_place(code: &CodeProgram, core: &mut Core, at: Registers, sent: Sent)
    requires stands { AreStanding code.now core.old.stack at }
    requires waits { ArgumentsWait code.now core.old.stack at sent.floor sent.first }
    requires room { sent.floor + 1 ≤ core.old.stack.values.room }
    ensures { HasMadePlace code.now core.old at sent core.new }
{
    let _code = code;
    if sent.floor < at.top {
        return;
    }
    core.stack.make_room(at, 1);
}
