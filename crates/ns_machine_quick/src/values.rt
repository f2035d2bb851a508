//! Sends to Blocks by the quick way: the evaluation of the receiver waits then, or a method of the kernel begins.

ghost use Rattle.std.specs.Prelude.{◌≡◌, ◌+◌, slice_get};
ghost use Rattle.ns_world.specs.declared.kernel_row.Row.TheVariants as row_is;
ghost use Rattle.ns_find.specs.declared.found.Found.TheVariants as found_is;
ghost use Rattle.ns_moves.specs.Control.{Activation};
ghost use Rattle.ns_moves.specs.Sends.{To};
ghost use Rattle.ns_machine_plan.specs.Steps.{send_instr};
ghost use Rattle.ns_machine_core.specs.Doing.{CanDo};
ghost use Rattle.ns_machine_sends.specs.Operands.{SendsOperands};
ghost use Rattle.ns_machine_sends.specs.Sending.{CanSend, looked_up, Sends};
ghost use Rattle.ns_machine_quick.specs.Below.{CanSendBelow, FindsBelow};
ghost use Rattle.ns_machine_quick.specs.Opening.{FindsKernel};
ghost use Rattle.ns_machine_quick.specs.Rows.{FindsRow};
ghost use Rattle.ns_machine_quick.specs.Values.{BelowGoes, DoesOrNot, GoesOrNot, GoesOrNothing, ToTopGoes};

use crate::blocks::is_block;
use crate::looping::send_method;
use crate::receiving::{receiver_below, sent_below};
use ns_code::program::CodeProgram;
use ns_find::found::{Found, Sending};
use ns_machine_core::arriving::wait_for_block;
use ns_machine_core::state::{Core, Next};
use ns_machine_frames::laws::operands_are_taken;
use ns_machine_frames::registers::Registers;
use ns_machine_plan::packed::ValueSend;
use ns_machine_sends::sent::Sent;
use ns_moves::answer_laws::{a_send_is_its_step_and_its_answer, live_values_are_there};
use ns_moves::answering::found_of;
use ns_world::kernel_row::Row;
use ns_world::kernel_table::row_of;
use ns_world::lawful::charging_keeps_lawful;
use ns_world::value::Value;

/// Sends to a Block that finds the row which evaluates it, or a method of the kernel that can begin, where a step is left; else
/// nothing has changed but the lookups that are kept.
#[inline(always)]
#[tactic(auto, using(crate::proofs::Received::kind_operands))]
pub fn send_block(
    code: &CodeProgram,
    core: &mut Core,
    at: Registers,
    send: &ValueSend,
) -> Option<Next>
    requires { CanDo code.now core.old at (send_instr send.now.kind send.now.sel send.now.argc) }
    ensures { DoesOrNot code.now (send_instr send.now.kind send.now.sel send.now.argc)
        (slice_get core.old.places send.now.place) core.old at core.new result }
{
    operands_are_taken();
    send_operands(code, core, at, send)
}

/// Sends the topmost operands to the value below them.
#[inline(always)]
fn send_operands(
    code: &CodeProgram,
    core: &mut Core,
    at: Registers,
    send: &ValueSend,
) -> Option<Next>
    requires { SendsOperands code.now core.old at send.now.sel send.now.argc (send.now.argc + 1) }
    ensures { ToTopGoes code.now core.old at send.now.sel send.now.argc send.now.place send.now.kind core.new result }
{
    let first = at.top - u32::from(send.argc);
    let above = Registers { top: first, ..at };
    let (receiver, below) = core.stack.pop(above);
    let _receiver = receiver;
    let _below = below;
    send_below(code, core, at, send)
}

/// Sends to the value below the arguments.
#[inline(always)]
fn send_below(code: &CodeProgram, core: &mut Core, at: Registers, send: &ValueSend) -> Option<Next>
    requires { CanSendBelow code.now core.old at send.now }
    ensures { BelowGoes code.now core.old at send.now core.new result }
{
    live_values_are_there();
    let receiver = receiver_below(&core.stack, at, send.argc);
    if !is_block(&core.run.world, receiver) {
        return None;
    }
    send_to_block(code, core, at, send)
}

/// Sends to the Block below the arguments.
#[inline(always)]
fn send_to_block(
    code: &CodeProgram,
    core: &mut Core,
    at: Registers,
    send: &ValueSend,
) -> Option<Next>
    requires { CanSendBelow code.now core.old at send.now }
    ensures { BelowGoes code.now core.old at send.now core.new result }
{
    let receiver = receiver_below(&core.stack, at, send.argc);
    let found = found_of(&mut core.run, code, receiver, send.sel, send.kind);
    do_found(code, core, at, send, found)
}

/// Goes on with what was found, where that is a row of the kernel.
#[inline(always)]
fn do_found(
    code: &CodeProgram,
    core: &mut Core,
    at: Registers,
    send: &ValueSend,
    found: Found,
) -> Option<Next>
    requires can { CanSendBelow code.now core.old at send.now }
    requires finds { FindsBelow code.now core.old at send.now found }
    ensures { BelowGoes code.now core.old at send.now core.new result }
{
    match found {
        Found::Kernel(number) => do_row(code, core, at, send, number),
        _ => None,
    }
}

/// Does the row of that number, which was found.
#[inline(always)]
fn do_row(
    code: &CodeProgram,
    core: &mut Core,
    at: Registers,
    send: &ValueSend,
    number: u32,
) -> Option<Next>
    requires can { CanSendBelow code.now core.old at send.now }
    requires finds { FindsBelow code.now core.old at send.now (found_is.Kernel number) }
    ensures { BelowGoes code.now core.old at send.now core.new result }
{
    let receiver = receiver_below(&core.stack, at, send.argc);
    let sent = sent_below(code, core, at, send);
    send_to_row(code, core, at, sent, receiver, send.kind, number)
}

/// Sends to a value that finds the row of that number, where that evaluates its receiver.
#[inline(always)]
fn send_to_row(
    code: &CodeProgram,
    core: &mut Core,
    at: Registers,
    sent: Sent,
    receiver: Value,
    kind: Sending,
    number: u32,
) -> Option<Next>
    requires can { CanSend code.now core.old at sent receiver }
    requires finds { FindsKernel code.now core.old sent receiver kind number }
    ensures { GoesOrNot code.now core.old at sent receiver kind core.new result }
{
    match row_of(number) {
        Row::Value => match charge(code, core, at, sent, receiver, kind) {
            Some(next) => Some(next),
            None => None,
        },
        Row::Method(method) => match send_method(code, core, at, sent, receiver, kind, method) {
            Some(to) => Some(Next::On(to)),
            None => None,
        },
        _ => None,
    }
}

/// Charges the step of the send and lets the evaluation wait, unless no step is left.
#[inline(always)]
fn charge(
    code: &CodeProgram,
    core: &mut Core,
    at: Registers,
    sent: Sent,
    receiver: Value,
    kind: Sending,
) -> Option<Next>
    requires can { CanSend code.now core.old at sent receiver }
    requires finds { FindsRow code.now core.old sent receiver kind row_is.Value }
    ensures { GoesOrNothing code.now core.old at sent receiver kind core.new result }
{
    a_send_is_its_step_and_its_answer();
    charging_keeps_lawful();
    match core.run.world.step() {
        Ok(()) => Some(wait(code, core, at, sent, receiver, kind)),
        Err(_) => None,
    }
}

/// Lets the evaluation of the receiver wait, with the arguments where they stand.
#[inline(always)]
fn wait(
    code: &CodeProgram,
    core: &mut Core,
    at: Registers,
    sent: Sent,
    receiver: Value,
    kind: Sending,
) -> Next
    requires can { CanSend code.now core.old at sent receiver }
    requires finds { FindsRow code.now core.old sent receiver kind row_is.Value }
    ensures { (activation : Activation) → Sends code.now core.old at sent.floor
        (looked_up code.now core.old at sent activation (To receiver kind)) core.new result }
{
    let _kind = kind;
    wait_for_block(code, core, at, receiver, sent.site, sent.floor, sent.first)
}
