//! Sends of operands that find a method, a slot, or a row of the kernel that gives a value at once, by the quick way:
//! registers alone come back, and whether the body that runs goes straight on.
//!
//! The lookup of an object and its slots stand where the step is done; what else is found is done in code of its own, whose
//! registers would be saved on the way of a slot too. What is sent is read again there from the step and the operands.

ghost use Rattle.std.specs.Prelude.{◌≡◌, ◌+◌, slice_get};
ghost use Rattle.ns_world.specs.declared.kernel.Start.TheVariants.{Instance};
ghost use Rattle.ns_world.specs.Starts.{start_of};
ghost use Rattle.ns_find.specs.declared.found.Found.TheVariants as found_is;
ghost use Rattle.ns_machine_plan.specs.Steps.{send_instr};
ghost use Rattle.ns_machine_core.specs.Doing.{CanDo};
ghost use Rattle.ns_machine_core.specs.Tried.{led_on, led_charged, LeadsOrChangesNothing};
ghost use Rattle.ns_machine_sends.specs.Operands.{SendsOperands};
ghost use Rattle.ns_machine_quick.specs.Below.{receiver_below, BelowLeads, CanSendBelow, FindsBelow};
ghost use Rattle.ns_machine_quick.specs.Given.{ToTopLeads};

use crate::blocks::is_block;
use crate::looping::{loops, send_looping};
use crate::nested::send_nested;
use crate::objects::{class_of_object, found_in};
use crate::opening::send_method;
use crate::receiving::{named, receiver_below, sent_below};
use crate::rows::{send_comparison, send_row};
use crate::slots::{send_getter, send_setter};
use ns_code::program::CodeProgram;
use ns_find::found::Found;
use ns_machine_core::led::{Led, led_charged, led_on};
use ns_machine_core::state::Core;
use ns_machine_frames::laws::operands_are_taken;
use ns_machine_frames::registers::Registers;
use ns_machine_plan::packed::ValueSend;
use ns_moves::answer_laws::live_values_are_there;
use ns_moves::answering::found_of;

/// Sends to a value, from its own start or from inside.
#[inline(always)]
#[tactic(auto, using(crate::proofs::Received::kind_operands))]
pub fn send(code: &CodeProgram, core: &mut Core, at: Registers, send: &ValueSend) -> Led
    requires { CanDo code.now core.old at (send_instr send.now.kind send.now.sel send.now.argc) }
    ensures { LeadsOrChangesNothing code.now (send_instr send.now.kind send.now.sel send.now.argc)
        (slice_get core.old.places send.now.place) core.old at core.new result }
{
    operands_are_taken();
    send_operands(code, core, at, send)
}

/// Sends the topmost operands to the value below them.
#[inline(always)]
fn send_operands(code: &CodeProgram, core: &mut Core, at: Registers, send: &ValueSend) -> Led
    requires { SendsOperands code.now core.old at send.now.sel send.now.argc (send.now.argc + 1) }
    ensures { ToTopLeads code.now core.old at send.now.sel send.now.argc send.now.place send.now.kind core.new result }
{
    let first = at.top - u32::from(send.argc);
    let above = Registers { top: first, ..at };
    let (receiver, below) = core.stack.pop(above);
    let _receiver = receiver;
    let _below = below;
    send_below(code, core, at, send)
}

/// Sends to the value below the arguments: here to an object, and to any other value in code of its own.
#[inline(always)]
fn send_below(code: &CodeProgram, core: &mut Core, at: Registers, send: &ValueSend) -> Led
    requires { CanSendBelow code.now core.old at send.now }
    ensures { BelowLeads code.now core.old at send.now core.new result }
{
    let receiver = receiver_below(&core.stack, at, send.argc);
    match class_of_object(&core.run.world, code, receiver) {
        Some(class) => send_to_object(code, core, at, send, class),
        None => send_to_other(code, core, at, send),
    }
}

/// Sends to an object of that class.
#[inline(always)]
fn send_to_object(
    code: &CodeProgram,
    core: &mut Core,
    at: Registers,
    send: &ValueSend,
    class: u32,
) -> Led
    requires can { CanSendBelow code.now core.old at send.now }
    requires class { start_of core.old.run.world.world.cells (receiver_below core.old at send.now.argc) ≡ Instance class }
    ensures { BelowLeads code.now core.old at send.now core.new result }
{
    let receiver = receiver_below(&core.stack, at, send.argc);
    let found = found_in(&mut core.run, code, receiver, class, send.sel, send.kind);
    do_found(code, core, at, send, found)
}

/// Sends to any other value. The answer is told again, case by case, so that it needn't be read from memory in each.
#[inline(always)]
fn send_to_other(code: &CodeProgram, core: &mut Core, at: Registers, send: &ValueSend) -> Led
    requires { CanSendBelow code.now core.old at send.now }
    ensures { BelowLeads code.now core.old at send.now core.new result }
{
    match other_apart(code, core, at.next, at.top, at.base, send) {
        Led::Straight(to) => Led::Straight(to),
        Led::Charged(to) => Led::Charged(to),
        Led::On(to) => Led::On(to),
        Led::Answered(to) => Led::Answered(to),
        Led::Nowhere => Led::Nowhere,
    }
}

/// The same in code of its own, where it is no Block: sends to those aren't done here. The registers are handed over one by one, so that
/// they needn't stand in memory before any step.
#[inline(never)]
fn other_apart(
    code: &CodeProgram,
    core: &mut Core,
    next: u32,
    top: u32,
    base: u32,
    send: &ValueSend,
) -> Led
    requires { CanSendBelow code.now core.old (record { next = next; top = top; base = base }) send.now }
    ensures { BelowLeads code.now core.old (record { next = next; top = top; base = base }) send.now core.new result }
{
    live_values_are_there();
    let at = Registers { next, top, base };
    let receiver = receiver_below(&core.stack, at, send.argc);
    if is_block(&core.run.world, receiver) {
        return Led::Nowhere;
    }
    let found = found_of(&mut core.run, code, receiver, send.sel, send.kind);
    do_other(code, core, at, send, found)
}

/// Goes on with what was found for any other value, which has no slots and no nested classes.
#[inline(always)]
fn do_other(
    code: &CodeProgram,
    core: &mut Core,
    at: Registers,
    send: &ValueSend,
    found: Found,
) -> Led
    requires can { CanSendBelow code.now core.old at send.now }
    requires finds { FindsBelow code.now core.old at send.now found }
    ensures { BelowLeads code.now core.old at send.now core.new result }
{
    match found {
        Found::Method { body, holder } => do_method(code, core, at, send, body, holder),
        Found::Kernel(number) => do_row(code, core, at, send, number),
        _ => Led::Nowhere,
    }
}

/// Goes on with what was found for an object, where that is a method, a slot, a nested class, or a row of the kernel.
#[inline(always)]
fn do_found(
    code: &CodeProgram,
    core: &mut Core,
    at: Registers,
    send: &ValueSend,
    found: Found,
) -> Led
    requires can { CanSendBelow code.now core.old at send.now }
    requires finds { FindsBelow code.now core.old at send.now found }
    ensures { BelowLeads code.now core.old at send.now core.new result }
{
    match found {
        Found::Method { body, holder } => do_method(code, core, at, send, body, holder),
        Found::Getter { holder, word } => do_getter(code, core, at, send, holder, word),
        Found::Setter { holder, word } => do_setter(code, core, at, send, holder, word),
        Found::Kernel(number) => do_row(code, core, at, send, number),
        Found::Nested { class, holder } => do_nested(code, core, at, send, class, holder),
        _ => Led::Nowhere,
    }
}

/// Brings the word of the slot that was found.
#[inline(always)]
fn do_getter(
    code: &CodeProgram,
    core: &mut Core,
    at: Registers,
    send: &ValueSend,
    holder: u32,
    word: u32,
) -> Led
    requires can { CanSendBelow code.now core.old at send.now }
    requires finds { FindsBelow code.now core.old at send.now (found_is.Getter holder word) }
    ensures { BelowLeads code.now core.old at send.now core.new result }
{
    let receiver = receiver_below(&core.stack, at, send.argc);
    let sent = sent_below(code, core, at, send);
    led_charged(send_getter(code, core, at, sent, receiver, send.kind, holder, word))
}

/// Stores the argument in the slot that was found.
#[inline(always)]
fn do_setter(
    code: &CodeProgram,
    core: &mut Core,
    at: Registers,
    send: &ValueSend,
    holder: u32,
    word: u32,
) -> Led
    requires can { CanSendBelow code.now core.old at send.now }
    requires finds { FindsBelow code.now core.old at send.now (found_is.Setter holder word) }
    ensures { BelowLeads code.now core.old at send.now core.new result }
{
    let receiver = receiver_below(&core.stack, at, send.argc);
    let sent = sent_below(code, core, at, send);
    led_charged(send_setter(code, core, at, sent, receiver, send.kind, holder, word))
}

/// Brings the nested class that was found, where the object keeps it.
#[inline(always)]
fn do_nested(
    code: &CodeProgram,
    core: &mut Core,
    at: Registers,
    send: &ValueSend,
    class: u32,
    holder: u32,
) -> Led
    requires can { CanSendBelow code.now core.old at send.now }
    requires finds { FindsBelow code.now core.old at send.now (found_is.Nested class holder) }
    ensures { BelowLeads code.now core.old at send.now core.new result }
{
    led_charged(nested_apart(code, core, at.next, at.top, at.base, send, class, holder))
}

/// The same in code of its own.
#[inline(never)]
fn nested_apart(
    code: &CodeProgram,
    core: &mut Core,
    next: u32,
    top: u32,
    base: u32,
    send: &ValueSend,
    class: u32,
    holder: u32,
) -> Option<Registers>
    requires can { CanSendBelow code.now core.old (record { next = next; top = top; base = base }) send.now }
    requires finds { FindsBelow code.now core.old (record { next = next; top = top; base = base }) send.now (found_is.Nested class holder) }
    ensures { BelowLeads code.now core.old (record { next = next; top = top; base = base }) send.now core.new (led_charged result) }
{
    let at = Registers { next, top, base };
    let receiver = receiver_below(&core.stack, at, send.argc);
    let sent = sent_below(code, core, at, send);
    send_nested(code, core, at, sent, receiver, send.kind, class, holder)
}

/// Begins the method that was found.
#[inline(always)]
fn do_method(
    code: &CodeProgram,
    core: &mut Core,
    at: Registers,
    send: &ValueSend,
    body: u32,
    holder: u32,
) -> Led
    requires can { CanSendBelow code.now core.old at send.now }
    requires finds { FindsBelow code.now core.old at send.now (found_is.Method body holder) }
    ensures { BelowLeads code.now core.old at send.now core.new result }
{
    led_on(method_apart(code, core, at.next, at.top, at.base, send, body, holder))
}

/// The same in code of its own.
#[inline(never)]
fn method_apart(
    code: &CodeProgram,
    core: &mut Core,
    next: u32,
    top: u32,
    base: u32,
    send: &ValueSend,
    body: u32,
    holder: u32,
) -> Option<Registers>
    requires can { CanSendBelow code.now core.old (record { next = next; top = top; base = base }) send.now }
    requires finds { FindsBelow code.now core.old (record { next = next; top = top; base = base }) send.now (found_is.Method body holder) }
    ensures { BelowLeads code.now core.old (record { next = next; top = top; base = base }) send.now core.new (led_on result) }
{
    let at = Registers { next, top, base };
    let receiver = receiver_below(&core.stack, at, send.argc);
    let below = sent_below(code, core, at, send);
    let sent = named(&core.run.world, code, below, receiver);
    send_method(code, core, at, sent, receiver, send.kind, body, holder)
}

/// Does the row of the kernel that was found: here where that compares values alone.
#[inline(always)]
fn do_row(code: &CodeProgram, core: &mut Core, at: Registers, send: &ValueSend, number: u32) -> Led
    requires can { CanSendBelow code.now core.old at send.now }
    requires finds { FindsBelow code.now core.old at send.now (found_is.Kernel number) }
    ensures { BelowLeads code.now core.old at send.now core.new result }
{
    let receiver = receiver_below(&core.stack, at, send.argc);
    let sent = sent_below(code, core, at, send);
    match send_comparison(code, core, at, sent, receiver, send.kind, number) {
        Some(to) => Led::Charged(to),
        None => do_other_row(code, core, at, send, number),
    }
}

/// The same of another row.
#[inline(always)]
fn do_other_row(
    code: &CodeProgram,
    core: &mut Core,
    at: Registers,
    send: &ValueSend,
    number: u32,
) -> Led
    requires can { CanSendBelow code.now core.old at send.now }
    requires finds { FindsBelow code.now core.old at send.now (found_is.Kernel number) }
    ensures { BelowLeads code.now core.old at send.now core.new result }
{
    match row_apart(code, core, at.next, at.top, at.base, send, number) {
        Led::Straight(to) => Led::Straight(to),
        Led::Charged(to) => Led::Charged(to),
        Led::On(to) => Led::On(to),
        Led::Answered(to) => Led::Answered(to),
        Led::Nowhere => Led::Nowhere,
    }
}

/// The same in code of its own.
#[inline(never)]
fn row_apart(
    code: &CodeProgram,
    core: &mut Core,
    next: u32,
    top: u32,
    base: u32,
    send: &ValueSend,
    number: u32,
) -> Led
    requires can { CanSendBelow code.now core.old (record { next = next; top = top; base = base }) send.now }
    requires finds { FindsBelow code.now core.old (record { next = next; top = top; base = base }) send.now (found_is.Kernel number) }
    ensures { BelowLeads code.now core.old (record { next = next; top = top; base = base }) send.now core.new result }
{
    let at = Registers { next, top, base };
    let receiver = receiver_below(&core.stack, at, send.argc);
    let sent = sent_below(code, core, at, send);
    if loops(number) {
        return led_on(send_looping(code, core, at, sent, receiver, send.kind, number));
    }
    led_charged(send_row(code, core, at, sent, receiver, send.kind, number))
}
