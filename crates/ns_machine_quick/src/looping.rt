//! Sends that find a method of the kernel which evaluates blocks, by the quick way: registers alone come back.

ghost use Rattle.std.specs.Prelude.{◌≡◌, Decides};
ghost use Rattle.ns_world.specs.declared.kernel_row.Row.TheVariants as row_is;
ghost use Rattle.ns_moves.specs.Control.{Activation};
ghost use Rattle.ns_world.specs.KernelTable.{row_at};
ghost use Rattle.ns_moves.specs.Sends.{To};
ghost use Rattle.ns_machine_core.specs.declared.state.Next.TheVariants as next;
ghost use Rattle.ns_machine_sends.specs.Sending.{CanSend, looked_up, Sends};
ghost use Rattle.ns_machine_quick.specs.Given.{SendsOrNot};
ghost use Rattle.ns_machine_quick.specs.Looping.{BeginsOrNothing, CanLoop, loops};
ghost use Rattle.ns_machine_quick.specs.Opening.{FindsKernel};
ghost use Rattle.ns_machine_quick.specs.Rows.{FindsRow};

use crate::blocks::has_arguments;
use ns_code::program::CodeProgram;
use ns_find::found::Sending;
use ns_kdata::arguments::argument;
use ns_machine_core::state::Core;
use ns_machine_frames::frame::LoopingFrame;
use ns_machine_frames::registers::Registers;
use ns_machine_sends::sent::Sent;
use ns_moves::answer_laws::{a_send_is_its_step_and_its_answer, live_values_are_there};
use ns_moves::begin::beginning;
use ns_world::kernel_parts::KMethod;
use ns_world::kernel_row::Row;
use ns_world::kernel_table::row_of;
use ns_world::lawful::charging_keeps_lawful;
use ns_world::value::Value;

/// Whether the row of that number is a method that evaluates blocks.
#[inline(always)]
pub fn loops(number: u32) -> bool
    ensures { result ≡ loops (row_at number) }
{
    matches!(row_of(number), Row::Method(_))
}

/// Sends to a value that finds the row of that number, where that is a method which evaluates blocks and can begin.
#[inline(always)]
pub fn send_looping(
    code: &CodeProgram,
    core: &mut Core,
    at: Registers,
    sent: Sent,
    receiver: Value,
    kind: Sending,
    number: u32,
) -> Option<Registers>
    requires can { CanSend code.now core.old at sent receiver }
    requires finds { FindsKernel code.now core.old sent receiver kind number }
    ensures { SendsOrNot code.now core.old at sent receiver kind core.new result }
{
    match row_of(number) {
        Row::Method(method) => match send_method(code, core, at, sent, receiver, kind, method) {
            Some(to) => Some(to),
            None => None,
        },
        _ => None,
    }
}

/// The same by the method: its arguments are those that it asks for, a step is left, and the limit on depth leaves room for
/// its frame; else nothing has changed.
#[inline(always)]
pub fn send_method(
    code: &CodeProgram,
    core: &mut Core,
    at: Registers,
    sent: Sent,
    receiver: Value,
    kind: Sending,
    method: KMethod,
) -> Option<Registers>
    requires can { CanSend code.now core.old at sent receiver }
    requires finds { FindsRow code.now core.old sent receiver kind (row_is.Method method) }
    ensures { BeginsOrNothing code.now core.old at sent receiver kind core.new result }
{
    a_send_is_its_step_and_its_answer();
    charging_keeps_lawful();
    if !can_loop(code, core, at, sent, receiver, method) {
        return None;
    }
    match core.run.world.step() {
        Ok(()) => Some(begin(code, core, at, sent, receiver, kind, method)),
        Err(_) => None,
    }
}

/// Whether the limit on depth leaves room for the frame of a method, and its arguments are those that it asks for.
#[inline(always)]
pub fn can_loop(
    code: &CodeProgram,
    core: &Core,
    at: Registers,
    sent: Sent,
    receiver: Value,
    method: KMethod,
) -> bool
    requires { CanSend code.now core.now at sent receiver }
    ensures { Decides result (CanLoop core.now at sent method) }
{
    live_values_are_there();
    let _code = code;
    let _receiver = receiver;
    let world = &core.run.world;
    if world.limits().depth <= world.counters().depth {
        return false;
    }
    let arguments = core.stack.from(at, sent.first);
    let first = argument(arguments, 0);
    let second = argument(arguments, 1);
    has_arguments(world, method, first, second)
}

/// Begins the method, whose step is charged.
#[inline(always)]
fn begin(
    code: &CodeProgram,
    core: &mut Core,
    at: Registers,
    sent: Sent,
    receiver: Value,
    kind: Sending,
    method: KMethod,
) -> Registers
    requires can { CanSend code.now core.old at sent receiver }
    requires finds { FindsRow code.now core.old sent receiver kind (row_is.Method method) }
    requires loops { CanLoop core.old at sent method }
    ensures { (activation : Activation) → Sends code.now core.old at sent.floor (looked_up code.now core.old at sent activation
        (To receiver kind)) core.new (next.On result) }
{
    live_values_are_there();
    let _kind = kind;
    let arguments = core.stack.from(at, sent.first);
    let state = beginning(
        &core.run.world,
        method,
        receiver,
        argument(arguments, 0),
        argument(arguments, 1),
    );
    match core.run.world.enter() {
        Ok(()) => ns_machine_core::arriving::begin(
            code,
            core,
            at,
            LoopingFrame {
                method,
                state,
                site: sent.site,
                floor: sent.floor,
            },
        ),
        Err(_) => unreachable!(),
    }
}
