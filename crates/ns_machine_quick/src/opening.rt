//! Sends that find a method whose frame and environment fit, by the quick way: registers alone come back.

ghost use Rattle.std.specs.Prelude.{◌≡◌, length};
ghost use Rattle.ns_machine_core.specs.Arriving as spec;
ghost use Rattle.ns_machine_core.specs.declared.state.Next.TheVariants as next;
ghost use Rattle.ns_machine_sends.specs.Going.{arguments_in, ControlGoesOn};
ghost use Rattle.ns_machine_sends.specs.Opening.{HasRoomFor};
ghost use Rattle.ns_machine_sends.specs.Sending.{CanSend, Sends};
ghost use Rattle.ns_machine_quick.specs.Given.{SendsOrNot};
ghost use Rattle.ns_machine_quick.specs.Opening.{FindsMethod, begun_at};

use ns_code::program::CodeProgram;
use ns_find::found::Sending;
use ns_machine_core::arriving::shape_of;
use ns_machine_core::state::Core;
use ns_machine_frames::calls::BodyShape;
use ns_machine_frames::registers::Registers;
use ns_machine_sends::entering::enter_shaped;
use ns_machine_sends::opening::{has_room, open_method};
use ns_machine_sends::sent::Sent;
use ns_moves::answer_laws::a_send_is_its_step_and_its_answer;
use ns_moves::control::Exit;
use ns_moves::laws::{
    actions_spend_exactly, sends_keep_lawful, sites_stay, what_is_handed_on_fits,
};
use ns_world::lawful::charging_keeps_lawful;
use ns_world::value::Value;

/// Sends to a value that finds a method, where a step is left and the limits leave room for its body.
#[inline(always)]
pub fn send_method(
    code: &CodeProgram,
    core: &mut Core,
    at: Registers,
    sent: Sent,
    receiver: Value,
    kind: Sending,
    body: u32,
    holder: u32,
) -> Option<Registers>
    requires can { CanSend code.now core.old at sent receiver }
    requires finds { FindsMethod code.now core.old sent receiver kind body holder }
    ensures { SendsOrNot code.now core.old at sent receiver kind core.new result }
{
    a_send_is_its_step_and_its_answer();
    charging_keeps_lawful();
    sends_keep_lawful();
    what_is_handed_on_fits();
    actions_spend_exactly();
    sites_stay();
    let shape = shape_of(code, body);
    if !has_room(&core.run.world, shape, at.top - sent.first) {
        return None;
    }
    match core.run.world.step() {
        Ok(()) => Some(begin(code, core, at, sent, receiver, body, holder, shape)),
        Err(_) => None,
    }
}

/// Begins a method, whose step is charged.
#[inline(always)]
pub fn begin(
    code: &CodeProgram,
    core: &mut Core,
    at: Registers,
    sent: Sent,
    receiver: Value,
    body: u32,
    holder: u32,
    shape: BodyShape,
) -> Registers
    requires shape { shape ≡ spec.shape_of code.now body }
    requires can { CanSend code.now core.old at sent receiver }
    requires room { HasRoomFor core.old.run.world.world shape (length (arguments_in core.old at sent)) }
    requires goes { ControlGoesOn code.now (length core.old.stack.frames.items) (begun_at code.now core.old at sent receiver body holder) }
    ensures { Sends code.now core.old at sent.floor (begun_at code.now core.old at sent receiver body holder) core.new (next.On result) }
{
    let arguments = core.stack.from(at, sent.first);
    let entered = open_method(
        &mut core.run,
        code,
        body,
        holder,
        receiver,
        arguments,
        shape,
    );
    enter_shaped(code, core, at, sent, Exit::Method, entered, shape)
}
