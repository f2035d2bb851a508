//! Sends that waited: one that opens a run or that a host made, with the arguments that are kept, and one of
//! `perform:with:`, with the elements of its array.

ghost use Rattle.std.specs.Prelude.{◌≡◌};
ghost use Rattle.ns_machine_frames.specs.declared.frame.Pending.TheVariants as pending;
ghost use Rattle.ns_machine_frames.specs.Stack.{stood, with_top};
ghost use Rattle.ns_machine_core.specs.declared.state.Next.TheVariants as next;
ghost use Rattle.ns_machine_core.specs.Framed.{HasRoomOnTop};
ghost use Rattle.ns_machine_core.specs.Own.{AreOwn};
ghost use Rattle.ns_machine_core.specs.Ready.{MakesMove};
ghost use Rattle.ns_machine_sends.specs.Sending.{Sends};
ghost use Rattle.ns_machine_sends.specs.Waiting.{CanSendOn, sent_on_at};
ghost use Rattle.ns_machine_turns.specs.Prepared.{IsPreparedToRun};

use ns_base::selector::Sel;
use ns_code::program::CodeProgram;
use ns_machine_core::laws::{arguments_are_few, valid_frames_are_framed};
use ns_machine_core::own::OwnSends;
use ns_machine_core::state::{Core, Next};
use ns_machine_frames::registers::Registers;
use ns_machine_returns::handing::hand;
use ns_machine_sends::led::Led;
use ns_machine_sends::placing::keep_items;
use ns_machine_sends::resending::send_on;
use ns_machine_sends::sent::Sent;
use ns_machine_sends::waiting::make_place;
use ns_moves::laws::sends_that_waited_go_on;
use ns_world::value::Value;

/// Makes a send that waits with the arguments that are kept.
pub fn send_waiting(
    code: &CodeProgram,
    core: &mut Core,
    at: Registers,
    sent: Sent,
    receiver: Value,
    sel: Sel,
    own: OwnSends,
) -> Next
    requires can { IsPreparedToRun code.now core.old (next.Waits at) }
    requires waits { core.old.waiting ≡ pending.Sending receiver sel sent.site sent.floor }
    requires first { sent.first ≡ sent.floor }
    requires own { AreOwn code.now core.old.places own }
    ensures { MakesMove code.now core.old (next.Waits at) core.new result }
{
    valid_frames_are_framed();
    make_place(code, core, at, sent);
    send_to(code, core, at, sent, receiver, sel, own)
}

/// Makes a send of `perform:with:` that waits, with the elements of its array, which are kept.
pub fn perform_waiting(
    code: &CodeProgram,
    core: &mut Core,
    at: Registers,
    sent: Sent,
    receiver: Value,
    sel: Sel,
    array: u32,
    own: OwnSends,
) -> Next
    requires can { IsPreparedToRun code.now core.old (next.Waits at) }
    requires waits { core.old.waiting ≡ pending.Performing receiver sel array sent.site sent.floor }
    requires first { sent.first ≡ sent.floor }
    requires own { AreOwn code.now core.old.places own }
    ensures { MakesMove code.now core.old (next.Waits at) core.new result }
{
    valid_frames_are_framed();
    arguments_are_few();
    keep_items(core, array);
    make_place(code, core, at, sent);
    send_to(code, core, at, sent, receiver, sel, own)
}

/// Makes a send with the arguments that are kept, and brings a value that it gives at once to what stands below.
fn send_to(
    code: &CodeProgram,
    core: &mut Core,
    at: Registers,
    sent: Sent,
    receiver: Value,
    sel: Sel,
    own: OwnSends,
) -> Next
    requires can { CanSendOn code.now core.old at sent receiver sel }
    requires room { HasRoomOnTop code.now (stood core.old.stack (with_top sent.floor at)) }
    requires own { AreOwn code.now core.old.places own }
    ensures { Sends code.now core.old at sent.floor (sent_on_at code.now core.old sent receiver sel) core.new result }
{
    sends_that_waited_go_on();
    match send_on(code, core, at, sent, receiver, sel, own.does_not_understand) {
        Led::Goes(next) => next,
        Led::Gives(value) => {
            let below = Registers {
                top: sent.floor,
                ..at
            };
            hand(code, core, below, own, value)
        }
    }
}
