//! Sends that waited, from their step on, with the arguments that are kept. What stands below them may be no body, so a value
//! that is given at once is told, and not yet brought to it.

ghost use Rattle.std.specs.Prelude.{◌≡◌, length};
ghost use Rattle.ns_code.specs.declared.own.Own.TheVariants.{DoesNotUnderstand};
ghost use Rattle.ns_code.specs.Selector.{own_number};
ghost use Rattle.ns_moves.specs.declared.sends.Answered.TheVariants as answers;
ghost use Rattle.ns_machine_sends.specs.Going.{ControlGoesOn, IsLeft, IsGiven};
ghost use Rattle.ns_machine_sends.specs.Kept.{kept_control, kept_answer, CanAskKept, CanAnswerKept};
ghost use Rattle.ns_machine_sends.specs.Waiting.{CanSendOn, sent_on_at, looked_on, SendLeadsTo, LeadsKept};

use crate::arriving::arrive_kept;
use crate::led::Led;
use crate::sent::Sent;
use ns_base::selector::Sel;
use ns_code::program::CodeProgram;
use ns_find::found::Sending;
use ns_kernel_rows::row::row_reached;
use ns_machine_core::state::{Core, Next};
use ns_machine_frames::registers::Registers;
use ns_moves::control::Reached;
use ns_moves::laws::{actions_spend_exactly, rows_that_are_found_suit, sends_that_waited_go_on};
use ns_moves::sends::Answered;
use ns_world::ending::Ending;
use ns_world::kernel_table::row_of;
use ns_world::lawful::charging_keeps_lawful;
use ns_world::value::Value;

/// Makes a send of a selector that waited, whose site may name another.
#[tactic(auto, using(crate::proofs::Resent::no_step_leads))]
pub fn send_on(
    code: &CodeProgram,
    core: &mut Core,
    at: Registers,
    sent: Sent,
    receiver: Value,
    sel: Sel,
    own: Sel,
) -> Led
    requires can { CanSendOn code.now core.old at sent receiver sel }
    requires own { own.0 ≡ own_number code.now DoesNotUnderstand }
    ensures { SendLeadsTo code.now core.old at sent.floor (sent_on_at code.now core.old sent receiver sel) core.new result }
{
    charging_keeps_lawful();
    sends_that_waited_go_on();
    match core.run.world.step() {
        Ok(()) => look_on(code, core, at, sent, receiver, sel, own),
        Err(limit) => {
            core.ending = Ending::Limit(limit);
            Led::Goes(Next::Ended)
        }
    }
}

/// Looks the selector up from the receiver's own start, and goes on with what that comes to.
fn look_on(
    code: &CodeProgram,
    core: &mut Core,
    at: Registers,
    sent: Sent,
    receiver: Value,
    sel: Sel,
    own: Sel,
) -> Led
    requires can { CanSendOn code.now core.old at sent receiver sel }
    requires own { own.0 ≡ own_number code.now DoesNotUnderstand }
    requires goes { ControlGoesOn code.now (length core.old.stack.frames.items) (looked_on code.now core.old sent receiver sel) }
    ensures { SendLeadsTo code.now core.old at sent.floor (looked_on code.now core.old sent receiver sel) core.new result }
{
    rows_that_are_found_suit();
    let answered = ns_moves::answering::send(
        &mut core.run,
        code,
        own,
        receiver,
        Sending::Plain,
        sel,
        core.arguments.as_slice(),
    );
    come_to(code, core, at, sent, receiver, sel, answered)
}

/// Goes on with what a send came to.
#[tactic(auto, using(crate::proofs::Leads::plain_given))]
fn come_to(
    code: &CodeProgram,
    core: &mut Core,
    at: Registers,
    sent: Sent,
    receiver: Value,
    sel: Sel,
    answered: Answered,
) -> Led
    requires left { IsLeft code.now core.old at sent }
    requires goes { ControlGoesOn code.now (length core.old.stack.frames.items) (kept_answer code.now core.old sent receiver sel answered) }
    requires can { CanAnswerKept code.now core.old receiver answered }
    ensures { LeadsKept code.now core.old at sent.floor (kept_answer code.now core.old sent receiver sel answered) core.new result }
{
    match answered {
        Answered::Comes(reached) => lead(code, core, at, sent, reached),
        Answered::Row(number) => ask_on(code, core, at, sent, receiver, sel, number),
    }
}

/// Asks a row of the kernel, and goes where that leads.
#[tactic(auto, using(crate::proofs::Leads::row_left, crate::proofs::Resent::row_goes, crate::proofs::Leads::row_given, crate::proofs::Resent::row_asked, crate::proofs::Resent::row_led))]
fn ask_on(
    code: &CodeProgram,
    core: &mut Core,
    at: Registers,
    sent: Sent,
    receiver: Value,
    sel: Sel,
    number: u32,
) -> Led
    requires left { IsLeft code.now core.old at sent }
    requires goes { ControlGoesOn code.now (length core.old.stack.frames.items)
        (kept_answer code.now core.old sent receiver sel (answers.Row number)) }
    requires can { CanAskKept code.now core.old receiver number }
    ensures { LeadsKept code.now core.old at sent.floor
        (kept_answer code.now core.old sent receiver sel (answers.Row number)) core.new result }
{
    let row = row_of(number);
    let reached = row_reached(
        &mut core.run.world,
        &mut core.run.board,
        code,
        row,
        sel,
        receiver,
        core.arguments.as_slice(),
    );
    lead(code, core, at, sent, reached)
}

/// Goes where an action has led, but for a value.
#[tactic(auto, using(crate::proofs::Resent::no_value, crate::proofs::Resent::value_led, crate::specs::laws::Looked::comes_leads))]
fn lead(code: &CodeProgram, core: &mut Core, at: Registers, sent: Sent, reached: Reached) -> Led
    requires left { IsLeft code.now core.old at sent }
    requires goes { ControlGoesOn code.now (length core.old.stack.frames.items) (kept_control code.now core.old sent reached) }
    requires given { IsGiven core.old.run.world.world.cells reached }
    ensures { LeadsKept code.now core.old at sent.floor (kept_control code.now core.old sent reached) core.new result }
{
    match reached {
        Reached::Gives(value) => Led::Gives(value),
        _ => Led::Goes(arrive_kept(code, core, at, sent, reached)),
    }
}
