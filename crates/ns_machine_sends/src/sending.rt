//! Sends to a value, from their step on.

ghost use Rattle.std.specs.Prelude.{◌≡◌, length};
ghost use Rattle.ns_code.specs.declared.own.Own.TheVariants.{DoesNotUnderstand};
ghost use Rattle.ns_code.specs.Selector.{own_number};
ghost use Rattle.ns_world.specs.Starts.{start_of};
ghost use Rattle.ns_find.specs.Find.{found_from};
ghost use Rattle.ns_moves.specs.Control.{Activation};
ghost use Rattle.ns_moves.specs.Sends.{To};
ghost use Rattle.ns_machine_sends.specs.Going.{ControlGoesOn};
ghost use Rattle.ns_machine_sends.specs.Sending.{CanSend, looked_up, sent_at, Sends};

use crate::going::go_on;
use crate::sent::Sent;
use ns_base::selector::Sel;
use ns_code::program::CodeProgram;
use ns_find::found::{Found, Sending};
use ns_machine_core::state::{Core, Next};
use ns_machine_frames::registers::Registers;
use ns_moves::answer_laws::a_send_is_its_step_and_its_answer;
use ns_moves::answering::{answered_by, found_of};
use ns_moves::finding::what_is_found_suits;
use ns_moves::laws::{
    actions_spend_exactly, rows_that_are_found_suit, sends_keep_lawful, sites_stay,
    what_is_handed_on_fits,
};
use ns_world::ending::Ending;
use ns_world::lawful::charging_keeps_lawful;
use ns_world::value::Value;

/// Sends to a value.
#[inline(always)]
pub fn send_to(
    code: &CodeProgram,
    core: &mut Core,
    at: Registers,
    sent: Sent,
    receiver: Value,
    kind: Sending,
    own: Sel,
) -> Next
    requires can { CanSend code.now core.old at sent receiver }
    requires own { own.0 ≡ own_number code.now DoesNotUnderstand }
    ensures { (activation : Activation) → Sends code.now core.old at sent.floor (sent_at code.now core.old at sent activation
        (To receiver kind)) core.new result }
{
    a_send_is_its_step_and_its_answer();
    charging_keeps_lawful();
    sends_keep_lawful();
    what_is_handed_on_fits();
    actions_spend_exactly();
    sites_stay();
    match core.run.world.step() {
        Ok(()) => look_up(code, core, at, sent, receiver, kind, own),
        Err(limit) => {
            core.ending = Ending::Limit(limit);
            Next::Ended
        }
    }
}

/// Looks the selector up from the receiver's own start, and goes on with what that comes to. Methods and rows of the kernel
/// have a copy of this code each, in which there is no way but theirs.
#[inline(always)]
fn look_up(
    code: &CodeProgram,
    core: &mut Core,
    at: Registers,
    sent: Sent,
    receiver: Value,
    kind: Sending,
    own: Sel,
) -> Next
    requires can { CanSend code.now core.old at sent receiver }
    requires own { own.0 ≡ own_number code.now DoesNotUnderstand }
    requires goes { (activation : Activation) → ControlGoesOn code.now (length core.old.stack.frames.items)
        (looked_up code.now core.old at sent activation (To receiver kind)) }
    ensures { (activation : Activation) → Sends code.now core.old at sent.floor (looked_up code.now core.old at sent activation
        (To receiver kind)) core.new result }
{
    let found = found_of(&mut core.run, code, receiver, sent.site.sel, kind);
    match found {
        Found::Method { .. } => do_found(code, core, at, sent, receiver, kind, own, found),
        Found::Kernel(_) => do_found(code, core, at, sent, receiver, kind, own, found),
        _ => do_apart(code, core, at, sent, receiver, kind, own, found),
    }
}

/// Goes on with any other member that was found, apart from the code of those.
#[inline(never)]
fn do_apart(
    code: &CodeProgram,
    core: &mut Core,
    at: Registers,
    sent: Sent,
    receiver: Value,
    kind: Sending,
    own: Sel,
    found: Found,
) -> Next
    requires can { CanSend code.now core.old at sent receiver }
    requires own { own.0 ≡ own_number code.now DoesNotUnderstand }
    requires goes { (activation : Activation) → ControlGoesOn code.now (length core.old.stack.frames.items)
        (looked_up code.now core.old at sent activation (To receiver kind)) }
    requires found { found ≡ found_from core.old.run.world.world.cells code.now
        (start_of core.old.run.world.world.cells receiver) sent.site.sel.0 kind }
    ensures { (activation : Activation) → Sends code.now core.old at sent.floor (looked_up code.now core.old at sent activation
        (To receiver kind)) core.new result }
{
    do_found(code, core, at, sent, receiver, kind, own, found)
}

/// Goes on with what the lookup has found.
#[inline(always)]
fn do_found(
    code: &CodeProgram,
    core: &mut Core,
    at: Registers,
    sent: Sent,
    receiver: Value,
    kind: Sending,
    own: Sel,
    found: Found,
) -> Next
    requires can { CanSend code.now core.old at sent receiver }
    requires own { own.0 ≡ own_number code.now DoesNotUnderstand }
    requires goes { (activation : Activation) → ControlGoesOn code.now (length core.old.stack.frames.items)
        (looked_up code.now core.old at sent activation (To receiver kind)) }
    requires found { found ≡ found_from core.old.run.world.world.cells code.now
        (start_of core.old.run.world.world.cells receiver) sent.site.sel.0 kind }
    ensures { (activation : Activation) → Sends code.now core.old at sent.floor (looked_up code.now core.old at sent activation
        (To receiver kind)) core.new result }
{
    rows_that_are_found_suit();
    what_is_found_suits();
    let _kind = kind;
    let arguments = core.stack.from(at, sent.first);
    let answered = answered_by(
        &mut core.run,
        code,
        own,
        found,
        sent.site.sel,
        receiver,
        arguments,
    );
    go_on(code, core, at, sent, receiver, answered)
}
