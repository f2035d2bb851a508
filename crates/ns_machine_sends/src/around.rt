//! Sends to super, and to private members of the declarations around running code.

ghost use Rattle.std.specs.Prelude.{◌≡◌, length, slice_get, IsSome};
ghost use Rattle.ns_code.specs.declared.instruction.Instr.TheVariants as instr;
ghost use Rattle.ns_code.specs.declared.own.Own.TheVariants.{DoesNotUnderstand};
ghost use Rattle.ns_code.specs.Selector.{own_number};
ghost use Rattle.ns_moves.specs.Lawful.{FitsActivation, declaration_at};
ghost use Rattle.ns_moves.specs.Sends.{ToPrivate, ToSuper, receiver_of};
ghost use Rattle.ns_moves.specs.Running.{code_of};
ghost use Rattle.ns_machine_core.specs.Doing.{CanDo, IsDone};
ghost use Rattle.ns_machine_core.specs.Own.{AreOwn};
ghost use Rattle.ns_machine_sends.specs.Going.{ControlGoesOn};
ghost use Rattle.ns_machine_sends.specs.Sending.{CanSend, looked_up, sent_at, Sends};

use crate::going::go_on;
use crate::sent::Sent;
use ns_base::selector::Sel;
use ns_code::program::CodeProgram;
use ns_machine_core::own::OwnSends;
use ns_machine_core::settling::{running, running_code};
use ns_machine_core::state::{Core, Next};
use ns_machine_frames::frame::KeptSite;
use ns_machine_frames::laws::operands_are_taken;
use ns_machine_frames::registers::Registers;
use ns_moves::answer_laws::a_send_is_its_step_and_its_answer;
use ns_moves::enclosing::enclosing;
use ns_moves::finding::enclosing_objects_are_there;
use ns_moves::laws::{
    actions_spend_exactly, rows_that_are_found_suit, sends_keep_lawful, sites_stay,
    what_is_handed_on_fits,
};
use ns_moves::running::Running;
use ns_moves::targets::class_of;
use ns_world::ending::Ending;
use ns_world::lawful::charging_keeps_lawful;
use ns_world::value::Value;

/// Sends to self, from above the holder of the code that runs.
#[inline(always)]
#[tactic(auto, using(crate::specs::laws::Selves::here_fits, crate::specs::laws::Selves::here_lawful))]
pub fn send_super(
    code: &CodeProgram,
    core: &mut Core,
    at: Registers,
    sel: Sel,
    argc: u8,
    place: u32,
    own: OwnSends,
) -> Next
    requires can { CanDo code.now core.old at (instr.SendSuper sel argc) }
    requires own { AreOwn code.now core.old.places own }
    ensures { IsDone code.now (instr.SendSuper sel argc) (slice_get core.old.places place) core.old at core.new result }
{
    operands_are_taken();
    let code_here = running_code(running(&core.stack).activation);
    let first = at.top - u32::from(argc);
    let class = class_of(&core.run.world, code, code_here.me);
    let sent = Sent {
        site: KeptSite { place, class, sel },
        floor: first,
        first,
    };
    step_above(code, core, at, sent, code_here, own.does_not_understand)
}

/// Charges the step of a send to super, which is then looked up.
#[inline(always)]
fn step_above(
    code: &CodeProgram,
    core: &mut Core,
    at: Registers,
    sent: Sent,
    running: Running,
    own: Sel,
) -> Next
    requires can { CanSend code.now core.old at sent running.me }
    requires runs { FitsActivation core.old.run.world.world.cells code.now (code_of running) }
    requires own { own.0 ≡ own_number code.now DoesNotUnderstand }
    ensures { Sends code.now core.old at sent.floor (sent_at code.now core.old at sent (code_of running) ToSuper) core.new result }
{
    a_send_is_its_step_and_its_answer();
    charging_keeps_lawful();
    sends_keep_lawful();
    what_is_handed_on_fits();
    actions_spend_exactly();
    sites_stay();
    match core.run.world.step() {
        Ok(()) => look_above(code, core, at, sent, running, own),
        Err(limit) => {
            core.ending = Ending::Limit(limit);
            Next::Ended
        }
    }
}

/// Looks the selector up above the holder, and goes on with what that comes to.
#[inline(always)]
fn look_above(
    code: &CodeProgram,
    core: &mut Core,
    at: Registers,
    sent: Sent,
    running: Running,
    own: Sel,
) -> Next
    requires can { CanSend code.now core.old at sent running.me }
    requires runs { FitsActivation core.old.run.world.world.cells code.now (code_of running) }
    requires own { own.0 ≡ own_number code.now DoesNotUnderstand }
    requires goes { ControlGoesOn code.now (length core.old.stack.frames.items)
        (looked_up code.now core.old at sent (code_of running) ToSuper) }
    ensures { Sends code.now core.old at sent.floor (looked_up code.now core.old at sent (code_of running) ToSuper) core.new result }
{
    rows_that_are_found_suit();
    let arguments = core.stack.from(at, sent.first);
    let answered = ns_moves::targets::send_super(
        &mut core.run,
        code,
        own,
        running,
        sent.site.sel,
        arguments,
    );
    go_on(code, core, at, sent, running.me, answered)
}

/// Sends to the private member of the declaration so many levels out.
#[inline(always)]
#[tactic(auto, using(crate::specs::laws::Selves::here_fits, crate::specs::laws::Selves::here_lawful, crate::specs::laws::Selves::level_there))]
pub fn send_private(
    code: &CodeProgram,
    core: &mut Core,
    at: Registers,
    level: u8,
    sel: Sel,
    argc: u8,
    place: u32,
    own: OwnSends,
) -> Next
    requires can { CanDo code.now core.old at (instr.SendPrivate level sel argc) }
    requires own { AreOwn code.now core.old.places own }
    ensures { IsDone code.now (instr.SendPrivate level sel argc) (slice_get core.old.places place) core.old at core.new result }
{
    operands_are_taken();
    enclosing_objects_are_there();
    let code_here = running_code(running(&core.stack).activation);
    let first = at.top - u32::from(argc);
    let receiver = enclosing(&core.run.world, code, code_here, level).object;
    let class = class_of(&core.run.world, code, receiver);
    let sent = Sent {
        site: KeptSite { place, class, sel },
        floor: first,
        first,
    };
    step_around(
        code,
        core,
        at,
        sent,
        code_here,
        level,
        receiver,
        own.does_not_understand,
    )
}

/// Charges the step of a private send, which is then looked up.
#[inline(always)]
fn step_around(
    code: &CodeProgram,
    core: &mut Core,
    at: Registers,
    sent: Sent,
    running: Running,
    level: u8,
    receiver: Value,
    own: Sel,
) -> Next
    requires can { CanSend code.now core.old at sent receiver }
    requires receiver { receiver ≡ receiver_of core.old.run.world.world.cells (code_of running) (ToPrivate level) }
    requires runs { FitsActivation core.old.run.world.world.cells code.now (code_of running) }
    requires level { IsSome (declaration_at code.now running.body level) }
    requires own { own.0 ≡ own_number code.now DoesNotUnderstand }
    ensures { Sends code.now core.old at sent.floor (sent_at code.now core.old at sent (code_of running)
        (ToPrivate level)) core.new result }
{
    a_send_is_its_step_and_its_answer();
    charging_keeps_lawful();
    sends_keep_lawful();
    what_is_handed_on_fits();
    actions_spend_exactly();
    sites_stay();
    match core.run.world.step() {
        Ok(()) => look_around(code, core, at, sent, running, level, receiver, own),
        Err(limit) => {
            core.ending = Ending::Limit(limit);
            Next::Ended
        }
    }
}

/// Looks the selector up among the private members, and goes on with what that comes to.
#[inline(always)]
fn look_around(
    code: &CodeProgram,
    core: &mut Core,
    at: Registers,
    sent: Sent,
    running: Running,
    level: u8,
    receiver: Value,
    own: Sel,
) -> Next
    requires can { CanSend code.now core.old at sent receiver }
    requires receiver { receiver ≡ receiver_of core.old.run.world.world.cells (code_of running) (ToPrivate level) }
    requires runs { FitsActivation core.old.run.world.world.cells code.now (code_of running) }
    requires level { IsSome (declaration_at code.now running.body level) }
    requires own { own.0 ≡ own_number code.now DoesNotUnderstand }
    requires goes { ControlGoesOn code.now (length core.old.stack.frames.items)
        (looked_up code.now core.old at sent (code_of running) (ToPrivate level)) }
    ensures { Sends code.now core.old at sent.floor (looked_up code.now core.old at sent (code_of running)
        (ToPrivate level)) core.new result }
{
    rows_that_are_found_suit();
    let arguments = core.stack.from(at, sent.first);
    let answered = ns_moves::targets::send_private(
        &mut core.run,
        code,
        own,
        running,
        level,
        sent.site.sel,
        arguments,
    );
    go_on(code, core, at, sent, receiver, answered)
}
