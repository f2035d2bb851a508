//! Sends that find a getter or a setter, by the quick way: registers alone come back. The body that runs stays on top, and one step
//! is charged.

ghost use Rattle.ns_find.specs.declared.found.Found.TheVariants as found;
ghost use Rattle.ns_moves.specs.Suits.{Suits};
ghost use Rattle.ns_machine_core.specs.declared.state.Next.TheVariants as next;
ghost use Rattle.ns_machine_sends.specs.Sending.{CanSend, Sends};
ghost use Rattle.ns_machine_quick.specs.Given.{ChargesOrNot};
ghost use Rattle.ns_machine_quick.specs.Opening.{FindsGetter, FindsSetter, got_at, set_at};

use ns_code::program::CodeProgram;
use ns_find::found::Sending;
use ns_kdata::arguments::argument;
use ns_machine_core::giving::give;
use ns_machine_core::state::Core;
use ns_machine_frames::registers::Registers;
use ns_machine_sends::sent::Sent;
use ns_moves::answer_laws::a_send_is_its_step_and_its_answer;
use ns_moves::finding::{entries_are_inside, what_is_found_suits};
use ns_world::lawful::charging_keeps_lawful;
use ns_world::value::Value;

/// Sends to a value that finds a getter, where a step is left.
#[inline(always)]
pub fn send_getter(
    code: &CodeProgram,
    core: &mut Core,
    at: Registers,
    sent: Sent,
    receiver: Value,
    kind: Sending,
    holder: u32,
    word: u32,
) -> Option<Registers>
    requires can { CanSend code.now core.old at sent receiver }
    requires finds { FindsGetter code.now core.old sent receiver kind holder word }
    ensures { ChargesOrNot code.now core.old at sent receiver kind core.new result }
{
    a_send_is_its_step_and_its_answer();
    charging_keeps_lawful();
    what_is_found_suits();
    match core.run.world.step() {
        Ok(()) => Some(get(code, core, at, sent, receiver, holder, word)),
        Err(_) => None,
    }
}

/// Brings the word of a slot of the receiver to the body that runs.
#[inline(always)]
pub fn get(
    code: &CodeProgram,
    core: &mut Core,
    at: Registers,
    sent: Sent,
    receiver: Value,
    holder: u32,
    word: u32,
) -> Registers
    requires can { CanSend code.now core.old at sent receiver }
    requires suits { Suits core.old.run.world.world.cells code.now receiver (found.Getter holder word) }
    ensures { Sends code.now core.old at sent.floor (got_at core.old receiver word) core.new (next.On result) }
{
    entries_are_inside();
    let _holder = holder;
    let value = core.run.world.word_of_object(receiver, word);
    let below = Registers {
        top: sent.floor,
        ..at
    };
    give(code, core, below, value)
}

/// Sends to a value that finds a setter, where a step is left.
#[inline(always)]
pub fn send_setter(
    code: &CodeProgram,
    core: &mut Core,
    at: Registers,
    sent: Sent,
    receiver: Value,
    kind: Sending,
    holder: u32,
    word: u32,
) -> Option<Registers>
    requires can { CanSend code.now core.old at sent receiver }
    requires finds { FindsSetter code.now core.old sent receiver kind holder word }
    ensures { ChargesOrNot code.now core.old at sent receiver kind core.new result }
{
    a_send_is_its_step_and_its_answer();
    charging_keeps_lawful();
    what_is_found_suits();
    match core.run.world.step() {
        Ok(()) => Some(set(code, core, at, sent, receiver, holder, word)),
        Err(_) => None,
    }
}

/// Stores the argument in the word of a slot of the receiver, which comes to the body that runs.
#[inline(always)]
pub fn set(
    code: &CodeProgram,
    core: &mut Core,
    at: Registers,
    sent: Sent,
    receiver: Value,
    holder: u32,
    word: u32,
) -> Registers
    requires can { CanSend code.now core.old at sent receiver }
    requires suits { Suits core.old.run.world.world.cells code.now receiver (found.Setter holder word) }
    ensures { Sends code.now core.old at sent.floor (set_at core.old at sent receiver word) core.new (next.On result) }
{
    entries_are_inside();
    let _holder = holder;
    let value = argument(core.stack.from(at, sent.first), 0);
    core.run.world.store(receiver, word, value);
    let below = Registers {
        top: sent.floor,
        ..at
    };
    give(code, core, below, receiver)
}
