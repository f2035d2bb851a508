//! Sends that find a nested class, by the quick way, where the object keeps it: the class comes to the body that runs, which stays on
//! top, and one step is charged.

ghost use Rattle.std.specs.Prelude.{◌≡◌, IfSome};
ghost use Rattle.ns_world.specs.Lawful.{IsLawful};
ghost use Rattle.ns_world.specs.declared.value.Value.TheVariants as value_is;
ghost use Rattle.ns_find.specs.declared.found.Found.TheVariants as found;
ghost use Rattle.ns_moves.specs.Control.{gives};
ghost use Rattle.ns_moves.specs.Suits.{Suits};
ghost use Rattle.ns_machine_core.specs.declared.state.Next.TheVariants as next;
ghost use Rattle.ns_machine_core.specs.Shown.{progress_in};
ghost use Rattle.ns_machine_sends.specs.Sending.{CanSend, Sends};
ghost use Rattle.ns_machine_quick.specs.Given.{ChargesOrNot};
ghost use Rattle.ns_machine_quick.specs.Nested.{FindsNested, KeepsNested};

use ns_classes::nested::nested;
use ns_code::program::CodeProgram;
use ns_find::found::Sending;
use ns_machine_core::giving::give;
use ns_machine_core::state::Core;
use ns_machine_frames::registers::Registers;
use ns_machine_sends::sent::Sent;
use ns_moves::answer_laws::a_send_is_its_step_and_its_answer;
use ns_moves::finding::{nested_classes_can_be_kept, what_is_found_suits};
use ns_world::lawful::charging_keeps_lawful;
use ns_world::value::Value;
use ns_world::world::World;

/// Sends to a value that finds a nested class, where the object keeps it and a step is left.
#[inline(always)]
pub fn send_nested(
    code: &CodeProgram,
    core: &mut Core,
    at: Registers,
    sent: Sent,
    receiver: Value,
    kind: Sending,
    class: u32,
    holder: u32,
) -> Option<Registers>
    requires can { CanSend code.now core.old at sent receiver }
    requires finds { FindsNested code.now core.old sent receiver kind class holder }
    ensures { ChargesOrNot code.now core.old at sent receiver kind core.new result }
{
    what_is_found_suits();
    match kept_by(&core.run.world, code, receiver, holder, class) {
        Some(kept) => send_kept(code, core, at, sent, receiver, kind, class, holder, kept),
        None => None,
    }
}

/// The nested class of a holder that a receiver keeps.
#[inline(always)]
fn kept_by(
    world: &World,
    code: &CodeProgram,
    receiver: Value,
    holder: u32,
    class: u32,
) -> Option<u32>
    requires lawful { IsLawful world.now.world code.now }
    requires suits { Suits world.now.world.cells code.now receiver (found.Nested class holder) }
    ensures { IfSome result (λ kept. KeepsNested world.now.world.cells code.now receiver holder class kept) }
{
    nested_classes_can_be_kept();
    match receiver {
        Value::Ref(object) => nested(world, code, object, holder, class),
        _ => None,
    }
}

/// The same where this class is kept.
#[inline(always)]
fn send_kept(
    code: &CodeProgram,
    core: &mut Core,
    at: Registers,
    sent: Sent,
    receiver: Value,
    kind: Sending,
    class: u32,
    holder: u32,
    kept: u32,
) -> Option<Registers>
    requires can { CanSend code.now core.old at sent receiver }
    requires finds { FindsNested code.now core.old sent receiver kind class holder }
    requires keeps { KeepsNested core.old.run.world.world.cells code.now receiver holder class kept }
    ensures { ChargesOrNot code.now core.old at sent receiver kind core.new result }
{
    a_send_is_its_step_and_its_answer();
    charging_keeps_lawful();
    let _kind = kind;
    let _class = class;
    let _holder = holder;
    match core.run.world.step() {
        Ok(()) => Some(give_class(code, core, at, sent, receiver, kept)),
        Err(_) => None,
    }
}

/// Brings a class to the body that runs.
#[inline(always)]
fn give_class(
    code: &CodeProgram,
    core: &mut Core,
    at: Registers,
    sent: Sent,
    receiver: Value,
    class: u32,
) -> Registers
    requires can { CanSend code.now core.old at sent receiver }
    ensures { Sends code.now core.old at sent.floor (gives (value_is.Ref class) (progress_in core.old)) core.new (next.On result) }
{
    let _receiver = receiver;
    let below = Registers {
        top: sent.floor,
        ..at
    };
    give(code, core, below, Value::Ref(class))
}
