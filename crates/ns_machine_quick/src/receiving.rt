//! The receiver of a step's send, below its arguments, and what is sent to it.

ghost use Rattle.std.specs.Prelude.{◌≡◌, ◌+◌, ◌≤◌};
ghost use Rattle.ns_world.specs.Lawful.{IsLawful, IsLiveValue};
ghost use Rattle.ns_world.specs.Starts.{class_name_of};
ghost use Rattle.ns_machine_quick.specs.Below.{operand_below, sent_below, sent_by, CanSendBelow, StandsBelow};

use crate::objects::name_of_class;
use ns_code::program::CodeProgram;
use ns_machine_core::state::Core;
use ns_machine_frames::frame::KeptSite;
use ns_machine_frames::registers::Registers;
use ns_machine_frames::stack::Stack;
use ns_machine_plan::packed::ValueSend;
use ns_machine_sends::sent::Sent;
use ns_moves::targets::class_of;
use ns_world::kernel::ClassName;
use ns_world::value::Value;
use ns_world::world::World;

/// The value below so many operands.
#[inline(always)]
pub fn receiver_below(stack: &Stack, at: Registers, argc: u8) -> Value
    requires { StandsBelow stack.now at argc }
    ensures { result ≡ operand_below stack.now at argc }
{
    let above = Registers {
        top: at.top - u32::from(argc),
        ..at
    };
    stack.operand(above, 0)
}

/// What a step sends to the value below its arguments.
#[inline(always)]
pub fn sent_below(code: &CodeProgram, core: &Core, at: Registers, send: &ValueSend) -> Sent
    requires { CanSendBelow code.now core.now at send.now }
    ensures { result ≡ sent_below core.now at send.now }
{
    let receiver = receiver_below(&core.stack, at, send.argc);
    let class = class_of(&core.run.world, code, receiver);
    sent_by(at, send, class)
}

/// What is sent to a receiver, with its class named anew, for a site that is kept in a frame. So a way on which no frame begins has
/// no use for the class that was named before, and doesn't read it.
#[inline(always)]
pub fn named(world: &World, code: &CodeProgram, sent: Sent, receiver: Value) -> Sent
    requires lawful { IsLawful world.now.world code.now }
    requires live { IsLiveValue world.now.world.cells code.now receiver }
    requires named { sent.site.class ≡ class_name_of world.now.world.cells receiver }
    ensures { result ≡ sent }
{
    let class = name_of_class(world, code, receiver);
    Sent {
        site: KeptSite { class, ..sent.site },
        ..sent
    }
}

/// The same to a receiver of that class.
#[inline(always)]
fn sent_by(at: Registers, send: &ValueSend, class: ClassName) -> Sent
    requires { send.now.argc + 1 ≤ at.top }
    ensures { result ≡ sent_by at send.now class }
{
    let first = at.top - u32::from(send.argc);
    Sent {
        site: KeptSite {
            place: send.place,
            class,
            sel: send.sel,
        },
        floor: first - 1,
        first,
    }
}
