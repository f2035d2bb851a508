//! Sends to a receiver that is an operand.

ghost use Rattle.std.specs.Prelude.{◌+◌, slice_get};
ghost use Rattle.ns_code.specs.declared.instruction.Instr.TheVariants as instr;
ghost use Rattle.ns_machine_core.specs.Doing.{CanDo, IsDone};
ghost use Rattle.ns_machine_core.specs.Own.{AreOwn};
ghost use Rattle.ns_machine_sends.specs.Operands.{SendsOperands, SendsToTop};

use crate::sending::send_to;
use crate::sent::Sent;
use ns_base::selector::Sel;
use ns_code::program::CodeProgram;
use ns_find::found::Sending;
use ns_machine_core::own::OwnSends;
use ns_machine_core::state::{Core, Next};
use ns_machine_frames::frame::KeptSite;
use ns_machine_frames::laws::operands_are_taken;
use ns_machine_frames::registers::Registers;
use ns_moves::targets::class_of;

/// Sends to a value, whose public members alone it reaches.
#[inline(always)]
#[tactic(auto, using(crate::specs::laws::Received::send_operands))]
pub fn send(
    code: &CodeProgram,
    core: &mut Core,
    at: Registers,
    sel: Sel,
    argc: u8,
    place: u32,
    own: OwnSends,
) -> Next
    requires can { CanDo code.now core.old at (instr.Send sel argc) }
    requires own { AreOwn code.now core.old.places own }
    ensures { IsDone code.now (instr.Send sel argc) (slice_get core.old.places place) core.old at core.new result }
{
    operands_are_taken();
    send_operands(code, core, at, sel, argc, place, Sending::Plain, own)
}

/// Sends to a value, whose protected members it reaches too.
#[inline(always)]
#[tactic(auto, using(crate::specs::laws::Received::inner_operands))]
pub fn send_inner(
    code: &CodeProgram,
    core: &mut Core,
    at: Registers,
    sel: Sel,
    argc: u8,
    place: u32,
    own: OwnSends,
) -> Next
    requires can { CanDo code.now core.old at (instr.SendInner sel argc) }
    requires own { AreOwn code.now core.old.places own }
    ensures { IsDone code.now (instr.SendInner sel argc) (slice_get core.old.places place) core.old at core.new result }
{
    operands_are_taken();
    send_operands(code, core, at, sel, argc, place, Sending::Inner, own)
}

/// Sends so many topmost operands to the value below them.
#[inline(always)]
fn send_operands(
    code: &CodeProgram,
    core: &mut Core,
    at: Registers,
    sel: Sel,
    argc: u8,
    place: u32,
    kind: Sending,
    own: OwnSends,
) -> Next
    requires is { SendsOperands code.now core.old at sel argc (argc + 1) }
    requires own { AreOwn code.now core.old.places own }
    ensures { SendsToTop code.now core.old at sel argc place kind core.new result }
{
    let first = at.top - u32::from(argc);
    let above = Registers { top: first, ..at };
    let (receiver, below) = core.stack.pop(above);
    let class = class_of(&mut core.run.world, code, receiver);
    let sent = Sent {
        site: KeptSite { place, class, sel },
        floor: below.top,
        first,
    };
    send_to(
        code,
        core,
        at,
        sent,
        receiver,
        kind,
        own.does_not_understand,
    )
}
