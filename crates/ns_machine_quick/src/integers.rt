//! Sends to Integers by the row that their step has, by the quick way: nothing is looked up, and registers alone come back. The
//! body that runs stays on top, and one step is charged.

ghost use Rattle.std.specs.Prelude.{◌≡◌, ◌+◌, Some, IsTrue, slice_get};
ghost use Rattle.ns_moves.specs.Blocks.{is_integer};
ghost use Rattle.ns_machine_plan.specs.Integers.{row_of_send};
ghost use Rattle.ns_machine_plan.specs.Steps.{send_instr};
ghost use Rattle.ns_machine_core.specs.Doing.{CanDo};
ghost use Rattle.ns_machine_sends.specs.Operands.{SendsOperands};
ghost use Rattle.ns_machine_sends.specs.Sending.{CanSend};
ghost use Rattle.ns_machine_quick.specs.Integers.{SendsOrNothing, ToTopOrNothing, DoesOrNothing};

use crate::rows::{charge, value_of_integer};
use ns_base::selector::Sel;
use ns_code::program::CodeProgram;
use ns_find::found::Sending;
use ns_kdata::arguments::argument;
use ns_machine_core::state::Core;
use ns_machine_frames::frame::KeptSite;
use ns_machine_frames::laws::operands_are_taken;
use ns_machine_frames::registers::Registers;
use ns_machine_plan::laws::integers_find_rows;
use ns_machine_sends::sent::Sent;
use ns_moves::begin::is_integer;
use ns_world::kernel::ClassName;
use ns_world::kernel_class::KernelRow;
use ns_world::kernel_parts::IntRow;
use ns_world::kernel_row::Row;
use ns_world::value::Value;

/// Sends to a value by the row of Integer that its selector names, where it is an Integer to which that row gives a value, and
/// a step is left; else nothing has changed.
#[inline(always)]
#[tactic(auto, using(crate::proofs::Received::kind_operands))]
pub fn send_integer(
    code: &CodeProgram,
    core: &mut Core,
    at: Registers,
    sel: Sel,
    argc: u8,
    kind: Sending,
    place: u32,
    row: IntRow,
) -> Option<Registers>
    requires can { CanDo code.now core.old at (send_instr kind sel argc) }
    requires row { row_of_send code.now sel ≡ Some row }
    ensures { DoesOrNothing code.now (send_instr kind sel argc) (slice_get core.old.places place) core.old at core.new result }
{
    operands_are_taken();
    match send_operands(code, core, at, sel, argc, place, kind, row) {
        Some(to) => Some(to),
        None => None,
    }
}

/// Sends so many topmost operands to the value below them, where that is an Integer.
#[inline(always)]
fn send_operands(
    code: &CodeProgram,
    core: &mut Core,
    at: Registers,
    sel: Sel,
    argc: u8,
    place: u32,
    kind: Sending,
    row: IntRow,
) -> Option<Registers>
    requires operands { SendsOperands code.now core.old at sel argc (argc + 1) }
    requires row { row_of_send code.now sel ≡ Some row }
    ensures { ToTopOrNothing code.now core.old at sel argc place kind core.new result }
{
    let first = at.top - u32::from(argc);
    let above = Registers { top: first, ..at };
    let (receiver, below) = core.stack.pop(above);
    if !is_integer(receiver) {
        return None;
    }
    let class = ClassName::Kernel(KernelRow::Integer);
    let sent = Sent {
        site: KeptSite { place, class, sel },
        floor: below.top,
        first,
    };
    match send_to(code, core, at, sent, receiver, kind, row) {
        Some(to) => Some(to),
        None => None,
    }
}

/// Sends to an Integer, where the row gives a value.
#[inline(always)]
fn send_to(
    code: &CodeProgram,
    core: &mut Core,
    at: Registers,
    sent: Sent,
    receiver: Value,
    kind: Sending,
    row: IntRow,
) -> Option<Registers>
    requires can { CanSend code.now core.old at sent receiver }
    requires integer { IsTrue (is_integer receiver) }
    requires row { row_of_send code.now sent.site.sel ≡ Some row }
    ensures { SendsOrNothing code.now core.old at sent receiver kind core.new result }
{
    integers_find_rows();
    let right = argument(core.stack.from(at, sent.first), 0);
    match value_of_integer(code, row, receiver, right) {
        Some(value) => charge(
            code,
            core,
            at,
            sent,
            receiver,
            kind,
            Row::Integer(row),
            value,
        ),
        None => None,
    }
}
