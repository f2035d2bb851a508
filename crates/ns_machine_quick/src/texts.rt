//! Sends to Strings by the row of Array that their step has: two selectors of Array are of String too. Nothing is looked up, and
//! registers alone come back. The body that runs stays on top, and one step is charged.

ghost use Rattle.std.specs.Prelude.{◌≡◌, ◌+◌, Some, IsTrue, IfSome, slice_get};
ghost use Rattle.ns_world.specs.declared.kernel_row.Row.TheVariants.{Data};
ghost use Rattle.ns_kdata.specs.Arguments.{CellIsThere, is_text};
ghost use Rattle.ns_machine_plan.specs.Arrays.{row_of_send};
ghost use Rattle.ns_machine_plan.specs.Steps.{send_instr};
ghost use Rattle.ns_machine_core.specs.Doing.{CanDo};
ghost use Rattle.ns_machine_sends.specs.Operands.{SendsOperands};
ghost use Rattle.ns_machine_sends.specs.Sending.{CanSend};
ghost use Rattle.ns_machine_quick.specs.Integers.{SendsOrNothing, ToTopOrNothing, DoesOrNothing};
ghost use Rattle.ns_machine_quick.specs.Rows.{FindsRow, RowGives};

use crate::rows::charge;
use ns_base::selector::Sel;
use ns_code::program::CodeProgram;
use ns_find::found::Sending;
use ns_kdata::arguments::{argument, is_text};
use ns_kdata::texts::{text_at, text_size};
use ns_machine_core::state::Core;
use ns_machine_frames::frame::KeptSite;
use ns_machine_frames::laws::operands_are_taken;
use ns_machine_frames::registers::Registers;
use ns_machine_sends::sent::Sent;
use ns_world::kernel::ClassName;
use ns_world::kernel_class::KernelRow;
use ns_world::kernel_parts::DataRow;
use ns_world::kernel_row::Row;
use ns_world::value::Value;
use ns_world::world::World;

/// Sends to a value by the row of Array that its selector names, where it is a String that has a row of that selector too, which gives
/// it a value, and a step is left; else nothing has changed.
#[inline(always)]
#[tactic(auto, using(crate::proofs::Received::kind_operands))]
pub fn send_text(
    code: &CodeProgram,
    core: &mut Core,
    at: Registers,
    sel: Sel,
    argc: u8,
    kind: Sending,
    place: u32,
    row: DataRow,
) -> Option<Registers>
    requires can { CanDo code.now core.old at (send_instr kind sel argc) }
    requires row { row_of_send code.now sel ≡ Some row }
    ensures { DoesOrNothing code.now (send_instr kind sel argc) (slice_get core.old.places place) core.old at core.new result }
{
    operands_are_taken();
    match send_operands(code, core, at, sel, argc, place, kind, row) {
        Some(to) => Some(to),
        None => None,
    }
}

/// Sends so many topmost operands to the value below them, where that is a String.
#[inline(always)]
fn send_operands(
    code: &CodeProgram,
    core: &mut Core,
    at: Registers,
    sel: Sel,
    argc: u8,
    place: u32,
    kind: Sending,
    row: DataRow,
) -> Option<Registers>
    requires operands { SendsOperands code.now core.old at sel argc (argc + 1) }
    requires row { row_of_send code.now sel ≡ Some row }
    ensures { ToTopOrNothing code.now core.old at sel argc place kind core.new result }
{
    let first = at.top - u32::from(argc);
    let above = Registers { top: first, ..at };
    let (receiver, below) = core.stack.pop(above);
    if !is_text(&core.run.world, receiver) {
        return None;
    }
    let class = ClassName::Kernel(KernelRow::String);
    let sent = Sent {
        site: KeptSite { place, class, sel },
        floor: below.top,
        first,
    };
    match send_to(code, core, at, sent, receiver, kind, row) {
        Some(to) => Some(to),
        None => None,
    }
}

/// Sends to a String by its row of that selector, where it has one.
#[inline(always)]
fn send_to(
    code: &CodeProgram,
    core: &mut Core,
    at: Registers,
    sent: Sent,
    receiver: Value,
    kind: Sending,
    row: DataRow,
) -> Option<Registers>
    requires can { CanSend code.now core.old at sent receiver }
    requires text { IsTrue (is_text core.old.run.world.world.cells receiver) }
    requires row { row_of_send code.now sent.site.sel ≡ Some row }
    ensures { SendsOrNothing code.now core.old at sent receiver kind core.new result }
{
    match row {
        DataRow::ArraySize => send_read(code, core, at, sent, receiver, kind, DataRow::TextSize),
        DataRow::ArrayAt => send_read(code, core, at, sent, receiver, kind, DataRow::TextAt),
        _ => None,
    }
}

/// Brings what a row reads of a String, where it gives a value.
#[inline(always)]
fn send_read(
    code: &CodeProgram,
    core: &mut Core,
    at: Registers,
    sent: Sent,
    receiver: Value,
    kind: Sending,
    row: DataRow,
) -> Option<Registers>
    requires can { CanSend code.now core.old at sent receiver }
    requires finds { FindsRow code.now core.old sent receiver kind (Data row) }
    ensures { SendsOrNothing code.now core.old at sent receiver kind core.new result }
{
    let first = argument(core.stack.from(at, sent.first), 0);
    match value_of_text(&core.run.world, code, row, receiver, first) {
        Some(value) => charge(code, core, at, sent, receiver, kind, Row::Data(row), value),
        None => None,
    }
}

/// The value that a row of String gives at once, where it only reads and has no fault.
#[inline(always)]
#[tactic(auto, using(crate::proofs::TextSends::size_given, crate::proofs::TextSends::byte_given))]
fn value_of_text(
    world: &World,
    code: &CodeProgram,
    row: DataRow,
    receiver: Value,
    first: Value,
) -> Option<Value>
    requires receiver { CellIsThere world.now.world.cells receiver }
    ensures { IfSome result (λ value. RowGives code.now world.now.world.cells (Data row) receiver first value) }
{
    let _code = code;
    match row {
        DataRow::TextSize => Some(text_size(world, receiver)),
        DataRow::TextAt => match text_at(world, receiver, first) {
            Ok(value) => Some(value),
            Err(_) => None,
        },
        _ => None,
    }
}
