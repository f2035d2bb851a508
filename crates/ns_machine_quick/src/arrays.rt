//! Sends to Arrays by the row that their step has, by the quick way: nothing is looked up, and registers alone come back. The body
//! that runs stays on top, and one step is charged.

ghost use Rattle.std.specs.Prelude.{◌≡◌, ◌+◌, Some, IsTrue, IfSome, slice_get};
ghost use Rattle.ns_world.specs.declared.kernel_row.Row.TheVariants.{Data};
ghost use Rattle.ns_kdata.specs.Arguments.{CellIsThere, is_array};
ghost use Rattle.ns_machine_plan.specs.Arrays.{row_of_send};
ghost use Rattle.ns_machine_plan.specs.Steps.{send_instr};
ghost use Rattle.ns_machine_core.specs.Doing.{CanDo};
ghost use Rattle.ns_machine_sends.specs.Operands.{SendsOperands};
ghost use Rattle.ns_machine_sends.specs.Sending.{CanSend};
ghost use Rattle.ns_machine_quick.specs.Integers.{SendsOrNothing, ToTopOrNothing, DoesOrNothing};
ghost use Rattle.ns_machine_quick.specs.Rows.{FindsRow, RowGives};

use crate::rows::{charge, send_put};
use ns_base::selector::Sel;
use ns_code::program::CodeProgram;
use ns_find::found::Sending;
use ns_kdata::arguments::{argument, is_array};
use ns_kdata::arrays::{array_at, array_size};
use ns_machine_core::state::Core;
use ns_machine_frames::frame::KeptSite;
use ns_machine_frames::laws::operands_are_taken;
use ns_machine_frames::registers::Registers;
use ns_machine_plan::laws::arrays_find_rows;
use ns_machine_sends::sent::Sent;
use ns_world::kernel::ClassName;
use ns_world::kernel_class::KernelRow;
use ns_world::kernel_parts::DataRow;
use ns_world::kernel_row::Row;
use ns_world::value::Value;
use ns_world::world::World;

/// Sends to a value by the row of Array that its selector names, where it is an Array to which that row gives a value, and a
/// step is left; else nothing has changed.
#[inline(always)]
#[tactic(auto, using(crate::proofs::Received::kind_operands))]
pub fn send_array(
    code: &CodeProgram,
    core: &mut Core,
    at: Registers,
    sel: Sel,
    argc: u8,
    kind: Sending,
    place: u32,
    row: DataRow,
) -> Option<Registers>
    requires can { CanDo code.now core.old at (send_instr kind sel argc) }
    requires row { row_of_send code.now sel ≡ Some row }
    ensures { DoesOrNothing code.now (send_instr kind sel argc) (slice_get core.old.places place) core.old at core.new result }
{
    operands_are_taken();
    match send_operands(code, core, at, sel, argc, place, kind, row) {
        Some(to) => Some(to),
        None => None,
    }
}

/// Sends so many topmost operands to the value below them, where that is an Array.
#[inline(always)]
fn send_operands(
    code: &CodeProgram,
    core: &mut Core,
    at: Registers,
    sel: Sel,
    argc: u8,
    place: u32,
    kind: Sending,
    row: DataRow,
) -> Option<Registers>
    requires operands { SendsOperands code.now core.old at sel argc (argc + 1) }
    requires row { row_of_send code.now sel ≡ Some row }
    ensures { ToTopOrNothing code.now core.old at sel argc place kind core.new result }
{
    let first = at.top - u32::from(argc);
    let above = Registers { top: first, ..at };
    let (receiver, below) = core.stack.pop(above);
    if !is_array(&core.run.world, receiver) {
        return None;
    }
    let class = ClassName::Kernel(KernelRow::Array);
    let sent = Sent {
        site: KeptSite { place, class, sel },
        floor: below.top,
        first,
    };
    match send_to(code, core, at, sent, receiver, kind, row) {
        Some(to) => Some(to),
        None => None,
    }
}

/// Sends to an Array: an element is stored, or the row gives a value.
#[inline(always)]
fn send_to(
    code: &CodeProgram,
    core: &mut Core,
    at: Registers,
    sent: Sent,
    receiver: Value,
    kind: Sending,
    row: DataRow,
) -> Option<Registers>
    requires can { CanSend code.now core.old at sent receiver }
    requires array { IsTrue (is_array core.old.run.world.world.cells receiver) }
    requires row { row_of_send code.now sent.site.sel ≡ Some row }
    ensures { SendsOrNothing code.now core.old at sent receiver kind core.new result }
{
    arrays_find_rows();
    match row {
        DataRow::ArrayPut => send_put(code, core, at, sent, receiver, kind),
        _ => send_read(code, core, at, sent, receiver, kind, row),
    }
}

/// Brings what a row reads of an Array, where it gives a value.
#[inline(always)]
fn send_read(
    code: &CodeProgram,
    core: &mut Core,
    at: Registers,
    sent: Sent,
    receiver: Value,
    kind: Sending,
    row: DataRow,
) -> Option<Registers>
    requires can { CanSend code.now core.old at sent receiver }
    requires finds { FindsRow code.now core.old sent receiver kind (Data row) }
    ensures { SendsOrNothing code.now core.old at sent receiver kind core.new result }
{
    let first = argument(core.stack.from(at, sent.first), 0);
    match value_of_array(&core.run.world, code, row, receiver, first) {
        Some(value) => charge(code, core, at, sent, receiver, kind, Row::Data(row), value),
        None => None,
    }
}

/// The value that a row of Array gives at once, where it only reads and has no fault.
#[inline(always)]
#[tactic(auto, using(crate::proofs::ArraySends::size_given, crate::proofs::ArraySends::element_given))]
fn value_of_array(
    world: &World,
    code: &CodeProgram,
    row: DataRow,
    receiver: Value,
    first: Value,
) -> Option<Value>
    requires receiver { CellIsThere world.now.world.cells receiver }
    ensures { IfSome result (λ value. RowGives code.now world.now.world.cells (Data row) receiver first value) }
{
    let _code = code;
    match row {
        DataRow::ArraySize => Some(array_size(world, receiver)),
        DataRow::ArrayAt => match array_at(world, receiver, first) {
            Ok(value) => Some(value),
            Err(_) => None,
        },
        _ => None,
    }
}
