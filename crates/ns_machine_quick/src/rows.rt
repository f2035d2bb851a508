//! Sends that find a row of the kernel which gives a value at once, by the quick way: registers alone come back. The body that runs
//! stays on top, and one step is charged.

ghost use Rattle.std.specs.Prelude.{◌≡◌, ◌<◌, length, IfSome};
ghost use Rattle.ns_world.specs.Heap.{Heap};
ghost use Rattle.ns_world.specs.declared.kernel_parts.DataRow.TheVariants.{ArrayPut};
ghost use Rattle.ns_kdata.specs.Arguments.{argument as argument_at, CellIsThere, items_of};
ghost use Rattle.ns_kdata.specs.Rows.{is_nil, same_value};
ghost use Rattle.ns_moves.specs.Control.{Activation};
ghost use Rattle.ns_world.specs.declared.kernel_row.Row.TheVariants.{Data, Integer};
ghost use Rattle.ns_moves.specs.Sends.{To};
ghost use Rattle.ns_machine_core.specs.declared.state.Next.TheVariants as next;
ghost use Rattle.ns_machine_core.specs.Straight.{StaysOnTop};
ghost use Rattle.ns_machine_sends.specs.Going.{arguments_in};
ghost use Rattle.ns_machine_sends.specs.Sending.{CanSend, looked_up, Sends};
ghost use Rattle.ns_machine_quick.specs.Given.{ChargesOrNot};
ghost use Rattle.ns_machine_quick.specs.Integers.{SendsOrNothing};
ghost use Rattle.ns_machine_quick.specs.Opening.{FindsKernel};
ghost use Rattle.ns_machine_quick.specs.Rows.{FindsRow, RowGives, NamesPlace};

use ns_code::program::CodeProgram;
use ns_find::found::Sending;
use ns_kdata::arguments::{argument, number_of};
use ns_kdata::arrays::{place_at, store};
use ns_kdata::giving::value_at_once;
use ns_kint::integer::integer;
use ns_machine_core::state::Core;
use ns_machine_frames::registers::Registers;
use ns_machine_sends::sent::Sent;
use ns_moves::answer_laws::a_send_is_its_step_and_its_answer;
use ns_world::kernel_parts::{DataRow, IntRow};
use ns_world::kernel_row::Row;
use ns_world::kernel_table::row_of;
use ns_world::lawful::charging_keeps_lawful;
use ns_world::value::{Value, truth};
use ns_world::world::World;

/// Sends to a value that finds a row of the kernel, where that compares values alone and a step is left; else nothing has changed.
#[inline(always)]
pub fn send_comparison(
    code: &CodeProgram,
    core: &mut Core,
    at: Registers,
    sent: Sent,
    receiver: Value,
    kind: Sending,
    number: u32,
) -> Option<Registers>
    requires can { CanSend code.now core.old at sent receiver }
    requires finds { FindsKernel code.now core.old sent receiver kind number }
    ensures { SendsOrNothing code.now core.old at sent receiver kind core.new result }
{
    let row = row_of(number);
    let first = argument(core.stack.from(at, sent.first), 0);
    match value_of_comparison(code, row, receiver, first) {
        Some(value) => match charge(code, core, at, sent, receiver, kind, row, value) {
            Some(to) => Some(to),
            None => None,
        },
        None => None,
    }
}

/// The value of a row that compares its receiver with nil, or with another reference.
#[inline(always)]
#[tactic(auto, using(crate::proofs::Valued::nil_gives, crate::proofs::Valued::some_gives, crate::proofs::Valued::same_gives, crate::proofs::Valued::equal_gives))]
fn value_of_comparison(code: &CodeProgram, row: Row, receiver: Value, first: Value) -> Option<Value>
    ensures { (heap : Heap) → IfSome result (λ value. RowGives code.now heap row receiver first value) }
{
    let _code = code;
    match row {
        Row::Data(DataRow::IsNil) => Some(truth(is_nil(receiver))),
        Row::Data(DataRow::NotNil) => Some(truth(!is_nil(receiver))),
        Row::Data(DataRow::Identical) => match same_reference(receiver, first) {
            Some(same) => Some(truth(same)),
            None => None,
        },
        Row::Data(DataRow::Equal) => match same_reference(receiver, first) {
            Some(same) => Some(truth(same)),
            None => None,
        },
        _ => None,
    }
}

/// Whether a value is nil.
#[inline(always)]
fn is_nil(value: Value) -> bool
    ensures { result ≡ is_nil value }
{
    matches!(value, Value::Nil)
}

/// Whether two references are the same, where both values are such.
#[inline(always)]
fn same_reference(one: Value, other: Value) -> Option<bool>
    ensures { IfSome result (λ same. same ≡ same_value one other) }
{
    match (one, other) {
        (Value::Ref(one), Value::Ref(other)) => Some(one == other),
        _ => None,
    }
}

/// Sends to a value that finds a row of the kernel, where that gives a value at once and a step is left.
#[inline(always)]
pub fn send_row(
    code: &CodeProgram,
    core: &mut Core,
    at: Registers,
    sent: Sent,
    receiver: Value,
    kind: Sending,
    number: u32,
) -> Option<Registers>
    requires can { CanSend code.now core.old at sent receiver }
    requires finds { FindsKernel code.now core.old sent receiver kind number }
    ensures { ChargesOrNot code.now core.old at sent receiver kind core.new result }
{
    let row = row_of(number);
    match row {
        Row::Data(DataRow::ArrayPut) => {
            match send_put(code, core, at, sent, receiver, kind) {
                Some(to) => Some(to),
                None => None,
            }
        }
        _ => send_to_row(code, core, at, sent, receiver, kind, row),
    }
}

/// Brings the value of a row, where it gives one at once and changes nothing.
#[inline(always)]
fn send_to_row(
    code: &CodeProgram,
    core: &mut Core,
    at: Registers,
    sent: Sent,
    receiver: Value,
    kind: Sending,
    row: Row,
) -> Option<Registers>
    requires can { CanSend code.now core.old at sent receiver }
    requires finds { FindsRow code.now core.old sent receiver kind row }
    ensures { ChargesOrNot code.now core.old at sent receiver kind core.new result }
{
    let first = argument(core.stack.from(at, sent.first), 0);
    match value_of(&core.run.world, code, row, receiver, first) {
        Some(value) => match charge(code, core, at, sent, receiver, kind, row, value) {
            Some(to) => Some(to),
            None => None,
        },
        None => None,
    }
}

/// The value that a row gives at once with its first argument, where it changes nothing.
#[inline(always)]
#[tactic(auto, using(crate::proofs::Valued::data_gives))]
fn value_of(
    world: &World,
    code: &CodeProgram,
    row: Row,
    receiver: Value,
    first: Value,
) -> Option<Value>
    requires receiver { CellIsThere world.now.world.cells receiver }
    requires first { CellIsThere world.now.world.cells first }
    ensures { IfSome result (λ value. RowGives code.now world.now.world.cells row receiver first value) }
{
    match row {
        Row::Integer(row) => value_of_integer(code, row, receiver, first),
        Row::Data(row) => match value_at_once(world, code, row, receiver, first) {
            Some(value) => Some(value),
            None => None,
        },
        _ => None,
    }
}

/// The value that a row of Integer gives, where it has no fault.
#[inline(always)]
#[tactic(auto, using(crate::proofs::Valued::integer_gives))]
pub fn value_of_integer(
    code: &CodeProgram,
    row: IntRow,
    receiver: Value,
    right: Value,
) -> Option<Value>
    ensures { (heap : Heap) → IfSome result (λ value. RowGives code.now heap (Integer row) receiver right value) }
{
    let _code = code;
    match integer(row, number_of(receiver), right) {
        Ok(value) => Some(value),
        Err(_) => None,
    }
}

/// Charges the step of a send and brings the value of a row to the body that runs, unless no step is left.
#[inline(always)]
pub fn charge(
    code: &CodeProgram,
    core: &mut Core,
    at: Registers,
    sent: Sent,
    receiver: Value,
    kind: Sending,
    row: Row,
    value: Value,
) -> Option<Registers>
    requires can { CanSend code.now core.old at sent receiver }
    requires finds { FindsRow code.now core.old sent receiver kind row }
    requires gives { RowGives code.now core.old.run.world.world.cells row receiver (argument_at (arguments_in core.old at sent) 0) value }
    ensures { SendsOrNothing code.now core.old at sent receiver kind core.new result }
{
    a_send_is_its_step_and_its_answer();
    charging_keeps_lawful();
    match core.run.world.step() {
        Ok(()) => Some(give(code, core, at, sent, receiver, kind, row, value)),
        Err(_) => None,
    }
}

/// Brings the value of a row to the body that runs, which stays on top.
#[inline(always)]
pub fn give(
    code: &CodeProgram,
    core: &mut Core,
    at: Registers,
    sent: Sent,
    receiver: Value,
    kind: Sending,
    row: Row,
    value: Value,
) -> Registers
    requires can { CanSend code.now core.old at sent receiver }
    requires finds { FindsRow code.now core.old sent receiver kind row }
    requires gives { RowGives code.now core.old.run.world.world.cells row receiver (argument_at (arguments_in core.old at sent) 0) value }
    ensures sends { (activation : Activation) → Sends code.now core.old at sent.floor
        (looked_up code.now core.old at sent activation (To receiver kind)) core.new (next.On result) }
    ensures stays { StaysOnTop 0 core.old core.new }
{
    let _receiver = receiver;
    let _kind = kind;
    let _row = row;
    let below = Registers {
        top: sent.floor,
        ..at
    };
    ns_machine_core::giving::give(code, core, below, value)
}

/// Stores an element of an Array by its row, where the arguments have no fault and a step is left.
#[inline(always)]
pub fn send_put(
    code: &CodeProgram,
    core: &mut Core,
    at: Registers,
    sent: Sent,
    receiver: Value,
    kind: Sending,
) -> Option<Registers>
    requires can { CanSend code.now core.old at sent receiver }
    requires finds { FindsRow code.now core.old sent receiver kind (Data ArrayPut) }
    ensures { SendsOrNothing code.now core.old at sent receiver kind core.new result }
{
    let first = argument(core.stack.from(at, sent.first), 0);
    match place_at(&core.run.world, receiver, first) {
        Some(place) => charge_put(code, core, at, sent, receiver, kind, place),
        None => None,
    }
}

/// Charges the step of a send and stores an element, unless no step is left.
#[inline(always)]
fn charge_put(
    code: &CodeProgram,
    core: &mut Core,
    at: Registers,
    sent: Sent,
    receiver: Value,
    kind: Sending,
    place: u32,
) -> Option<Registers>
    requires can { CanSend code.now core.old at sent receiver }
    requires finds { FindsRow code.now core.old sent receiver kind (Data ArrayPut) }
    requires names { NamesPlace core.old at sent receiver place }
    requires below { place < length (items_of core.old.run.world.world.cells receiver) }
    ensures { SendsOrNothing code.now core.old at sent receiver kind core.new result }
{
    a_send_is_its_step_and_its_answer();
    charging_keeps_lawful();
    match core.run.world.step() {
        Ok(()) => Some(put(code, core, at, sent, receiver, kind, place)),
        Err(_) => None,
    }
}

/// Stores the second argument as an element, and brings it to the body that runs.
#[inline(always)]
fn put(
    code: &CodeProgram,
    core: &mut Core,
    at: Registers,
    sent: Sent,
    receiver: Value,
    kind: Sending,
    place: u32,
) -> Registers
    requires can { CanSend code.now core.old at sent receiver }
    requires finds { FindsRow code.now core.old sent receiver kind (Data ArrayPut) }
    requires names { NamesPlace core.old at sent receiver place }
    requires below { place < length (items_of core.old.run.world.world.cells receiver) }
    ensures sends { (activation : Activation) → Sends code.now core.old at sent.floor
        (looked_up code.now core.old at sent activation (To receiver kind)) core.new (next.On result) }
    ensures stays { StaysOnTop 0 core.old core.new }
{
    let _kind = kind;
    let value = argument(core.stack.from(at, sent.first), 1);
    store(&mut core.run.world, receiver, place, value);
    let below = Registers {
        top: sent.floor,
        ..at
    };
    ns_machine_core::giving::give(code, core, below, value)
}
