//! A step by the quick way, as it is kept.

ghost use Rattle.std.specs.Prelude.{◌≡◌, IfSome, Some, slice_get};
ghost use Rattle.ns_code.specs.declared.instruction.Instr.TheVariants as instr;
ghost use Rattle.ns_machine_plan.specs.Arrays.{row_of_send as array_row_of_send};
ghost use Rattle.ns_machine_plan.specs.Packed.{EntryIsThere, step_in, value_send};
ghost use Rattle.ns_machine_plan.specs.Spelled.{spelled_by};
ghost use Rattle.ns_machine_plan.specs.Steps.{instr_of, place_of, send_instr};
ghost use Rattle.ns_machine_core.specs.Doing.{CanDo};
ghost use Rattle.ns_machine_core.specs.Straight.{IsOnTop};
ghost use Rattle.ns_machine_core.specs.Tried.{LeadsOrChangesNothing};
ghost use Rattle.ns_machine_quick.specs.Booleans.{LeadsOrNothing};
ghost use Rattle.ns_machine_quick.specs.Integers.{DoesOrNothing};
ghost use Rattle.ns_machine_quick.specs.Opening.{IsMemberAbove};
ghost use Rattle.ns_machine_turns.specs.Above.{HasMemberAbove};
ghost use Rattle.ns_machine_turns.specs.Sent.{row_spelled};

use ns_code::program::CodeProgram;
use ns_machine_core::blocks::push_block;
use ns_machine_core::leaping::{jump, jump_false, jump_true};
use ns_machine_core::led::{Led, led_charged, led_on, led_straight};
use ns_machine_core::locals::{push_local_of, store_local_of};
use ns_machine_core::on_top::OnTop;
use ns_machine_core::pushing::{
    push_false, push_int, push_nil, push_outer, push_self, push_sym, push_true,
};
use ns_machine_core::state::Core;
use ns_machine_core::storing::store_slot;
use ns_machine_core::taking::{pick, pop};
use ns_machine_frames::registers::Registers;
use ns_machine_plan::kept_step::KeptStep;
use ns_machine_plan::packed::{Packed, PrivateSend, ValueSend};
use ns_machine_quick::arrays::send_array;
use ns_machine_quick::booleans::send_boolean;
use ns_machine_quick::giving::send;
use ns_machine_quick::integers::send_integer;
use ns_machine_quick::private::send_private;
use ns_machine_quick::texts::send_text;
use ns_machine_returns::answering::{return_self, return_value};
use ns_machine_returns::unwinding::return_home;
use ns_world::kernel_parts::DataRow;

/// Does a step, behind which the registers stand, where it is one of those that are taken most; else nothing is done. Those that
/// lead straight on come first.
#[inline(always)]
#[tactic(auto, using(ns_machine_core::specs::laws::Straight::plain_straight, ns_machine_core::specs::laws::Straight::tried_straight, ns_machine_core::specs::laws::Straight::tried_on))]
pub fn perform(
    code: &CodeProgram,
    core: &mut Core,
    at: Registers,
    top: OnTop,
    step: KeptStep<'_>,
) -> Led
    requires there { EntryIsThere step.tables.now step.packed.now }
    requires can { CanDo code.now core.old at (instr_of (step_in step)) }
    requires top { IsOnTop code.now top core.old.stack.frames.items }
    requires member { HasMemberAbove code.now core.old.stack.frames.items (step_in step) }
    ensures { LeadsOrChangesNothing code.now (instr_of (step_in step.entry))
        (place_of core.old.places (step_in step.entry)) core.old at core.new result }
{
    let tables = step.tables;
    match step.packed {
        Packed::PushNil => Led::Straight(push_nil(code, core, at)),
        Packed::PushTrue => Led::Straight(push_true(code, core, at)),
        Packed::PushFalse => Led::Straight(push_false(code, core, at)),
        Packed::PushShort(number) => Led::Straight(push_int(code, core, at, i64::from(*number))),
        Packed::PushLong(long) => Led::Straight(push_int(code, core, at, tables.integer(*long))),
        Packed::PushSym(sel) => Led::Straight(push_sym(code, core, at, *sel)),
        Packed::PushSelf => Led::Straight(push_self(code, core, at)),
        Packed::PushOuter(level) => Led::Straight(push_outer(code, core, at, *level)),
        Packed::PushLocal { hops, index } => Led::Straight(push_local_of(
            code, core, at, top, *hops, *index,
        )),
        Packed::StoreLocal { hops, index } => Led::Straight(store_local_of(
            code, core, at, top, *hops, *index,
        )),
        Packed::PushBlock(block) => led_straight(push_block(code, core, at, *block)),
        Packed::Pop => Led::Straight(pop(code, core, at)),
        Packed::Pick(number) => Led::Straight(pick(code, core, at, *number)),
        Packed::StoreSlot(slot) => Led::Straight(store_slot(code, core, at, *slot)),
        Packed::Jump(target) => jump(code, core, at, *target),
        Packed::JumpFalse(target) => jump_false(code, core, at, *target),
        Packed::JumpTrue(target) => jump_true(code, core, at, *target),
        Packed::SendPrivate(send) => send_around(code, core, at, tables.private(*send)),
        Packed::Return => return_value(code, core, at),
        Packed::ReturnSelf => return_self(code, core, at),
        Packed::ReturnHome => led_on(return_home(code, core, at)),
        _ => send_to_value(code, core, at, step),
    }
}

/// Sends to the operand below the arguments, where the step does so. It is the one place from which the loop of a body sends what
/// is found, so that this stands in the loop: code with more than one caller would be called when it is as large.
#[inline(always)]
fn send_to_value(code: &CodeProgram, core: &mut Core, at: Registers, step: KeptStep<'_>) -> Led
    requires there { EntryIsThere step.tables.now step.packed.now }
    requires can { CanDo code.now core.old at (instr_of (step_in step)) }
    requires member { HasMemberAbove code.now core.old.stack.frames.items (step_in step) }
    ensures { LeadsOrChangesNothing code.now (instr_of (step_in step.entry))
        (place_of core.old.places (step_in step.entry)) core.old at core.new result }
{
    match value_send(step) {
        Some(send) => send_as_spelled(code, core, at, step.packed, send),
        None => Led::Nowhere,
    }
}

/// The send of a step that sends to a value.
#[inline(always)]
fn value_send<'a>(step: KeptStep<'a>) -> Option<&'a ValueSend>
    requires { EntryIsThere step.tables.now step.packed.now }
    ensures { IfSome result (λ send. step_in step.entry ≡ value_send (row_spelled step.entry.packed.now) send.now) }
{
    match step.packed {
        Packed::Send(send) => Some(step.tables.send(*send)),
        Packed::SendInteger { send, .. } => Some(step.tables.send(*send)),
        Packed::SendBoolean { send, .. } => Some(step.tables.send(*send)),
        Packed::SendArray { send, .. } => Some(step.tables.send(*send)),
        _ => None,
    }
}

/// Sends by the row that the selector spells, if that does it; else by what is found.
#[inline(always)]
fn send_as_spelled(
    code: &CodeProgram,
    core: &mut Core,
    at: Registers,
    packed: &Packed,
    found: &ValueSend,
) -> Led
    requires can { CanDo code.now core.old at (send_instr found.now.kind found.now.sel found.now.argc) }
    requires spelled { spelled_by code.now found.now.sel ≡ row_spelled packed.now }
    ensures { LeadsOrChangesNothing code.now (send_instr found.now.kind found.now.sel found.now.argc)
        (slice_get core.old.places found.now.place) core.old at core.new result }
{
    match send_by_row(code, core, at, packed, found) {
        Led::Straight(to) => Led::Straight(to),
        Led::Charged(to) => Led::Charged(to),
        Led::On(to) => Led::On(to),
        Led::Answered(to) => Led::Answered(to),
        Led::Nowhere => send(code, core, at, found),
    }
}

/// Sends by the row that the selector spells: of Integer, of Boolean, or of Array and String.
#[inline(always)]
fn send_by_row(
    code: &CodeProgram,
    core: &mut Core,
    at: Registers,
    packed: &Packed,
    send: &ValueSend,
) -> Led
    requires can { CanDo code.now core.old at (send_instr send.now.kind send.now.sel send.now.argc) }
    requires spelled { spelled_by code.now send.now.sel ≡ row_spelled packed.now }
    ensures { LeadsOrNothing code.now (send_instr send.now.kind send.now.sel send.now.argc)
        (slice_get core.old.places send.now.place) core.old at core.new result }
{
    match packed {
        Packed::SendInteger { row, .. } => led_charged(send_integer(
            code, core, at, send.sel, send.argc, send.kind, send.place, *row,
        )),
        Packed::SendBoolean { method, .. } => send_boolean(
            code, core, at, send.sel, send.argc, send.kind, send.place, *method,
        ),
        Packed::SendArray { row, .. } => led_charged(send_to_array(code, core, at, send, *row)),
        _ => Led::Nowhere,
    }
}

/// Sends by a row of Array, or else by the row of String that has the same selector.
#[inline(always)]
fn send_to_array(
    code: &CodeProgram,
    core: &mut Core,
    at: Registers,
    send: &ValueSend,
    row: DataRow,
) -> Option<Registers>
    requires can { CanDo code.now core.old at (send_instr send.now.kind send.now.sel send.now.argc) }
    requires row { array_row_of_send code.now send.now.sel ≡ Some row }
    ensures { DoesOrNothing code.now (send_instr send.now.kind send.now.sel send.now.argc)
        (slice_get core.old.places send.now.place) core.old at core.new result }
{
    match send_array(
        code, core, at, send.sel, send.argc, send.kind, send.place, row,
    ) {
        Some(to) => Some(to),
        None => send_text_apart(code, core, at.next, at.top, at.base, send, row),
    }
}

/// Sends by a row of String, in code of its own. The registers are handed over one by one, so that they needn't stand in memory
/// before any step.
#[inline(never)]
fn send_text_apart(
    code: &CodeProgram,
    core: &mut Core,
    next: u32,
    top: u32,
    base: u32,
    send: &ValueSend,
    row: DataRow,
) -> Option<Registers>
    requires can { CanDo code.now core.old (record { next = next; top = top; base = base })
        (send_instr send.now.kind send.now.sel send.now.argc) }
    requires row { array_row_of_send code.now send.now.sel ≡ Some row }
    ensures { DoesOrNothing code.now (send_instr send.now.kind send.now.sel send.now.argc)
        (slice_get core.old.places send.now.place) core.old (record { next = next; top = top; base = base }) core.new result }
{
    send_text(
        code,
        core,
        Registers { next, top, base },
        send.sel,
        send.argc,
        send.kind,
        send.place,
        row,
    )
}

/// Sends to the private member that the step has.
#[inline(always)]
fn send_around(code: &CodeProgram, core: &mut Core, at: Registers, send: &PrivateSend) -> Led
    requires can { CanDo code.now core.old at (instr.SendPrivate send.now.level send.now.sel send.now.argc) }
    requires member { IsMemberAbove code.now core.old.stack.frames.items send.now.level send.now.sel send.now.member }
    ensures { LeadsOrChangesNothing code.now (instr.SendPrivate send.now.level send.now.sel send.now.argc)
        (slice_get core.old.places send.now.place) core.old at core.new result }
{
    send_private(
        code,
        core,
        at,
        send.level,
        send.sel,
        send.argc,
        send.place,
        send.member,
    )
}
