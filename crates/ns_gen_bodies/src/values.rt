//! The values that the locals of a body get, and the slots of a new object.

ghost use Rattle.std.specs.Prelude.{◌≡◌, ◌+◌, length, OnOk};
ghost use Rattle.ns_tree.specs.PlainOf.{expr_of, slots_of, init_of, bars_of};
ghost use Rattle.ns_scope.specs.Bodies.{expr_blocks, init_blocks, slots_blocks, bars_blocks};
ghost use Rattle.ns_resolved.specs.Expressions.{expr_node};
ghost use Rattle.ns_resolved.specs.Statements.{first_values, slots_values, bars_values};
ghost use Rattle.ns_gen_draft.specs.Standing.{standing};
ghost use Rattle.ns_gen_bodies.specs.Valuing.{with_ended, with_local, with_slot, with_value, with_values};

use ns_base::no_memory::NoMemory;
use ns_code::instruction::Instr;
use ns_gen_draft::here::Here;
use ns_gen_draft::keys::byte;
use ns_gen_draft::never::cannot_come;
use ns_gen_draft::writer::Writer;
use ns_gen_exprs::expressions::put_expr;
use ns_tree::tree::{Expr, Slot, SlotInit};

/// What gets values: the locals of a body, or the slots of a new object.
#[derive(Clone, Copy)]
pub enum Stores {
    Locals,
    Slots,
}

/// The values that these get, if there are any; they are numbered from this one on.
pub fn put_bars(
    writer: &mut Writer,
    here: &Here<'_>,
    next: &mut u32,
    stores: Stores,
    first: u32,
    slots: &Option<Vec<Slot>>,
) -> Result<(), NoMemory>
    ensures put { OnOk result (writer.new ≡ with_values stores (bars_values (standing here.now) next.old first (bars_of slots.now)) writer.old) }
    ensures next { OnOk result (next.new ≡ next.old + length (bars_blocks here.now.scope.now (bars_of slots.now))) }
{
    match slots {
        None => Ok(()),
        Some(slots) => {
            put_values(writer, here, next, stores, first, slots)?;
            Ok(())
        }
    }
}

fn put_values(
    writer: &mut Writer,
    here: &Here<'_>,
    next: &mut u32,
    stores: Stores,
    first: u32,
    slots: &[Slot],
) -> Result<(), NoMemory>
    ensures put { OnOk result (writer.new ≡ with_values stores (slots_values (standing here.now) next.old first (slots_of slots.now)) writer.old) }
    ensures next { OnOk result (next.new ≡ next.old + length (slots_blocks here.now.scope.now (slots_of slots.now))) }
{
    let mut index = first;
    for slot in slots {
        put_init(writer, here, next, stores, index, &slot.init)?;
        let Some(behind) = index.checked_add(1) else {
            return Err(cannot_come());
        };
        index = behind;
    }
    Ok(())
}

/// The value of one of them, if it gets one.
fn put_init(
    writer: &mut Writer,
    here: &Here<'_>,
    next: &mut u32,
    stores: Stores,
    index: u32,
    init: &SlotInit,
) -> Result<(), NoMemory>
    ensures put { OnOk result (writer.new ≡ with_values stores (first_values (standing here.now) next.old index (init_of init.now)) writer.old) }
    ensures next { OnOk result (next.new ≡ next.old + length (init_blocks here.now.scope.now (init_of init.now))) }
{
    match init {
        SlotInit::Bare { .. } => Ok(()),
        SlotInit::Fixed(value) => put_value(writer, here, next, stores, index, value),
        SlotInit::Mutable(value) => put_value(writer, here, next, stores, index, value),
    }
}

fn put_value(
    writer: &mut Writer,
    here: &Here<'_>,
    next: &mut u32,
    stores: Stores,
    index: u32,
    value: &Expr,
) -> Result<(), NoMemory>
    ensures put { OnOk result (writer.new ≡ with_value stores index (expr_node (standing here.now) next.old (expr_of value.now)) writer.old) }
    ensures next { OnOk result (next.new ≡ next.old + length (expr_blocks here.now.scope.now (expr_of value.now))) }
{
    match stores {
        Stores::Locals => put_local(writer, here, next, index, value),
        Stores::Slots => put_slot(writer, here, next, index, value),
    }
}

/// The value that a local gets.
fn put_local(
    writer: &mut Writer,
    here: &Here<'_>,
    next: &mut u32,
    index: u32,
    value: &Expr,
) -> Result<(), NoMemory>
    ensures put { OnOk result (writer.new ≡ with_local index (expr_node (standing here.now) next.old (expr_of value.now)) writer.old) }
    ensures next { OnOk result (next.new ≡ next.old + length (expr_blocks here.now.scope.now (expr_of value.now))) }
{
    let index = byte(index)?;
    put_expr(writer, here, next, value)?;
    writer.does(Instr::StoreLocal { hops: 0, index })?;
    writer.does(Instr::Pop)?;
    Ok(())
}

/// The value that a slot gets.
fn put_slot(
    writer: &mut Writer,
    here: &Here<'_>,
    next: &mut u32,
    index: u32,
    value: &Expr,
) -> Result<(), NoMemory>
    ensures put { OnOk result (writer.new ≡ with_slot index (expr_node (standing here.now) next.old (expr_of value.now)) writer.old) }
    ensures next { OnOk result (next.new ≡ next.old + length (expr_blocks here.now.scope.now (expr_of value.now))) }
{
    match u16::try_from(index) {
        Ok(index) => put_ended(writer, here, next, value, Instr::StoreSlot(index)),
        Err(_) => Err(cannot_come()),
    }
}

/// An expression, and an instruction behind it.
pub fn put_ended(
    writer: &mut Writer,
    here: &Here<'_>,
    next: &mut u32,
    value: &Expr,
    end: Instr,
) -> Result<(), NoMemory>
    ensures put { OnOk result (writer.new ≡ with_ended (expr_node (standing here.now) next.old (expr_of value.now)) end writer.old) }
    ensures next { OnOk result (next.new ≡ next.old + length (expr_blocks here.now.scope.now (expr_of value.now))) }
{
    put_expr(writer, here, next, value)?;
    writer.does(end)?;
    Ok(())
}
