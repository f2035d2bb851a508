//! How many blocks stand in parts of a tree.

ghost use Rattle.std.specs.Prelude.{◌≡◌, ◌+◌, [], OnOk};
ghost use Rattle.ns_tree.specs.Plain as p;
ghost use Rattle.ns_tree.specs.PlainOf.{expr_of, full_expr_of, cascade_of, message_of, key_expr_of, keys_of, bin_of, opers_of, un_of, primary_of};
ghost use Rattle.ns_tree.specs.PlainOf.{exprs_of, block_of, slots_of, slot_of, statements_of, statement_list_of};
ghost use Rattle.ns_gen_draft.specs.Counting.{expr_count, cascade_count, message_count, key_expr_count, keys_count, bin_count, opers_count, un_count, primary_count};
ghost use Rattle.ns_gen_draft.specs.Counting.{items_count, block_count, slots_count, slot_count, statements_count, list_count};

use crate::never::cannot_come;
use ns_base::no_memory::NoMemory;
use ns_tree::tree::{
    BinExpr, Block, Expr, FullExpr, KeyExpr, Message, Named, Primary, Slot, SlotInit, Statement,
    Statements, UnExpr,
};

/// The block, and those in it.
#[cycle(counting)]
pub fn count_block(count: &mut u32, block: &Block) -> Result<(), NoMemory>
    ensures { OnOk result (count.new ≡ count.old + block_count (block_of block.now)) }
{
    let Some(more) = count.checked_add(1) else {
        return Err(cannot_come());
    };
    *count = more;
    count_inside(count, block)
}

/// A block without parameters and locals, and those in it.
#[cycle(counting)]
pub fn count_bare_block(count: &mut u32, body: &Statements) -> Result<(), NoMemory>
    ensures { OnOk result (count.new ≡ count.old + block_count (p.block_with [] p.no_bars (statements_of body.now))) }
{
    let Some(more) = count.checked_add(1) else {
        return Err(cannot_come());
    };
    *count = more;
    count_statements(count, body)
}

/// The blocks in a block, of which the block itself was counted.
#[cycle(counting)]
fn count_inside(count: &mut u32, block: &Block) -> Result<(), NoMemory>
    ensures { OnOk result (count.new + 1 ≡ count.old + block_count (block_of block.now)) }
{
    match &block.slots {
        None => count_statements(count, &block.body),
        Some(slots) => {
            count_slots(count, slots)?;
            count_statements(count, &block.body)
        }
    }
}

#[cycle(counting)]
fn count_expr(count: &mut u32, expr: &Expr) -> Result<(), NoMemory>
    ensures { OnOk result (count.new ≡ count.old + expr_count (expr_of expr.now)) }
{
    match expr {
        Expr::Operand(operand) => count_un(count, operand),
        Expr::Operation(bin) => count_bin(count, bin),
        Expr::Implicit(keys) => count_keys(count, keys),
        Expr::Full(full) => count_full_expr(count, full),
    }
}

#[cycle(counting)]
fn count_full_expr(count: &mut u32, expr: &FullExpr) -> Result<(), NoMemory>
    ensures { OnOk result (count.new ≡ count.old + expr_count (full_expr_of expr.now)) }
{
    count_key_expr(count, &expr.first)?;
    count_cascade(count, &expr.more)
}

#[cycle(counting)]
fn count_cascade(count: &mut u32, messages: &[(u32, Message)]) -> Result<(), NoMemory>
    ensures { OnOk result (count.new ≡ count.old + cascade_count (cascade_of messages.now)) }
{
    for message in messages {
        count_message(count, &message.1)?;
    }
    Ok(())
}

#[cycle(counting)]
pub fn count_message(count: &mut u32, message: &Message) -> Result<(), NoMemory>
    ensures { OnOk result (count.new ≡ count.old + message_count (message_of message.now)) }
{
    match message {
        Message::Unary(_) => Ok(()),
        Message::Binary(oper) => count_un(count, &oper.1),
        Message::Keys(keys) => count_keys(count, keys),
    }
}

#[cycle(counting)]
fn count_key_expr(count: &mut u32, expr: &KeyExpr) -> Result<(), NoMemory>
    ensures { OnOk result (count.new ≡ count.old + key_expr_count (key_expr_of expr.now)) }
{
    match &expr.receiver {
        None => count_keys(count, &expr.keys),
        Some(receiver) => {
            count_bin(count, receiver)?;
            count_keys(count, &expr.keys)
        }
    }
}

#[cycle(counting)]
fn count_keys(count: &mut u32, keys: &[(Named, BinExpr)]) -> Result<(), NoMemory>
    ensures { OnOk result (count.new ≡ count.old + keys_count (keys_of keys.now)) }
{
    for key in keys {
        count_bin(count, &key.1)?;
    }
    Ok(())
}

#[cycle(counting)]
fn count_bin(count: &mut u32, expr: &BinExpr) -> Result<(), NoMemory>
    ensures { OnOk result (count.new ≡ count.old + bin_count (bin_of expr.now)) }
{
    count_un(count, &expr.first)?;
    count_opers(count, &expr.more)
}

#[cycle(counting)]
fn count_opers(count: &mut u32, opers: &[(Named, UnExpr)]) -> Result<(), NoMemory>
    ensures { OnOk result (count.new ≡ count.old + opers_count (opers_of opers.now)) }
{
    for oper in opers {
        count_un(count, &oper.1)?;
    }
    Ok(())
}

#[cycle(counting)]
fn count_un(count: &mut u32, expr: &UnExpr) -> Result<(), NoMemory>
    ensures { OnOk result (count.new ≡ count.old + un_count (un_of expr.now)) }
{
    match expr {
        UnExpr::Alone { at: _, primary } => count_primary(count, primary),
        UnExpr::Sent(sent) => count_primary(count, &sent.primary),
    }
}

#[cycle(counting)]
fn count_primary(count: &mut u32, primary: &Primary) -> Result<(), NoMemory>
    ensures { OnOk result (count.new ≡ count.old + primary_count (primary_of primary.now)) }
{
    match primary {
        Primary::Paren(inner) => count_expr(count, inner),
        Primary::Block(block) => count_block(count, block),
        Primary::BareBlock(body) => count_bare_block(count, body),
        Primary::Tuple { items, .. } => count_items(count, items),
        _ => Ok(()),
    }
}

#[cycle(counting)]
fn count_items(count: &mut u32, items: &[Expr]) -> Result<(), NoMemory>
    ensures { OnOk result (count.new ≡ count.old + items_count (exprs_of items.now)) }
{
    for item in items {
        count_expr(count, item)?;
    }
    Ok(())
}

#[cycle(counting)]
pub fn count_slots(count: &mut u32, slots: &[Slot]) -> Result<(), NoMemory>
    ensures { OnOk result (count.new ≡ count.old + slots_count (slots_of slots.now)) }
{
    for slot in slots {
        count_slot(count, slot)?;
    }
    Ok(())
}

#[cycle(counting)]
fn count_slot(count: &mut u32, slot: &Slot) -> Result<(), NoMemory>
    ensures { OnOk result (count.new ≡ count.old + slot_count (slot_of slot.now)) }
{
    match &slot.init {
        SlotInit::Bare { .. } => Ok(()),
        SlotInit::Fixed(value) => count_expr(count, value),
        SlotInit::Mutable(value) => count_expr(count, value),
    }
}

#[cycle(counting)]
pub fn count_statements(count: &mut u32, body: &Statements) -> Result<(), NoMemory>
    ensures { OnOk result (count.new ≡ count.old + statements_count (statements_of body.now)) }
{
    count_list(count, &body.list)
}

#[cycle(counting)]
fn count_list(count: &mut u32, list: &[Statement]) -> Result<(), NoMemory>
    ensures { OnOk result (count.new ≡ count.old + list_count (statement_list_of list.now)) }
{
    for statement in list {
        count_expr(count, &statement.expr)?;
    }
    Ok(())
}
