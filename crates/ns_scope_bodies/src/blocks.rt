//! The blocks of expressions, each as what is seen from it, in the order of the text.

ghost use Rattle.std.specs.Prelude.{◌≡◌, ◌++◌, ◌∷◌, [], OnOk};
ghost use Rattle.ns_tree.specs.PlainOf.{expr_of, full_expr_of, cascade_of, message_of, key_expr_of, keys_of, bin_of, opers_of, un_of, primary_of};
ghost use Rattle.ns_tree.specs.Plain as p;
ghost use Rattle.ns_tree.specs.PlainOf.{exprs_of, block_of, bars_of, slots_of, slot_of, statements_of, statement_list_of};
ghost use Rattle.ns_scope.specs.Bodies.{expr_blocks, cascade_blocks, message_blocks, key_expr_blocks, keys_blocks, bin_blocks, opers_blocks, un_blocks, primary_blocks};
ghost use Rattle.ns_scope.specs.Bodies.{items_blocks, block_blocks, inside_blocks, bars_blocks, slots_blocks, slot_blocks, statements_blocks, list_blocks};

use ns_base::no_memory::NoMemory;
use ns_scope::scope::Scope;
use ns_tree::tree::{
    BinExpr, Block, Expr, FullExpr, KeyExpr, Message, Named, Primary, Slot, SlotInit, Statement,
    Statements, UnExpr,
};
use std::alloc::Global;

#[cycle(blocks)]
fn put_expr(alloc: Global, all: &mut Vec<Scope>, scope: &Scope, expr: &Expr) -> Result<(), NoMemory>
    ensures { OnOk result (all.new.items ≡ all.old.items ++ expr_blocks scope.now (expr_of expr.now)) }
{
    match expr {
        Expr::Operand(operand) => put_un(alloc, all, scope, operand),
        Expr::Operation(bin) => put_bin(alloc, all, scope, bin),
        Expr::Implicit(keys) => put_keys(alloc, all, scope, keys),
        Expr::Full(full) => put_full_expr(alloc, all, scope, full),
    }
}

#[cycle(blocks)]
fn put_full_expr(
    alloc: Global,
    all: &mut Vec<Scope>,
    scope: &Scope,
    expr: &FullExpr,
) -> Result<(), NoMemory>
    ensures { OnOk result (all.new.items ≡ all.old.items ++ expr_blocks scope.now (full_expr_of expr.now)) }
{
    put_key_expr(alloc, all, scope, &expr.first)?;
    put_cascade(alloc, all, scope, &expr.more)
}

#[cycle(blocks)]
fn put_cascade(
    alloc: Global,
    all: &mut Vec<Scope>,
    scope: &Scope,
    messages: &[(u32, Message)],
) -> Result<(), NoMemory>
    ensures { OnOk result (all.new.items ≡ all.old.items ++ cascade_blocks scope.now (cascade_of messages.now)) }
{
    for message in messages {
        put_message(alloc, all, scope, &message.1)?;
    }
    Ok(())
}

#[cycle(blocks)]
pub fn put_message(
    alloc: Global,
    all: &mut Vec<Scope>,
    scope: &Scope,
    message: &Message,
) -> Result<(), NoMemory>
    ensures { OnOk result (all.new.items ≡ all.old.items ++ message_blocks scope.now (message_of message.now)) }
{
    match message {
        Message::Unary(_) => Ok(()),
        Message::Binary(oper) => put_un(alloc, all, scope, &oper.1),
        Message::Keys(keys) => put_keys(alloc, all, scope, keys),
    }
}

#[cycle(blocks)]
fn put_key_expr(
    alloc: Global,
    all: &mut Vec<Scope>,
    scope: &Scope,
    expr: &KeyExpr,
) -> Result<(), NoMemory>
    ensures { OnOk result (all.new.items ≡ all.old.items ++ key_expr_blocks scope.now (key_expr_of expr.now)) }
{
    match &expr.receiver {
        None => put_keys(alloc, all, scope, &expr.keys),
        Some(receiver) => {
            put_bin(alloc, all, scope, receiver)?;
            put_keys(alloc, all, scope, &expr.keys)
        }
    }
}

#[cycle(blocks)]
fn put_keys(
    alloc: Global,
    all: &mut Vec<Scope>,
    scope: &Scope,
    keys: &[(Named, BinExpr)],
) -> Result<(), NoMemory>
    ensures { OnOk result (all.new.items ≡ all.old.items ++ keys_blocks scope.now (keys_of keys.now)) }
{
    for key in keys {
        put_bin(alloc, all, scope, &key.1)?;
    }
    Ok(())
}

#[cycle(blocks)]
fn put_bin(
    alloc: Global,
    all: &mut Vec<Scope>,
    scope: &Scope,
    expr: &BinExpr,
) -> Result<(), NoMemory>
    ensures { OnOk result (all.new.items ≡ all.old.items ++ bin_blocks scope.now (bin_of expr.now)) }
{
    put_un(alloc, all, scope, &expr.first)?;
    put_opers(alloc, all, scope, &expr.more)
}

#[cycle(blocks)]
fn put_opers(
    alloc: Global,
    all: &mut Vec<Scope>,
    scope: &Scope,
    opers: &[(Named, UnExpr)],
) -> Result<(), NoMemory>
    ensures { OnOk result (all.new.items ≡ all.old.items ++ opers_blocks scope.now (opers_of opers.now)) }
{
    for oper in opers {
        put_un(alloc, all, scope, &oper.1)?;
    }
    Ok(())
}

#[cycle(blocks)]
fn put_un(alloc: Global, all: &mut Vec<Scope>, scope: &Scope, expr: &UnExpr) -> Result<(), NoMemory>
    ensures { OnOk result (all.new.items ≡ all.old.items ++ un_blocks scope.now (un_of expr.now)) }
{
    match expr {
        UnExpr::Alone { at: _, primary } => put_primary(alloc, all, scope, primary),
        UnExpr::Sent(sent) => put_primary(alloc, all, scope, &sent.primary),
    }
}

#[cycle(blocks)]
fn put_primary(
    alloc: Global,
    all: &mut Vec<Scope>,
    scope: &Scope,
    primary: &Primary,
) -> Result<(), NoMemory>
    ensures { OnOk result (all.new.items ≡ all.old.items ++ primary_blocks scope.now (primary_of primary.now)) }
{
    match primary {
        Primary::Paren(inner) => put_expr(alloc, all, scope, inner),
        Primary::Block(block) => put_block(alloc, all, scope, block),
        Primary::BareBlock(body) => put_bare_block(alloc, all, scope, body),
        Primary::Tuple { items, .. } => put_items(alloc, all, scope, items),
        _ => Ok(()),
    }
}

#[cycle(blocks)]
fn put_items(
    alloc: Global,
    all: &mut Vec<Scope>,
    scope: &Scope,
    items: &[Expr],
) -> Result<(), NoMemory>
    ensures { OnOk result (all.new.items ≡ all.old.items ++ items_blocks scope.now (exprs_of items.now)) }
{
    for item in items {
        put_expr(alloc, all, scope, item)?;
    }
    Ok(())
}

/// What one body sees.
pub fn put_scope(all: &mut Vec<Scope>, scope: &Scope) -> Result<(), NoMemory>
    ensures { OnOk result (all.new.items ≡ all.old.items ++ scope.now ∷ []) }
{
    all.push(scope.share()?)?;
    Ok(())
}

/// The block, and then those in it.
#[cycle(blocks)]
fn put_block(
    alloc: Global,
    all: &mut Vec<Scope>,
    scope: &Scope,
    block: &Block,
) -> Result<(), NoMemory>
    ensures { OnOk result (all.new.items ≡ all.old.items ++ block_blocks scope.now (block_of block.now)) }
{
    let inner = Scope::block(alloc, scope, &block.params, &block.slots)?;
    put_scope(all, &inner)?;
    put_inside(alloc, all, &inner, block)
}

/// A block without parameters and locals, and then the blocks in it.
#[cycle(blocks)]
fn put_bare_block(
    alloc: Global,
    all: &mut Vec<Scope>,
    scope: &Scope,
    body: &Statements,
) -> Result<(), NoMemory>
    ensures { OnOk result (all.new.items ≡ all.old.items ++ block_blocks scope.now (p.block_with [] p.no_bars (statements_of body.now))) }
{
    let inner = Scope::block(alloc, scope, &[], &None)?;
    put_scope(all, &inner)?;
    put_statements(alloc, all, &inner, body)
}

/// The blocks in a block, which sees this.
#[cycle(blocks)]
fn put_inside(
    alloc: Global,
    all: &mut Vec<Scope>,
    scope: &Scope,
    block: &Block,
) -> Result<(), NoMemory>
    ensures { OnOk result (all.new.items ≡ all.old.items ++ inside_blocks scope.now (block_of block.now)) }
{
    match &block.slots {
        None => put_statements(alloc, all, scope, &block.body),
        Some(slots) => {
            put_slots(alloc, all, scope, slots)?;
            put_statements(alloc, all, scope, &block.body)
        }
    }
}

pub fn put_bars(
    alloc: Global,
    all: &mut Vec<Scope>,
    scope: &Scope,
    slots: &Option<Vec<Slot>>,
) -> Result<(), NoMemory>
    ensures { OnOk result (all.new.items ≡ all.old.items ++ bars_blocks scope.now (bars_of slots.now)) }
{
    match slots {
        None => Ok(()),
        Some(slots) => put_slots(alloc, all, scope, slots),
    }
}

#[cycle(blocks)]
fn put_slots(
    alloc: Global,
    all: &mut Vec<Scope>,
    scope: &Scope,
    slots: &[Slot],
) -> Result<(), NoMemory>
    ensures { OnOk result (all.new.items ≡ all.old.items ++ slots_blocks scope.now (slots_of slots.now)) }
{
    for slot in slots {
        put_slot(alloc, all, scope, slot)?;
    }
    Ok(())
}

#[cycle(blocks)]
fn put_slot(alloc: Global, all: &mut Vec<Scope>, scope: &Scope, slot: &Slot) -> Result<(), NoMemory>
    ensures { OnOk result (all.new.items ≡ all.old.items ++ slot_blocks scope.now (slot_of slot.now)) }
{
    match &slot.init {
        SlotInit::Bare { .. } => Ok(()),
        SlotInit::Fixed(value) => put_expr(alloc, all, scope, value),
        SlotInit::Mutable(value) => put_expr(alloc, all, scope, value),
    }
}

#[cycle(blocks)]
pub fn put_statements(
    alloc: Global,
    all: &mut Vec<Scope>,
    scope: &Scope,
    body: &Statements,
) -> Result<(), NoMemory>
    ensures { OnOk result (all.new.items ≡ all.old.items ++ statements_blocks scope.now (statements_of body.now)) }
{
    put_list(alloc, all, scope, &body.list)
}

#[cycle(blocks)]
fn put_list(
    alloc: Global,
    all: &mut Vec<Scope>,
    scope: &Scope,
    list: &[Statement],
) -> Result<(), NoMemory>
    ensures { OnOk result (all.new.items ≡ all.old.items ++ list_blocks scope.now (statement_list_of list.now)) }
{
    for statement in list {
        put_expr(alloc, all, scope, &statement.expr)?;
    }
    Ok(())
}
