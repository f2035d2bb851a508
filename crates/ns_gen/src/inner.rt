//! The blocks in bodies: the code of each, and then of the blocks in it, in the order of the text.

ghost use Rattle.std.specs.Prelude.{◌≡◌, ◌+◌, [], length, OnOk};
ghost use Rattle.ns_tree.specs.Plain as p;
ghost use Rattle.ns_tree.specs.PlainOf.{expr_of, full_expr_of, cascade_of, message_of, key_expr_of, keys_of, bin_of, opers_of, un_of, primary_of};
ghost use Rattle.ns_tree.specs.PlainOf.{exprs_of, block_of, bars_of, slots_of, slot_of, statements_of, statement_list_of, statement_of};
ghost use Rattle.ns_scope.specs.Bodies.{expr_blocks, cascade_blocks, message_blocks, key_expr_blocks, keys_blocks, bin_blocks, opers_blocks, un_blocks, primary_blocks};
ghost use Rattle.ns_scope.specs.Bodies.{items_blocks, block_blocks, inside_blocks, bars_blocks, slots_blocks, slot_blocks, statements_blocks, list_blocks, statement_blocks};
ghost use Rattle.ns_resolved.specs.Statements.{expr_bodies, cascade_bodies, message_bodies, key_expr_bodies, keys_bodies, bin_bodies, opers_bodies, un_bodies, primary_bodies};
ghost use Rattle.ns_resolved.specs.Statements.{items_bodies, block_bodies, bars_bodies, slots_bodies, slot_bodies, statements_bodies, list_bodies, statement_bodies};
ghost use Rattle.ns_gen_draft.specs.Standing.{standing};
ghost use Rattle.ns_gen_bodies.specs.Coding.{with_bodies};
ghost use Rattle.ns_gen.specs.Inner.{inside_bodies};

use ns_base::no_memory::NoMemory;
use ns_gen_bodies::output::Output;
use ns_gen_draft::around::advance;
use ns_gen_draft::here::Here;
use ns_scope::scope::Scope;
use ns_tree::tree::{
    BinExpr, Block, Expr, FullExpr, KeyExpr, Message, Named, Primary, Slot, SlotInit, Statement,
    Statements, UnExpr,
};

#[cycle(inner)]
fn put_expr(
    output: &mut Output,
    here: &Here<'_>,
    next: &mut u32,
    expr: &Expr,
) -> Result<(), NoMemory>
    ensures put { OnOk result (output.new ≡ with_bodies (expr_bodies (standing here.now) next.old (expr_of expr.now)) output.old) }
    ensures next { OnOk result (next.new ≡ next.old + length (expr_blocks here.now.scope.now (expr_of expr.now))) }
{
    match expr {
        Expr::Operand(operand) => put_un(output, here, next, operand),
        Expr::Operation(bin) => put_bin(output, here, next, bin),
        Expr::Implicit(keys) => put_keys(output, here, next, keys),
        Expr::Full(full) => put_full_expr(output, here, next, full),
    }
}

#[cycle(inner)]
fn put_full_expr(
    output: &mut Output,
    here: &Here<'_>,
    next: &mut u32,
    expr: &FullExpr,
) -> Result<(), NoMemory>
    ensures put { OnOk result (output.new ≡ with_bodies (expr_bodies (standing here.now) next.old (full_expr_of expr.now)) output.old) }
    ensures next { OnOk result (next.new ≡ next.old + length (expr_blocks here.now.scope.now (full_expr_of expr.now))) }
{
    put_key_expr(output, here, next, &expr.first)?;
    put_cascade(output, here, next, &expr.more)?;
    Ok(())
}

#[cycle(inner)]
fn put_cascade(
    output: &mut Output,
    here: &Here<'_>,
    next: &mut u32,
    messages: &[(u32, Message)],
) -> Result<(), NoMemory>
    ensures put { OnOk result (output.new ≡ with_bodies (cascade_bodies (standing here.now) next.old (cascade_of messages.now)) output.old) }
    ensures next { OnOk result (next.new ≡ next.old + length (cascade_blocks here.now.scope.now (cascade_of messages.now))) }
{
    for message in messages {
        put_message(output, here, next, &message.1)?;
    }
    Ok(())
}

/// The blocks in the arguments of a message.
#[cycle(inner)]
pub fn put_message(
    output: &mut Output,
    here: &Here<'_>,
    next: &mut u32,
    message: &Message,
) -> Result<(), NoMemory>
    ensures put { OnOk result (output.new ≡ with_bodies (message_bodies (standing here.now) next.old (message_of message.now)) output.old) }
    ensures next { OnOk result (next.new ≡ next.old + length (message_blocks here.now.scope.now (message_of message.now))) }
{
    match message {
        Message::Unary(_) => Ok(()),
        Message::Binary(oper) => put_un(output, here, next, &oper.1),
        Message::Keys(keys) => put_keys(output, here, next, keys),
    }
}

#[cycle(inner)]
fn put_key_expr(
    output: &mut Output,
    here: &Here<'_>,
    next: &mut u32,
    expr: &KeyExpr,
) -> Result<(), NoMemory>
    ensures put { OnOk result (output.new ≡ with_bodies (key_expr_bodies (standing here.now) next.old (key_expr_of expr.now)) output.old) }
    ensures next { OnOk result (next.new ≡ next.old + length (key_expr_blocks here.now.scope.now (key_expr_of expr.now))) }
{
    match &expr.receiver {
        None => put_keys(output, here, next, &expr.keys),
        Some(receiver) => {
            put_bin(output, here, next, receiver)?;
            put_keys(output, here, next, &expr.keys)?;
            Ok(())
        }
    }
}

#[cycle(inner)]
fn put_keys(
    output: &mut Output,
    here: &Here<'_>,
    next: &mut u32,
    keys: &[(Named, BinExpr)],
) -> Result<(), NoMemory>
    ensures put { OnOk result (output.new ≡ with_bodies (keys_bodies (standing here.now) next.old (keys_of keys.now)) output.old) }
    ensures next { OnOk result (next.new ≡ next.old + length (keys_blocks here.now.scope.now (keys_of keys.now))) }
{
    for key in keys {
        put_bin(output, here, next, &key.1)?;
    }
    Ok(())
}

#[cycle(inner)]
fn put_bin(
    output: &mut Output,
    here: &Here<'_>,
    next: &mut u32,
    expr: &BinExpr,
) -> Result<(), NoMemory>
    ensures put { OnOk result (output.new ≡ with_bodies (bin_bodies (standing here.now) next.old (bin_of expr.now)) output.old) }
    ensures next { OnOk result (next.new ≡ next.old + length (bin_blocks here.now.scope.now (bin_of expr.now))) }
{
    put_un(output, here, next, &expr.first)?;
    put_opers(output, here, next, &expr.more)?;
    Ok(())
}

#[cycle(inner)]
fn put_opers(
    output: &mut Output,
    here: &Here<'_>,
    next: &mut u32,
    opers: &[(Named, UnExpr)],
) -> Result<(), NoMemory>
    ensures put { OnOk result (output.new ≡ with_bodies (opers_bodies (standing here.now) next.old (opers_of opers.now)) output.old) }
    ensures next { OnOk result (next.new ≡ next.old + length (opers_blocks here.now.scope.now (opers_of opers.now))) }
{
    for oper in opers {
        put_un(output, here, next, &oper.1)?;
    }
    Ok(())
}

#[cycle(inner)]
fn put_un(
    output: &mut Output,
    here: &Here<'_>,
    next: &mut u32,
    expr: &UnExpr,
) -> Result<(), NoMemory>
    ensures put { OnOk result (output.new ≡ with_bodies (un_bodies (standing here.now) next.old (un_of expr.now)) output.old) }
    ensures next { OnOk result (next.new ≡ next.old + length (un_blocks here.now.scope.now (un_of expr.now))) }
{
    match expr {
        UnExpr::Alone { at: _, primary } => put_primary(output, here, next, primary),
        UnExpr::Sent(sent) => put_primary(output, here, next, &sent.primary),
    }
}

#[cycle(inner)]
fn put_primary(
    output: &mut Output,
    here: &Here<'_>,
    next: &mut u32,
    primary: &Primary,
) -> Result<(), NoMemory>
    ensures put { OnOk result (output.new ≡ with_bodies (primary_bodies (standing here.now) next.old (primary_of primary.now)) output.old) }
    ensures next { OnOk result (next.new ≡ next.old + length (primary_blocks here.now.scope.now (primary_of primary.now))) }
{
    match primary {
        Primary::Paren(inner) => put_expr(output, here, next, inner),
        Primary::Block(block) => put_block(output, here, next, block),
        Primary::BareBlock(body) => put_bare_block(output, here, next, body),
        Primary::Tuple { items, .. } => put_items(output, here, next, items),
        _ => Ok(()),
    }
}

#[cycle(inner)]
fn put_items(
    output: &mut Output,
    here: &Here<'_>,
    next: &mut u32,
    items: &[Expr],
) -> Result<(), NoMemory>
    ensures put { OnOk result (output.new ≡ with_bodies (items_bodies (standing here.now) next.old (exprs_of items.now)) output.old) }
    ensures next { OnOk result (next.new ≡ next.old + length (items_blocks here.now.scope.now (exprs_of items.now))) }
{
    for item in items {
        put_expr(output, here, next, item)?;
    }
    Ok(())
}

/// The code of the block, and then of those in it.
#[cycle(inner)]
fn put_block(
    output: &mut Output,
    here: &Here<'_>,
    next: &mut u32,
    block: &Block,
) -> Result<(), NoMemory>
    ensures put { OnOk result (output.new ≡ with_bodies (block_bodies (standing here.now) next.old (block_of block.now)) output.old) }
    ensures next { OnOk result (next.new ≡ next.old + length (block_blocks here.now.scope.now (block_of block.now))) }
{
    let scope = Scope::block(output.alloc(), here.scope, &block.params, &block.slots)?;
    let inner = Here {
        scope: &scope,
        body: *next,
        class: here.class,
        marks: here.marks,
    };
    output.block(&inner, here.body, &block.params, &block.slots, &block.body)?;
    advance(next)?;
    put_inside(output, &inner, next, block)?;
    Ok(())
}

/// The code of a block without parameters and locals, and then of those in it.
#[cycle(inner)]
fn put_bare_block(
    output: &mut Output,
    here: &Here<'_>,
    next: &mut u32,
    body: &Statements,
) -> Result<(), NoMemory>
    ensures put { OnOk result (output.new ≡ with_bodies (block_bodies (standing here.now) next.old (p.block_with [] p.no_bars (statements_of body.now))) output.old) }
    ensures next { OnOk result (next.new ≡ next.old + length (block_blocks here.now.scope.now (p.block_with [] p.no_bars (statements_of body.now)))) }
{
    let scope = Scope::block(output.alloc(), here.scope, &[], &None)?;
    let inner = Here {
        scope: &scope,
        body: *next,
        class: here.class,
        marks: here.marks,
    };
    output.block(&inner, here.body, &[], &None, body)?;
    advance(next)?;
    put_statements(output, &inner, next, body)?;
    Ok(())
}

/// The blocks in a block whose expressions stand so.
#[cycle(inner)]
fn put_inside(
    output: &mut Output,
    here: &Here<'_>,
    next: &mut u32,
    block: &Block,
) -> Result<(), NoMemory>
    ensures put { OnOk result (output.new ≡ with_bodies (inside_bodies (standing here.now) next.old (block_of block.now)) output.old) }
    ensures next { OnOk result (next.new ≡ next.old + length (inside_blocks here.now.scope.now (block_of block.now))) }
{
    match &block.slots {
        None => {
            put_statements(output, here, next, &block.body)?;
            Ok(())
        }
        Some(slots) => {
            put_slots(output, here, next, slots)?;
            put_statements(output, here, next, &block.body)?;
            Ok(())
        }
    }
}

/// The blocks in the values of slots or locals, if there are any.
pub fn put_bars(
    output: &mut Output,
    here: &Here<'_>,
    next: &mut u32,
    slots: &Option<Vec<Slot>>,
) -> Result<(), NoMemory>
    ensures put { OnOk result (output.new ≡ with_bodies (bars_bodies (standing here.now) next.old (bars_of slots.now)) output.old) }
    ensures next { OnOk result (next.new ≡ next.old + length (bars_blocks here.now.scope.now (bars_of slots.now))) }
{
    match slots {
        None => Ok(()),
        Some(slots) => put_slots(output, here, next, slots),
    }
}

#[cycle(inner)]
fn put_slots(
    output: &mut Output,
    here: &Here<'_>,
    next: &mut u32,
    slots: &[Slot],
) -> Result<(), NoMemory>
    ensures put { OnOk result (output.new ≡ with_bodies (slots_bodies (standing here.now) next.old (slots_of slots.now)) output.old) }
    ensures next { OnOk result (next.new ≡ next.old + length (slots_blocks here.now.scope.now (slots_of slots.now))) }
{
    for slot in slots {
        put_slot(output, here, next, slot)?;
    }
    Ok(())
}

#[cycle(inner)]
fn put_slot(
    output: &mut Output,
    here: &Here<'_>,
    next: &mut u32,
    slot: &Slot,
) -> Result<(), NoMemory>
    ensures put { OnOk result (output.new ≡ with_bodies (slot_bodies (standing here.now) next.old (slot_of slot.now)) output.old) }
    ensures next { OnOk result (next.new ≡ next.old + length (slot_blocks here.now.scope.now (slot_of slot.now))) }
{
    match &slot.init {
        SlotInit::Bare { .. } => Ok(()),
        SlotInit::Fixed(value) => put_expr(output, here, next, value),
        SlotInit::Mutable(value) => put_expr(output, here, next, value),
    }
}

/// The blocks in statements.
#[cycle(inner)]
pub fn put_statements(
    output: &mut Output,
    here: &Here<'_>,
    next: &mut u32,
    body: &Statements,
) -> Result<(), NoMemory>
    ensures put { OnOk result (output.new ≡ with_bodies (statements_bodies (standing here.now) next.old (statements_of body.now)) output.old) }
    ensures next { OnOk result (next.new ≡ next.old + length (statements_blocks here.now.scope.now (statements_of body.now))) }
{
    put_list(output, here, next, &body.list)
}

#[cycle(inner)]
fn put_list(
    output: &mut Output,
    here: &Here<'_>,
    next: &mut u32,
    list: &[Statement],
) -> Result<(), NoMemory>
    ensures put { OnOk result (output.new ≡ with_bodies (list_bodies (standing here.now) next.old (statement_list_of list.now)) output.old) }
    ensures next { OnOk result (next.new ≡ next.old + length (list_blocks here.now.scope.now (statement_list_of list.now))) }
{
    for statement in list {
        put_statement(output, here, next, statement)?;
    }
    Ok(())
}

#[cycle(inner)]
fn put_statement(
    output: &mut Output,
    here: &Here<'_>,
    next: &mut u32,
    statement: &Statement,
) -> Result<(), NoMemory>
    ensures put { OnOk result (output.new ≡ with_bodies (statement_bodies (standing here.now) next.old (statement_of statement.now)) output.old) }
    ensures next { OnOk result (next.new ≡ next.old + length (statement_blocks here.now.scope.now (statement_of statement.now))) }
{
    put_expr(output, here, next, &statement.expr)
}
