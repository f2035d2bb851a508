//! Expressions, statements and slots.

ghost use Rattle.std.specs.Prelude.{◌≡◌, ◌++◌, ◌∷◌, [], OnOk};
ghost use Rattle.ns_tree.specs.Flat.{flat_expr, flat_cascade, flat_message, flat_key_expr, flat_keys, flat_bin, flat_opers, flat_un, flat_primary};
ghost use Rattle.ns_tree.specs.Flat.{flat_items, flat_block, flat_params, flat_bars, flat_slot, flat_init, flat_statements, flat_list, flat_statement};
ghost use Rattle.ns_tree.specs.declared.token.Kind.TheVariants as k;
ghost use Rattle.ns_tree.specs.Plain as p;
ghost use Rattle.ns_tree.specs.PlainOf.{expr_of, full_expr_of, cascade_of, message_of, key_expr_of, keys_of, bin_of, opers_of, un_of, sent_of, primary_of};
ghost use Rattle.ns_tree.specs.PlainOf.{exprs_of, block_of, slots_of, slot_of, init_of, statements_of, statement_list_of, statement_of};
ghost use Rattle.ns_print.specs.Printed.{lines};

use crate::tokens::{
    put, put_access, put_caret, put_names, put_number, put_set_keys, put_stop, put_stop_if,
    put_string, put_symbol,
};
use ns_base::no_memory::NoMemory;
use ns_tree::tree::{
    BinExpr, Block, Expr, FullExpr, KeyExpr, Message, Named, Primary, SentExpr, Slot, SlotInit,
    Statement, Statements, UnExpr,
};

#[cycle(expressions)]
pub fn put_expr(out: &mut Vec<u8>, expr: &Expr) -> Result<(), NoMemory>
    ensures { OnOk result (out.new.items ≡ out.old.items ++ lines (flat_expr (expr_of expr.now))) }
{
    match expr {
        Expr::Operand(operand) => put_un(out, operand),
        Expr::Operation(bin) => put_bin(out, bin),
        Expr::Implicit(keys) => put_keys(out, keys),
        Expr::Full(full) => put_full_expr(out, full),
    }
}

#[cycle(expressions)]
fn put_full_expr(out: &mut Vec<u8>, expr: &FullExpr) -> Result<(), NoMemory>
    ensures { OnOk result (out.new.items ≡ out.old.items ++ lines (flat_expr (full_expr_of expr.now))) }
{
    put_set_keys(out, &expr.sets)?;
    put_key_expr(out, &expr.first)?;
    put_cascade(out, &expr.more)
}

#[cycle(expressions)]
fn put_cascade(out: &mut Vec<u8>, messages: &[(u32, Message)]) -> Result<(), NoMemory>
    ensures { OnOk result (out.new.items ≡ out.old.items ++ lines (flat_cascade (cascade_of messages.now))) }
{
    for message in messages {
        put(out, b";")?;
        put_message(out, &message.1)?;
    }
    Ok(())
}

#[cycle(expressions)]
pub fn put_message(out: &mut Vec<u8>, message: &Message) -> Result<(), NoMemory>
    ensures { OnOk result (out.new.items ≡ out.old.items ++ lines (flat_message (message_of message.now))) }
{
    match message {
        Message::Unary(name) => put(out, name.text.bytes()),
        Message::Binary(oper) => put_oper(out, &oper.0, &oper.1),
        Message::Keys(keys) => put_keys(out, keys),
    }
}

/// An operator and its argument.
#[cycle(expressions)]
fn put_oper(out: &mut Vec<u8>, name: &Named, argument: &UnExpr) -> Result<(), NoMemory>
    ensures { OnOk result (out.new.items ≡ out.old.items ++ lines (flat_message (p.binary name.now (un_of argument.now)))) }
{
    put(out, name.text.bytes())?;
    put_un(out, argument)
}

#[cycle(expressions)]
fn put_key_expr(out: &mut Vec<u8>, expr: &KeyExpr) -> Result<(), NoMemory>
    ensures { OnOk result (out.new.items ≡ out.old.items ++ lines (flat_key_expr (key_expr_of expr.now))) }
{
    match &expr.receiver {
        None => put_keys(out, &expr.keys),
        Some(receiver) => {
            put_bin(out, receiver)?;
            put_keys(out, &expr.keys)
        }
    }
}

#[cycle(expressions)]
fn put_keys(out: &mut Vec<u8>, keys: &[(Named, BinExpr)]) -> Result<(), NoMemory>
    ensures { OnOk result (out.new.items ≡ out.old.items ++ lines (flat_keys (keys_of keys.now))) }
{
    for key in keys {
        put(out, key.0.text.bytes())?;
        put_bin(out, &key.1)?;
    }
    Ok(())
}

#[cycle(expressions)]
fn put_bin(out: &mut Vec<u8>, expr: &BinExpr) -> Result<(), NoMemory>
    ensures { OnOk result (out.new.items ≡ out.old.items ++ lines (flat_bin (bin_of expr.now))) }
{
    put_un(out, &expr.first)?;
    put_opers(out, &expr.more)
}

#[cycle(expressions)]
fn put_opers(out: &mut Vec<u8>, opers: &[(Named, UnExpr)]) -> Result<(), NoMemory>
    ensures { OnOk result (out.new.items ≡ out.old.items ++ lines (flat_opers (opers_of opers.now))) }
{
    for oper in opers {
        put_oper(out, &oper.0, &oper.1)?;
    }
    Ok(())
}

#[cycle(expressions)]
fn put_un(out: &mut Vec<u8>, expr: &UnExpr) -> Result<(), NoMemory>
    ensures { OnOk result (out.new.items ≡ out.old.items ++ lines (flat_un (un_of expr.now))) }
{
    match expr {
        UnExpr::Alone { at: _, primary } => put_primary(out, primary),
        UnExpr::Sent(sent) => put_sent(out, sent),
    }
}

#[cycle(expressions)]
fn put_sent(out: &mut Vec<u8>, expr: &SentExpr) -> Result<(), NoMemory>
    ensures { OnOk result (out.new.items ≡ out.old.items ++ lines (flat_un (sent_of expr.now))) }
{
    put_primary(out, &expr.primary)?;
    put_names(out, &expr.names)
}

#[cycle(expressions)]
fn put_primary(out: &mut Vec<u8>, primary: &Primary) -> Result<(), NoMemory>
    ensures { OnOk result (out.new.items ≡ out.old.items ++ lines (flat_primary (primary_of primary.now))) }
{
    match primary {
        Primary::Name(text) => put(out, text.bytes()),
        Primary::Number { minus, size } => put_signed(out, *minus, *size),
        Primary::Str(text) => put_string(out, text.bytes()),
        Primary::Symbol(text) => put_symbol(out, text.bytes()),
        Primary::Nil => put(out, b"nil"),
        Primary::True => put(out, b"true"),
        Primary::False => put(out, b"false"),
        Primary::SelfWord => put(out, b"self"),
        Primary::Super => put(out, b"super"),
        Primary::Outer(name) => put_outer(out, name),
        Primary::Paren(inner) => put_paren(out, inner),
        Primary::Block(block) => put_block(out, block),
        Primary::BareBlock(body) => put_bare_block(out, body),
        Primary::Tuple { items, stop } => put_tuple(out, items, *stop),
    }
}

fn put_signed(out: &mut Vec<u8>, minus: bool, size: u64) -> Result<(), NoMemory>
    ensures { OnOk result (out.new.items ≡ out.old.items ++ lines (flat_primary (p.number minus size))) }
{
    if minus {
        put(out, b"-")?;
    }
    put_number(out, size)
}

fn put_outer(out: &mut Vec<u8>, name: &Named) -> Result<(), NoMemory>
    ensures { OnOk result (out.new.items ≡ out.old.items ++ lines (flat_primary (p.outer_name name.now))) }
{
    put(out, b"outer")?;
    put(out, name.text.bytes())
}

#[cycle(expressions)]
fn put_paren(out: &mut Vec<u8>, inner: &Expr) -> Result<(), NoMemory>
    ensures { OnOk result (out.new.items ≡ out.old.items ++ lines (flat_primary (p.paren (expr_of inner.now)))) }
{
    put(out, b"(")?;
    put_expr(out, inner)?;
    put(out, b")")
}

#[cycle(expressions)]
fn put_tuple(out: &mut Vec<u8>, items: &[Expr], stop: bool) -> Result<(), NoMemory>
    ensures { OnOk result (out.new.items ≡ out.old.items ++ lines (flat_primary (p.tuple (exprs_of items.now) stop))) }
{
    put(out, b"{")?;
    put_items(out, items)?;
    put_stop_if(out, stop)?;
    put(out, b"}")?;
    Ok(())
}

#[cycle(expressions)]
fn put_items(out: &mut Vec<u8>, items: &[Expr]) -> Result<(), NoMemory>
    ensures { OnOk result (out.new.items ≡ out.old.items ++ lines (flat_items (exprs_of items.now))) }
{
    let mut first = true;
    for item in items {
        if !first {
            put_stop(out)?;
        }
        first = false;
        put_expr(out, item)?;
    }
    Ok(())
}

#[cycle(expressions)]
fn put_block(out: &mut Vec<u8>, block: &Block) -> Result<(), NoMemory>
    ensures { OnOk result (out.new.items ≡ out.old.items ++ lines (flat_block (block_of block.now))) }
{
    put(out, b"[")?;
    put_params(out, &block.params)?;
    match &block.slots {
        None => put_block_end(out, &block.body),
        Some(slots) => {
            put_slots(out, slots)?;
            put_block_end(out, &block.body)
        }
    }
}

#[cycle(expressions)]
fn put_bare_block(out: &mut Vec<u8>, body: &Statements) -> Result<(), NoMemory>
    ensures { OnOk result (out.new.items ≡ out.old.items ++ lines (flat_block (p.block_with [] p.no_bars (statements_of body.now)))) }
{
    put(out, b"[")?;
    put_block_end(out, body)
}

#[cycle(expressions)]
fn put_block_end(out: &mut Vec<u8>, body: &Statements) -> Result<(), NoMemory>
    ensures { OnOk result (out.new.items ≡ out.old.items ++ lines (flat_statements (statements_of body.now) ++ k.CloseBlock ∷ [])) }
{
    put_statements(out, body)?;
    put(out, b"]")
}

fn put_params(out: &mut Vec<u8>, params: &[Named]) -> Result<(), NoMemory>
    ensures { OnOk result (out.new.items ≡ out.old.items ++ lines (flat_params params.now)) }
{
    if params.is_empty() {
        return Ok(());
    }
    for param in params {
        put(out, b":")?;
        put(out, param.text.bytes())?;
    }
    put(out, b"|")
}

/// Slots between two bars.
#[cycle(expressions)]
pub fn put_slots(out: &mut Vec<u8>, slots: &[Slot]) -> Result<(), NoMemory>
    ensures { OnOk result (out.new.items ≡ out.old.items ++ lines (flat_bars (p.bars_around (slots_of slots.now)))) }
{
    put(out, b"|")?;
    for slot in slots {
        put_slot(out, slot)?;
    }
    put(out, b"|")
}

#[cycle(expressions)]
fn put_slot(out: &mut Vec<u8>, slot: &Slot) -> Result<(), NoMemory>
    ensures { OnOk result (out.new.items ≡ out.old.items ++ lines (flat_slot (slot_of slot.now))) }
{
    put_access(out, slot.access)?;
    put(out, slot.name.text.bytes())?;
    put_init(out, &slot.init)
}

#[cycle(expressions)]
fn put_init(out: &mut Vec<u8>, init: &SlotInit) -> Result<(), NoMemory>
    ensures { OnOk result (out.new.items ≡ out.old.items ++ lines (flat_init (init_of init.now))) }
{
    match init {
        SlotInit::Bare { stop } => put_stop_if(out, *stop),
        SlotInit::Fixed(value) => put_fixed(out, value),
        SlotInit::Mutable(value) => put_mutable(out, value),
    }
}

#[cycle(expressions)]
fn put_fixed(out: &mut Vec<u8>, value: &Expr) -> Result<(), NoMemory>
    ensures { OnOk result (out.new.items ≡ out.old.items ++ lines (flat_init (p.fixed (expr_of value.now)))) }
{
    put(out, b"=")?;
    put_expr(out, value)?;
    put_stop(out)
}

#[cycle(expressions)]
fn put_mutable(out: &mut Vec<u8>, value: &Expr) -> Result<(), NoMemory>
    ensures { OnOk result (out.new.items ≡ out.old.items ++ lines (flat_init (p.mutable (expr_of value.now)))) }
{
    put(out, b"::=")?;
    put_expr(out, value)?;
    put_stop(out)
}

#[cycle(expressions)]
pub fn put_statements(out: &mut Vec<u8>, body: &Statements) -> Result<(), NoMemory>
    ensures { OnOk result (out.new.items ≡ out.old.items ++ lines (flat_statements (statements_of body.now))) }
{
    put_list(out, &body.list)?;
    put_stop_if(out, body.stop)
}

#[cycle(expressions)]
fn put_list(out: &mut Vec<u8>, list: &[Statement]) -> Result<(), NoMemory>
    ensures { OnOk result (out.new.items ≡ out.old.items ++ lines (flat_list (statement_list_of list.now))) }
{
    let mut first = true;
    for statement in list {
        if !first {
            put_stop(out)?;
        }
        first = false;
        put_statement(out, statement)?;
    }
    Ok(())
}

#[cycle(expressions)]
fn put_statement(out: &mut Vec<u8>, statement: &Statement) -> Result<(), NoMemory>
    ensures { OnOk result (out.new.items ≡ out.old.items ++ lines (flat_statement (statement_of statement.now))) }
{
    put_caret(out, statement.caret)?;
    put_expr(out, &statement.expr)
}
