//! Expressions: receivers, messages to them, and their arguments.

ghost use Rattle.std.specs.Prelude.{◌≡◌, ◌+◌, length, IfOk, OnOk};
ghost use Rattle.ns_tree.specs.PlainOf.{expr_of, full_expr_of, key_expr_of, keys_of, bin_of, opers_of, un_of, sent_of, primary_of, exprs_of};
ghost use Rattle.ns_scope.specs.Bodies.{expr_blocks, key_expr_blocks, keys_blocks, bin_blocks, opers_blocks, un_blocks, primary_blocks, items_blocks};
ghost use Rattle.ns_resolved.specs.Program as m;
ghost use Rattle.ns_resolved.specs.Expressions.{as_receiver, as_value, name_sent, one, un_node, un_said, bin_said};
ghost use Rattle.ns_resolved.specs.Expressions.{key_expr_said, keys_nodes, keys_sent, items_nodes, primary_receiver, implicit_send, expr_node};
ghost use Rattle.ns_gen_draft.specs.Standing.{standing};
ghost use Rattle.ns_gen_exprs.specs.Cascading.{unset_node};
ghost use Rattle.ns_gen_exprs.specs.Sending.{with_node, with_nodes, with_receiver, with_message, with_opers, with_keywords, with_value, opers_left, keys_left, kept};

use crate::cascades::put_cascade;
use crate::primaries::{put_alone, put_bare_block, put_block};
use crate::reach::reach_of;
use crate::receiver::{Receiver, begin, begin_object, put_names, put_value};
use crate::sets::put_sets;
use ns_base::no_memory::NoMemory;
use ns_code::instruction::Instr;
use ns_gen_draft::here::Here;
use ns_gen_draft::keys::{count, joined, keys_count};
use ns_gen_draft::writer::Writer;
use ns_tree::parts::first_key;
use ns_tree::tree::{BinExpr, Expr, FullExpr, KeyExpr, Named, Primary, SentExpr, UnExpr};

/// A primary with its unary messages, as a receiver.
#[cycle(expressions)]
pub fn put_un(
    writer: &mut Writer,
    here: &Here<'_>,
    next: &mut u32,
    un: &UnExpr,
) -> Result<Receiver, NoMemory>
    ensures put { OnOk result (writer.new ≡ with_receiver (as_receiver (standing here.now) (un_said (standing here.now) next.old (un_of un.now))) writer.old) }
    ensures kept { IfOk result (λ receiver. receiver ≡ kept (as_receiver (standing here.now) (un_said (standing here.now) next.old (un_of un.now)))) }
    ensures next { OnOk result (next.new ≡ next.old + length (un_blocks here.now.scope.now (un_of un.now))) }
{
    match un {
        UnExpr::Alone { at, primary } => put_primary(writer, here, next, *at, primary),
        UnExpr::Sent(sent) => put_sent(writer, here, next, sent),
    }
}

#[cycle(expressions)]
#[tactic(auto, using(crate::proofs::Saying::names_are, crate::proofs::Saying::names_left))]
fn put_sent(
    writer: &mut Writer,
    here: &Here<'_>,
    next: &mut u32,
    sent: &SentExpr,
) -> Result<Receiver, NoMemory>
    ensures put { OnOk result (writer.new ≡ with_receiver (as_receiver (standing here.now) (un_said (standing here.now) next.old (sent_of sent.now))) writer.old) }
    ensures kept { IfOk result (λ receiver. receiver ≡ kept (as_receiver (standing here.now) (un_said (standing here.now) next.old (sent_of sent.now)))) }
    ensures next { OnOk result (next.new ≡ next.old + length (un_blocks here.now.scope.now (sent_of sent.now))) }
{
    let receiver = put_primary(writer, here, next, sent.at, &sent.primary)?;
    put_names(writer, here, receiver, &sent.names)
}

/// A primary with its unary messages, as a value.
#[cycle(expressions)]
#[tactic(auto, using(crate::specs::laws::Composing::value_is, crate::proofs::Walking::un_is))]
pub fn put_un_value(
    writer: &mut Writer,
    here: &Here<'_>,
    next: &mut u32,
    un: &UnExpr,
) -> Result<(), NoMemory>
    ensures put { OnOk result (writer.new ≡ with_node (un_node (standing here.now) next.old (un_of un.now)) writer.old) }
    ensures next { OnOk result (next.new ≡ next.old + length (un_blocks here.now.scope.now (un_of un.now))) }
{
    let receiver = put_un(writer, here, next, un)?;
    put_value(writer, &receiver)
}

/// A binary message.
#[cycle(expressions)]
pub fn put_oper(
    writer: &mut Writer,
    here: &Here<'_>,
    next: &mut u32,
    receiver: &Receiver,
    name: &Named,
    argument: &UnExpr,
) -> Result<(), NoMemory>
    ensures put { OnOk result (writer.new ≡ with_message here.now.scope.now receiver.now (name_sent (standing here.now) name.now)
        (one (un_node (standing here.now) next.old (un_of argument.now))) writer.old) }
    ensures next { OnOk result (next.new ≡ next.old + length (un_blocks here.now.scope.now (un_of argument.now))) }
{
    let selector = name.text.bytes();
    let way = begin(writer, here, receiver, selector)?;
    put_un_value(writer, here, next, argument)?;
    writer.sends(way, selector, here.place(name.at), 1)?;
    Ok(())
}

/// Binary messages in turn. What the next message is sent to is their value, if there is one.
#[cycle(expressions)]
pub fn put_opers(
    writer: &mut Writer,
    here: &Here<'_>,
    next: &mut u32,
    receiver: Receiver,
    opers: &[(Named, UnExpr)],
) -> Result<Receiver, NoMemory>
    ensures put { OnOk result (writer.new ≡ with_opers (standing here.now) next.old receiver (opers_of opers.now) writer.old) }
    ensures left { IfOk result (λ behind. behind ≡ opers_left receiver (opers_of opers.now)) }
    ensures next { OnOk result (next.new ≡ next.old + length (opers_blocks here.now.scope.now (opers_of opers.now))) }
{
    let mut receiver = receiver;
    for oper in opers {
        put_oper(writer, here, next, &receiver, &oper.0, &oper.1)?;
        receiver = Receiver::Value;
    }
    Ok(receiver)
}

/// A receiver with its binary messages, as a receiver.
#[cycle(expressions)]
pub fn put_bin(
    writer: &mut Writer,
    here: &Here<'_>,
    next: &mut u32,
    bin: &BinExpr,
) -> Result<Receiver, NoMemory>
    ensures put { OnOk result (writer.new ≡ with_receiver
        (as_receiver (standing here.now) (bin_said (standing here.now) next.old (bin_of bin.now))) writer.old) }
    ensures kept { IfOk result (λ receiver. receiver ≡ kept (as_receiver (standing here.now) (bin_said (standing here.now) next.old (bin_of bin.now)))) }
    ensures next { OnOk result (next.new ≡ next.old + length (bin_blocks here.now.scope.now (bin_of bin.now))) }
{
    let receiver = put_un(writer, here, next, &bin.first)?;
    let behind = put_opers(writer, here, next, receiver, &bin.more)?;
    Ok(behind)
}

/// A receiver with its binary messages, as a value.
#[cycle(expressions)]
#[tactic(auto, using(crate::specs::laws::Composing::value_is))]
fn put_bin_value(
    writer: &mut Writer,
    here: &Here<'_>,
    next: &mut u32,
    bin: &BinExpr,
) -> Result<(), NoMemory>
    ensures put { OnOk result (writer.new ≡ with_node (as_value (standing here.now) (bin_said (standing here.now) next.old (bin_of bin.now))) writer.old) }
    ensures next { OnOk result (next.new ≡ next.old + length (bin_blocks here.now.scope.now (bin_of bin.now))) }
{
    let receiver = put_bin(writer, here, next, bin)?;
    put_value(writer, &receiver)
}

/// The arguments of keys.
#[cycle(expressions)]
pub fn put_keys(
    writer: &mut Writer,
    here: &Here<'_>,
    next: &mut u32,
    keys: &[(Named, BinExpr)],
) -> Result<(), NoMemory>
    ensures put { OnOk result (writer.new ≡ with_nodes (keys_nodes (standing here.now) next.old (keys_of keys.now)) writer.old) }
    ensures next { OnOk result (next.new ≡ next.old + length (keys_blocks here.now.scope.now (keys_of keys.now))) }
{
    for key in keys {
        put_bin_value(writer, here, next, &key.1)?;
    }
    Ok(())
}

/// A keyword message to what is reached already, where there are keys.
#[cycle(expressions)]
pub fn put_keywords(
    writer: &mut Writer,
    here: &Here<'_>,
    next: &mut u32,
    receiver: &Receiver,
    keys: &[(Named, BinExpr)],
) -> Result<(), NoMemory>
    ensures put { OnOk result (writer.new ≡ with_message here.now.scope.now receiver.now
        (keys_sent (standing here.now) (keys_of keys.now)) (keys_nodes (standing here.now) next.old (keys_of keys.now)) writer.old) }
    ensures next { OnOk result (next.new ≡ next.old + length (keys_blocks here.now.scope.now (keys_of keys.now))) }
{
    let selector = joined(writer.alloc(), keys)?;
    let count = keys_count(keys)?;
    let way = begin(writer, here, receiver, selector.bytes())?;
    put_keys(writer, here, next, keys)?;
    let place = here.place(first_key(keys));
    writer.sends(way, selector.bytes(), place, count)?;
    Ok(())
}

/// A keyword message without a written receiver.
#[cycle(expressions)]
fn put_implicit(
    writer: &mut Writer,
    here: &Here<'_>,
    next: &mut u32,
    keys: &[(Named, BinExpr)],
) -> Result<(), NoMemory>
    ensures put { OnOk result (writer.new ≡ with_node (implicit_send (standing here.now)
        (keys_sent (standing here.now) (keys_of keys.now)) (keys_nodes (standing here.now) next.old (keys_of keys.now))) writer.old) }
    ensures next { OnOk result (next.new ≡ next.old + length (keys_blocks here.now.scope.now (keys_of keys.now))) }
{
    let selector = joined(writer.alloc(), keys)?;
    let count = keys_count(keys)?;
    let reach = reach_of(here.resolve(selector.bytes()))?;
    let way = begin_object(writer, reach)?;
    put_keys(writer, here, next, keys)?;
    let place = here.place(first_key(keys));
    writer.sends(way, selector.bytes(), place, count)?;
    Ok(())
}

/// A keyword message, where there are keys, as a receiver.
#[cycle(expressions)]
fn put_keyed(
    writer: &mut Writer,
    here: &Here<'_>,
    next: &mut u32,
    receiver: Receiver,
    keys: &[(Named, BinExpr)],
) -> Result<Receiver, NoMemory>
    ensures put { OnOk result (writer.new ≡ with_keywords (standing here.now) next.old receiver (keys_of keys.now) writer.old) }
    ensures left { IfOk result (λ behind. behind ≡ keys_left receiver (keys_of keys.now)) }
    ensures next { OnOk result (next.new ≡ next.old + length (keys_blocks here.now.scope.now (keys_of keys.now))) }
{
    match keys {
        [] => Ok(receiver),
        [_, ..] => {
            put_keywords(writer, here, next, &receiver, keys)?;
            Ok(Receiver::Value)
        }
    }
}

/// A keyword message, where there are keys, as a value.
#[cycle(expressions)]
fn put_keyed_value(
    writer: &mut Writer,
    here: &Here<'_>,
    next: &mut u32,
    receiver: Receiver,
    keys: &[(Named, BinExpr)],
) -> Result<(), NoMemory>
    ensures put { OnOk result (writer.new ≡ with_value (keys_left receiver (keys_of keys.now))
        (with_keywords (standing here.now) next.old receiver (keys_of keys.now) writer.old)) }
    ensures next { OnOk result (next.new ≡ next.old + length (keys_blocks here.now.scope.now (keys_of keys.now))) }
{
    let behind = put_keyed(writer, here, next, receiver, keys)?;
    put_value(writer, &behind)?;
    Ok(())
}

/// An expression without its cascade, as a value.
#[cycle(expressions)]
fn put_key_value(
    writer: &mut Writer,
    here: &Here<'_>,
    next: &mut u32,
    expr: &KeyExpr,
) -> Result<(), NoMemory>
    ensures put { OnOk result (writer.new ≡ with_node
        (as_value (standing here.now) (key_expr_said (standing here.now) next.old (key_expr_of expr.now))) writer.old) }
    ensures next { OnOk result (next.new ≡ next.old + length (key_expr_blocks here.now.scope.now (key_expr_of expr.now))) }
{
    match &expr.receiver {
        None => {
            put_implicit(writer, here, next, &expr.keys)?;
            Ok(())
        }
        Some(receiver) => {
            let receiver = put_bin(writer, here, next, receiver)?;
            put_keyed_value(writer, here, next, receiver, &expr.keys)?;
            Ok(())
        }
    }
}

/// An expression before its names are set.
#[cycle(expressions)]
fn put_unset(
    writer: &mut Writer,
    here: &Here<'_>,
    next: &mut u32,
    expr: &FullExpr,
) -> Result<(), NoMemory>
    ensures put { OnOk result (writer.new ≡ with_node (unset_node (standing here.now) next.old (full_expr_of expr.now)) writer.old) }
    ensures next { OnOk result (next.new ≡ next.old + length (expr_blocks here.now.scope.now (full_expr_of expr.now))) }
{
    match expr.more.as_slice() {
        [] => {
            put_key_value(writer, here, next, &expr.first)?;
            Ok(())
        }
        [_, ..] => put_cascade(writer, here, next, expr),
    }
}

/// An expression.
#[cycle(expressions)]
pub fn put_expr(
    writer: &mut Writer,
    here: &Here<'_>,
    next: &mut u32,
    expr: &Expr,
) -> Result<(), NoMemory>
    ensures put { OnOk result (writer.new ≡ with_node (expr_node (standing here.now) next.old (expr_of expr.now)) writer.old) }
    ensures next { OnOk result (next.new ≡ next.old + length (expr_blocks here.now.scope.now (expr_of expr.now))) }
{
    match expr {
        Expr::Operand(operand) => put_un_value(writer, here, next, operand),
        Expr::Operation(bin) => put_bin_value(writer, here, next, bin),
        Expr::Implicit(keys) => put_implicit(writer, here, next, keys),
        Expr::Full(full) => put_full_expr(writer, here, next, full),
    }
}

/// An expression of any form.
#[cycle(expressions)]
fn put_full_expr(
    writer: &mut Writer,
    here: &Here<'_>,
    next: &mut u32,
    expr: &FullExpr,
) -> Result<(), NoMemory>
    ensures put { OnOk result (writer.new ≡ with_node (expr_node (standing here.now) next.old (full_expr_of expr.now)) writer.old) }
    ensures next { OnOk result (next.new ≡ next.old + length (expr_blocks here.now.scope.now (full_expr_of expr.now))) }
{
    put_unset(writer, here, next, expr)?;
    put_sets(writer, here, &expr.sets)?;
    Ok(())
}

/// Expressions in turn.
#[cycle(expressions)]
fn put_items(
    writer: &mut Writer,
    here: &Here<'_>,
    next: &mut u32,
    items: &[Expr],
) -> Result<(), NoMemory>
    ensures put { OnOk result (writer.new ≡ with_nodes (items_nodes (standing here.now) next.old (exprs_of items.now)) writer.old) }
    ensures next { OnOk result (next.new ≡ next.old + length (items_blocks here.now.scope.now (exprs_of items.now))) }
{
    for item in items {
        put_expr(writer, here, next, item)?;
    }
    Ok(())
}

/// A tuple: its elements, and an array of them.
#[cycle(expressions)]
#[tactic(auto, using(crate::proofs::Saying::array_put))]
fn put_tuple(
    writer: &mut Writer,
    here: &Here<'_>,
    next: &mut u32,
    items: &[Expr],
) -> Result<(), NoMemory>
    ensures put { OnOk result (writer.new ≡ with_node (m.array (items_nodes (standing here.now) next.old (exprs_of items.now))) writer.old) }
    ensures next { OnOk result (next.new ≡ next.old + length (items_blocks here.now.scope.now (exprs_of items.now))) }
{
    let elements = count(items.len())?;
    put_items(writer, here, next, items)?;
    writer.does(Instr::MakeArray(elements))
}

/// A primary as a receiver.
#[cycle(expressions)]
pub fn put_primary(
    writer: &mut Writer,
    here: &Here<'_>,
    next: &mut u32,
    at: u32,
    primary: &Primary,
) -> Result<Receiver, NoMemory>
    ensures put { OnOk result (writer.new ≡ with_receiver (primary_receiver (standing here.now) next.old at (primary_of primary.now)) writer.old) }
    ensures kept { IfOk result (λ receiver. receiver ≡ kept (primary_receiver (standing here.now) next.old at (primary_of primary.now))) }
    ensures next { OnOk result (next.new ≡ next.old + length (primary_blocks here.now.scope.now (primary_of primary.now))) }
{
    match primary {
        Primary::Paren(inner) => {
            put_expr(writer, here, next, inner)?;
            Ok(Receiver::Value)
        }
        Primary::Block(block) => {
            put_block(writer, here, next, block)?;
            Ok(Receiver::Value)
        }
        Primary::BareBlock(body) => {
            put_bare_block(writer, here, next, body)?;
            Ok(Receiver::Value)
        }
        Primary::Tuple { items, .. } => {
            put_tuple(writer, here, next, items)?;
            Ok(Receiver::Value)
        }
        _ => put_alone(writer, here, at, primary),
    }
}
