//! Cascades: messages to one receiver in turn.

ghost use Rattle.std.specs.Prelude.{◌≡◌, ◌+◌, true, length, IfOk, OnOk};
ghost use Rattle.ns_tree.specs.PlainOf.{full_expr_of, key_expr_of, bin_of, un_of, sent_of, cascade_of, message_of};
ghost use Rattle.ns_scope.specs.Bodies.{expr_blocks, key_expr_blocks, bin_blocks, un_blocks, cascade_blocks, message_blocks};
ghost use Rattle.ns_resolved.specs.Expressions.{un_said, bin_said, key_expr_said, message_said};
ghost use Rattle.ns_gen_draft.specs.Standing.{standing};
ghost use Rattle.ns_gen_exprs.specs.Cascading.{unset_node, with_rest, with_first, said_kept, is_said};
ghost use Rattle.ns_gen_exprs.specs.Sending.{with_node, with_one_message};

use crate::expressions::{put_bin, put_keywords, put_oper, put_opers, put_primary, put_un};
use crate::receiver::{Receiver, is_repeated, put_copies, put_copy, put_name, put_names};
use ns_base::no_memory::NoMemory;
use ns_code::instruction::Instr;
use ns_gen_draft::here::Here;
use ns_gen_draft::never::cannot_come;
use ns_gen_draft::writer::Writer;
use ns_tree::tree::{BinExpr, FullExpr, KeyExpr, Message, SentExpr, UnExpr};

/// A message of a cascade.
#[cycle(expressions)]
fn put_message(
    writer: &mut Writer,
    here: &Here<'_>,
    next: &mut u32,
    receiver: &Receiver,
    message: &Message,
) -> Result<(), NoMemory>
    ensures put { OnOk result (writer.new ≡ with_one_message here.now.scope.now receiver.now
        (message_said (standing here.now) next.old (message_of message.now)) writer.old) }
    ensures next { OnOk result (next.new ≡ next.old + length (message_blocks here.now.scope.now (message_of message.now))) }
{
    match message {
        Message::Unary(name) => put_name(writer, here, receiver, name),
        Message::Binary(oper) => put_oper(writer, here, next, receiver, &oper.0, &oper.1),
        Message::Keys(keys) => put_keywords(writer, here, next, receiver, keys),
    }
}

/// The messages behind the first, each behind the dropped value of the one before.
#[cycle(expressions)]
fn put_rest(
    writer: &mut Writer,
    here: &Here<'_>,
    next: &mut u32,
    receiver: &Receiver,
    messages: &[(u32, Message)],
) -> Result<(), NoMemory>
    ensures put { OnOk result (writer.new ≡ with_rest (standing here.now) next.old receiver.now (cascade_of messages.now) writer.old) }
    ensures next { OnOk result (next.new ≡ next.old + length (cascade_blocks here.now.scope.now (cascade_of messages.now))) }
{
    let mut left = messages.len();
    for message in messages {
        left -= 1;
        writer.does(Instr::Pop)?;
        put_copies(writer, receiver, left)?;
        put_message(writer, here, next, receiver, &message.1)?;
    }
    Ok(())
}

/// The last of unary messages to a copy of its receiver, which is what is left.
#[cycle(expressions)]
fn put_first_name(
    writer: &mut Writer,
    here: &Here<'_>,
    next: &mut u32,
    un: &UnExpr,
) -> Result<Receiver, NoMemory>
    ensures put { OnOk result (writer.new ≡ with_first (standing here.now) (un_said (standing here.now) next.old (un_of un.now)) writer.old) }
    ensures kept { IfOk result (λ receiver. receiver ≡ said_kept (un_said (standing here.now) next.old (un_of un.now))) }
    ensures said { OnOk result (is_said (un_said (standing here.now) next.old (un_of un.now)) ≡ true) }
    ensures next { OnOk result (next.new ≡ next.old + length (un_blocks here.now.scope.now (un_of un.now))) }
{
    match un {
        UnExpr::Alone { at: _, primary: _ } => Err(cannot_come()),
        UnExpr::Sent(sent) => put_first_sent(writer, here, next, sent),
    }
}

#[cycle(expressions)]
fn put_first_sent(
    writer: &mut Writer,
    here: &Here<'_>,
    next: &mut u32,
    sent: &SentExpr,
) -> Result<Receiver, NoMemory>
    ensures put { OnOk result (writer.new ≡ with_first (standing here.now) (un_said (standing here.now) next.old (sent_of sent.now)) writer.old) }
    ensures kept { IfOk result (λ receiver. receiver ≡ said_kept (un_said (standing here.now) next.old (sent_of sent.now))) }
    ensures said { OnOk result (is_said (un_said (standing here.now) next.old (sent_of sent.now)) ≡ true) }
    ensures next { OnOk result (next.new ≡ next.old + length (un_blocks here.now.scope.now (sent_of sent.now))) }
{
    match sent.names.as_slice() {
        [] => Err(cannot_come()),
        [front @ .., last] => {
            let first = put_primary(writer, here, next, sent.at, &sent.primary)?;
            let receiver = put_names(writer, here, first, front)?;
            put_copy(writer, &receiver)?;
            put_name(writer, here, &receiver, last)?;
            Ok(receiver)
        }
    }
}

/// The last message before keys, to a copy of its receiver, which is what is left.
#[cycle(expressions)]
fn put_first_oper(
    writer: &mut Writer,
    here: &Here<'_>,
    next: &mut u32,
    bin: &BinExpr,
) -> Result<Receiver, NoMemory>
    ensures put { OnOk result (writer.new ≡ with_first (standing here.now) (bin_said (standing here.now) next.old (bin_of bin.now)) writer.old) }
    ensures kept { IfOk result (λ receiver. receiver ≡ said_kept (bin_said (standing here.now) next.old (bin_of bin.now))) }
    ensures said { OnOk result (is_said (bin_said (standing here.now) next.old (bin_of bin.now)) ≡ true) }
    ensures next { OnOk result (next.new ≡ next.old + length (bin_blocks here.now.scope.now (bin_of bin.now))) }
{
    match bin.more.as_slice() {
        [] => put_first_name(writer, here, next, &bin.first),
        [front @ .., last] => {
            let first = put_un(writer, here, next, &bin.first)?;
            let receiver = put_opers(writer, here, next, first, front)?;
            put_copy(writer, &receiver)?;
            put_oper(writer, here, next, &receiver, &last.0, &last.1)?;
            Ok(receiver)
        }
    }
}

/// The message before a cascade, to a copy of its receiver, which is what is left.
#[cycle(expressions)]
fn put_first(
    writer: &mut Writer,
    here: &Here<'_>,
    next: &mut u32,
    expr: &KeyExpr,
) -> Result<Receiver, NoMemory>
    ensures put { OnOk result (writer.new ≡ with_first (standing here.now) (key_expr_said (standing here.now) next.old (key_expr_of expr.now)) writer.old) }
    ensures kept { IfOk result (λ receiver. receiver ≡ said_kept (key_expr_said (standing here.now) next.old (key_expr_of expr.now))) }
    ensures said { OnOk result (is_said (key_expr_said (standing here.now) next.old (key_expr_of expr.now)) ≡ true) }
    ensures next { OnOk result (next.new ≡ next.old + length (key_expr_blocks here.now.scope.now (key_expr_of expr.now))) }
{
    let Some(bin) = &expr.receiver else {
        return Err(cannot_come());
    };
    match expr.keys.as_slice() {
        [] => put_first_oper(writer, here, next, bin),
        [_, ..] => {
            let receiver = put_bin(writer, here, next, bin)?;
            put_copy(writer, &receiver)?;
            put_keywords(writer, here, next, &receiver, &expr.keys)?;
            Ok(receiver)
        }
    }
}

/// An expression with a cascade, before its names are set: messages to the receiver of the last one
/// before them. In a program without faults there is one, and that goes to neither `super` nor an
/// enclosing object.
#[cycle(expressions)]
pub fn put_cascade(
    writer: &mut Writer,
    here: &Here<'_>,
    next: &mut u32,
    expr: &FullExpr,
) -> Result<(), NoMemory>
    ensures put { OnOk result (writer.new ≡ with_node (unset_node (standing here.now) next.old (full_expr_of expr.now)) writer.old) }
    ensures next { OnOk result (next.new ≡ next.old + length (expr_blocks here.now.scope.now (full_expr_of expr.now))) }
{
    if expr.more.is_empty() {
        return Err(cannot_come());
    }
    let receiver = put_first(writer, here, next, &expr.first)?;
    if !is_repeated(&receiver) {
        return Err(cannot_come());
    }
    put_rest(writer, here, next, &receiver, &expr.more)?;
    Ok(())
}
