//! The next action of each method.

ghost use Rattle.std.specs.Prelude.{◌≡◌};
ghost use Rattle.ns_kcode.specs.Next.{next, evaluate, value_of, and_next, or_next, if_true_next, if_false_next, choice_next, tested, while_turn};
ghost use Rattle.ns_kcode.specs.Next.{while_true_next, while_false_next, to_do_next, times_next, do_next};

use crate::state::{KAction, KState};
use ns_world::ending::Kind;
use ns_world::kernel_parts::KMethod;
use ns_world::value::Value;

/// What a method does next in a state. It answers for every state, whatever numbers it has.
#[inline(always)]
pub fn next(method: KMethod, state: KState) -> KAction
    ensures { result ≡ next method state }
{
    let KState {
        receiver,
        first,
        second,
        size,
        count,
        last,
    } = state;
    match method {
        KMethod::And => and_next(receiver, first, last),
        KMethod::Or => or_next(receiver, first, last),
        KMethod::IfTrue => if_true_next(receiver, first, last),
        KMethod::IfFalse => if_false_next(receiver, first, last),
        KMethod::IfTrueIfFalse => choice_next(receiver, first, second, last),
        KMethod::IfFalseIfTrue => choice_next(receiver, second, first, last),
        KMethod::WhileTrue => while_true_next(receiver, first, tested(count, last)),
        KMethod::WhileFalse => while_false_next(receiver, first, tested(count, last)),
        KMethod::ToDo => to_do_next(receiver, first, second, count),
        KMethod::TimesRepeat => times_next(receiver, first, count),
        KMethod::Do => do_next(receiver, first, size, count),
    }
}

/// Evaluates a block without an argument, which begins no turn.
#[inline(always)]
fn evaluate(block: Value) -> KAction
    ensures { result ≡ evaluate block }
{
    KAction::Evaluate {
        block,
        arg: None,
        turn: false,
        count: 1,
    }
}

/// Evaluates the chosen block, and answers its value then.
#[inline(always)]
fn value_of(block: Value, last: Option<Value>) -> KAction
    ensures { result ≡ value_of block last }
{
    match last {
        None => evaluate(block),
        Some(value) => KAction::Answer(value),
    }
}

/// `and:`: the block decides where the receiver is true.
#[inline(always)]
fn and_next(receiver: Value, block: Value, last: Option<Value>) -> KAction
    ensures { result ≡ and_next receiver block last }
{
    match receiver {
        Value::True => value_of(block, last),
        _ => KAction::Answer(receiver),
    }
}

/// `or:`: the block decides where the receiver is false.
#[inline(always)]
fn or_next(receiver: Value, block: Value, last: Option<Value>) -> KAction
    ensures { result ≡ or_next receiver block last }
{
    match receiver {
        Value::False => value_of(block, last),
        _ => KAction::Answer(receiver),
    }
}

/// `ifTrue:`: nil where the block isn't evaluated.
#[inline(always)]
fn if_true_next(receiver: Value, block: Value, last: Option<Value>) -> KAction
    ensures { result ≡ if_true_next receiver block last }
{
    match receiver {
        Value::True => value_of(block, last),
        _ => KAction::Answer(Value::Nil),
    }
}

/// `ifFalse:`: nil where the block isn't evaluated.
#[inline(always)]
fn if_false_next(receiver: Value, block: Value, last: Option<Value>) -> KAction
    ensures { result ≡ if_false_next receiver block last }
{
    match receiver {
        Value::False => value_of(block, last),
        _ => KAction::Answer(Value::Nil),
    }
}

/// `ifTrue:ifFalse:`, and with its blocks exchanged `ifFalse:ifTrue:`.
#[inline(always)]
fn choice_next(receiver: Value, chosen: Value, otherwise: Value, last: Option<Value>) -> KAction
    ensures { result ≡ choice_next receiver chosen otherwise last }
{
    match receiver {
        Value::True => value_of(chosen, last),
        _ => value_of(otherwise, last),
    }
}

/// What a loop's receiver answered, where that was evaluated last.
#[inline(always)]
fn tested(count: i64, last: Option<Value>) -> Option<Value>
    ensures { result ≡ tested count last }
{
    if count == 0 { None } else { last }
}

/// Begins a turn of a while loop.
#[inline(always)]
fn while_turn(block: Value) -> KAction
    ensures { result ≡ while_turn block }
{
    KAction::Evaluate {
        block,
        arg: None,
        turn: true,
        count: 0,
    }
}

/// `whileTrue:`: a turn after each true of the receiver, nil after false.
#[inline(always)]
fn while_true_next(receiver: Value, block: Value, tested: Option<Value>) -> KAction
    ensures { result ≡ while_true_next receiver block tested }
{
    match tested {
        None => evaluate(receiver),
        Some(Value::True) => while_turn(block),
        Some(Value::False) => KAction::Answer(Value::Nil),
        Some(_) => KAction::Fail(Kind::MustBeBoolean),
    }
}

/// `whileFalse:`: a turn after each false of the receiver, nil after true.
#[inline(always)]
fn while_false_next(receiver: Value, block: Value, tested: Option<Value>) -> KAction
    ensures { result ≡ while_false_next receiver block tested }
{
    match tested {
        None => evaluate(receiver),
        Some(Value::False) => while_turn(block),
        Some(Value::True) => KAction::Answer(Value::Nil),
        Some(_) => KAction::Fail(Kind::MustBeBoolean),
    }
}

/// `to:do:`: a turn with each number from the receiver to the end. No sum passes the end.
#[inline(always)]
fn to_do_next(receiver: Value, end: Value, block: Value, count: i64) -> KAction
    ensures { result ≡ to_do_next receiver end block count }
{
    match (receiver, end) {
        (Value::Int(start), Value::Int(end)) => match start.checked_add(count) {
            Some(number) if number <= end => KAction::Evaluate {
                block,
                arg: Some(Value::Int(number)),
                turn: true,
                count: count.saturating_add(1),
            },
            _ => KAction::Answer(receiver),
        },
        _ => KAction::Answer(receiver),
    }
}

/// `timesRepeat:`: so many turns as the receiver says, none below 1.
#[inline(always)]
fn times_next(receiver: Value, block: Value, count: i64) -> KAction
    ensures { result ≡ times_next receiver block count }
{
    match receiver {
        Value::Int(times) if count < times => KAction::Evaluate {
            block,
            arg: None,
            turn: true,
            count: count + 1,
        },
        _ => KAction::Answer(receiver),
    }
}

/// `do:`: a turn for each element.
#[inline(always)]
fn do_next(receiver: Value, block: Value, size: i64, count: i64) -> KAction
    ensures { result ≡ do_next receiver block size count }
{
    if count < size {
        KAction::EvaluateItem {
            block,
            item: count,
            count: count + 1,
        }
    } else {
        KAction::Answer(receiver)
    }
}
