//! Frames of the methods of the kernel.

ghost use Rattle.std.specs.Prelude.{◌≡◌, true};
ghost use Rattle.std.specs.Option.{option_map_or};
ghost use Rattle.ns_world.specs.Booleans as booleans;
ghost use Rattle.ns_moves.specs.Blocks as blocks;
ghost use Rattle.ns_moves.specs.Fitting as fitting;
ghost use Rattle.ns_frozen.specs.Frames as spec;
ghost use Rattle.ns_frozen.specs.Live as live;
ghost use Rattle.ns_frozen_valid.specs.Kernel as own;
ghost use Rattle.ns_frozen_seen.specs.Seen.{IsSeen, heap_of};

use ns_frozen::frame::FrozenFrame;
use ns_frozen_seen::plain::{is_nil, same_value};
use ns_frozen_seen::seen::Seen;
use ns_frozen_tables::bodies::NO_HOME;
use ns_kcode::state::KState;
use ns_world::kernel::NO_CLASS;
use ns_world::kernel_parts::KMethod;
use ns_world::value::Value;

/// Whether the state of a method of the kernel is one that it can have.
pub fn is_state(seen: &Seen<'_>, method: KMethod, state: KState) -> bool
    requires { IsSeen seen.now }
    ensures { result ≡ spec.is_state seen.now.code.now (heap_of seen.now) method state }
{
    has_live_values(seen, state) && has_method(seen, method, state)
}

/// Whether all values of a state are live.
fn has_live_values(seen: &Seen<'_>, state: KState) -> bool
    requires { IsSeen seen.now }
    ensures { result ≡ own.has_live_values seen.now.code.now (heap_of seen.now) state }
{
    seen.is_live(state.receiver)
        && seen.is_live(state.first)
        && seen.is_live(state.second)
        && is_live_or_none(seen, state.last)
}

/// Whether a value is live, where there is one.
fn is_live_or_none(seen: &Seen<'_>, value: Option<Value>) -> bool
    requires { IsSeen seen.now }
    ensures { result ≡ option_map_or (live.is_live seen.now.code.now (heap_of seen.now)) value true }
{
    match value {
        Some(value) => seen.is_live(value),
        None => true,
    }
}

/// Whether a state has what its method asks for: a receiver, arguments and counts.
fn has_method(seen: &Seen<'_>, method: KMethod, state: KState) -> bool
    requires { IsSeen seen.now }
    ensures { result ≡ own.has_method (heap_of seen.now) method state }
{
    belongs_to(seen, state.receiver, method)
        && has_arguments(seen, method, state.first, state.second)
        && counts_fit(seen, state, method)
}

/// Whether a receiver is of the kind to which a method of the kernel belongs.
fn belongs_to(seen: &Seen<'_>, receiver: Value, method: KMethod) -> bool
    requires { IsSeen seen.now }
    ensures { result ≡ fitting.belongs_to (heap_of seen.now) receiver method }
{
    match method {
        KMethod::WhileTrue | KMethod::WhileFalse => seen.is_block(receiver),
        KMethod::ToDo | KMethod::TimesRepeat => is_integer(receiver),
        KMethod::Do => seen.is_array(receiver),
        KMethod::And
        | KMethod::Or
        | KMethod::IfTrue
        | KMethod::IfFalse
        | KMethod::IfTrueIfFalse
        | KMethod::IfFalseIfTrue => is_boolean(receiver),
    }
}

/// Whether the arguments are those that a method asks for.
fn has_arguments(seen: &Seen<'_>, method: KMethod, first: Value, second: Value) -> bool
    requires { IsSeen seen.now }
    ensures { result ≡ blocks.has_arguments (heap_of seen.now) method first second }
{
    match method {
        KMethod::IfTrueIfFalse | KMethod::IfFalseIfTrue => {
            seen.is_block(first) && seen.is_block(second)
        }
        KMethod::ToDo => is_integer(first) && seen.is_block(second),
        _ => seen.is_block(first),
    }
}

/// Whether the counts of `do:` are within its array.
fn counts_fit(seen: &Seen<'_>, state: KState, method: KMethod) -> bool
    requires { IsSeen seen.now }
    ensures { result ≡ fitting.counts_fit (heap_of seen.now) state method }
{
    match method {
        KMethod::Do => counts_within(state, seen.item_count(state.receiver)),
        _ => true,
    }
}

/// Whether the counts of a state are within so many elements.
fn counts_within(state: KState, count: usize) -> bool
    ensures { result ≡ own.counts_within state count }
{
    i128::from(state.size) == count as i128 && 0 <= state.count && state.count <= state.size
}

/// Whether a value is an Integer.
fn is_integer(value: Value) -> bool
    ensures { result ≡ blocks.is_integer value }
{
    match value {
        Value::Int(_) => true,
        _ => false,
    }
}

/// Whether a value is a Boolean.
fn is_boolean(value: Value) -> bool
    ensures { result ≡ booleans.is_boolean value }
{
    match value {
        Value::True => true,
        Value::False => true,
        _ => false,
    }
}

/// Whether a frame of such a method has nothing but its state.
pub fn is_looping(frame: &FrozenFrame, state: KState) -> bool
    ensures { result ≡ spec.is_looping frame.now state }
{
    same_value(frame.receiver, state.receiver) && has_no_place(frame) && has_no_values(frame)
}

/// Whether a frame has no instruction, holder and home.
fn has_no_place(frame: &FrozenFrame) -> bool
    ensures { result ≡ own.has_no_place frame.now }
{
    frame.instr == 0 && frame.holder == NO_CLASS && frame.home == NO_HOME
}

/// Whether a frame has no environment, locals and operands.
fn has_no_values(frame: &FrozenFrame) -> bool
    ensures { result ≡ own.has_no_values frame.now }
{
    is_nil(frame.env) && frame.locals.as_slice().is_empty() && frame.operands.as_slice().is_empty()
}
