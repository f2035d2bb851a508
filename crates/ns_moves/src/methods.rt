//! The methods of the kernel that evaluate blocks, one action at a time.

ghost use Rattle.std.specs.Prelude.{◌≡◌, ◌<◌};
ghost use Rattle.ns_kdata.specs.Arguments.{CellIsThere};
ghost use Rattle.ns_moves.specs.Blocks as spec;
ghost use Rattle.ns_moves.specs.Control.{Waits};
ghost use Rattle.ns_moves.specs.Room.{SameRest};
ghost use Rattle.ns_moves.specs.StatedAnswers.{WaitsAs};

use crate::control::Answer;
use ns_kcode::next::next;
use ns_kcode::state::{KAction, KState};
use ns_kdata::arguments::{array_item, array_size};
use ns_world::ending::Fault;
use ns_world::kernel_parts::KMethod;
use ns_world::value::Value;
use ns_world::world::World;

/// What a method of the kernel does next: it waits in a state for the value of a block, which is
/// evaluated with an argument if there is one; or it ends, with a value or by a fault.
#[derive(Clone, Copy)]
pub enum Waited {
    Evaluates {
        block: Value,
        argument: Option<Value>,
        state: KState,
    },
    Ends(Answer),
}

/// The next action of a method of the kernel: a turn charges its step, the limit on steps exactly
/// where that doesn't fit; an answer gives the frame back.
#[inline(always)]
pub fn method_next(world: &mut World, method: KMethod, state: KState) -> Waited
    requires depth { 0 < world.old.world.depth }
    requires receiver { CellIsThere world.old.world.cells state.receiver }
    ensures waited { WaitsAs result world.old world.new (spec.method_next method state) }
    ensures rest { SameRest world.old world.new }
{
    act(world, next(method, state), state)
}

/// An action of a method of the kernel.
#[inline(always)]
pub fn act(world: &mut World, action: KAction, state: KState) -> Waited
    requires depth { 0 < world.old.world.depth }
    requires receiver { CellIsThere world.old.world.cells state.receiver }
    ensures waited { WaitsAs result world.old world.new (spec.acted action state) }
    ensures rest { SameRest world.old world.new }
{
    match action {
        KAction::Evaluate {
            block,
            arg,
            turn,
            count,
        } => evaluate(world, block, arg, turn, waiting(state, count)),
        KAction::EvaluateItem { block, item, count } => {
            let argument = item_at(world, state.receiver, item);
            evaluate(world, block, Some(argument), true, waiting(state, count))
        }
        KAction::Answer(value) => {
            world.leave();
            Waited::Ends(Ok(value))
        }
        KAction::Fail(kind) => Waited::Ends(Err(Fault::Kind(kind))),
    }
}

/// Begins the evaluation of a block, with the step of a turn where one begins.
#[inline(always)]
fn evaluate(
    world: &mut World,
    block: Value,
    argument: Option<Value>,
    turn: bool,
    state: KState,
) -> Waited
    ensures waited { WaitsAs result world.old world.new (λ site progress. spec.turned turn progress
        (Waits block (spec.listed argument) state)) }
    ensures rest { SameRest world.old world.new }
{
    if turn {
        return match world.step() {
            Ok(()) => Waited::Evaluates {
                block,
                argument,
                state,
            },
            Err(limit) => Waited::Ends(Err(Fault::Limit(limit))),
        };
    }
    Waited::Evaluates {
        block,
        argument,
        state,
    }
}

/// The state of a method while a block is evaluated.
#[inline(always)]
fn waiting(state: KState, count: i64) -> KState
    ensures { result ≡ spec.waiting state count }
{
    KState {
        count,
        last: None,
        ..state
    }
}

/// The element of an array as it is now, nil where there is none.
#[inline(always)]
fn item_at(world: &World, array: Value, item: i64) -> Value
    requires { CellIsThere world.now.world.cells array }
    ensures { result ≡ spec.item_at world.now.world.cells array item }
{
    let place = item.unsigned_abs();
    if place < u64::from(array_size(world, array)) {
        return array_item(world, array, place as u32);
    }
    Value::Nil
}
