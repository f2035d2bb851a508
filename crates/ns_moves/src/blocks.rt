//! The evaluation of blocks.

ghost use Rattle.ns_world.specs.declared.cell.NewCell.TheVariants as new;
ghost use Rattle.ns_kdata.specs.Arguments.{CellIsThere};
ghost use Rattle.ns_moves.specs.Blocks as spec;
ghost use Rattle.ns_moves.specs.Plain.{IsPlain};
ghost use Rattle.ns_moves.specs.Room.{HasCellRoom, SameRest};
ghost use Rattle.ns_moves.specs.StatedAnswers.{ReachesAs};

use crate::bodies::enter_body;
use crate::control::{Exit, Given, Reached};
use crate::running::{Running, parameters};
use ns_code::program::CodeProgram;
use ns_kdata::arguments::shape_of_value;
use ns_world::cell::NewCell;
use ns_world::ending::{Fault, Kind};
use ns_world::value::Value;
use ns_world::world::World;

/// Evaluates a block with these arguments: WrongKind where the value is none, WrongArity where it
/// takes more or fewer; then the limit on steps, depth or cells exactly where its step, its frame or
/// its environment doesn't fit.
#[inline(always)]
pub fn evaluate(world: &mut World, code: &CodeProgram, block: Value, arguments: &[Value]) -> Reached
    requires room { HasCellRoom world.old }
    requires block { CellIsThere world.old.world.cells block }
    ensures reached { ReachesAs code.now arguments.now result world.old world.new (spec.evaluated code.now block arguments.now) }
    ensures rest { SameRest world.old world.new }
    ensures plain { IsPlain result }
{
    enter_block(world, code, shape_of_value(world, block), arguments)
}

/// The same, by the block's cell.
#[inline(always)]
fn enter_block(world: &mut World, code: &CodeProgram, cell: NewCell, arguments: &[Value]) -> Reached
    requires room { HasCellRoom world.old }
    ensures reached { ReachesAs code.now arguments.now result world.old world.new (spec.block_entered code.now cell arguments.now) }
    ensures rest { SameRest world.old world.new }
    ensures plain { IsPlain result }
{
    match cell {
        NewCell::Block {
            body,
            env,
            home,
            receiver,
            holder,
        } => step_in(
            world,
            code,
            Running {
                me: receiver,
                holder,
                body,
                home,
                env,
            },
            arguments,
        ),
        _ => Reached::Fails(Fault::Kind(Kind::WrongKind)),
    }
}

/// The same, by what the block runs in.
#[inline(always)]
fn step_in(world: &mut World, code: &CodeProgram, running: Running, arguments: &[Value]) -> Reached
    requires room { HasCellRoom world.old }
    ensures reached { ReachesAs code.now arguments.now result world.old world.new
        (spec.block_entered code.now (new.Block running.body running.env running.home running.me running.holder) arguments.now) }
    ensures rest { SameRest world.old world.new }
    ensures plain { IsPlain result }
{
    if arguments.len() != usize::from(parameters(code, running.body)) {
        return Reached::Fails(Fault::Kind(Kind::WrongArity));
    }
    match world.step() {
        Ok(()) => enter_body(world, code, Exit::Body, running, Given::Listed, arguments),
        Err(limit) => Reached::Fails(Fault::Limit(limit)),
    }
}
