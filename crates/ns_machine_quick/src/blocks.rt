//! Whether arguments are the blocks that a method of the kernel asks for, by the first word of each.

ghost use Rattle.std.specs.Prelude.{◌≡◌};
ghost use Rattle.ns_world.specs.Head.{head_of_shape};
ghost use Rattle.ns_kdata.specs.Arguments.{CellIsThere, shape_of_value};
ghost use Rattle.ns_moves.specs.Blocks as moves;
ghost use Rattle.ns_machine_quick.specs.Blocks as spec;

use ns_moves::begin::is_integer;
use ns_world::head::Head;
use ns_world::kernel_parts::KMethod;
use ns_world::value::Value;
use ns_world::world::World;

/// Whether the arguments are those that a method asks for.
#[inline(always)]
pub fn has_arguments(world: &World, method: KMethod, first: Value, second: Value) -> bool
    requires first { CellIsThere world.now.world.cells first }
    requires second { CellIsThere world.now.world.cells second }
    ensures { result ≡ moves.has_arguments world.now.world.cells method first second }
{
    match method {
        KMethod::IfTrueIfFalse => are_blocks(world, first, second),
        KMethod::IfFalseIfTrue => are_blocks(world, first, second),
        KMethod::ToDo => is_integer(first) && is_block(world, second),
        _ => is_block(world, first),
    }
}

/// Whether both are Blocks.
#[inline(always)]
fn are_blocks(world: &World, first: Value, second: Value) -> bool
    requires first { CellIsThere world.now.world.cells first }
    requires second { CellIsThere world.now.world.cells second }
    ensures { result ≡ moves.are_blocks world.now.world.cells first second }
{
    is_block(world, first) && is_block(world, second)
}

/// Whether a value is a Block.
#[inline(always)]
#[tactic(auto, using(crate::proofs::Heads::block_head))]
pub fn is_block(world: &World, value: Value) -> bool
    requires { CellIsThere world.now.world.cells value }
    ensures { result ≡ moves.is_block world.now.world.cells value }
{
    is_block_head(head_of_value(world, value))
}

/// Whether a head is that of a block.
#[inline(always)]
fn is_block_head(head: Head) -> bool
    ensures { result ≡ spec.is_block_head head }
{
    match head {
        Head::Block { .. } => true,
        _ => false,
    }
}

/// The head of the cell that a value refers to; that of a mirror where it refers to none.
#[inline(always)]
fn head_of_value(world: &World, value: Value) -> Head
    requires { CellIsThere world.now.world.cells value }
    ensures { result ≡ head_of_shape (shape_of_value world.now.world.cells value) }
{
    match value {
        Value::Ref(at) => world.head(at),
        _ => Head::Mirror,
    }
}
