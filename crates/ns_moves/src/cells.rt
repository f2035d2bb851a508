//! New cells as values.

ghost use Rattle.ns_moves.specs.Blocks as spec;
ghost use Rattle.ns_moves.specs.Room.{HasCellRoom, SameRest};
ghost use Rattle.ns_moves.specs.Running.{activation_at};
ghost use Rattle.ns_moves.specs.StatedAnswers.{AnswersAs};

use crate::control::Answer;
use crate::running::Running;
use ns_world::cell::NewCell;
use ns_world::ending::{Fault, LimitKind};
use ns_world::value::Value;
use ns_world::world::World;

/// A block of a body that stands in the running one, over its environment; the limit on cells
/// exactly where it doesn't fit.
#[inline]
pub fn new_block(world: &mut World, running: Running, body: u32) -> Answer
    requires room { HasCellRoom world.old }
    ensures answer { AnswersAs result world.old world.new (λ site. spec.new_block (activation_at site running) body) }
    ensures rest { SameRest world.old world.new }
{
    match world.make(NewCell::Block {
        body,
        env: running.env,
        home: running.home,
        receiver: running.me,
        holder: running.holder,
    }) {
        Ok(number) => Ok(Value::Ref(number)),
        Err(_) => Err(Fault::Limit(LimitKind::Cells)),
    }
}

/// A new text of these bytes; the limit on cells exactly where it doesn't fit.
pub fn new_text(world: &mut World, bytes: &[u8]) -> Answer
    requires room { HasCellRoom world.old }
    ensures answer { AnswersAs result world.old world.new (λ site. spec.new_text bytes.now) }
    ensures rest { SameRest world.old world.new }
{
    match world.make_text(b"".as_slice(), bytes) {
        Ok(number) => Ok(Value::Ref(number)),
        Err(_) => Err(Fault::Limit(LimitKind::Cells)),
    }
}

/// A new array of these elements; the limit on cells exactly where it doesn't fit.
pub fn new_array(world: &mut World, items: &[Value]) -> Answer
    requires room { HasCellRoom world.old }
    ensures answer { AnswersAs result world.old world.new (λ site. spec.new_array items.now) }
    ensures rest { SameRest world.old world.new }
{
    match world.make_array(items) {
        Ok(number) => Ok(Value::Ref(number)),
        Err(_) => Err(Fault::Limit(LimitKind::Cells)),
    }
}
