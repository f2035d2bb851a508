//! The Message with which a send goes on that found nothing.

ghost use Rattle.std.specs.Prelude.{◌≡◌, IfOk};
ghost use Rattle.ns_code.specs.declared.program.CodeProgram.{CodeProgram};
ghost use Rattle.ns_world.specs.Lawful.{IsLawful};
ghost use Rattle.ns_moves.specs.declared.site.Site.{Site};
ghost use Rattle.ns_moves.specs.Control.{Progress, in_world};
ghost use Rattle.ns_moves.specs.Lawful.{FitsSelector};
ghost use Rattle.ns_moves.specs.Suits.{Follows};
ghost use Rattle.ns_moves.specs.Room.{HasCellRoom, SameRest};
ghost use Rattle.ns_moves.specs.Wrapping.{wrapped, message_shown};

use crate::finding::messages_follow;
use ns_base::selector::Sel;
use ns_world::cell::NewCell;
use ns_world::ending::{Fault, LimitKind};
use ns_world::value::Value;
use ns_world::world::World;

/// Makes the Message of a selector and these arguments, which stand in an array of its own; the
/// limit on cells exactly where the array or the Message doesn't fit.
pub fn make_message(world: &mut World, sel: Sel, values: &[Value]) -> Result<u32, Fault>
    requires room { HasCellRoom world.old }
    ensures message { (site : Site) (rest : Progress) →
        message_shown site result (in_world rest world.new.world) ≡ wrapped sel values.now (in_world rest world.old.world) }
    ensures follows { (code : CodeProgram) → IsLawful world.old.world code → FitsSelector world.old.world.cells code sel values.now →
        IfOk result (λ at. Follows code world.old.world world.new.world) }
    ensures rest { SameRest world.old world.new }
{
    messages_follow();
    match world.make_array(values) {
        Ok(array) => match world.make(NewCell::Message {
            sel,
            args: Value::Ref(array),
        }) {
            Ok(number) => Ok(number),
            Err(_) => Err(Fault::Limit(LimitKind::Cells)),
        },
        Err(_) => Err(Fault::Limit(LimitKind::Cells)),
    }
}
