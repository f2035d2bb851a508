//! The texts of the arguments of a run.

ghost use Rattle.std.specs.Prelude.{◌≡◌, ◌≤◌, ◌∷◌, [], length, map, OnOk, IfOk};
ghost use Rattle.std.specs.Vec.{vec_capacity};
ghost use Rattle.ns_world.specs.Cell.{TextCell};
ghost use Rattle.ns_world.specs.Heap.{heap_size};
ghost use Rattle.ns_moves.specs.Room.{HasCellRoom};
ghost use Rattle.ns_machine_start.specs.Making.{CellsAreMade, referring, unnumbered};

use ns_base::text::Text;
use ns_world::cell::CellLimit;
use ns_world::value::Value;
use ns_world::world::World;

/// Makes the texts of arguments, and lists what refers to them, for which there is room.
pub fn make_texts(
    world: &mut World,
    texts: &[Text],
    values: &mut Vec<Value>,
) -> Result<(), CellLimit>
    requires room { HasCellRoom world.old }
    requires none { values.old.items ≡ [] }
    requires enough { length texts.now ≤ vec_capacity values.old }
    ensures makes { CellsAreMade (map TextCell texts.now) world.old result world.new }
    ensures listed { OnOk result (values.new.items ≡ referring (heap_size world.old.world.cells) texts.now) }
{
    'texts: for text in texts {
        let number = make_text(world, text)?;
        values.push_reserved(Value::Ref(number));
    }
    Ok(())
}

/// Makes the text of an argument.
fn make_text(world: &mut World, text: &Text) -> Result<u32, CellLimit>
    requires room { HasCellRoom world.old }
    ensures number { IfOk result (λ number. number ≡ heap_size world.old.world.cells) }
    ensures makes { CellsAreMade (TextCell text.now ∷ []) world.old (unnumbered result) world.new }
{
    world.make_text(b"".as_slice(), text.bytes())
}
