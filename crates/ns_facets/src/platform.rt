//! The rows of Manifest and of Platform.

ghost use Rattle.std.specs.Prelude.{◌≡◌, ◌<◌, ◌≤◌, length};
ghost use Rattle.ns_facets.specs.Platform as spec;

use ns_base::selector::Sel;
use ns_code::program::CodeProgram;
use ns_world::cell::FacetKind;
use ns_world::value::Value;
use ns_world::world::World;

/// The top-level class of that name, the first of it.
pub fn top_class(world: &World, code: &CodeProgram, sel: Sel) -> Value
    requires { length code.now.classes ≤ 4096 }
    ensures { result ≡ spec.top_class world.now.world.cells 0 code.now.classes sel }
{
    let mut number: u32 = 0;
    'classes: for class in code.classes.as_slice() {
        if sel.0 == class.name.0 && class.outer.is_none() {
            return cell_value(world.top(number));
        }
        number += 1;
    }
    Value::Nil
}

/// The facet of that kind.
pub fn granted(world: &World, kind: FacetKind) -> Value
    ensures { result ≡ spec.granted world.now.world.cells kind }
{
    cell_value(world.granted(kind))
}

/// The cell of that number, nil where there is none.
fn cell_value(number: Option<u32>) -> Value
    ensures { result ≡ spec.cell_value number }
{
    match number {
        Some(at) => Value::Ref(at),
        None => Value::Nil,
    }
}
