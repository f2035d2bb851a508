//! The selectors that a mirror shows.

ghost use Rattle.std.specs.Prelude.{◌≡◌, ◌≢◌, ◌+◌, ◌<◌, ◌≤◌, ◌^◌, [], ◌∷◌, length, IsTrue};
ghost use Rattle.ns_world.specs.Heap.{open_words_at, find_cell, is_class, no_class};
ghost use Rattle.ns_world.specs.Cell.{ArrayCell};
ghost use Rattle.ns_kdata.specs.Arguments.{CellIsThere};
ghost use Rattle.ns_kdata.specs.Outcome.{Gives, making};
ghost use Rattle.ns_mirror.specs.Arrays.{listed};
ghost use Rattle.ns_mirror.specs.Selectors as spec;
ghost use Rattle.ns_mirror.specs.Looking as looking;
ghost use Rattle.ns_code.specs.Fits.{Fits};

use crate::arrays::new_array;
use ns_code::class::MethodCode;
use ns_code::program::CodeProgram;
use ns_kdata::arguments::shape_of_value;
use ns_world::cell::NewCell;
use ns_world::ending::Fault;
use ns_world::kernel::NO_CLASS;
use ns_world::value::Value;
use ns_world::world::World;

/// `selectors`: an array of the public methods of the declaration of an object's class, or of the
/// class side where a class is mirrored, as symbols in text order; empty for kernel values.
pub fn selectors(world: &mut World, code: &CodeProgram, value: Value) -> Result<Value, Fault>
    requires room { world.old.world.limits.cells ≤ world.old.cell_room }
    requires there { CellIsThere world.old.world.cells value }
    requires class { looking.object_class world.old.world.cells value ≢ no_class →
        IsTrue (is_class (find_cell world.old.world.cells (looking.object_class world.old.world.cells value))) }
    requires fits { Fits code.now }
    ensures { Gives (spec.selectors world.old.world code.now value) world.old result world.new }
{
    let shape = shape_of_value(world, value);
    list_selectors(world, methods_of_shape(world, code, shape))
}

/// The methods of an object's declaration, or those of the class side of a class.
fn methods_of_shape<'a>(world: &World, code: &'a CodeProgram, shape: NewCell) -> &'a [MethodCode]
    requires class { looking.object_class_in shape ≢ no_class → IsTrue (is_class (find_cell world.now.world.cells (looking.object_class_in shape))) }
    ensures { result.now ≡ spec.methods_of_shape world.now.world.cells code.now shape }
{
    match shape {
        NewCell::Object { class, .. } => methods_of_class(world, code, class),
        NewCell::Class { decl, .. } => declared_side_methods(code, decl),
        _ => &[],
    }
}

/// The methods of a class, none for the number of no class.
fn methods_of_class<'a>(world: &World, code: &'a CodeProgram, class: u32) -> &'a [MethodCode]
    requires { class ≢ no_class → IsTrue (is_class (find_cell world.now.world.cells class)) }
    ensures { result.now ≡ spec.methods_of_class world.now.world.cells code.now class }
{
    if class == NO_CLASS {
        return &[];
    }
    declared_methods(code, world.declaration(class))
}

/// The methods of a declaration.
fn declared_methods(code: &CodeProgram, decl: u32) -> &[MethodCode]
    ensures { result.now ≡ spec.declared_methods code.now decl }
{
    match code.classes.as_slice().get(decl as usize) {
        Some(class) => class.methods.as_slice(),
        None => &[],
    }
}

/// The methods of a declaration's class side.
fn declared_side_methods(code: &CodeProgram, decl: u32) -> &[MethodCode]
    ensures { result.now ≡ spec.declared_side_methods code.now decl }
{
    match code.classes.as_slice().get(decl as usize) {
        Some(class) => class.side_methods.as_slice(),
        None => &[],
    }
}

/// A new array of the selectors of the public methods.
pub fn list_selectors(world: &mut World, methods: &[MethodCode]) -> Result<Value, Fault>
    requires room { world.old.world.limits.cells ≤ world.old.cell_room }
    requires few { length methods.now < 2 ^ 16 }
    ensures { Gives (making world.old.world (ArrayCell (spec.public_selectors methods.now))) world.old result world.new }
{
    let to = new_array(world, public_count(methods))?;
    put_selectors(world, to, methods);
    Ok(Value::Ref(to))
}

/// How many methods are public.
fn public_count(methods: &[MethodCode]) -> u32
    requires { length methods.now < 2 ^ 16 }
    ensures { result ≡ length (spec.public_selectors methods.now) }
{
    let mut count: u32 = 0;
    'methods: for method in methods {
        if method.access == 0 {
            count += 1;
        }
    }
    count
}

/// Writes the selectors of the public methods into an array.
fn put_selectors(world: &mut World, to: u32, methods: &[MethodCode])
    requires inside { length (spec.public_selectors methods.now) ≤ length (open_words_at world.old.world.cells to) }
    requires few { length methods.now < 2 ^ 16 }
    ensures { world.new ≡ listed world.old to 0 (spec.public_selectors methods.now) }
{
    let mut at: u32 = 0;
    'methods: for method in methods {
        at = put_selector(world, to, at, *method);
    }
}

/// Writes the selector of a public method, and gives the place behind it.
fn put_selector(world: &mut World, to: u32, at: u32, method: MethodCode) -> u32
    requires inside { at + length (spec.public_selectors (method ∷ [])) ≤ length (open_words_at world.old.world.cells to) }
    requires few { at < 2 ^ 16 }
    ensures world { world.new ≡ listed world.old to at (spec.public_selectors (method ∷ [])) }
    ensures place { result ≡ at + length (spec.public_selectors (method ∷ [])) }
{
    if method.access != 0 {
        return at;
    }
    world.write(to, at, Value::Sym(method.sel));
    at + 1
}
