//! The text of a value.

ghost use Rattle.std.specs.Prelude.{◌≡◌, ◌∷◌, ◌++◌, [], codes, IfOk, OnOk, IsTrue};
ghost use Rattle.ns_world.specs.declared.value.Value.TheVariants.{Ref, Sym};
ghost use Rattle.ns_world.specs.Lawful.{IsLawful, IsLiveValue};
ghost use Rattle.ns_world.specs.Starts.{is_receiver, has_class, start_of, class_name_of};
ghost use Rattle.ns_kdata.specs.Arguments.{CellIsThere, bytes_of};
ghost use Rattle.ns_base.specs.Quoted.{doubled, quoted};
ghost use Rattle.ns_mirror.specs.Naming.{class_text, declared_text};
ghost use Rattle.ns_moves.specs.Report as spec;

use crate::output::{put, put_class, put_signed};
use ns_base::no_memory::NoMemory;
use ns_base::selector::Sel;
use ns_base::text::Text;
use ns_code::program::CodeProgram;
use ns_kdata::arguments::{is_text, text_byte, text_size};
use ns_mirror::naming::declared_text;
use ns_world::value::{KClass, Value};
use ns_world::world::World;
use std::alloc::Global;

/// The text of a value: a string in quotes, a class by its name, and any other object by the name
/// of its class.
pub fn value_text(
    alloc: Global,
    world: &World,
    code: &CodeProgram,
    value: Value,
) -> Result<Text, NoMemory>
    requires lawful { IsLawful world.now.world code.now }
    requires live { IsLiveValue world.now.world.cells code.now value }
    ensures { IfOk result (λ text. text ≡ spec.value_text world.now.world.cells code.now value) }
{
    let mut text = Vec::new(alloc);
    put_value(&mut text, world, code, value)?;
    Ok(Text::from_vec(text))
}

/// Puts the text of a value behind the bytes that are there.
pub fn put_value(
    out: &mut Vec<u8>,
    world: &World,
    code: &CodeProgram,
    value: Value,
) -> Result<(), NoMemory>
    requires lawful { IsLawful world.now.world code.now }
    requires live { IsLiveValue world.now.world.cells code.now value }
    ensures { OnOk result (out.new.items ≡ out.old.items ++ spec.value_text world.now.world.cells code.now value) }
{
    match value {
        Value::Nil => put(out, b"nil".as_slice()),
        Value::True => put(out, b"true".as_slice()),
        Value::False => put(out, b"false".as_slice()),
        Value::Int(number) => put_signed(out, number),
        Value::Sym(sel) => put_symbol(out, code, sel),
        Value::Kernel(class) => put(out, kernel_class_text(class)),
        Value::Ref(at) => put_cell(out, world, code, at),
    }
}

/// Puts a Symbol.
fn put_symbol(out: &mut Vec<u8>, code: &CodeProgram, sel: Sel) -> Result<(), NoMemory>
    ensures { OnOk result (out.new.items ≡ out.old.items ++ spec.value_text [] code.now (Sym sel)) }
{
    put(out, b"#".as_slice())?;
    put(out, code.selector_text(sel))
}

/// The text of a class object of the kernel.
fn kernel_class_text(class: KClass) -> &'static [u8]
    ensures { result.now ≡ spec.kernel_class_text class }
{
    match class {
        KClass::Object => b"class Object".as_slice(),
        KClass::Array => b"class Array".as_slice(),
    }
}

/// Puts the text of a cell that is no environment.
fn put_cell(out: &mut Vec<u8>, world: &World, code: &CodeProgram, at: u32) -> Result<(), NoMemory>
    requires lawful { IsLawful world.now.world code.now }
    requires live { IsLiveValue world.now.world.cells code.now (Ref at) }
    ensures { OnOk result (out.new.items ≡ out.old.items ++ spec.value_text world.now.world.cells code.now (Ref at)) }
{
    let value = Value::Ref(at);
    if is_text(world, value) {
        return put_quoted(out, world, value);
    }
    if world.is_class(at) {
        return put_class_object(out, code, world.declaration(at));
    }
    put_object(out, world, code, at)
}

/// Puts a class by its name.
fn put_class_object(out: &mut Vec<u8>, code: &CodeProgram, decl: u32) -> Result<(), NoMemory>
    ensures { OnOk result (out.new.items ≡ out.old.items ++ (codes "class " ++ declared_text code.now decl)) }
{
    put(out, b"class ".as_slice())?;
    put(out, declared_text(code, decl))
}

/// Puts an object by the name of its class.
fn put_object(out: &mut Vec<u8>, world: &World, code: &CodeProgram, at: u32) -> Result<(), NoMemory>
    requires receiver { IsTrue (is_receiver world.now.world.cells (Ref at)) }
    requires class { IsTrue (has_class world.now.world.cells (start_of world.now.world.cells (Ref at))) }
    ensures { OnOk result (out.new.items ≡ out.old.items ++ (codes "object " ++ class_text code.now
        (class_name_of world.now.world.cells (Ref at)))) }
{
    put(out, b"object ".as_slice())?;
    put_class(out, code, world.class_name(world.start(Value::Ref(at))))
}

/// Puts a String in quotes, with inner quotes doubled.
fn put_quoted(out: &mut Vec<u8>, world: &World, text: Value) -> Result<(), NoMemory>
    requires { CellIsThere world.now.world.cells text }
    ensures { OnOk result (out.new.items ≡ out.old.items ++ quoted (bytes_of world.now.world.cells text)) }
{
    put(out, b"'".as_slice())?;
    put_doubled(out, world, text)?;
    put(out, b"'".as_slice())
}

/// Puts the bytes of a String, with each quote doubled.
fn put_doubled(out: &mut Vec<u8>, world: &World, text: Value) -> Result<(), NoMemory>
    requires { CellIsThere world.now.world.cells text }
    ensures { OnOk result (out.new.items ≡ out.old.items ++ doubled (bytes_of world.now.world.cells text)) }
{
    'bytes: for place in 0..text_size(world, text) {
        let byte = text_byte(world, text, place);
        put_twice_if_quote(out, byte)?;
    }
    Ok(())
}

/// Puts a byte, a quote twice.
fn put_twice_if_quote(out: &mut Vec<u8>, byte: u8) -> Result<(), NoMemory>
    ensures { OnOk result (out.new.items ≡ out.old.items ++ doubled (byte ∷ [])) }
{
    if byte == b'\'' {
        out.push(b'\'')?;
    }
    out.push(byte)?;
    Ok(())
}
