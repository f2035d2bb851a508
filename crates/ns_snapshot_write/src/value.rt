//! Values and the sites of sends.

ghost use Rattle.std.specs.Prelude.{◌≡◌, ◌++◌, OnOk, length};
ghost use Rattle.ns_snapshot.specs.Bytes as spec;

use crate::output::{with_byte, with_long, with_word};
use crate::part::Part;
use crate::room::{Room, TooLarge};
use crate::variant::{kernel_class, row_number};
use ns_base::no_memory::NoMemory;
use ns_base::place::Place;
use ns_frozen::plain::PlainValue;
use ns_image_write::write::output::{put_byte, put_word};
use ns_moves::site::Site;
use ns_world::kernel::ClassName;
use ns_world::value::{KClass, Value};

/// How many bytes a value has.
fn value_size(value: Value) -> u64
    ensures { result ≡ length (spec.value value) }
{
    match value {
        Value::Nil => 1,
        Value::True => 1,
        Value::False => 1,
        Value::Int(_) => 9,
        Value::Sym(_) => 5,
        Value::Kernel(KClass::Object) => 2,
        Value::Kernel(KClass::Array) => 2,
        Value::Ref(_) => 5,
    }
}

/// Its number, and what it holds.
impl Part for Value {
    ghost layout = { spec.value };

    ghost has_room = { λ _. Unit {0} };

    fn measure(&self, room: &mut Room) -> Result<(), TooLarge> {
        room.take(value_size(*self))
    }

    fn put(&self, out: &mut Vec<u8>) -> Result<(), NoMemory> {
        match *self {
            Value::Nil => put_byte(out, 0),
            Value::True => put_byte(out, 1),
            Value::False => put_byte(out, 2),
            Value::Int(number) => with_long(out, 3, number),
            Value::Sym(sel) => with_word(out, 4, sel.0),
            Value::Kernel(class) => with_byte(out, 5, kernel_class(class)),
            Value::Ref(at) => with_word(out, 6, at),
        }
    }
}

/// That of the value that it stands for.
impl Part for PlainValue {
    ghost layout = { spec.value };

    ghost has_room = { λ _. Unit {0} };

    fn measure(&self, room: &mut Room) -> Result<(), TooLarge> {
        self.value().measure(room)
    }

    fn put(&self, out: &mut Vec<u8>) -> Result<(), NoMemory> {
        self.value().put(out)
    }
}

/// Its file, its line and its column.
impl Part for Place {
    ghost layout = { spec.place };

    ghost has_room = { λ _. Unit {0} };

    fn measure(&self, room: &mut Room) -> Result<(), TooLarge> {
        room.take(12)
    }

    fn put(&self, out: &mut Vec<u8>) -> Result<(), NoMemory> {
        put_word(out, self.file)?;
        put_word(out, self.line)?;
        put_word(out, self.col)
    }
}

/// How many bytes the name of a class has.
fn class_name_size(name: ClassName) -> u64
    ensures { result ≡ length (spec.class_name name) }
{
    match name {
        ClassName::Declared(_) => 5,
        ClassName::ClassOf(_) => 5,
        ClassName::Kernel(_) => 2,
    }
}

/// Its number, and the declaration or the place among the kernel's classes.
impl Part for ClassName {
    ghost layout = { spec.class_name };

    ghost has_room = { λ _. Unit {0} };

    fn measure(&self, room: &mut Room) -> Result<(), TooLarge> {
        room.take(class_name_size(*self))
    }

    fn put(&self, out: &mut Vec<u8>) -> Result<(), NoMemory> {
        match *self {
            ClassName::Declared(decl) => with_word(out, 0, decl),
            ClassName::ClassOf(decl) => with_word(out, 1, decl),
            ClassName::Kernel(row) => with_byte(out, 2, row_number(row)),
        }
    }
}

/// Its place, its class and its selector.
impl Part for Site {
    ghost layout = { spec.site };

    ghost has_room = { λ _. Unit {0} };

    fn measure(&self, room: &mut Room) -> Result<(), TooLarge> {
        self.place.measure(room)?;
        self.class.measure(room)?;
        room.take(4)
    }

    fn put(&self, out: &mut Vec<u8>) -> Result<(), NoMemory> {
        self.place.put(out)?;
        self.class.put(out)?;
        put_word(out, self.sel.0)
    }
}
