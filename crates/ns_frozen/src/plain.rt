//! Values as plain data, in little memory.

ghost use Rattle.std.specs.Prelude.{◌≡◌, IfOk};
ghost use Rattle.ns_frozen.specs.Plain as spec;

use ns_base::items::Items;
use ns_base::no_memory::NoMemory;
use ns_base::selector::Sel;
use ns_world::value::{KClass, Value};
use std::alloc::Global;
use std::marker::Model;

/// The parts of a value, with its numbers as bytes, the least first: so it has no alignment, and takes no more than they do.
#[derive(Clone, Copy)]
pub enum Parts {
    Nil,
    True,
    False,
    Int([u8; 8]),
    Sym([u8; 4]),
    Kernel(KClass),
    Ref([u8; 4]),
}

const _: () = prove!(size_of::<Parts>() == 9);

/// A value in nine bytes, where `Value` takes sixteen. A clause sees the value alone.
#[derive(Drop)]
pub struct PlainValue {
    parts: Parts,
}

impl Model for PlainValue {
    ghost use Rattle.ns_world.specs.declared.value.Value.{Value as ValueOf};
    ghost use Rattle.ns_frozen.specs.Plain.{value_of};

    ghost Value = { ValueOf };

    ghost view = { λ plain. value_of plain.parts };
}

impl PlainValue {
    /// A value as plain data.
    pub fn of(value: Value) -> PlainValue
        ensures { result ≡ value }
    {
        PlainValue {
            parts: parts_of(value),
        }
    }

    /// The value that it stands for.
    pub fn value(&self) -> Value
        ensures { result ≡ self.now }
    {
        match self.parts {
            Parts::Nil => Value::Nil,
            Parts::True => Value::True,
            Parts::False => Value::False,
            Parts::Int(bytes) => Value::Int(i64::from_le_bytes(bytes)),
            Parts::Sym(bytes) => Value::Sym(Sel(u32::from_le_bytes(bytes))),
            Parts::Kernel(class) => Value::Kernel(class),
            Parts::Ref(bytes) => Value::Ref(u32::from_le_bytes(bytes)),
        }
    }
}

/// The parts of a value.
#[tactic(auto, using(crate::proofs::Parts::number_back, crate::proofs::Parts::integer_back))]
fn parts_of(value: Value) -> Parts
    ensures { spec.value_of result ≡ value }
{
    match value {
        Value::Nil => Parts::Nil,
        Value::True => Parts::True,
        Value::False => Parts::False,
        Value::Int(number) => Parts::Int(number.to_le_bytes()),
        Value::Sym(sel) => Parts::Sym(sel.0.to_le_bytes()),
        Value::Kernel(class) => Parts::Kernel(class),
        Value::Ref(at) => Parts::Ref(at.to_le_bytes()),
    }
}

/// Some values as plain data.
pub fn plain_values(alloc: Global, values: &[Value]) -> Result<Items<PlainValue>, NoMemory>
    ensures { IfOk result (λ plain. plain ≡ values.now) }
{
    let mut plain = Vec::with_capacity(alloc, values.len())?;
    'values: for value in values {
        plain.push(PlainValue::of(*value))?;
    }
    Ok(Items::from_vec(plain))
}
