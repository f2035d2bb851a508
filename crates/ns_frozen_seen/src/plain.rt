//! Values that no cell stands behind.

ghost use Rattle.std.specs.Prelude.{◌≡◌};
ghost use Rattle.ns_world.specs.Seek.{is_nil};
ghost use Rattle.ns_kdata.specs.Rows as rows;

use ns_world::value::{KClass, Value};

/// Whether a value is nil.
pub fn is_nil(value: Value) -> bool
    ensures { result ≡ is_nil value }
{
    match value {
        Value::Nil => true,
        _ => false,
    }
}

/// Whether two values are the same: the same cell for references.
pub fn same_value(one: Value, other: Value) -> bool
    ensures { result ≡ rows.same_value one other }
{
    match (one, other) {
        (Value::Nil, Value::Nil) => true,
        (Value::True, Value::True) => true,
        (Value::False, Value::False) => true,
        (Value::Int(one), Value::Int(other)) => one == other,
        (Value::Sym(one), Value::Sym(other)) => one.0 == other.0,
        (Value::Kernel(one), Value::Kernel(other)) => same_kernel_class(one, other),
        (Value::Ref(one), Value::Ref(other)) => one == other,
        _ => false,
    }
}

/// Whether two classes of the kernel are the same.
fn same_kernel_class(one: KClass, other: KClass) -> bool
    ensures { result ≡ rows.same_kernel_class one other }
{
    match (one, other) {
        (KClass::Object, KClass::Object) => true,
        (KClass::Array, KClass::Array) => true,
        _ => false,
    }
}
