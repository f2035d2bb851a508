//! Values.

ghost use Rattle.std.specs.Prelude.{◌≡◌};
ghost use Rattle.ns_world.specs.Booleans as booleans;
ghost use Rattle.ns_world.specs.Heap as heap;

use ns_base::selector::Sel;

/// What a name, a slot or an operand holds. A reference is the number of a cell.
#[derive(Clone, Copy, Default, PartialEq, Eq)]
pub enum Value {
    #[default]
    Nil,
    True,
    False,
    Int(i64),
    Sym(Sel),
    Kernel(KClass),
    Ref(u32),
}

/// The classes of the kernel.
#[derive(Clone, Copy, PartialEq, Eq)]
pub enum KClass {
    Object,
    Array,
}

/// A test as a boolean of the language.
#[inline(always)]
pub fn truth(test: bool) -> Value
    ensures { result ≡ booleans.truth test }
{
    if test { Value::True } else { Value::False }
}

/// The number of the cell that a value refers to, 0 where it refers to none.
#[inline(always)]
pub fn cell_number(value: Value) -> u32
    ensures { result ≡ heap.cell_number value }
{
    match value {
        Value::Ref(at) => at,
        _ => 0,
    }
}
