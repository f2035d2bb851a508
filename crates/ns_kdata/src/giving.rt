//! Rows that give a value at once: they only read, and make no cell.

ghost use Rattle.std.specs.Prelude.{◌≡◌, IfSome, Ok};
ghost use Rattle.ns_kdata.specs.Arguments.{CellIsThere};
ghost use Rattle.ns_kdata.specs.Giving.{GivesAtOnce};

use crate::arrays::{array_at, array_size};
use crate::booleans::{conjunction, disjunction, negation};
use crate::messages::{message_arguments, message_selector};
use crate::objects::{is_nil, same_value};
use crate::symbols::{symbol_less, symbol_size};
use crate::texts::{text_at, text_equal, text_less, text_size};
use ns_code::program::CodeProgram;
use ns_world::ending::Fault;
use ns_world::kernel_parts::DataRow;
use ns_world::value::{Value, truth};
use ns_world::world::World;

/// The value of a row that only reads, by its first argument; none where it has a fault, and of any other row.
pub fn value_at_once(
    world: &World,
    code: &CodeProgram,
    row: DataRow,
    receiver: Value,
    first: Value,
) -> Option<Value>
    requires receiver { CellIsThere world.now.world.cells receiver }
    requires first { CellIsThere world.now.world.cells first }
    ensures { IfSome result (λ value. GivesAtOnce world.now.world.cells code.now row receiver first value) }
{
    match row {
        DataRow::Identical => Some(truth(same_value(receiver, first))),
        DataRow::Equal => Some(truth(same_value(receiver, first))),
        DataRow::IsNil => Some(truth(is_nil(receiver))),
        DataRow::NotNil => Some(truth(!is_nil(receiver))),
        DataRow::Not => Some(negation(receiver)),
        DataRow::And => unless_fault(conjunction(receiver, first)),
        DataRow::Or => unless_fault(disjunction(receiver, first)),
        DataRow::TextSize => Some(text_size(world, receiver)),
        DataRow::TextAt => unless_fault(text_at(world, receiver, first)),
        DataRow::TextEqual => Some(text_equal(world, receiver, first)),
        DataRow::TextLess => unless_fault(text_less(world, receiver, first)),
        DataRow::SymbolSize => Some(symbol_size(code, receiver)),
        DataRow::SymbolLess => unless_fault(symbol_less(code, receiver, first)),
        DataRow::ArraySize => Some(array_size(world, receiver)),
        DataRow::ArrayAt => unless_fault(array_at(world, receiver, first)),
        DataRow::MessageSelector => Some(message_selector(world, receiver)),
        DataRow::MessageArguments => Some(message_arguments(world, receiver)),
        _ => None,
    }
}

/// The value of an answer that has no fault.
#[inline(always)]
fn unless_fault(answer: Result<Value, Fault>) -> Option<Value>
    ensures { IfSome result (λ value. answer ≡ Ok value) }
{
    match answer {
        Ok(value) => Some(value),
        Err(_) => None,
    }
}
