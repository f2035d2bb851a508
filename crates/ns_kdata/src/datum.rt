//! The kernel's rows of data, in one table.

ghost use Rattle.std.specs.Prelude.{◌≤◌, All};
ghost use Rattle.ns_world.specs.Lawful.{IsLive, IsLawful};
ghost use Rattle.ns_world.specs.World.{IsWithin};
ghost use Rattle.ns_kdata.specs.Arguments.{CellIsThere};
ghost use Rattle.ns_kdata.specs.Outcome.{Gives};
ghost use Rattle.ns_kdata.specs.Datum as spec;

use crate::arguments::argument;
use crate::arrays::{array_at, array_put, array_size};
use crate::booleans::{
    boolean_print, conjunction, disjunction, integer_print, negation, nil_print,
};
use crate::making::quote_text;
use crate::messages::{message_arguments, message_selector};
use crate::objects::{is_nil, new_array, new_object, not_understood, same_value};
use crate::symbols::{symbol_less, symbol_print, symbol_size, symbol_string};
use crate::texts::{text_at, text_copy, text_equal, text_join, text_less, text_size};
use ns_code::program::CodeProgram;
use ns_world::ending::Fault;
use ns_world::kernel_parts::DataRow;
use ns_world::value::{KClass, Value, truth};
use ns_world::world::World;

/// The answer of a row with its change of the world, or its first fault, after which nothing has
/// changed. An argument that isn't there is nil. Takes no memory.
#[tactic(auto, using(crate::specs::laws::Outcomes::live_there))]
pub fn datum(
    world: &mut World,
    code: &CodeProgram,
    row: DataRow,
    receiver: Value,
    args: &[Value],
) -> Result<Value, Fault>
    requires lawful { IsLawful world.old.world code.now }
    requires receiver { IsLive world.old.world.cells code.now receiver }
    requires args { All (IsLive world.old.world.cells code.now) args.now }
    requires room { world.old.world.limits.cells ≤ world.old.cell_room }
    ensures { Gives (spec.datum world.old.world code.now row receiver args.now) world.old result world.new }
{
    row_outcome(
        world,
        code,
        row,
        receiver,
        argument(args, 0),
        argument(args, 1),
    )
}

/// The same, by the first two arguments.
#[tactic(auto, using(crate::specs::laws::Outcomes::gives_unchanged))]
pub fn row_outcome(
    world: &mut World,
    code: &CodeProgram,
    row: DataRow,
    receiver: Value,
    first: Value,
    second: Value,
) -> Result<Value, Fault>
    requires within { IsWithin world.old.world }
    requires receiver { CellIsThere world.old.world.cells receiver }
    requires first { CellIsThere world.old.world.cells first }
    requires room { world.old.world.limits.cells ≤ world.old.cell_room }
    ensures { Gives (spec.row_outcome world.old.world code.now row receiver first second) world.old result world.new }
{
    match row {
        DataRow::Identical => Ok(truth(same_value(receiver, first))),
        DataRow::Equal => Ok(truth(same_value(receiver, first))),
        DataRow::IsNil => Ok(truth(is_nil(receiver))),
        DataRow::NotNil => Ok(truth(!is_nil(receiver))),
        DataRow::KernelObject => Ok(Value::Kernel(KClass::Object)),
        DataRow::DoesNotUnderstand => Err(not_understood(world, first)),
        DataRow::NewObject => new_object(world),
        DataRow::NewArray => new_array(world, first),
        DataRow::NilPrint => nil_print(world),
        DataRow::Not => Ok(negation(receiver)),
        DataRow::BooleanPrint => boolean_print(world, receiver),
        DataRow::And => conjunction(receiver, first),
        DataRow::Or => disjunction(receiver, first),
        DataRow::IntegerPrint => integer_print(world, receiver),
        DataRow::TextSize => Ok(text_size(world, receiver)),
        DataRow::TextAt => text_at(world, receiver, first),
        DataRow::TextCopy => text_copy(world, receiver, first, second),
        DataRow::TextJoin => text_join(world, receiver, first),
        DataRow::TextEqual => Ok(text_equal(world, receiver, first)),
        DataRow::TextLess => text_less(world, receiver, first),
        DataRow::TextPrint => quote_text(world, receiver),
        DataRow::SymbolSize => Ok(symbol_size(code, receiver)),
        DataRow::SymbolText => symbol_string(world, code, receiver),
        DataRow::SymbolPrint => symbol_print(world, code, receiver),
        DataRow::SymbolLess => symbol_less(code, receiver, first),
        DataRow::ArraySize => Ok(array_size(world, receiver)),
        DataRow::ArrayAt => array_at(world, receiver, first),
        DataRow::ArrayPut => array_put(world, receiver, first, second),
        DataRow::MessageSelector => Ok(message_selector(world, receiver)),
        DataRow::MessageArguments => Ok(message_arguments(world, receiver)),
    }
}
