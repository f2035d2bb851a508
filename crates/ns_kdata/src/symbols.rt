//! The rows of Symbol.

ghost use Rattle.std.specs.Prelude.{◌≡◌, ◌≤◌, ◌<◌};
ghost use Rattle.ns_kdata.specs.Arguments as arguments;
ghost use Rattle.ns_kdata.specs.Outcome.{Gives};
ghost use Rattle.ns_kdata.specs.Rows as spec;
ghost use Rattle.ns_world.specs.World.{IsWithin};
ghost use Rattle.ns_kdata.specs.Texts as texts;

use crate::arguments::{symbol_text, wrong_kind};
use crate::making::make_text;
use ns_code::program::CodeProgram;
use ns_world::ending::Fault;
use ns_world::value::{Value, truth};
use ns_world::world::World;

/// `size`.
pub fn symbol_size(code: &CodeProgram, symbol: Value) -> Value
    ensures { result ≡ spec.symbol_size code.now symbol }
{
    Value::Int(symbol_text(code, symbol).len() as i64)
}

/// `asString`.
pub fn symbol_string(world: &mut World, code: &CodeProgram, symbol: Value) -> Result<Value, Fault>
    requires room { world.old.world.limits.cells ≤ world.old.cell_room }
    requires within { IsWithin world.old.world }
    ensures { Gives (spec.symbol_string world.old.world code.now symbol) world.old result world.new }
{
    make_text(world, b"".as_slice(), symbol_text(code, symbol))
}

/// `printString`.
pub fn symbol_print(world: &mut World, code: &CodeProgram, symbol: Value) -> Result<Value, Fault>
    requires room { world.old.world.limits.cells ≤ world.old.cell_room }
    requires within { IsWithin world.old.world }
    ensures { Gives (spec.symbol_print world.old.world code.now symbol) world.old result world.new }
{
    make_text(world, b"#".as_slice(), symbol_text(code, symbol))
}

/// `<`.
pub fn symbol_less(code: &CodeProgram, symbol: Value, other: Value) -> Result<Value, Fault>
    ensures { result ≡ spec.symbol_less code.now symbol other }
{
    match other {
        Value::Sym(_) => Ok(truth(is_before(symbol_text(code, symbol), symbol_text(code, other)))),
        _ => Err(wrong_kind()),
    }
}

/// Whether bytes come before others in their order.
fn is_before(first: &[u8], second: &[u8]) -> bool
    ensures { result ≡ texts.is_before first.now second.now }
{
    'bytes: for place in 0..first.len().min(second.len()) {
        if first[place] != second[place] {
            return first[place] < second[place];
        }
    }
    first.len() < second.len()
}
