//! The rows of Console.

ghost use Rattle.std.specs.Prelude.{◌≡◌, ◌+◌, ◌≤◌, ◌++◌, length};
ghost use Rattle.ns_world.specs.World.{IsWithin};
ghost use Rattle.ns_kdata.specs.Arguments.{CellIsThere, bytes_of};
ghost use Rattle.ns_kdata.specs.Outcome.{Gives};
ghost use Rattle.ns_facets.specs.Console as spec;
ghost use Rattle.ns_facets.specs.Console.{appended, fits};

use ns_code::program::CodeProgram;
use ns_kdata::arguments::{is_text, text_byte, text_row, text_size, wrong_kind};
use ns_kdata::decimal::decimal_text;
use ns_world::ending::{Fault, LimitKind};
use ns_world::value::Value;
use ns_world::world::World;

/// Prints a String's bytes, an Integer in decimal or a Symbol's text, with some bytes behind them.
/// What doesn't fit isn't printed at all.
pub fn print(
    world: &mut World,
    code: &CodeProgram,
    value: Value,
    tail: &[u8],
) -> Result<Value, Fault>
    requires room { world.old.world.limits.out ≤ world.old.out_room }
    requires there { CellIsThere world.old.world.cells value }
    requires within { IsWithin world.old.world }
    ensures { Gives (spec.printing world.old.world code.now value tail.now) world.old result world.new }
{
    match value {
        Value::Int(number) => {
            let mut room = [0; 20];
            print_bytes(world, decimal_text(number, &mut room), tail)
        }
        Value::Sym(sel) => print_bytes(world, code.selector_text(sel), tail),
        _ => print_text(world, value, tail),
    }
}

/// Prints bytes and others behind them.
fn print_bytes(world: &mut World, bytes: &[u8], tail: &[u8]) -> Result<Value, Fault>
    requires room { world.old.world.limits.out ≤ world.old.out_room }
    requires within { IsWithin world.old.world }
    ensures { Gives (spec.printed_bytes world.old.world (bytes.now ++ tail.now)) world.old result world.new }
{
    if !fits(world, bytes.len() as u64, tail.len() as u64) {
        return Err(Fault::Limit(LimitKind::Out));
    }
    append(world, bytes);
    append(world, tail);
    Ok(Value::Nil)
}

/// Prints a String and bytes behind it; any other value is of the wrong kind.
fn print_text(world: &mut World, text: Value, tail: &[u8]) -> Result<Value, Fault>
    requires room { world.old.world.limits.out ≤ world.old.out_room }
    requires there { CellIsThere world.old.world.cells text }
    requires within { IsWithin world.old.world }
    ensures { Gives (spec.printed_text world.old.world text tail.now) world.old result world.new }
{
    if !is_text(world, text) {
        return Err(wrong_kind());
    }
    if !fits(world, u64::from(text_size(world, text)), tail.len() as u64) {
        return Err(Fault::Limit(LimitKind::Out));
    }
    append_text(world, text);
    append(world, tail);
    Ok(Value::Nil)
}

/// Whether so many bytes and others behind them can be printed.
fn fits(world: &World, bytes: u64, tail: u64) -> bool
    requires { IsWithin world.now.world }
    ensures { result ≡ fits world.now.world (bytes + tail) }
{
    let left = world.limits().out - world.counters().out;
    bytes <= left && tail <= left - bytes
}

/// Prints bytes that fit.
fn append(world: &mut World, bytes: &[u8])
    requires room { world.old.world.limits.out ≤ world.old.out_room }
    requires fits { length world.old.world.output + length bytes.now ≤ world.old.world.limits.out }
    ensures { world.new ≡ appended world.old bytes.now }
{
    let _printed = world.print(bytes);
}

/// Prints a String that fits, by eight bytes while there are so many.
fn append_text(world: &mut World, text: Value)
    requires room { world.old.world.limits.out ≤ world.old.out_room }
    requires there { CellIsThere world.old.world.cells text }
    requires fits { length world.old.world.output + length (bytes_of world.old.world.cells text) ≤ world.old.world.limits.out }
    ensures { world.new ≡ appended world.old (bytes_of world.old.world.cells text) }
{
    let size = text_size(world, text);
    let rows = size / 8;
    'rows: for row in 0..rows {
        let bytes = text_row(world, text, row);
        append(world, &bytes);
    }
    'bytes: for place in 8 * rows..size {
        let byte = text_byte(world, text, place);
        append(world, &[byte]);
    }
}
