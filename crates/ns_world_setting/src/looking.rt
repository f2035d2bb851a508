//! Looking into a world, and testing that it holds what a number or a value names.

ghost use Rattle.std.specs.Prelude.{◌≡◌, ◌+◌, ◌<◌, true, All, IsSome, IfSome, IsTrue};
ghost use Rattle.ns_code.specs.Selector.{is_selector_number};
ghost use Rattle.ns_world.specs.Heap.{find_cell, is_class};
ghost use Rattle.ns_world.specs.Lawful.{IsLiveValue};
ghost use Rattle.ns_world.specs.Starts.{is_receiver_cell};
ghost use Rattle.ns_world_setting.specs.Program.{program_code};
ghost use Rattle.ns_world_setting.specs.Looking as spec;

use ns_base::selector::Sel;
use ns_kdata::arguments::{array_item, array_size, is_text, text_byte, text_size};
use ns_world::cell::NewCell;
use ns_world::value::Value;
use ns_world::world::World;

/// Whether a cell has that number: the cells stand one behind the other, from 0 on.
#[tactic(auto, using(crate::proofs::Walking::walk_starts))]
pub fn is_cell(world: &World, number: u32) -> bool
    ensures { result ≡ true → IsSome (find_cell world.now.world.cells number) }
{
    let used = world.counters().cells;
    let mut at: u32 = 0;
    'cells: for _ in 0..used {
        if used <= u64::from(at) {
            return false;
        }
        if at == number {
            return true;
        }
        match next_cell(world, at) {
            Some(next) => at = next,
            None => return false,
        }
    }
    false
}

/// The number behind a cell.
fn next_cell(world: &World, at: u32) -> Option<u32>
    requires { IsSome (find_cell world.now.world.cells at) }
    ensures { IfSome result (λ next. spec.HasCell world.now.world.cells next) }
{
    let shape = world.cell(at);
    number_of(u64::from(at) + size_of_shape(shape))
}

fn number_of(number: u64) -> Option<u32>
    ensures { IfSome result (λ n. n ≡ number) }
{
    if number < 4_294_967_296 {
        Some(number as u32)
    } else {
        None
    }
}

/// How many cells a cell of that shape takes.
fn size_of_shape(cell: NewCell) -> u64
    ensures size { result ≡ spec.size_of_shape cell }
    ensures small { result < 8589934592 }
{
    match cell {
        NewCell::Object { words, .. } => 1 + u64::from(words),
        NewCell::Class { .. } => 4,
        NewCell::Block { .. } => 3,
        NewCell::Environment { locals, .. } => 1 + u64::from(locals),
        NewCell::Array { size } => 1 + u64::from(size),
        NewCell::Text { bytes } => 1 + (u64::from(bytes) + 7) / 8,
        NewCell::Facet(_) => 1,
        NewCell::Mirror(_) => 2,
        NewCell::Message { .. } => 3,
    }
}

/// Whether a class has that number.
pub fn is_class(world: &World, number: u32) -> bool
    ensures { result ≡ true → IsTrue (is_class (find_cell world.now.world.cells number)) }
{
    if is_cell(world, number) {
        world.is_class(number)
    } else {
        false
    }
}

/// Whether a row may be given that value: a reference names a cell that is no environment, and a
/// symbol is one of the program's or one of the machine's own.
pub fn is_live(world: &World, value: Value) -> bool
    ensures { result ≡ true → IsLiveValue world.now.world.cells program_code value }
{
    match value {
        Value::Ref(at) => is_live_cell(world, at),
        Value::Sym(sel) => is_selector(sel),
        _ => true,
    }
}

fn is_live_cell(world: &World, at: u32) -> bool
    ensures there { result ≡ true → IsSome (find_cell world.now.world.cells at) }
    ensures receiver { result ≡ true → IsTrue (is_receiver_cell (find_cell world.now.world.cells at)) }
{
    if is_cell(world, at) {
        is_receiver(world, at)
    } else {
        false
    }
}

#[tactic(auto, using(crate::proofs::Telling::receives))]
fn is_receiver(world: &World, at: u32) -> bool
    requires { IsSome (find_cell world.now.world.cells at) }
    ensures { result ≡ true → IsTrue (is_receiver_cell (find_cell world.now.world.cells at)) }
{
    is_no_environment(world.cell(at))
}

fn is_no_environment(cell: NewCell) -> bool
    ensures { result ≡ spec.is_no_environment cell }
{
    match cell {
        NewCell::Environment { .. } => false,
        _ => true,
    }
}

#[tactic(auto, using(crate::proofs::Telling::names_are_selectors))]
fn is_selector(sel: Sel) -> bool
    ensures { result ≡ true → IsTrue (is_selector_number program_code sel.0) }
{
    match sel.0 {
        42 => true,
        43 => true,
        44 => true,
        number => number < 42,
    }
}

/// The same of up to two arguments.
#[tactic(auto, using(crate::proofs::Telling::one_live, crate::proofs::Telling::two_live))]
pub fn are_live(world: &World, args: &[Value]) -> bool
    ensures { result ≡ true → All (IsLiveValue world.now.world.cells program_code) args.now }
{
    match args {
        [] => true,
        [one] => is_live(world, *one),
        [one, other] => is_live(world, *one) && is_live(world, *other),
        _ => false,
    }
}

/// What the cell is made of that a value refers to; none where it refers to none.
pub fn shape(world: &World, value: Value) -> Option<NewCell> {
    match value {
        Value::Ref(at) => {
            if is_cell(world, at) {
                Some(world.cell(at))
            } else {
                None
            }
        }
        _ => None,
    }
}

/// Whether a value is a text of these bytes.
pub fn says(world: &World, value: Value, want: &[u8]) -> bool {
    match value {
        Value::Ref(at) => is_cell(world, at) && is_text_of(world, at, want),
        _ => false,
    }
}

fn is_text_of(world: &World, at: u32, want: &[u8]) -> bool
    requires { IsSome (find_cell world.now.world.cells at) }
{
    let text = Value::Ref(at);
    if !is_text(world, text) {
        return false;
    }
    let size = text_size(world, text);
    if size as usize != want.len() {
        return false;
    }
    'bytes: for place in 0..size {
        if text_byte(world, text, place) != want[place as usize] {
            return false;
        }
    }
    true
}

/// The element of that place of an array, counted from 0; none where there is no such array.
pub fn item(world: &World, array: Value, place: u32) -> Option<Value> {
    match array {
        Value::Ref(at) => {
            if is_cell(world, at) {
                item_of_cell(world, at, place)
            } else {
                None
            }
        }
        _ => None,
    }
}

fn item_of_cell(world: &World, at: u32, place: u32) -> Option<Value>
    requires { IsSome (find_cell world.now.world.cells at) }
{
    let array = Value::Ref(at);
    if place < array_size(world, array) {
        Some(array_item(world, array, place))
    } else {
        None
    }
}

/// Whether a value is an array of the symbols of these numbers.
pub fn lists(world: &World, array: Value, want: &[u32]) -> bool {
    let mut place: u32 = 0;
    'symbols: for number in want {
        if item(world, array, place) != Some(Value::Sym(Sel(*number))) {
            return false;
        }
        place = place.saturating_add(1);
    }
    item(world, array, place).is_none()
}

/// The word of that place of an object; none where there is no such object.
pub fn word_of(world: &World, object: u32, word: u32) -> Option<Value> {
    if is_cell(world, object) {
        word_of_cell(world, object, word)
    } else {
        None
    }
}

#[tactic(auto, using(crate::proofs::Telling::words_told))]
fn word_of_cell(world: &World, object: u32, word: u32) -> Option<Value>
    requires { IsSome (find_cell world.now.world.cells object) }
{
    if word < object_words(world.cell(object)) {
        Some(world.read(object, word))
    } else {
        None
    }
}

fn object_words(cell: NewCell) -> u32
    ensures { result ≡ spec.object_words cell }
{
    match cell {
        NewCell::Object { words, .. } => words,
        _ => 0,
    }
}
