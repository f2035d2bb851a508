//! Values as a host hands them over and is told them.

ghost use Rattle.std.specs.Prelude.{◌≡◌, ◌==◌, IfOk};
ghost use Rattle.std.specs.List.{list_all};
ghost use Rattle.ns_handed.specs.Hands as spec;

use ns_base::no_memory::NoMemory;
use ns_base::selector::Sel;
use ns_world::ending::Ending;
use ns_world::value::{KClass, Value};
use std::alloc::Global;

/// A value, by its kind and a number, with the name that its host gave to the program that it is of.
#[repr(C)]
#[derive(Clone, Copy)]
pub struct HostValue {
    /// 0 is nil, 1 true, 2 false, 3 an integer, 4 a symbol, 5 a class of the kernel, 6 an object, 7 a text that is handed over, 8 no
    /// value.
    pub kind: u64,
    /// The integer; which symbol, class or object; how many bytes the text has.
    pub number: i64,
    pub program: u64,
}

/// What a host hands over: a value; a text of so many bytes, which is to become an object; or nothing that there is.
#[derive(Clone, Copy)]
pub enum Hand {
    Given(Value),
    Text(u32),
    Nothing,
}

/// The least number that a field of 32 bits hasn't.
const WORDS: i64 = 4_294_967_296;

/// A number of 32 bits, where it is one.
fn word_of(number: i64) -> Option<u32>
    ensures { result ≡ spec.word_of number }
{
    if number < 0 || WORDS <= number {
        return None;
    }
    Some(number.unsigned_abs() as u32)
}

/// The symbol of a number, where it has one.
fn symbol_of(number: Option<u32>) -> Hand
    ensures { result ≡ spec.symbol_of number }
{
    match number {
        Some(number) => Hand::Given(Value::Sym(Sel(number))),
        None => Hand::Nothing,
    }
}

/// The object of a number.
fn object_of(number: Option<u32>) -> Hand
    ensures { result ≡ spec.object_of number }
{
    match number {
        Some(number) => Hand::Given(Value::Ref(number)),
        None => Hand::Nothing,
    }
}

/// The class of the kernel of a number.
fn class_of(number: Option<u32>) -> Hand
    ensures { result ≡ spec.class_of number }
{
    match number {
        Some(0) => Hand::Given(Value::Kernel(KClass::Object)),
        Some(1) => Hand::Given(Value::Kernel(KClass::Array)),
        Some(_) => Hand::Nothing,
        None => Hand::Nothing,
    }
}

/// A text of so many bytes.
fn text_of(size: Option<u32>) -> Hand
    ensures { result ≡ spec.text_of size }
{
    match size {
        Some(size) => Hand::Text(size),
        None => Hand::Nothing,
    }
}

/// What a host hands over, by its kind.
#[tactic(auto, unfolding(crate::specs::Hands::hand_of))]
pub fn hand_of(given: HostValue) -> Hand
    ensures { result ≡ spec.hand_of given }
{
    match given.kind {
        0 => Hand::Given(Value::Nil),
        1 => Hand::Given(Value::True),
        2 => Hand::Given(Value::False),
        3 => Hand::Given(Value::Int(given.number)),
        4 => symbol_of(word_of(given.number)),
        5 => class_of(word_of(given.number)),
        6 => object_of(word_of(given.number)),
        7 => text_of(word_of(given.number)),
        _ => Hand::Nothing,
    }
}

/// All that a host hands over.
pub fn hands_of(alloc: Global, values: &[HostValue]) -> Result<Vec<Hand>, NoMemory>
    ensures { IfOk result (λ hands. hands.items ≡ spec.hands_of values.now) }
{
    let mut hands = Vec::new(alloc);
    for value in values {
        hands.push(hand_of(*value))?;
    }
    Ok(hands)
}

/// Whether it is something.
fn is_hand(hand: Hand) -> bool
    ensures { result ≡ spec.is_hand hand }
{
    match hand {
        Hand::Given(_) | Hand::Text(_) => true,
        Hand::Nothing => false,
    }
}

/// Whether a value that is handed over is one.
fn is_given(given: HostValue) -> bool
    ensures { result ≡ spec.is_given given }
{
    is_hand(hand_of(given))
}

/// Whether all are.
fn are_given(values: &[HostValue]) -> bool
    ensures { result ≡ list_all spec.is_given values.now }
{
    values.iter().all(|value| is_given(*value))
}

/// How many bytes of texts a value takes.
fn text_size(hand: Hand) -> u64
    ensures { result ≡ spec.text_size hand }
{
    match hand {
        Hand::Text(size) => u64::from(size),
        Hand::Given(_) | Hand::Nothing => 0,
    }
}

/// Whether the texts that are handed over come to so many bytes.
pub fn texts_come_to(values: &[HostValue], whole: u64) -> bool
    ensures { result ≡ (spec.text_bytes (spec.hands_of values.now) == whole) }
{
    let mut left = whole;
    for value in values {
        let size = text_size(hand_of(*value));
        if size > left {
            return false;
        }
        left -= size;
    }
    left == 0
}

/// Whether a question is well formed: there is a receiver, each value is one, and the texts come to all of the bytes.
pub fn is_question(values: &[HostValue], texts: &[u8]) -> bool
    ensures { result ≡ spec.is_question values.now texts.now }
{
    0 < values.len() && are_given(values) && texts_come_to(values, texts.len() as u64)
}

/// Whether a value is of that program; any program has the values that aren't symbols or objects.
fn is_of(program: u64, given: HostValue) -> bool
    ensures { result ≡ spec.is_of program given }
{
    if given.kind == 4 || given.kind == 6 {
        return given.program == program;
    }
    true
}

/// Whether all are.
pub fn are_of(program: u64, values: &[HostValue]) -> bool
    ensures { result ≡ spec.are_of program values.now }
{
    values.iter().all(|value| is_of(program, *value))
}

/// No value, where a run goes on or has ended without one.
pub const NO_VALUE: HostValue = HostValue {
    kind: 8,
    number: 0,
    program: 0,
};

/// The number of a class of the kernel.
fn class_number(class: KClass) -> i64
    ensures { result ≡ spec.class_number class }
{
    match class {
        KClass::Object => 0,
        KClass::Array => 1,
    }
}

/// A value of a program, by its kind and its number.
fn value_told(program: u64, value: Value) -> HostValue
    ensures { result ≡ spec.value_told program value }
{
    match value {
        Value::Nil => numbered(program, 0, 0),
        Value::True => numbered(program, 1, 0),
        Value::False => numbered(program, 2, 0),
        Value::Int(number) => numbered(program, 3, number),
        Value::Sym(sel) => numbered(program, 4, i64::from(sel.0)),
        Value::Kernel(class) => numbered(program, 5, class_number(class)),
        Value::Ref(at) => numbered(program, 6, i64::from(at)),
    }
}

/// A value of that kind and number.
fn numbered(program: u64, kind: u64, number: i64) -> HostValue
    ensures { result ≡ record { kind = kind; number = number; program = program } }
{
    HostValue {
        kind,
        number,
        program,
    }
}

/// The value with which a run has ended.
pub fn value_at(program: u64, ending: Option<Ending>) -> HostValue
    ensures { result ≡ spec.value_at program ending }
{
    match ending {
        Some(Ending::Done(value)) => value_told(program, value),
        Some(Ending::Error(_)) => NO_VALUE,
        Some(Ending::Limit(_)) => NO_VALUE,
        None => NO_VALUE,
    }
}
