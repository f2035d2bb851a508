//! The words of the heap, of 16 bytes each.
//!
//! A cell is a head and the words behind it. A value's word is laid out as the value is, so that
//! reading and writing it copies. In two places a number stands beside a value: an environment
//! begins with its parent, beside which its number of locals stands, and beside the environment of
//! a block stands the block's holder. These words have variants of their own.

ghost use Rattle.std.specs.Prelude.{◌≡◌};
ghost use Rattle.ns_world.specs.Heap.{cell_number};
ghost use Rattle.ns_world.specs.Words.{word_of, word_beside, value_in, beside_in};
ghost use Rattle.ns_world.specs.Receivers.{is_receiver_head};

use crate::cell::FacetKind;
use crate::value::{KClass, Value};
use ns_base::selector::Sel;

/// A word of the heap: a value, eight bytes of a text, or the head of a cell.
#[derive(Clone, Copy)]
pub enum Word {
    Nil,
    True,
    False,
    Int(i64),
    Sym(Sel),
    Kernel(KClass),
    Ref(u32),
    Bytes([u8; 8]),
    Object { class: u32, words: u32 },
    Class { decl: u32, base: u32 },
    Block { body: u32, home: u64 },
    Array { size: u32 },
    Text { bytes: u32 },
    Facet(FacetKind),
    Mirror,
    Message(Sel),
    NilWith { beside: u32 },
    TrueWith { beside: u32 },
    FalseWith { beside: u32 },
    IntWith { beside: u32, number: i64 },
    SymWith { beside: u32, sel: Sel },
    KernelWith { beside: u32, class: KClass },
    RefWith { beside: u32, at: u32 },
}

const _: () = prove!(size_of::<Word>() == 16);

/// The word of a value.
#[inline(always)]
pub fn word_of(value: Value) -> Word
    ensures { result ≡ word_of value }
{
    match value {
        Value::Nil => Word::Nil,
        Value::True => Word::True,
        Value::False => Word::False,
        Value::Int(number) => Word::Int(number),
        Value::Sym(sel) => Word::Sym(sel),
        Value::Kernel(class) => Word::Kernel(class),
        Value::Ref(at) => Word::Ref(at),
    }
}

/// The word of a value with a number beside it.
pub fn word_beside(value: Value, beside: u32) -> Word
    ensures { result ≡ word_beside beside value }
{
    match value {
        Value::Nil => Word::NilWith { beside },
        Value::True => Word::TrueWith { beside },
        Value::False => Word::FalseWith { beside },
        Value::Int(number) => Word::IntWith { beside, number },
        Value::Sym(sel) => Word::SymWith { beside, sel },
        Value::Kernel(class) => Word::KernelWith { beside, class },
        Value::Ref(at) => Word::RefWith { beside, at },
    }
}

/// The value of a word, nil where it holds none.
#[inline(always)]
pub fn value_in(word: Word) -> Value
    ensures { result ≡ value_in word }
{
    match word {
        Word::True => Value::True,
        Word::False => Value::False,
        Word::Int(number) => Value::Int(number),
        Word::Sym(sel) => Value::Sym(sel),
        Word::Kernel(class) => Value::Kernel(class),
        Word::Ref(at) => Value::Ref(at),
        Word::TrueWith { .. } => Value::True,
        Word::FalseWith { .. } => Value::False,
        Word::IntWith { number, .. } => Value::Int(number),
        Word::SymWith { sel, .. } => Value::Sym(sel),
        Word::KernelWith { class, .. } => Value::Kernel(class),
        Word::RefWith { at, .. } => Value::Ref(at),
        _ => Value::Nil,
    }
}

/// The number of the cell to which the value of a word refers, 0 where it refers to none.
#[inline(always)]
pub fn number_in(word: Word) -> u32
    ensures { result ≡ cell_number (value_in word) }
{
    match word {
        Word::RefWith { at, .. } => at,
        Word::Ref(at) => at,
        _ => 0,
    }
}

/// The number beside the value of a word, 0 where none stands there.
#[inline(always)]
pub fn beside_in(word: Word) -> u32
    ensures { result ≡ beside_in word }
{
    match word {
        Word::NilWith { beside } => beside,
        Word::TrueWith { beside } => beside,
        Word::FalseWith { beside } => beside,
        Word::IntWith { beside, .. } => beside,
        Word::SymWith { beside, .. } => beside,
        Word::KernelWith { beside, .. } => beside,
        Word::RefWith { beside, .. } => beside,
        _ => 0,
    }
}

/// Whether a word is the head of a cell that is no environment. The words behind heads hold values and bytes, so none of them
/// is such a head, whatever a program has put there.
pub fn is_receiver_head(word: Word) -> bool
    ensures { result ≡ is_receiver_head word }
{
    match word {
        Word::Object { .. } => true,
        Word::Class { .. } => true,
        Word::Block { .. } => true,
        Word::Array { .. } => true,
        Word::Text { .. } => true,
        Word::Facet(_) => true,
        Word::Mirror => true,
        Word::Message(_) => true,
        _ => false,
    }
}
