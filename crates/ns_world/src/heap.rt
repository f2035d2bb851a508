//! The heap: one vector of words, reserved once, in which a cell's number is its place.

ghost use Rattle.std.specs.Prelude.{◌≡◌, ℕ, ◌+◌, ◌*◌, ◌^◌, ◌<◌, ◌≤◌, List, [], ◌∷◌, ◌++◌, length, true, false, ◌&&◌, is_none, Some, slice_get};
ghost use Rattle.std.specs.Prelude.{slice_index, slice_set, IsTrue, IsSome, OnOk, OnErr, if◌then◌else◌};
ghost use Rattle.std.specs.List.{slice_index_or};
ghost use Rattle.ns_world.specs.declared.cell.NewCell.TheVariants as cell;
ghost use Rattle.ns_world.specs.declared.value.Value.{Value};
ghost use Rattle.ns_world.specs.Blocks.{IsBlockOf};
ghost use Rattle.ns_world.specs.Cell.{cell_size, fresh, filled_environment, ArrayCell, TextCell};
ghost use Rattle.ns_world.specs.Heap.{declared_class, heap_size, has_superclass, words_at, word_at, open_words_at, write_word, bytes_at, byte_at, row_at};
ghost use Rattle.ns_world.specs.Heap.{write_byte, find_cell, shape_at, next_number, is_class, chain_of, superclass_of, is_chain_start, cell_number};
ghost use Rattle.ns_world.specs.Head.{head_at};
ghost use Rattle.ns_world.specs.Starts.{is_receiver_cell};
ghost use Rattle.ns_world.specs.Words.{shape_in, head_in, value_in, beside_in, words_behind};
ghost use Rattle.ns_world.specs.Seek.{first_such, is_sought, is_nil, is_top, may_be_first};
ghost use Rattle.ns_world.specs.declared.word.Word.TheVariants.{Bytes, Nil};

use crate::cell::{BlockParts, NewCell};
use crate::head::Head;
use crate::kernel::NO_CLASS;
use crate::lay::{lay, lay_bytes, lay_items, lay_locals, text_words};
use crate::seek::{Sought, is_sought_at};
use crate::value::Value;
use crate::values::{set_value, value_at};
use crate::word::{Word, beside_in, is_receiver_head, number_in, value_in};
use ns_base::no_memory::NoMemory;
use std::alloc::Global;
use std::marker::Model;

/// The cells of a world, with room for so many that making one takes no memory.
#[derive(Drop)]
pub struct Heap {
    words: Vec<Word>,
    room: u64,
    /// No cell from here on is the first facet of a kind or the first class of a top-level declaration, so that looking for one ends early.
    firsts_end: usize,
}

impl Model for Heap {
    ghost use Rattle.ns_world.specs.View.{HeapView, IsLaidOut};
    ghost use Rattle.ns_world.specs.Words.{cells_in};
    ghost use Rattle.std.specs.Vec.{vec_capacity};

    ghost Value = { HeapView };

    ghost view = { λ h. record { cells = cells_in h.words.items; room = h.room } };

    ghost invariant = { λ h. IsLaidOut h.words.items (vec_capacity h.words) h.room h.firsts_end };
}

impl Heap {
    /// A heap without cells and without room.
    pub fn new(alloc: Global) -> Heap
        ensures { result ≡ record { cells = []; room = 0 } }
    {
        Heap {
            words: Vec::new(alloc),
            room: 0,
            firsts_end: 0,
        }
    }

    /// Takes room for so many cells. After a refusal nothing has changed.
    pub fn reserve(&mut self, cells: u64) -> Result<(), NoMemory>
        ensures cells { self.new.cells ≡ self.old.cells }
        ensures ok { OnOk result (cells ≤ self.new.room) }
        ensures never_less { self.old.room ≤ self.new.room }
        ensures err { OnErr result (self.new ≡ self.old) }
    {
        if cells <= self.room {
            return Ok(());
        }
        let more = (cells as usize).saturating_sub(self.words.len());
        self.words.reserve_exact(more)?;
        self.room = cells;
        Ok(())
    }

    /// The number of cells used.
    pub fn size(&self) -> u64
        ensures size { result ≡ heap_size self.now.cells }
        ensures small { result ≤ 64000000 }
    {
        self.words.len() as u64
    }

    /// Makes a cell and gives its number, which is the number of cells used before.
    #[inline(always)]
    pub fn make(&mut self, cell: NewCell) -> u32
        requires room { heap_size self.old.cells + cell_size (fresh cell) ≤ self.old.room }
        requires small { heap_size self.old.cells + cell_size (fresh cell) ≤ 64000000 }
        requires superclass { IsTrue (has_superclass self.old.cells (fresh cell)) }
        ensures number { result ≡ heap_size self.old.cells }
        ensures cells { self.new ≡ record self.old { cells = fresh cell ∷ self.old.cells } }
    {
        let number = self.words.len() as u32;
        let first = self.may_be_first(cell);
        self.firsts_end = bound_with(first, self.words.len(), self.firsts_end);
        lay(&mut self.words, cell);
        number
    }

    /// Makes an array that holds these values, and gives its number.
    pub fn make_array(&mut self, items: &[Value]) -> u32
        requires room { heap_size self.old.cells + cell_size (ArrayCell items.now) ≤ self.old.room }
        requires small { heap_size self.old.cells + cell_size (ArrayCell items.now) ≤ 64000000 }
        ensures number { result ≡ heap_size self.old.cells }
        ensures cells { self.new ≡ record self.old { cells = ArrayCell items.now ∷ self.old.cells } }
    {
        let number = self.words.len() as u32;
        lay_items(&mut self.words, items);
        number
    }

    /// Makes an environment whose first locals hold these values, and so many others nil, and gives its number.
    #[inline(always)]
    pub fn make_environment(&mut self, parent: Value, first: &[Value], others: u32) -> u32
        requires room { heap_size self.old.cells + cell_size (filled_environment parent first.now others) ≤ self.old.room }
        requires small { heap_size self.old.cells + cell_size (filled_environment parent first.now others) ≤ 64000000 }
        ensures number { result ≡ heap_size self.old.cells }
        ensures cells { self.new ≡ record self.old { cells = filled_environment parent first.now others ∷ self.old.cells } }
    {
        let number = self.words.len() as u32;
        lay_locals(&mut self.words, parent, first, others);
        number
    }

    /// Makes a text of a row of bytes and another behind it, and gives its number.
    pub fn make_text(&mut self, first: &[u8], second: &[u8]) -> u32
        requires room { heap_size self.old.cells + cell_size (TextCell (first.now ++ second.now)) ≤ self.old.room }
        requires small { heap_size self.old.cells + cell_size (TextCell (first.now ++ second.now)) ≤ 64000000 }
        ensures number { result ≡ heap_size self.old.cells }
        ensures cells { self.new ≡ record self.old { cells = TextCell (first.now ++ second.now) ∷ self.old.cells } }
    {
        let number = self.words.len() as u32;
        lay_bytes(&mut self.words, first, second);
        number
    }

    /// Whether a cell to be made can be the first of what is sought.
    #[inline(always)]
    fn may_be_first(&self, cell: NewCell) -> bool
        ensures { result ≡ may_be_first self.now.cells cell }
    {
        match cell {
            NewCell::Facet(_) => true,
            NewCell::Class { decl, encl, .. } => self.is_first_class(decl, encl),
            _ => false,
        }
    }

    fn is_first_class(&self, decl: u32, encl: Value) -> bool
        ensures { result ≡ (is_nil encl && is_none (first_such (is_top decl) self.now.cells)) }
    {
        match encl {
            Value::Nil => self.first(Sought::Top(decl)).is_none(),
            _ => false,
        }
    }

    /// A value behind the head of a cell.
    #[inline(always)]
    pub fn read(&self, at: u32, word: u32) -> Value
        requires { word < length (words_at self.now.cells at) }
        ensures { result ≡ word_at self.now.cells at word }
    {
        value_at(&self.words, at as usize + 1 + word as usize)
    }

    /// Writes a value of an object, an environment or an array.
    #[inline(always)]
    pub fn write(&mut self, at: u32, word: u32, value: Value)
        requires { word < length (open_words_at self.old.cells at) }
        ensures cells { self.new ≡ record self.old { cells = write_word self.old.cells at word value } }
        ensures size { heap_size self.new.cells ≡ heap_size self.old.cells }
    {
        set_value(&mut self.words, at as usize + 1 + word as usize, value);
    }

    /// A byte of a text.
    pub fn byte(&self, at: u32, place: u32) -> u8
        requires { place < length (bytes_at self.now.cells at) }
        ensures { result ≡ byte_at self.now.cells at place }
    {
        let word = at as usize + 1 + (place / 8) as usize;
        byte_in(self.words[word], (place % 8) as usize)
    }

    /// Eight bytes of a text, the row of that number.
    pub fn row(&self, at: u32, row: u32) -> [u8; 8]
        requires { 8 * row + 8 ≤ length (bytes_at self.now.cells at) }
        ensures { result ≡ row_at self.now.cells at row }
    {
        row_in(self.words[at as usize + 1 + row as usize])
    }

    /// Writes a byte of a text.
    pub fn set_byte(&mut self, at: u32, place: u32, byte: u8)
        requires { place < length (bytes_at self.old.cells at) }
        ensures cells { self.new ≡ record self.old { cells = write_byte self.old.cells at place byte } }
        ensures size { heap_size self.new.cells ≡ heap_size self.old.cells }
    {
        let word = at as usize + 1 + (place / 8) as usize;
        self.words[word] = with_byte(self.words[word], (place % 8) as usize, byte);
    }

    /// The kind and the size of a cell.
    #[inline(always)]
    pub fn head(&self, at: u32) -> Head
        requires { IsSome (find_cell self.now.cells at) }
        ensures { result ≡ head_at self.now.cells at }
    {
        head_in(self.words[at as usize])
    }

    /// Whether a number is that of a cell that is no environment. Any number may be asked for.
    pub fn is_receiver(&self, at: u32) -> bool
        ensures { result ≡ is_receiver_cell (find_cell self.now.cells at) }
    {
        is_receiver_head(word_or_nil(&self.words, at as usize))
    }

    /// The number behind a cell: that of the next, or how many cells are used.
    pub fn next(&self, at: u32) -> u32
        requires { IsSome (find_cell self.now.cells at) }
        ensures { result ≡ next_number self.now.cells at }
    {
        let next = u64::from(at) + 1 + words_behind(self.words[at as usize]);
        next as u32
    }

    /// The kind, the sizes and the fixed parts with which a cell was made.
    #[inline(always)]
    pub fn cell(&self, at: u32) -> NewCell
        requires { IsSome (find_cell self.now.cells at) }
        ensures { result ≡ shape_at self.now.cells at }
    {
        let at = at as usize;
        let next = word_or_nil(&self.words, at + 1);
        let second = word_or_nil(&self.words, at + 2);
        shape_in(
            word_or_nil(&self.words, at),
            next,
            second,
            word_or_nil(&self.words, at + 3),
        )
    }

    /// The number of the environment around an environment, 0 where there is none. It stands in the first word.
    #[inline(always)]
    pub fn parent(&self, at: u32) -> u32
        requires { IsSome (find_cell self.now.cells at) }
        ensures { (parent : Value) (locals : ℕ) → shape_at self.now.cells at ≡ cell.Environment parent locals → result ≡ cell_number parent }
    {
        number_in(self.words[at as usize])
    }

    /// What the block of that number was made with, where its self is a cell and around it is an environment or none: by its three words.
    #[inline(always)]
    pub fn block(&self, at: u32) -> Option<BlockParts>
        requires { IsSome (find_cell self.now.cells at) }
        ensures { IsBlockOf (shape_at self.now.cells at) result }
    {
        let at = at as usize;
        match self.words[at] {
            Word::Block { body, home } => {
                block_in(body, home, self.words[at + 1], self.words[at + 2])
            }
            _ => None,
        }
    }

    /// The number of the superclass of a class, `NO_CLASS` where it is the kernel's.
    pub fn superclass(&self, class: u32) -> u32
        requires { IsTrue (is_class (find_cell self.now.cells class)) }
        ensures class { result ≡ superclass_of self.now.cells class }
        ensures chain { chain_of self.now.cells class ≡ class ∷ chain_of self.now.cells result }
        ensures start { IsTrue (is_chain_start self.now.cells result) }
    {
        let _size = self.words.len();
        declared_class(self.read(class, 2))
    }

    /// The class so many steps up the chain of a class, none past its end.
    pub fn chain(&self, class: u32, k: u32) -> Option<u32>
        requires { IsTrue (is_chain_start self.now.cells class) }
        ensures { result ≡ slice_get (chain_of self.now.cells class) k }
    {
        let mut at = class;
        'up: for _ in 0..k {
            if self.is_past(at) {
                return None;
            }
            at = self.superclass(at);
        }
        if self.is_past(at) { None } else { Some(at) }
    }

    /// Whether a chain has come to its end.
    pub fn is_past(&self, class: u32) -> bool
        requires { IsTrue (is_chain_start self.now.cells class) }
        ensures past { result ≡ true → chain_of self.now.cells class ≡ [] }
        ensures class { result ≡ false → IsTrue (is_class (find_cell self.now.cells class)) }
        ensures first { result ≡ false → slice_get (chain_of self.now.cells class) 0 ≡ Some class }
    {
        let _size = self.words.len();
        class == NO_CLASS
    }

    /// The number of the first cell that is sought, none where there is none.
    pub fn first(&self, sought: Sought) -> Option<u32>
        ensures { result ≡ first_such (is_sought sought) self.now.cells }
    {
        let mut at: usize = 0;
        'walk: while at < self.firsts_end {
            let head = word_or_nil(&self.words, at);
            if is_sought_at(sought, head, word_or_nil(&self.words, at + 1)) {
                return Some(at as u32);
            }
            at += 1 + words_behind(head) as usize;
        }
        None
    }

    /// Forgets all cells and keeps the room.
    pub fn clear(&mut self)
        ensures { self.new ≡ record self.old { cells = [] } }
    {
        self.words.clear();
        self.firsts_end = 0;
    }
}

/// The end of the first cells with a new cell at a number, which may be one of them.
#[inline(always)]
fn bound_with(first: bool, number: usize, bound: usize) -> usize
    requires { number < 2 ^ 32 }
    ensures { result ≡ (if first then number + 1 else bound) }
{
    if first { number + 1 } else { bound }
}

/// The word of that place, and the word of nil past the end.
#[inline(always)]
fn word_or_nil(words: &[Word], at: usize) -> Word
    ensures { result ≡ slice_index_or words.now at Nil }
{
    match words.get(at) {
        Some(word) => *word,
        None => Word::Nil,
    }
}

/// What the words behind the head of a block tell of it, where its self is a cell and around it is an environment or none.
#[inline(always)]
fn block_in(body: u32, home: u64, next: Word, second: Word) -> Option<BlockParts>
    ensures { IsBlockOf (cell.Block body (value_in second) home (value_in next) (beside_in second)) result }
{
    match next {
        Word::Ref(receiver) => match second {
            Word::RefWith { beside, at } => Some(BlockParts {
                body,
                env: Some(at),
                home,
                receiver,
                holder: beside,
            }),
            Word::NilWith { beside } => Some(BlockParts {
                body,
                env: None,
                home,
                receiver,
                holder: beside,
            }),
            _ => None,
        },
        _ => None,
    }
}

/// What a head and the three words behind it tell.
#[inline(always)]
fn shape_in(head: Word, next: Word, second: Word, third: Word) -> NewCell
    ensures { result ≡ shape_in head (next ∷ second ∷ third ∷ []) }
{
    match head {
        Word::Bytes(_) => NewCell::Mirror(Value::Nil),
        Word::Object { class, words } => NewCell::Object { class, words },
        Word::Class { decl, base } => NewCell::Class {
            decl,
            base,
            encl: value_in(next),
            holder: value_in(second),
            over: value_in(third),
        },
        Word::Block { body, home } => NewCell::Block {
            body,
            env: value_in(second),
            home,
            receiver: value_in(next),
            holder: beside_in(second),
        },
        Word::Array { size } => NewCell::Array { size },
        Word::Text { bytes } => NewCell::Text { bytes },
        Word::Facet(kind) => NewCell::Facet(kind),
        Word::Mirror => NewCell::Mirror(value_in(next)),
        Word::Message(sel) => NewCell::Message {
            sel,
            args: value_in(next),
        },
        parent => NewCell::Environment {
            parent: value_in(parent),
            locals: beside_in(parent),
        },
    }
}

/// What a head tells by itself.
#[inline(always)]
fn head_in(head: Word) -> Head
    ensures { result ≡ head_in head }
{
    match head {
        Word::Bytes(_) => Head::Mirror,
        Word::Object { class, words } => Head::Object { class, words },
        Word::Class { decl, base } => Head::Class { decl, base },
        Word::Block { body, home } => Head::Block { body, home },
        Word::Array { size } => Head::Array { size },
        Word::Text { bytes } => Head::Text { bytes },
        Word::Facet(kind) => Head::Facet(kind),
        Word::Mirror => Head::Mirror,
        Word::Message(sel) => Head::Message(sel),
        parent => Head::Environment {
            locals: beside_in(parent),
        },
    }
}

/// How many words stand behind a head.
fn words_behind(head: Word) -> u64
    ensures { result ≡ words_behind head }
{
    match head {
        Word::Bytes(_) => 0,
        Word::Object { words, .. } => u64::from(words),
        Word::Class { .. } => 3,
        Word::Block { .. } => 2,
        Word::Array { size } => u64::from(size),
        Word::Text { bytes } => text_words(bytes),
        Word::Facet(_) => 0,
        Word::Mirror => 1,
        Word::Message(_) => 2,
        parent => u64::from(beside_in(parent)),
    }
}

/// The class that a value refers to as a superclass, `NO_CLASS` where it refers to none.
fn declared_class(over: Value) -> u32
    ensures { result ≡ declared_class over }
{
    match over {
        Value::Ref(class) => class,
        _ => NO_CLASS,
    }
}

/// The eight bytes of a word.
fn row_in(word: Word) -> [u8; 8]
    ensures { (row : List ℕ) → word ≡ Bytes row → result ≡ row }
{
    match word {
        Word::Bytes(row) => row,
        _ => [0; 8],
    }
}

/// One of the eight bytes of a word.
fn byte_in(word: Word, place: usize) -> u8
    requires { place < 8 }
    ensures { (row : List ℕ) → word ≡ Bytes row → result ≡ slice_index row place }
{
    match word {
        Word::Bytes(bytes) => bytes[place],
        _ => 0,
    }
}

/// The word with one of its eight bytes replaced.
fn with_byte(word: Word, place: usize, byte: u8) -> Word
    requires { place < 8 }
    ensures { (row : List ℕ) → word ≡ Bytes row → result ≡ Bytes (slice_set row place byte) }
{
    match word {
        Word::Bytes(mut bytes) => {
            bytes[place] = byte;
            Word::Bytes(bytes)
        }
        other => other,
    }
}
