//! Objects, whose words are those of the classes in their chain.

ghost use Rattle.std.specs.Prelude.{◌≡◌, ◌<◌, ◌≤◌, get_or, length, option_map};
ghost use Rattle.std.specs.List.{slice_index_or};
ghost use Rattle.ns_world.specs.declared.value.Value.TheVariants as value;
ghost use Rattle.ns_world.specs.Heap as heap;
ghost use Rattle.ns_frozen_tables.specs.Kinds as kinds;
ghost use Rattle.ns_frozen.specs.Cells as spec;
ghost use Rattle.ns_frozen_seen.specs.Seen.{IsSeen, heap_of};

use crate::seen::Seen;
use crate::values::{is_ref, names};
use ns_code::class::NestedCode;
use ns_frozen::cell::CellData;
use ns_frozen::plain::PlainValue;
use ns_world::value::Value;

impl Seen<'_> {
    /// Whether an object of a class has a word for each entry, which are live, and its nested classes are its own.
    pub fn is_instance(&self, number: u128, class: u32, words: &[PlainValue]) -> bool
        requires { IsSeen self.now }
        ensures { result ≡ spec.is_instance self.now.code.now (heap_of self.now) number class words.now }
    {
        match self.place(class) {
            Some(place) => self.is_instance_at(number, place, words),
            None => false,
        }
    }

    /// The same of the class at a place.
    fn is_instance_at(&self, number: u128, place: u32, words: &[PlainValue]) -> bool
        requires seen { IsSeen self.now }
        requires there { place < length self.now.chains.numbers.items }
        ensures { result ≡ spec.is_instance self.now.code.now (heap_of self.now) number (get_or self.now.chains.numbers.items place 0) words.now }
    {
        self.has_chain_at(place)
            && words.len() as u64 == self.layout_at(place)
            && self.are_live(words)
            && self.are_kept_at(number, words, Some(place))
    }

    /// Whether words from one on are those for nested classes.
    pub fn are_kept_from(
        &self,
        number: u128,
        holder: u32,
        words: &[PlainValue],
        first: u64,
        nested: &[NestedCode],
    ) -> bool
        requires seen { IsSeen self.now }
        requires few { first ≤ 562949953486848 }
        ensures { result ≡ spec.are_kept_from (heap_of self.now) number holder words.now first nested.now }
    {
        let mut word = first;
        'nested: for one in nested {
            if !self.is_kept(number, holder, one.class, word_at(words, word)) {
                return false;
            }
            word += 1;
        }
        true
    }

    /// Whether a word for a nested class is nil, or holds such a class.
    fn is_kept(&self, object: u128, holder: u32, decl: u32, word: Value) -> bool
        requires { IsSeen self.now }
        ensures { result ≡ spec.is_kept (heap_of self.now) object holder decl word }
    {
        match word {
            Value::Nil => true,
            Value::Ref(class) => self.is_kept_at(object, holder, decl, class),
            _ => false,
        }
    }

    /// Whether a cell is such a class.
    #[tactic(auto, using(crate::proofs::Asked::kept_cells))]
    fn is_kept_at(&self, object: u128, holder: u32, decl: u32, class: u32) -> bool
        requires { IsSeen self.now }
        ensures { result ≡ spec.is_kept_cell object holder decl (heap.find_cell (heap_of self.now) class) }
    {
        is_kept_cell(object, holder, decl, self.find(class))
    }
}

/// The word of that number, nil where there is none.
fn word_at(words: &[PlainValue], word: u64) -> Value
    ensures { result ≡ slice_index_or words.now word value.Nil }
{
    match words.get(word as usize) {
        Some(word) => word.value(),
        None => Value::Nil,
    }
}

/// Whether a cell is a class of that declaration, enclosed by this object and holder.
fn is_kept_cell(object: u128, holder: u32, decl: u32, cell: Option<CellData<'_>>) -> bool
    ensures { result ≡ kinds.is_kept_cell object holder decl cell.entry }
{
    match cell {
        Some(
            CellData::Class {
                decl: other,
                encl,
                holder: outer,
                ..
            },
        ) => other == decl && names(object, encl) && is_ref(holder, outer),
        _ => false,
    }
}
