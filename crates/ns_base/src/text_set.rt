//! Sets of texts, in the order in which they came.

ghost use Rattle.std.specs.Prelude.{◌≡◌, ◌++◌, ◌∷◌, ◌<◌, ◌^◌, [], length, false, IfOk, OnOk, OnErr};
ghost use Rattle.std.specs.List.{position};
ghost use Rattle.std.specs.Option.{is_some};
ghost use Rattle.std.specs.Str.{bytes_eq};
ghost use Rattle.ns_base.specs.Names.{NoRepeats, has, place_of};

use crate::key::Key;
use crate::no_memory::NoMemory;
use crate::text::{Sought, Text};
use indexmap::IndexSet;
use std::alloc::Global;
use std::marker::Model;

/// Texts without repeats, in the order in which they came. A clause sees the list alone. Each is found
/// by its bytes, and no choice of texts makes that slow.
#[derive(Drop)]
pub struct TextSet {
    texts: IndexSet<Text, Key>,
}

impl Model for TextSet {
    ghost use Rattle.std.specs.Prelude.{List, ℕ, length, ◌<◌, ◌^◌};
    ghost use Rattle.ns_base.specs.Names.{NoRepeats};

    ghost Value = { List (List ℕ) };

    ghost view = { λ set. set.texts.keys };

    ghost invariant = { λ set. NoRepeats set.texts.keys × (length set.texts.keys < 2 ^ 32) };
}

impl TextSet {
    /// No texts, and the key for those to come.
    pub fn new(alloc: Global, key: Key) -> TextSet
        ensures { result ≡ [] }
    {
        TextSet {
            texts: IndexSet::with_hasher(alloc, key),
        }
    }

    /// The number of a text, if the set has it.
    pub fn find(&self, text: &[u8]) -> Option<u32>
        ensures number { result ≡ position (bytes_eq text.now) self.now }
        ensures found { is_some result ≡ has self.now text.now }
        ensures no_repeats { NoRepeats self.now }
        ensures few { length self.now < 2 ^ 32 }
    {
        match self.texts.get_index_of(Sought(text)) {
            Some(number) => Some(number as u32),
            None => None,
        }
    }

    /// Puts in a text that isn't there, and gives its number. More than 4,294,967,295 texts are taken for
    /// want of memory. After a refusal the set is as it was.
    pub fn add(&mut self, text: Text) -> Result<u32, NoMemory>
        requires { has self.old text ≡ false }
        ensures number { IfOk result (λ number. number ≡ place_of self.old text) }
        ensures put { OnOk result (self.new ≡ self.old ++ text ∷ []) }
        ensures unchanged { OnErr result (self.new ≡ self.old) }
        ensures no_repeats { NoRepeats self.new }
        ensures few { length self.new < 2 ^ 32 }
    {
        if self.texts.len() >= u32::MAX as usize {
            return Err(NoMemory);
        }
        match self.texts.insert_full(text) {
            Ok((number, _)) => Ok(number as u32),
            Err(_) => Err(NoMemory),
        }
    }

    /// The texts.
    pub fn as_slice(&self) -> &[Text]
        ensures texts { result.now ≡ self.now }
        ensures no_repeats { NoRepeats self.now }
        ensures few { length self.now < 2 ^ 32 }
    {
        self.texts.as_slice()
    }
}
