//! Tables of texts.

ghost use Rattle.std.specs.Prelude.{◌≡◌, [], IfOk, OnOk, option_copied, not};
ghost use Rattle.ns_scope.specs.Table.{has, put_first, look_up};

use indexmap::IndexMap;
use ns_base::key::Key;
use ns_base::no_memory::NoMemory;
use ns_base::text::{Sought, Text};
use std::alloc::Global;
use std::marker::Model;

/// What each text stands for. The first that is put in for a text decides.
#[derive(Drop)]
pub struct Table<V> {
    entries: IndexMap<Text, V, Key>,
}

impl<V> Model for Table<V> {
    ghost use Rattle.std.specs.Prelude.{List, ℕ};

    ghost Value = { List (List ℕ × V) };

    ghost view = { λ table. table.entries.entries };
}

impl<V: Copy> Table<V> {
    /// A table without texts, and the key for those to come.
    pub fn new(alloc: Global, key: Key) -> Table<V>
        ensures { result ≡ [] }
    {
        Table {
            entries: IndexMap::with_hasher(alloc, key),
        }
    }

    /// Puts a text in, unless it is there. Tells whether it is new.
    #[tactic(auto, using(crate::proofs::Tables::new_text_goes_last))]
    pub fn put_first(&mut self, text: Text, value: V) -> Result<bool, NoMemory>
        ensures new { IfOk result (λ new. new ≡ not (has self.old text)) }
        ensures put { OnOk result (self.new ≡ put_first self.old text value) }
    {
        if self.entries.contains_key(&text) {
            return Ok(false);
        }
        self.entries.insert(text, value)?;
        Ok(true)
    }

    /// What that text stands for.
    pub fn look_up(&self, text: &[u8]) -> Option<V>
        ensures { result ≡ look_up self.now text.now }
    {
        match self.entries.get(Sought(text)) {
            Some(value) => Some(*value),
            None => None,
        }
    }
}
