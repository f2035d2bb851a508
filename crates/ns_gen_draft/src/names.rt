//! The table of names while code is written. It has no limit of its own, so that a program with too
//! many names is told as such whatever else is wrong with its size.

ghost use Rattle.std.specs.Prelude.{◌≡◌, [], length, false, position, option_map, IfOk, OnOk, OnErr};
ghost use Rattle.std.specs.Option.{is_some};
ghost use Rattle.std.specs.Str.{bytes_eq};
ghost use Rattle.ns_base.specs.Names.{NoRepeats, has, put_in, place_of};

use crate::never::cannot_come;
use ns_base::items::Items;
use ns_base::key::Key;
use ns_base::no_memory::NoMemory;
use ns_base::selector::Sel;
use ns_base::text::Text;
use ns_base::text_set::TextSet;
use std::alloc::Global;
use std::marker::Model;

/// Texts without repeats, in the order of first use. A clause sees the list alone.
#[derive(Drop)]
pub struct Names {
    alloc: Global,
    texts: TextSet,
}

impl Model for Names {
    ghost use Rattle.std.specs.Prelude.{List, ℕ};
    ghost use Rattle.ns_base.specs.Names.{NoRepeats};

    ghost Value = { List (List ℕ) };

    ghost view = { λ table. table.texts };

    ghost invariant = { λ table. NoRepeats table.texts };
}

impl Names {
    /// A table without names, and the key for those to come.
    pub fn new(alloc: Global, key: Key) -> Names
        ensures { result ≡ [] }
    {
        Names {
            alloc,
            texts: TextSet::new(alloc, key),
        }
    }

    /// The number of that text, which gets the next number where it is new. More than 4,294,967,295
    /// texts are taken for want of memory. After a refusal the table is as it was.
    pub fn intern(&mut self, text: &[u8]) -> Result<Sel, NoMemory>
        ensures number { IfOk result (λ sel. sel.0 ≡ place_of self.old text.now) }
        ensures put { OnOk result (self.new ≡ put_in self.old text.now) }
        ensures unchanged { OnErr result (self.new ≡ self.old) }
        ensures no_repeats { NoRepeats self.new }
    {
        match self.find(text) {
            Some(number) => Ok(number),
            None => self.add(text),
        }
    }

    /// Gives a new text the next number.
    fn add(&mut self, text: &[u8]) -> Result<Sel, NoMemory>
        requires { has self.old text.now ≡ false }
        ensures number { IfOk result (λ sel. sel.0 ≡ place_of self.old text.now) }
        ensures put { OnOk result (self.new ≡ put_in self.old text.now) }
        ensures unchanged { OnErr result (self.new ≡ self.old) }
        ensures no_repeats { NoRepeats self.new }
    {
        match Text::of(self.alloc, text) {
            Err(_) => Err(NoMemory),
            Ok(name) => match self.texts.add(name) {
                Err(_) => Err(NoMemory),
                Ok(number) => Ok(Sel(number)),
            },
        }
    }

    /// The number of that text, if the table has it.
    fn find(&self, text: &[u8]) -> Option<Sel>
        ensures number { option_map (λ sel. sel.0) result ≡ position (bytes_eq text.now) self.now }
        ensures found { is_some result ≡ has self.now text.now }
        ensures no_repeats { NoRepeats self.now }
    {
        match self.texts.find(text) {
            Some(number) => Some(Sel(number)),
            None => None,
        }
    }

    /// The number of a text of the table.
    #[tactic(auto, using(crate::proofs::Tables::placed))]
    pub fn number(&self, text: &[u8]) -> Result<Sel, NoMemory>
        ensures { IfOk result (λ sel. sel.0 ≡ place_of self.now text.now) }
    {
        match self.find(text) {
            Some(number) => Ok(number),
            None => Err(cannot_come()),
        }
    }

    /// Its texts, in memory of their own.
    pub fn texts(&self) -> Result<Items<Text>, NoMemory>
        ensures { IfOk result (λ texts. texts ≡ self.now) }
    {
        let copies = copies(self.alloc, self.texts.as_slice())?;
        Ok(Items::from_vec(copies))
    }

    /// How many names there are.
    pub fn count(&self) -> usize
        ensures { result ≡ length self.now }
    {
        self.texts.as_slice().len()
    }
}

/// Texts in memory of their own.
pub fn copies(alloc: Global, texts: &[Text]) -> Result<Vec<Text>, NoMemory>
    ensures { IfOk result (λ copies. copies.items ≡ texts.now) }
{
    let mut copies = Vec::new(alloc);
    for text in texts {
        copies.push(Text::of(alloc, text.bytes())?)?;
    }
    Ok(copies)
}
