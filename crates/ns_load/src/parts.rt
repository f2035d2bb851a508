//! A program as far as its files are read.

ghost use Rattle.std.specs.Prelude.{◌≡◌, [], ◌∷◌, ◌++◌, OnOk};

use crate::read::Source;
use ns_base::items::Items;
use ns_base::key::Key;
use ns_base::no_memory::NoMemory;
use ns_base::place::Place;
use ns_base::text::Text;
use ns_scope::program::Program;
use ns_tree::tree::Unit;
use std::alloc::Global;

/// The units of the files that were read, the files' names, the places of their tokens, and the key
/// of tables of their names.
#[derive(Drop)]
pub struct Parts {
    pub units: Vec<Unit>,
    pub files: Vec<Text>,
    pub marks: Vec<Items<Place>>,
    pub key: Key,
}

impl Parts {
    /// No file.
    pub fn new(alloc: Global) -> Parts
        ensures units { result.units.items ≡ [] }
        ensures files { result.files.items ≡ [] }
        ensures marks { result.marks.items ≡ [] }
    {
        Parts {
            units: Vec::new(alloc),
            files: Vec::new(alloc),
            marks: Vec::new(alloc),
            key: Key::of(b""),
        }
    }

    /// Puts a file last.
    pub fn add(&mut self, name: Text, source: Source) -> Result<(), NoMemory>
        ensures units { OnOk result (self.new.units.items ≡ self.old.units.items ++ source.unit ∷ []) }
        ensures files { OnOk result (self.new.files.items ≡ self.old.files.items ++ name ∷ []) }
        ensures marks { OnOk result (self.new.marks.items ≡ self.old.marks.items ++ source.marks ∷ []) }
    {
        self.units.push(source.unit)?;
        self.marks.push(source.marks)?;
        self.files.push(name)?;
        self.key = self.key.and(source.key);
        Ok(())
    }

    /// The program of these files.
    pub fn program(self) -> Program
        ensures units { result.units ≡ self.units.items }
        ensures files { result.files ≡ self.files.items }
        ensures marks { result.marks ≡ self.marks.items }
    {
        Program {
            units: Items::from_vec(self.units),
            files: Items::from_vec(self.files),
            marks: Items::from_vec(self.marks),
            key: self.key,
        }
    }
}
