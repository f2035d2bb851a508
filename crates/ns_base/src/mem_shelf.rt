//! A shelf over memory on which listed calls fail.

ghost use Rattle.std.specs.Prelude.{◌≡◌, ◌+◌, ◌≤◌, [], length, IfOk, IsErrOf, Some};
ghost use Rattle.ns_base.specs.Count.{Rose, one_more};
ghost use Rattle.ns_base.specs.MemShelf.{Loads, Stores, after_load, held, will_fail};
ghost use Rattle.ns_base.specs.Shelf.{AnswersLoad, AnswersStore};
ghost use Rattle.ns_base.specs.Stored.{file_at};

use crate::shelf::{Shelf, ShelfFault};
use crate::stored::{find, first, set};
use crate::text::Text;
use std::alloc::Global;

/// Files in memory, of which the listed calls fail, counted from 0 over loads and stores. A load of
/// a name that it doesn't hold is a miss even where its call is listed.
#[derive(Drop)]
pub struct MemShelf {
    /// The files. Of two files of one name the first counts.
    pub files: Vec<(Text, Vec<u8>)>,
    /// The numbers of the calls that fail.
    pub fail_at: Vec<u64>,
    /// How many calls there were.
    pub calls: u64,
    /// How many loads found no file of their name.
    pub misses: u64,
    /// How many loads failed.
    pub faults: u64,
    /// How many stores failed.
    pub store_faults: u64,
}

impl MemShelf {
    /// A shelf of these files, on which no call fails yet.
    pub fn new(alloc: Global, files: Vec<(Text, Vec<u8>)>) -> MemShelf
        ensures files { result.files.items ≡ files.items }
        ensures sure { result.fail_at.items ≡ [] }
        ensures counts { result.misses + result.faults + result.store_faults ≡ 0 }
    {
        MemShelf {
            files,
            fail_at: Vec::new(alloc),
            calls: 0,
            misses: 0,
            faults: 0,
            store_faults: 0,
        }
    }

    /// Counts a call, and answers whether it is one that fails.
    fn fails(&mut self) -> bool
        ensures listed { result ≡ will_fail self.old }
        ensures counts { self.new ≡ record self.old { calls = one_more self.old.calls } }
    {
        let call = self.calls;
        self.calls = call.saturating_add(1);
        self.fail_at.contains(&call)
    }
}

impl Shelf for MemShelf {
    ghost use Rattle.std.specs.Prelude.{Some};
    ghost use Rattle.ns_base.specs.Stored.{file_at};

    ghost holds = { λ s. Some (file_at s.files.items) };

    ghost misses = { λ s. s.misses };

    ghost faults = { λ s. s.faults };

    ghost store_faults = { λ s. s.store_faults };

    /// The first `most` bytes of the file. `Missing` comes exactly where the name isn't held, and `Failed` exactly where it is
    /// and the call is listed.
    fn load(&mut self, alloc: Global, name: &str, most: u64) -> Result<Vec<u8>, ShelfFault>
        ensures answer { Loads (held self.old name.now) (will_fail self.old) most result }
        ensures counts { self.new ≡ after_load (held self.old name.now) (will_fail self.old) self.old }

        ensures holds { file_at self.new.files.items ≡ file_at self.old.files.items }
        ensures store_faults { self.new.store_faults ≡ self.old.store_faults }
        ensures misses { self.old.misses ≤ self.new.misses }
        ensures faults { self.old.faults ≤ self.new.faults }
        ensures at_most { IfOk result (λ bytes. length bytes.items ≤ most) }
        ensures missing { IsErrOf result ShelfFault.Missing → Rose self.old.misses self.new.misses }
        ensures failed { IsErrOf result ShelfFault.Failed → Rose self.old.faults self.new.faults }
        ensures told { AnswersLoad (file_at self.old.files.items) name.now most result }
    {
        let fails = self.fails();
        match find(self.files.as_slice(), name.as_bytes()) {
            None => {
                self.misses = self.misses.saturating_add(1);
                Err(ShelfFault::Missing)
            }
            Some(_) if fails => {
                self.faults = self.faults.saturating_add(1);
                Err(ShelfFault::Failed)
            }
            Some(bytes) => first(alloc, bytes.as_slice(), most),
        }
    }

    /// Makes these the bytes of the file. `Failed` comes exactly where the call is listed.
    fn store(&mut self, name: &str, bytes: &[u8]) -> Result<(), ShelfFault>
        ensures answer { Stores (will_fail self.old) name.now bytes.now self.old self.new result }

        ensures misses { self.new.misses ≡ self.old.misses }
        ensures faults { self.new.faults ≡ self.old.faults }
        ensures store_faults { self.old.store_faults ≤ self.new.store_faults }
        ensures missing { IsErrOf result ShelfFault.Missing → ⊥ }
        ensures failed { IsErrOf result ShelfFault.Failed → Rose self.old.store_faults self.new.store_faults }
        ensures told { AnswersStore (file_at self.old.files.items) (file_at self.new.files.items) name.now bytes.now result }
    {
        if self.fails() {
            self.store_faults = self.store_faults.saturating_add(1);
            return Err(ShelfFault::Failed);
        }
        match set(&mut self.files, name.as_bytes(), bytes) {
            Ok(()) => Ok(()),
            Err(_) => Err(ShelfFault::Memory),
        }
    }
}
