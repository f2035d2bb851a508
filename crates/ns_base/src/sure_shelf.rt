//! A shelf over memory on which no call fails.

use crate::shelf::{Shelf, ShelfFault};
use crate::stored::{find, first, set};
use crate::text::Text;
use std::alloc::Global;

/// Files in memory that never fail: its two counts of faults are 0 for good.
#[derive(Drop)]
pub struct SureShelf {
    /// The files. Of two files of one name the first counts.
    pub files: Vec<(Text, Vec<u8>)>,
    /// How many loads found no file of their name.
    pub misses: u64,
}

impl Shelf for SureShelf {
    ghost use Rattle.std.specs.Prelude.{Some};
    ghost use Rattle.ns_base.specs.Stored.{file_at};

    ghost holds = { λ s. Some (file_at s.files.items) };

    ghost misses = { λ s. s.misses };

    ghost faults = { λ _. 0 };

    ghost store_faults = { λ _. 0 };

    fn load(&mut self, alloc: Global, name: &str, most: u64) -> Result<Vec<u8>, ShelfFault> {
        match find(self.files.as_slice(), name.as_bytes()) {
            Some(bytes) => first(alloc, bytes.as_slice(), most),
            None => {
                self.misses = self.misses.saturating_add(1);
                Err(ShelfFault::Missing)
            }
        }
    }

    fn store(&mut self, name: &str, bytes: &[u8]) -> Result<(), ShelfFault> {
        match set(&mut self.files, name.as_bytes(), bytes) {
            Ok(()) => Ok(()),
            Err(_) => Err(ShelfFault::Memory),
        }
    }
}
