//! Where files are.

ghost use Rattle.std.specs.Prelude.{◌≡◌, ℕ, ◌≤◌, length, Option, IfOk, IsErrOf, IfSome, IsNone, IsSomeAnd, MatchOption};
ghost use Rattle.ns_base.specs.Count.{Rose};
ghost use Rattle.ns_base.specs.Files.{Files};
ghost use Rattle.ns_base.specs.Shelf.{AnswersLoad, AnswersStore};

use std::alloc::Global;

/// Why a shelf did not do what it was asked to.
#[derive(Clone, Copy, PartialEq, Eq)]
pub enum ShelfFault {
    /// There is no file of that name. Only a load answers so.
    Missing,
    /// The file could not be read or written.
    Failed,
    /// No memory was found.
    Memory,
}

/// Files by name. Its three counts never fall, and a count that stands at the greatest number of
/// 64 bits stays there.
pub trait Shelf {
    /// The files, where the shelf tells them.
    ghost holds: { Self → Option Files };

    /// How many loads found no file of their name.
    ghost misses: { Self → ℕ };

    /// How many loads failed.
    ghost faults: { Self → ℕ };

    /// How many stores failed.
    ghost store_faults: { Self → ℕ };

    /// The first `most` bytes of the file of that name, or all where it has fewer.
    fn load(&mut self, alloc: Global, name: &str, most: u64) -> Result<Vec<u8>, ShelfFault>
        ensures holds { holds self.new ≡ holds self.old }
        ensures store_faults { store_faults self.new ≡ store_faults self.old }
        ensures misses { misses self.old ≤ misses self.new }
        ensures faults { faults self.old ≤ faults self.new }

        ensures at_most { IfOk result (λ bytes. length bytes.items ≤ most) }
        ensures missing { IsErrOf result ShelfFault.Missing → Rose (misses self.old) (misses self.new) }
        ensures failed { IsErrOf result ShelfFault.Failed → Rose (faults self.old) (faults self.new) }
        ensures told { IfSome (holds self.old) (λ files. AnswersLoad files name.now most result) };

    /// Makes these the bytes of the file of that name. Where it fails, the file may hold anything,
    /// and where memory is wanted, no file changed.
    fn store(&mut self, name: &str, bytes: &[u8]) -> Result<(), ShelfFault>
        ensures misses { misses self.new ≡ misses self.old }
        ensures faults { faults self.new ≡ faults self.old }
        ensures store_faults { store_faults self.old ≤ store_faults self.new }

        ensures missing { IsErrOf result ShelfFault.Missing → ⊥ }
        ensures failed { IsErrOf result ShelfFault.Failed → Rose (store_faults self.old) (store_faults self.new) }
        ensures told { MatchOption (holds self.old) (IsNone (holds self.new))
            (λ old. IsSomeAnd (holds self.new) (λ new. AnswersStore old new name.now bytes.now result)) };
}
