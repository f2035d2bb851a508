//! Declarations under the numbers of names, in the order of these, so that those under one are found in few steps.

ghost use Rattle.std.specs.Prelude.{◌≡◌, ◌≤◌, ℕ, length, IfOk, true, false, nat_lt, nat_le};
ghost use Rattle.std.specs.List.Sorted.{IsNonDecreasingBy, IsPartitionPoint, IsPermutation};
ghost use Rattle.ns_code.specs.Listed.{is_listed, is_declared};

use ns_base::no_memory::NoMemory;
use std::alloc::Global;
use std::marker::Model;

/// A declaration under the number of a name.
#[derive(Clone, Copy)]
pub struct Listed {
    pub name: u32,
    pub declaration: u32,
}

/// Declarations in the order of the names that they stand under. A clause sees the list.
#[derive(Drop)]
pub struct Index {
    entries: Vec<Listed>,
}

impl Model for Index {
    ghost use Rattle.std.specs.Prelude.{List};
    ghost use Rattle.std.specs.List.Sorted.{IsNonDecreasingBy};
    ghost use Rattle.ns_code.specs.declared.listed.Listed.{Listed};

    ghost Value = { List Listed };

    ghost view = { λ index. index.entries.items };

    ghost invariant = { λ index. IsNonDecreasingBy (λ (entry : Listed). entry.name) index.entries.items };
}

impl Index {
    /// The index of what is listed in some order. It takes no more memory than it needs.
    pub fn of(listed: Vec<Listed>) -> Index
        ensures { IsPermutation listed.items result }
    {
        let mut entries = listed;
        entries.sort_unstable_by_key(|entry| entry.name);
        entries.shrink_to_fit();
        Index { entries }
    }

    /// The same in memory of its own.
    pub fn copy(&self, alloc: Global) -> Result<Index, NoMemory>
        ensures { IfOk result (λ copy. copy ≡ self.now) }
    {
        let entries = Vec::from_slice(alloc, self.entries.as_slice())?;
        Ok(Index { entries })
    }

    /// What stands under a name.
    pub fn under(&self, name: u32) -> &[Listed]
        ensures { (declaration : ℕ) → is_listed name declaration self.now ≡ true → is_declared declaration result.now ≡ true }
    {
        under(self.entries.as_slice(), name)
    }
}

/// What stands under a name, of entries in the order of their names.
fn under(entries: &[Listed], name: u32) -> &[Listed]
    requires { IsNonDecreasingBy (λ (entry : Listed). entry.name) entries.now }
    ensures { (declaration : ℕ) → is_listed name declaration entries.now ≡ true → is_declared declaration result.now ≡ true }
{
    let (_, from) = entries.split_at(first_from(entries, name));
    let (under, _) = from.split_at(first_past(from, name));
    under
}

/// How many stand under lower names.
fn first_from(entries: &[Listed], name: u32) -> usize
    requires { IsNonDecreasingBy (λ (entry : Listed). entry.name) entries.now }
    ensures within { result ≤ length entries.now }
    ensures point { IsPartitionPoint (λ (entry : Listed). nat_lt entry.name name ≡ true)
        (λ (entry : Listed). nat_lt entry.name name ≡ false) entries.now result }
{
    entries.partition_point(|entry| entry.name < name)
}

/// How many stand under this name or lower ones.
fn first_past(entries: &[Listed], name: u32) -> usize
    requires { IsNonDecreasingBy (λ (entry : Listed). entry.name) entries.now }
    ensures within { result ≤ length entries.now }
    ensures point { IsPartitionPoint (λ (entry : Listed). nat_le entry.name name ≡ true)
        (λ (entry : Listed). nat_le entry.name name ≡ false) entries.now result }
{
    entries.partition_point(|entry| entry.name <= name)
}
