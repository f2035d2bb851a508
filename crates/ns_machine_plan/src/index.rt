//! Members under the numbers of their selectors, in the order of these, so that each is found in few steps.

ghost use Rattle.std.specs.Prelude.{◌≡◌, ℕ, IfOk, true, false, nat_lt};
ghost use Rattle.std.specs.List.Sorted.{IsNonDecreasingBy, IsPartitionPoint};
ghost use Rattle.ns_machine_plan.specs.Members.{first_under};

use crate::step::Member;
use ns_base::no_memory::NoMemory;
use std::marker::Model;

/// A member under the number of its selector.
#[derive(Clone, Copy)]
pub struct Entry {
    pub number: u32,
    pub member: Member,
}

/// Members in the order of their numbers. A clause sees the list.
#[derive(Drop)]
pub struct Index {
    entries: Vec<Entry>,
}

impl Model for Index {
    ghost use Rattle.std.specs.Prelude.{List};
    ghost use Rattle.std.specs.List.Sorted.{IsNonDecreasingBy};
    ghost use Rattle.ns_machine_plan.specs.declared.index.Entry.{Entry};

    ghost Value = { List Entry };

    ghost view = { λ index. index.entries.items };

    ghost invariant = { λ index. IsNonDecreasingBy (λ (entry : Entry). entry.number) index.entries.items };
}

impl Index {
    /// The index of some members, in which the first under each number stays the first. It takes no more memory than
    /// it needs.
    pub fn of(entries: Vec<Entry>) -> Result<Index, NoMemory>
        ensures { IfOk result (λ index. (number : ℕ) → first_under number index ≡ first_under number entries.items) }
    {
        let mut entries = entries;
        entries.sort_by_key(|entry| entry.number)?;
        entries.shrink_to_fit();
        Ok(Index { entries })
    }

    /// The first member under a number.
    pub fn find(&self, number: u32) -> Option<Member>
        ensures { result ≡ first_under number self.now }
    {
        find_in(self.entries.as_slice(), number)
    }
}

/// The first member under a number, among some in order.
fn find_in(entries: &[Entry], number: u32) -> Option<Member>
    requires { IsNonDecreasingBy (λ (entry : Entry). entry.number) entries.now }
    ensures { result ≡ first_under number entries.now }
{
    match entries.get(place_of(entries, number)) {
        Some(entry) => {
            if entry.number == number {
                Some(entry.member)
            } else {
                None
            }
        }
        None => None,
    }
}

/// How many members stand under lower numbers.
fn place_of(entries: &[Entry], number: u32) -> usize
    requires { IsNonDecreasingBy (λ (entry : Entry). entry.number) entries.now }
    ensures { IsPartitionPoint (λ (entry : Entry). nat_lt entry.number number ≡ true)
        (λ (entry : Entry). nat_lt entry.number number ≡ false) entries.now result }
{
    entries.partition_point(|entry| entry.number < number)
}
