//! What stands first under a number.

ghost use Rattle.std.specs.Prelude.{◌≡◌, [], None, IfOk, fold, replicate};
ghost use Rattle.ns_image_members.specs.Under.{first_under, put_under};

use ns_base::no_memory::NoMemory;
use std::alloc::Global;
use std::marker::Model;

/// Entries, each under a number, and a table of the first under each number below some length. A clause sees the entries.
#[derive(Drop)]
pub struct Firsts<'a, T> {
    entries: &'a [(u32, T)],
    table: Vec<Option<T>>,
}

impl<'a, T> Model for Firsts<'a, T> {
    ghost use Rattle.std.specs.Prelude.{ℕ, List};
    ghost use Rattle.ns_image_members.specs.Under.{IsTableOf};

    ghost Value = { List (ℕ × T) };

    ghost view = { λ firsts. firsts.entries.now };

    ghost invariant = { λ firsts. IsTableOf firsts.entries.now firsts.table.items };
}

impl<'a, T: Copy> Firsts<'a, T> {
    /// These entries, with a table for the numbers below a length.
    pub fn of(
        alloc: Global,
        entries: &'a [(u32, T)],
        length: usize,
    ) -> Result<Firsts<'a, T>, NoMemory>
        ensures { IfOk result (λ firsts. firsts ≡ entries.now) }
    {
        let table = table_of(alloc, entries, length)?;
        Ok(Firsts { entries, table })
    }

    /// The first that stands under a number. It is looked up in the table where the number is below its length.
    pub fn first(&self, number: usize) -> Option<T>
        ensures { result ≡ first_under self.now number }
    {
        match self.table.get(number) {
            Some(found) => *found,
            None => searched(self.entries, number),
        }
    }
}

/// The table of the first under each number below a length.
fn table_of<T: Copy>(
    alloc: Global,
    entries: &[(u32, T)],
    length: usize,
) -> Result<Vec<Option<T>>, NoMemory>
    ensures { IfOk result (λ table. table.items ≡ fold put_under (replicate length None) entries.now) }
{
    let mut table = nothing(alloc, length)?;
    'entries: for entry in entries {
        put_under(&mut table, entry.0, entry.1);
    }
    Ok(table)
}

/// A table without anything.
fn nothing<T: Copy>(alloc: Global, length: usize) -> Result<Vec<Option<T>>, NoMemory>
    ensures { IfOk result (λ table. table.items ≡ replicate length None) }
{
    let mut table = Vec::with_capacity(alloc, length)?;
    table.resize(length, None)?;
    Ok(table)
}

/// Puts a value under a number of the table, where nothing stands.
fn put_under<T: Copy>(table: &mut [Option<T>], number: u32, value: T)
    ensures { table.new ≡ put_under table.old (number, value) }
{
    match table.get(number as usize) {
        Some(None) => table[number as usize] = Some(value),
        Some(Some(_)) => {}
        None => {}
    }
}

/// The first that stands under a number.
fn searched<T: Copy>(entries: &[(u32, T)], number: usize) -> Option<T>
    ensures { result ≡ first_under entries.now number }
{
    'entries: for entry in entries {
        if entry.0 as usize == number {
            return Some(entry.1);
        }
    }
    None
}
