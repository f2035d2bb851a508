//! Loading one file.

ghost use Rattle.std.specs.Prelude.{◌≡◌, IfOk, IfErr, IsErrOf, IsUtf8, ℕ, Some};
ghost use Rattle.ns_base.specs.Count.{Rose};
ghost use Rattle.ns_base.specs.Files.{Files};
ghost use Rattle.ns_base.specs.Shelf.{OnlyRead};
ghost use Rattle.ns_load.specs.Answer.{IsOfSomeText, IsOfBytes, IsRead, TellsFile};
ghost use Rattle.ns_load.specs.Source as spec;
ghost use Rattle.ns_load.specs.Stated.{IsReading};
ghost use Rattle.ns_load.specs.declared.fault.LoadCause.TheVariants.{Missing, ReadFault, TooLong};
ghost use Rattle.ns_load.specs.declared.fault.LoadFault.TheVariants.{At, Memory};
ghost use Rattle.ns_tree.specs.PlainOf.{unit_of};

use crate::fault::{LoadCause, LoadFault};
use crate::read::{Source, read};
use ns_base::shelf::{Shelf, ShelfFault};
use ns_base::text::Text;
use std::alloc::Global;

/// The most bytes of a source.
pub const SOURCE_BYTES: usize = 1_048_576;

/// What the file of that number and name is read as.
pub fn load_file<S: Shelf>(
    alloc: Global,
    shelf: &mut S,
    file: u32,
    name: &Text,
) -> Result<Source, LoadFault>
    requires { IsUtf8 name.now }
    ensures told { (files : Files) → S.holds shelf.old ≡ Some files → TellsFile file (files name.now) result }
    ensures read { IfOk result (λ source. IsRead file (unit_of source.unit) source.marks) }
    ensures text { IfErr result (IsOfSomeText file) }

    ensures only_read { OnlyRead S.holds S.misses S.faults S.store_faults shelf.old shelf.new }
    ensures missing { (k : ℕ) → IsErrOf result (At Missing k) → Rose (S.misses shelf.old) (S.misses shelf.new) }
    ensures read_fault { (k : ℕ) → IsErrOf result (At ReadFault k) → Rose (S.faults shelf.old) (S.faults shelf.new) }
{
    match shelf.load(alloc, str_of(name), SOURCE_BYTES as u64 + 1) {
        Err(ShelfFault::Missing) => Err(refused(file, LoadCause::Missing)),
        Err(ShelfFault::Failed) => Err(refused(file, LoadCause::ReadFault)),
        Err(ShelfFault::Memory) => Err(LoadFault::Memory),
        Ok(source) => read_bytes(alloc, file, source.as_slice()),
    }
}

/// What these bytes of a file are read as.
fn read_bytes(alloc: Global, file: u32, source: &[u8]) -> Result<Source, LoadFault>
    ensures exact { IsReading (spec.read_bytes file source.now) result }
    ensures read { IfOk result (λ source. IsRead file (unit_of source.unit) source.marks) }
    ensures cause { IfErr result IsOfBytes }
{
    if SOURCE_BYTES < source.len() {
        return Err(refused(file, LoadCause::TooLong));
    }
    read(alloc, file, source)
}

fn refused(file: u32, cause: LoadCause) -> LoadFault
    ensures { result ≡ At cause file }
{
    LoadFault::At { cause, file }
}

/// A name as the shelf takes it.
fn str_of(name: &Text) -> &str
    requires { IsUtf8 name.now }
    ensures { result.now ≡ name.now }
{
    match str::from_utf8(name.bytes()) {
        Ok(name) => name,
        Err(_) => "",
    }
}
