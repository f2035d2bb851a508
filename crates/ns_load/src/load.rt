//! Loading the files of a program.

ghost use Rattle.std.specs.Prelude.{◌≡◌, ◌≤◌, ◌+◌, ◌++◌, ◌∷◌, All, IfErr, IfOk, IsErrOf, length, map, OnOk, ℕ, Some, []};
ghost use Rattle.ns_base.specs.Count.{Rose};
ghost use Rattle.ns_base.specs.Files.{Files};
ghost use Rattle.ns_base.specs.Shelf.{OnlyRead};
ghost use Rattle.ns_load.specs.Answer.{AreRead, HasRefusedTexts, HasTexts, IsSpelling, AnswerTells, TellsParts};
ghost use Rattle.ns_load.specs.Loaded as spec;
ghost use Rattle.ns_load.specs.Source as source_lem;
ghost use Rattle.ns_load.specs.Stated.{IsLoading};
ghost use Rattle.ns_load.specs.declared.fault.LoadCause.TheVariants.{Missing, ReadFault};
ghost use Rattle.ns_load.specs.declared.fault.LoadFault.TheVariants.{At};
ghost use Rattle.ns_scope.specs.Whole.{NamesFile, IsWhole};
ghost use Rattle.ns_tree.specs.PlainOf.{unit_of};

use crate::fault::LoadFault;
use crate::file::load_file;
use crate::laws::what_is_loaded_is_whole;
use crate::parts::Parts;
use crate::read::read;
use ns_base::shelf::Shelf;
use ns_base::text::Text;
use ns_lib::collections::collections;
use ns_scope::program::Program;
use std::alloc::Global;

/// The name that the library has as a file.
const LIBRARY: &str = "lib:Collections";

/// Loads the files of 1 to 16 names in their order, and then the library where it is asked for. The
/// first file that is refused decides. What is loaded is a whole program.
pub fn load<S: Shelf>(
    alloc: Global,
    shelf: &mut S,
    names: &[Text],
    lib: bool,
) -> Result<Program, LoadFault>
    requires some { 1 ≤ length names.now }
    requires few { length names.now ≤ 16 }
    requires named { All NamesFile names.now }
    // Over files that are told, the answer is what they are loaded as.
    ensures told { (files : Files) → S.holds shelf.old ≡ Some files → AnswerTells names.now lib files result }
    // Whether or not they are told, there are texts of which it is so, and the program is whole.
    ensures texts { HasTexts names.now lib result }
    ensures whole { IfOk result IsWhole }
    // The program is of sources, with the names that were given.
    ensures files { IfOk result (λ program. program.files ≡ spec.file_names names.now lib) }
    ensures count { IfOk result (λ program. length program.units ≡ length program.files) }
    ensures read { IfOk result (λ program. AreRead 0 (map unit_of program.units) program.marks) }

    // Each fault has its cause, and no file is changed.
    ensures missing { (k : ℕ) → IsErrOf result (At Missing k) → Rose (S.misses shelf.old) (S.misses shelf.new) }
    ensures read_fault { (k : ℕ) → IsErrOf result (At ReadFault k) → Rose (S.faults shelf.old) (S.faults shelf.new) }
    ensures only_read { OnlyRead S.holds S.misses S.faults S.store_faults shelf.old shelf.new }
{
    what_is_loaded_is_whole();
    let mut parts = Parts::new(alloc);
    match load_files(alloc, shelf, names, &mut parts) {
        Ok(()) => with_library(alloc, parts, lib),
        Err(fault) => Err(fault),
    }
}

/// Puts the files of these names into a program without files.
fn load_files<S: Shelf>(
    alloc: Global,
    shelf: &mut S,
    names: &[Text],
    parts: &mut Parts,
) -> Result<(), LoadFault>
    requires few { length names.now ≤ 16 }
    requires named { All NamesFile names.now }
    requires units { parts.old.units.items ≡ [] }
    requires files { parts.old.files.items ≡ [] }
    requires marks { parts.old.marks.items ≡ [] }
    ensures told { (files : Files) → S.holds shelf.old ≡ Some files →
        TellsParts names.now files (map unit_of parts.new.units.items) parts.new.marks.items result }
    ensures files { OnOk result (parts.new.files.items ≡ names.now) }
    ensures count { OnOk result (length parts.new.units.items ≡ length names.now) }
    ensures read { OnOk result (AreRead 0 (map unit_of parts.new.units.items) parts.new.marks.items) }
    ensures texts { IfErr result (HasRefusedTexts names.now) }

    ensures missing { (k : ℕ) → IsErrOf result (At Missing k) → Rose (S.misses shelf.old) (S.misses shelf.new) }
    ensures read_fault { (k : ℕ) → IsErrOf result (At ReadFault k) → Rose (S.faults shelf.old) (S.faults shelf.new) }
    ensures only_read { OnlyRead S.holds S.misses S.faults S.store_faults shelf.old shelf.new }
{
    let mut file: u32 = 0;
    'files: for name in names {
        let kept = Text::of(alloc, name.bytes())?;
        match load_file(alloc, shelf, file, name) {
            Err(fault) => return Err(fault),
            Ok(source) => parts.add(kept, source)?,
        }
        file += 1;
    }
    Ok(())
}

/// The program of these files, and of the library where it is asked for.
fn with_library(alloc: Global, parts: Parts, lib: bool) -> Result<Program, LoadFault>
    requires { length parts.units.items ≤ 16 }
    ensures loaded { IsLoading (spec.after (map unit_of parts.units.items) parts.marks.items
        (spec.load_from (length parts.units.items) (spec.library lib))) result }
    ensures spelling { IfErr result IsSpelling }
    ensures files { IfOk result (λ program. program.files ≡ spec.file_names parts.files.items lib) }
    ensures count { length parts.units.items ≡ length parts.files.items → IfOk result (λ program. length program.units ≡ length program.files) }
    ensures read { AreRead 0 (map unit_of parts.units.items) parts.marks.items → IfOk result (λ program. AreRead 0 (map unit_of program.units) program.marks) }
{
    if lib {
        with_source(alloc, parts, LIBRARY, collections())
    } else {
        Ok(parts.program())
    }
}

/// The program of these files, and of the source of one more.
fn with_source(alloc: Global, parts: Parts, name: &str, source: &[u8]) -> Result<Program, LoadFault>
    requires few { length parts.units.items ≤ 16 }
    requires short { length source.now ≤ 1048576 }
    ensures loaded { IsLoading (spec.after (map unit_of parts.units.items) parts.marks.items
        (spec.with_file (source_lem.read (length parts.units.items) source.now) (spec.units [] []))) result }
    ensures spelling { IfErr result IsSpelling }
    ensures files { IfOk result (λ program. program.files ≡ parts.files.items ++ name.now ∷ []) }
    ensures count { length parts.units.items ≡ length parts.files.items → IfOk result (λ program. length program.units ≡ length program.files) }
    ensures read { AreRead 0 (map unit_of parts.units.items) parts.marks.items → IfOk result (λ program. AreRead 0 (map unit_of program.units) program.marks) }
{
    let mut parts = parts;
    let kept = Text::of(alloc, name.as_bytes())?;
    match read(alloc, parts.units.len() as u32, source) {
        Err(fault) => Err(fault),
        Ok(source) => {
            parts.add(kept, source)?;
            Ok(parts.program())
        }
    }
}
