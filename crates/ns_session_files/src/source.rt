//! The code of one application, from its files.

ghost use Rattle.std.specs.Prelude.{◌≡◌, ◌≤◌, All, IfErr, IsErrOf, Some, map, true, length, string_bytes};
ghost use Rattle.ns_base.specs.Count.{Rose};
ghost use Rattle.ns_base.specs.Files.{Files};
ghost use Rattle.ns_base.specs.Shelf.{OnlyRead};
ghost use Rattle.ns_facets.specs.declared.row.Grants.{Grants as AnyGrants};
ghost use Rattle.ns_resolved.specs.Classes.{meant};
ghost use Rattle.ns_load.specs.Loaded.{loaded, loaded_texts};
ghost use Rattle.ns_scope.specs.Whole.{NamesFile, IsWhole};
ghost use Rattle.ns_static.specs.Check.{fault_of};
ghost use Rattle.ns_tree.specs.PlainOf.{unit_of};
ghost use Rattle.ns_run_words.specs.Application.{are_few, names_in};
ghost use Rattle.ns_run_words.specs.Line.{asked_seen};
ghost use Rattle.ns_run_words.specs.Named.{OfSomeTexts, SomeIsThere};
ghost use Rattle.ns_session_files.specs.Answer.{HasRefusedFile, IsMadeAs, IsMissingFile, IsOfLoaded, fault_from};
ghost use Rattle.ns_session_files.specs.Making as spec;
ghost use Rattle.ns_session_files.specs.declared.fault.JointFault.TheVariants.{Unread};
ghost use Rattle.ns_session_files.specs.declared.fault.JointFault.TheVariants as AnyFault;

use crate::fault::JointFault;
use ns_base::shelf::Shelf;
use ns_base::text::Text;
use ns_link::compile::compile;
use ns_link::fault::LinkFault;
use ns_link::laws::whole_programs_begin;
use ns_load::fault::{LoadCause, LoadFault};
use ns_load::load::load;
use ns_load::names::names_of;
use ns_run_words::application::{Asked, names_in};
use ns_scope::program::Program;
use ns_static::check::{Checked, check};
use ns_static::fault::StaticFault;
use ns_verify::verify::Verified;
use std::alloc::Global;

/// The code of the application that is asked for; or why it can't be made.
pub fn code_of<S: Shelf>(
    alloc: Global,
    asked: Asked<'_>,
    lib: bool,
    shelf: &mut S,
) -> Result<Verified, JointFault>
    requires few { are_few 16 (asked_seen asked).names ≡ true }
    ensures told { (files : Files) → S.holds shelf.old ≡ Some files →
        IsMadeAs (spec.granted (asked_seen asked.entry)) (spec.made_from files lib (asked_seen asked.entry)) result }
    ensures texts { OfSomeTexts (asked_seen asked.entry).names (λ texts.
        IsMadeAs (spec.granted (asked_seen asked.entry)) (spec.made_of lib (asked_seen asked.entry) texts) result) }
    ensures refused { IfErr result HasRefusedFile }
    ensures only_read { OnlyRead S.holds S.misses S.faults S.store_faults shelf.old shelf.new }
    ensures missing { IfErr result (λ why. IsMissingFile why → Rose (S.misses shelf.old) (S.misses shelf.new)) }
    ensures read_fault { IsErrOf result Unread → Rose (S.faults shelf.old) (S.faults shelf.new) }
    ensures read_fault_there { (files : Files) → S.holds shelf.old ≡ Some files → IsErrOf result Unread →
        SomeIsThere files (asked_seen asked.entry).names }
{
    code_of_files(alloc, asked.names, lib, shelf)
}

/// The code of the application of 1 to 16 files, whose names are joined by `+`, and of the library where it is asked for; or
/// why it can't be made. A host gives its texts on a shelf in memory (`ns_base::mem_shelf`).
pub fn code_of_files<S: Shelf>(
    alloc: Global,
    names: &str,
    lib: bool,
    shelf: &mut S,
) -> Result<Verified, JointFault>
    requires few { are_few 16 (names_in names.now) ≡ true }
    ensures told { (grants : AnyGrants) (files : Files) → S.holds shelf.old ≡ Some files →
        IsMadeAs grants (spec.of_loading (names_in names.now) grants lib (loaded (names_in names.now) lib files)) result }
    ensures texts { (grants : AnyGrants) → OfSomeTexts (names_in names.now) (λ read.
        IsMadeAs grants (spec.of_loading (names_in names.now) grants lib (loaded_texts read lib)) result) }
    ensures refused { IfErr result HasRefusedFile }
    ensures only_read { OnlyRead S.holds S.misses S.faults S.store_faults shelf.old shelf.new }
    ensures missing { IfErr result (λ why. IsMissingFile why → Rose (S.misses shelf.old) (S.misses shelf.new)) }
    ensures read_fault { IsErrOf result Unread → Rose (S.faults shelf.old) (S.faults shelf.new) }
    ensures read_fault_there { (files : Files) → S.holds shelf.old ≡ Some files → IsErrOf result Unread →
        SomeIsThere files (names_in names.now) }
{
    let names = names_in(alloc, names)?;
    let texts = names_of(alloc, names.as_slice())?;
    of_files(alloc, names, texts.as_slice(), lib, shelf)
}

/// The code of the application of files of these names, which are texts too.
fn of_files<S: Shelf>(
    alloc: Global,
    names: Vec<String>,
    texts: &[Text],
    lib: bool,
    shelf: &mut S,
) -> Result<Verified, JointFault>
    requires some { 1 ≤ length texts.now }
    requires few { length texts.now ≤ 16 }
    requires named { All NamesFile texts.now }
    requires same { texts.now ≡ map string_bytes names.items }
    ensures told { (grants : AnyGrants) (files : Files) → S.holds shelf.old ≡ Some files →
        IsMadeAs grants (spec.of_loading texts.now grants lib (loaded texts.now lib files)) result }
    ensures texts { (grants : AnyGrants) → OfSomeTexts texts.now (λ read.
        IsMadeAs grants (spec.of_loading texts.now grants lib (loaded_texts read lib)) result) }
    ensures refused { IfErr result HasRefusedFile }
    ensures only_read { OnlyRead S.holds S.misses S.faults S.store_faults shelf.old shelf.new }
    ensures missing { IfErr result (λ why. IsMissingFile why → Rose (S.misses shelf.old) (S.misses shelf.new)) }
    ensures read_fault { IsErrOf result Unread → Rose (S.faults shelf.old) (S.faults shelf.new) }
    ensures read_fault_there { (files : Files) → S.holds shelf.old ≡ Some files → IsErrOf result Unread → SomeIsThere files texts.now }
{
    match load(alloc, shelf, texts, lib) {
        Ok(program) => of_program(alloc, names, program),
        Err(fault) => Err(unloaded(names, fault)),
    }
}

/// Why there is no application, where files were refused.
fn unloaded(names: Vec<String>, fault: LoadFault) -> JointFault
    ensures { result ≡ fault_from (λ cause file. AnyFault.Unloaded names cause file) fault }
{
    match fault {
        LoadFault::Memory => JointFault::Memory,
        LoadFault::At { cause, file } => match cause {
            LoadCause::ReadFault => JointFault::Unread,
            LoadCause::Missing => JointFault::Unloaded { names, cause, file },
            LoadCause::TooLong => JointFault::Unloaded { names, cause, file },
            LoadCause::Spelling { .. } => JointFault::Unloaded { names, cause, file },
        },
    }
}

/// The code of the application of a program, whose files have these names.
fn of_program(alloc: Global, names: Vec<String>, program: Program) -> Result<Verified, JointFault>
    requires { IsWhole program }
    ensures made { (grants : AnyGrants) → IsMadeAs grants
        (spec.of_least (map string_bytes names.items) grants program.files (map unit_of program.units) program.marks (fault_of program)) result }
    ensures loaded { IfErr result IsOfLoaded }
{
    match check(alloc, program) {
        Ok(checked) => of_checked(alloc, &checked),
        Err(StaticFault::At { cause, place }) => Err(JointFault::Unchecked {
            names,
            place,
            cause,
        }),
        Err(StaticFault::Memory) => Err(JointFault::Memory),
    }
}

/// The code of the application of a program without static faults.
fn of_checked(alloc: Global, checked: &Checked) -> Result<Verified, JointFault>
    ensures made { (grants : AnyGrants) → IsMadeAs grants (spec.of_source (record { meant = meant checked.now; grants = grants })) result }
    ensures loaded { IfErr result IsOfLoaded }
{
    whole_programs_begin();
    let _program = checked.program();
    match compile(alloc, checked) {
        Ok(code) => Ok(code),
        Err(LinkFault::TooLarge(kind)) => Err(JointFault::TooLarge(kind)),
        Err(LinkFault::Memory) => Err(JointFault::Memory),
    }
}
