//! The generator: a whole program to its code.

ghost use Rattle.std.specs.Prelude.{◌≡◌, length, nat_lt, Some, None, IfOk, OnOk, IsErrOf};
ghost use Rattle.ns_gen_code.specs.declared.size.SizeKind.{SizeKind};
ghost use Rattle.ns_resolved.specs.Classes.{meant};
ghost use Rattle.ns_gen_code.specs.Code.{code_of};
ghost use Rattle.ns_gen_code.specs.Sizes.{most, size_fault};
ghost use Rattle.ns_gen.specs.Whole.{named, coded_program, first_fault};
ghost use Rattle.ns_gen.specs.declared.fault.GenFault.TheVariants.{TooLarge};

use crate::fault::GenFault;
use crate::units::put_units;
use ns_base::items::Items;
use ns_base::key::Key;
use ns_base::no_memory::NoMemory;
use ns_code::classes::Classes;
use ns_code::names::Names;
use ns_code::program::CodeProgram;
use ns_gen_bodies::output::Output;
use ns_gen_code::size::SizeKind;
use ns_gen_draft::names::copies;
use ns_gen_draft::writer::Writer;
use ns_gen_records::declaration::Declaration;
use ns_gen_records::declared::declared;
use ns_gen_records::names::put_names;
use ns_gen_records::records::class_codes;
use ns_scope::program::Program;
use std::alloc::Global;

/// How many names and how many bodies a program has at most.
const MOST: usize = 65536;

/// The code of a program in which every name has its meaning, or the first size that passes its
/// limit.
pub fn generate(alloc: Global, program: &Program) -> Result<CodeProgram, GenFault>
    ensures code { IfOk result (λ code. code ≡ code_of (meant program.now)) }
    ensures fits { OnOk result (size_fault (code_of (meant program.now)) ≡ None) }
    ensures large { (kind : SizeKind) → IsErrOf result (TooLarge kind) → size_fault (code_of (meant program.now)) ≡ Some kind }
{
    let (classes, count) = declared(alloc, program.units.as_slice(), program.marks.as_slice())?;
    let mut output = named(alloc, program.key, &classes, !are_too_many(count))?;
    put_units(
        &mut output,
        program.units.as_slice(),
        program.marks.as_slice(),
    )?;
    match size_fault(&output, count) {
        Some(kind) => Err(GenFault::TooLarge(kind)),
        None => {
            let code = code_of(alloc, program, output, &classes)?;
            Ok(code)
        }
    }
}

/// The names of the classes, before all bodies, which are kept or not.
fn named(alloc: Global, key: Key, classes: &[Declaration], keeps: bool) -> Result<Output, NoMemory>
    ensures { IfOk result (λ output. output ≡ named keeps classes.now) }
{
    let mut writer = Writer::new(alloc, key);
    put_names(&mut writer, classes)?;
    Ok(Output::after(writer, keeps))
}

/// Whether so many bodies are more than a program has at most.
fn are_too_many(count: u32) -> bool
    ensures { result ≡ nat_lt most count }
{
    count as usize > MOST
}

/// The first size that passes its limit.
fn size_fault(output: &Output, count: u32) -> Option<SizeKind>
    ensures { result ≡ first_fault (length output.now.names) count output.now.fault }
{
    if output.name_count() > MOST {
        return Some(SizeKind::Names);
    }
    if are_too_many(count) {
        return Some(SizeKind::Bodies);
    }
    output.fault()
}

/// The code of a program whose bodies were written.
fn code_of(
    alloc: Global,
    program: &Program,
    output: Output,
    classes: &[Declaration],
) -> Result<CodeProgram, NoMemory>
    ensures { IfOk result (λ code. code ≡ coded_program program.now.files classes.now output) }
{
    let (names, texts, bodies) = output.into_parts();
    let files = copies(alloc, program.files.as_slice())?;
    let classes = class_codes(alloc, &names, classes)?;
    Ok(CodeProgram {
        files: Items::from_vec(files),
        names: Names::of(alloc, names.texts()?)?,
        texts: Items::from_vec(texts),
        classes: Classes::of(alloc, Items::from_vec(classes))?,
        bodies: Items::from_vec(bodies),
    })
}
