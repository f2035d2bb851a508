//! Code from the bytes of an image.

ghost use Rattle.std.specs.Prelude.{IfOk};
ghost use Rattle.ns_code.specs.Fits.{Fits};
ghost use Rattle.ns_image.specs.Read.{half};
ghost use Rattle.ns_image.specs.Reading as spec;
ghost use Rattle.ns_image.specs.Reads.{ReadingAnswers, ReadsBytes, ReadsAs};

use crate::fault::{Fault, ImageFault};
use crate::read::body::{Body, OldBody};
use crate::read::class::Class;
use crate::read::format::{Format, times, up_to};
use crate::read::input::Input;
use crate::read::text::{FileName, Literal, names};
use ns_base::items::Items;
use ns_base::text::Text;
use ns_code::body::BodyCode;
use ns_code::classes::Classes;
use ns_code::names::Names;
use ns_code::program::CodeProgram;
use std::alloc::Global;

pub mod body;
pub mod class;
pub mod format;
pub mod input;
pub mod instruction;
pub mod place;
pub mod text;

/// How many files, classes and bodies an image has at most.
const MOST_FILES: u32 = 17;

const MOST_CLASSES: u32 = 4_096;

const MOST_BODIES: u32 = 65_536;

/// The code of an image of version 1 or 2, or the first fault that is met from left to right. In
/// code of version 1 no file is named, no instruction has a place, and locals have numbers for
/// names.
pub fn read(alloc: Global, bytes: &[u8]) -> Result<CodeProgram, ImageFault>
    ensures exact { ReadingAnswers (spec.read_image bytes.now) result }
    ensures fits { IfOk result Fits }
{
    read_image(alloc, bytes)
}

#[tactic(auto, unfolding(crate::specs::Reading::read_image))]
fn read_image(alloc: Global, bytes: &[u8]) -> Result<CodeProgram, ImageFault>
    ensures { ReadingAnswers (spec.read_image bytes.now) result }
{
    if !bytes.starts_with(b"NSPK") {
        return Err(ImageFault::NotAnImage);
    }
    read_version(alloc, bytes.len(), &bytes[4..])
}

/// What follows the mark in an image of so many bytes.
fn read_version(alloc: Global, size: usize, rest: &[u8]) -> Result<CodeProgram, ImageFault>
    ensures { ReadingAnswers (spec.versioned size (half rest.now)) result }
{
    let mut input = Input { rest };
    match input.half() {
        Err(fault) => Err(fault.in_image(size)),
        Ok(1) => read_old(alloc, size, input.rest),
        Ok(2) => read_new(alloc, size, input.rest),
        Ok(_) => Err(ImageFault::BadVersion),
    }
}

/// What follows the version 2 in an image of so many bytes.
fn read_new(alloc: Global, size: usize, rest: &[u8]) -> Result<CodeProgram, ImageFault>
    ensures { ReadingAnswers (spec.answer size (spec.program rest.now)) result }
{
    let mut input = Input { rest };
    match program(alloc, &mut input) {
        Err(fault) => Err(fault.in_image(size)),
        Ok(code) => ended(code, input.rest),
    }
}

/// What follows the version 1 in an image of so many bytes.
fn read_old(alloc: Global, size: usize, rest: &[u8]) -> Result<CodeProgram, ImageFault>
    ensures { ReadingAnswers (spec.answer size (spec.old_program rest.now)) result }
{
    let mut input = Input { rest };
    match old_program(alloc, &mut input) {
        Err(fault) => Err(fault.in_image(size)),
        Ok(code) => ended(code, input.rest),
    }
}

/// The code, where no bytes follow.
fn ended(code: CodeProgram, rest: &[u8]) -> Result<CodeProgram, ImageFault>
    ensures { ReadingAnswers (spec.ended code rest.now) result }
{
    match rest {
        [] => Ok(code),
        [_, ..] => Err(ImageFault::Trailing),
    }
}

#[tactic(auto, unfolding(crate::specs::Reading::program))]
fn program(alloc: Global, input: &mut Input<'_>) -> Result<CodeProgram, Fault>
    ensures { ReadsBytes (spec.program input.old.rest.now) result input.new.rest.now }
{
    let files = up_to(alloc, input, &FileName, MOST_FILES)?;
    let body = Body { files: files.len() };
    with_files(alloc, input, &body, files)
}

#[tactic(auto, unfolding(crate::specs::Reading::old_program))]
fn old_program(alloc: Global, input: &mut Input<'_>) -> Result<CodeProgram, Fault>
    ensures { ReadsBytes (spec.old_program input.old.rest.now) result input.new.rest.now }
{
    let files = Items::from_vec(Vec::new(alloc));
    with_files(alloc, input, &OldBody, files)
}

/// A program with these files and what follows them, with bodies of a version.
#[tactic(auto, unfolding(crate::specs::Reading::with_files))]
fn with_files<B: Format<Value = BodyCode>>(
    alloc: Global,
    input: &mut Input<'_>,
    body: &B,
    files: Items<Text>,
) -> Result<CodeProgram, Fault>
    ensures { ReadsBytes (spec.with_files (B.reader body.now) files input.old.rest.now) result input.new.rest.now }
{
    let names = Names::of(alloc, names(alloc, input)?)?;
    let texts = texts(alloc, input)?;
    let mut code = CodeProgram {
        files,
        names,
        texts,
        classes: Classes::of(alloc, Items::from_vec(Vec::new(alloc)))?,
        bodies: Items::from_vec(Vec::new(alloc)),
    };
    match read_classes(alloc, input, body, &mut code) {
        Ok(()) => Ok(code),
        Err(fault) => {
            drop(code);
            Err(fault)
        }
    }
}

/// Reads the classes and the bodies of a version into a program.
#[tactic(auto, unfolding(crate::specs::Reading::with_classes))]
fn read_classes<B: Format<Value = BodyCode>>(
    alloc: Global,
    input: &mut Input<'_>,
    body: &B,
    code: &mut CodeProgram,
) -> Result<(), Fault>
    ensures { ReadsAs (λ _. code.new) (spec.with_classes (B.reader body.now) code.old input.old.rest.now) result input.new.rest.now }
{
    let classes = up_to(alloc, input, &Class, MOST_CLASSES)?;
    code.classes = Classes::of(alloc, classes)?;
    code.bodies = up_to(alloc, input, body, MOST_BODIES)?;
    Ok(())
}

fn texts(alloc: Global, input: &mut Input<'_>) -> Result<Items<Text>, Fault>
    ensures { ReadsBytes (spec.texts input.old.rest.now) result input.new.rest.now }
{
    let count = input.word()?;
    times(alloc, input, &Literal, count)
}
