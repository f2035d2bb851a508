//! The bytes of an image from code.

ghost use Rattle.std.specs.Prelude.{◌≡◌, ◌++◌, IfOk, OnOk};
ghost use Rattle.ns_code.specs.Fits.{Fits};
ghost use Rattle.ns_image.specs.Bytes as spec;

use crate::write::output::{put_counted, put_half};
use ns_base::no_memory::NoMemory;
use ns_code::program::CodeProgram;
use std::alloc::Global;

pub mod body;
pub mod class;
pub mod instruction;
pub mod output;

/// The image of the code, in version 2.
pub fn write(alloc: Global, code: &CodeProgram) -> Result<Vec<u8>, NoMemory>
    requires { Fits code.now }
    ensures { IfOk result (λ bytes. bytes.items ≡ spec.bytes_of code.now) }
{
    let mut out = Vec::new(alloc);
    out.extend_from_slice(b"NSPK")?;
    put_half(&mut out, 2)?;
    put_program(&mut out, code)?;
    Ok(out)
}

/// What follows the version.
#[tactic(auto, using(crate::proofs::Room::files_are_short, crate::proofs::Room::names_are_short, crate::proofs::Room::bodies_have_room))]
fn put_program(out: &mut Vec<u8>, code: &CodeProgram) -> Result<(), NoMemory>
    requires { Fits code.now }
    ensures { OnOk result (out.new.items ≡ out.old.items ++ spec.program code.now) }
{
    put_counted(out, code.files.as_slice())?;
    put_counted(out, code.names.as_slice())?;
    put_counted(out, code.texts.as_slice())?;
    put_counted(out, code.classes.as_slice())?;
    put_counted(out, code.bodies.as_slice())
}
