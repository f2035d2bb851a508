//! Bodies and the places of their instructions.

ghost use Rattle.std.specs.Prelude.{◌≡◌, ◌++◌, length, All, OnOk, flat_map};
ghost use Rattle.ns_code.specs.Fits.{IsShort, IsWord};
ghost use Rattle.ns_image.specs.Bytes as spec;
ghost use Rattle.ns_image_write.specs.Room.{ImageHasRoom};

use crate::write::output::{
    Part, put_all, put_byte, put_counted, put_flag, put_half, put_reference, put_word,
};
use ns_base::no_memory::NoMemory;
use ns_base::place::Place;
use ns_code::body::BodyCode;
use ns_code::instructions::Instructions;
use ns_code::local_names::{LocalNames, numbered_texts};

/// A place behind the number of its instruction.
impl Part for (u32, Place) {
    ghost layout = { spec.place };

    ghost fits = { λ _. Unit {0} };

    fn put(&self, out: &mut Vec<u8>) -> Result<(), NoMemory> {
        put_word(out, self.0)?;
        put_word(out, self.1.file)?;
        put_word(out, self.1.line)?;
        put_word(out, self.1.col)
    }
}

impl Part for BodyCode {
    ghost layout = { spec.body };

    ghost fits = { ImageHasRoom };

    fn put(&self, out: &mut Vec<u8>) -> Result<(), NoMemory> {
        put_fields(out, self)?;
        put_instructions(out, &self.instrs)?;
        put_local_names(out, &self.local_names)?;
        put_counted(out, self.places.as_slice())
    }
}

/// Their count, and each.
fn put_instructions(out: &mut Vec<u8>, instrs: &Instructions) -> Result<(), NoMemory>
    requires { IsWord (length instrs.now) }
    ensures { OnOk result (out.new.items ≡ out.old.items ++ spec.counted spec.instr instrs.now) }
{
    let alloc = *out.allocator();
    let made = instrs.to_vec(alloc)?;
    put_counted(out, made.as_slice())
}

/// The names of locals, those that are given or made of numbers.
fn put_local_names(out: &mut Vec<u8>, names: &LocalNames) -> Result<(), NoMemory>
    requires { All IsShort names.now }
    ensures { OnOk result (out.new.items ≡ out.old.items ++ flat_map spec.text names.now) }
{
    let (given, count) = names.parts();
    if given.is_empty() {
        let alloc = *out.allocator();
        let made = numbered_texts(alloc, count)?;
        return put_all(out, &made);
    }
    put_all(out, given)
}

fn put_fields(out: &mut Vec<u8>, body: &BodyCode) -> Result<(), NoMemory>
    requires { ImageHasRoom body.now }
    ensures { OnOk result (out.new.items ≡ out.old.items ++ spec.body_fields body.now) }
{
    put_byte(out, body.kind)?;
    put_byte(out, body.side)?;
    put_word(out, body.class)?;
    put_reference(out, body.parent)?;
    put_byte(out, body.params)?;
    put_byte(out, body.locals)?;
    put_flag(out, body.environment)?;
    put_half(out, body.height)
}
