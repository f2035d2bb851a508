//! Refusals: of a size, of a file, of the code in it, or of a text at a place.

ghost use Rattle.std.specs.Prelude.{◌≡◌, ◌++◌, OnOk};
ghost use Rattle.ns_json.specs.Json.{behind};
ghost use Rattle.ns_json.specs.Report as spec;
ghost use Rattle.ns_json.specs.declared.saying.Refused.TheVariants.{Body, Byte, Class};

use crate::object::Object;
use crate::put::{close_object, open_status, put, put_number, put_numbered, put_texted};
use crate::run::put_place;
use crate::saying::{Refusal, Refused};
use ns_base::no_memory::NoMemory;

impl Object for Refusal {
    ghost use Rattle.ns_json.specs.Report.{refusal_members};

    ghost members = { refusal_members };

    fn put_object(&self, out: &mut Vec<u8>) -> Result<(), NoMemory> {
        open_status(out, "refused")?;
        put_texted(out, "cause", self.cause.bytes())?;
        put_refused(out, &self.refused)?;
        close_object(out)
    }
}

/// Puts what was refused.
fn put_refused(out: &mut Vec<u8>, refused: &Refused) -> Result<(), NoMemory>
    ensures { OnOk result (out.new.items ≡ out.old.items ++ behind (spec.refused_members refused.now)) }
{
    match refused {
        Refused::Program => Ok(()),
        Refused::File { file } => put_texted(out, "file", file.bytes()),
        Refused::Byte { file, offset } => put_byte(out, file.bytes(), *offset),
        Refused::Class { file, class } => put_class(out, file.bytes(), *class),
        Refused::Body { file, body, at } => put_body(out, file.bytes(), *body, *at),
        Refused::Source { place } => put_place(out, place),
    }
}

/// Puts a file, and the number of a byte in it.
fn put_byte(out: &mut Vec<u8>, file: &[u8], offset: u64) -> Result<(), NoMemory>
    ensures { OnOk result (out.new.items ≡ out.old.items ++ behind (spec.refused_members (Byte file.now offset))) }
{
    put_texted(out, "file", file)?;
    put_numbered(out, "offset", offset)
}

/// Puts a file, and the number of a class in it.
fn put_class(out: &mut Vec<u8>, file: &[u8], class: u32) -> Result<(), NoMemory>
    ensures { OnOk result (out.new.items ≡ out.old.items ++ behind (spec.refused_members (Class file.now class))) }
{
    put_texted(out, "file", file)?;
    put(out, b",\"in\":\"class ".as_slice())?;
    put_number(out, u64::from(class))?;
    put(out, b"\"".as_slice())
}

/// Puts a file, and the numbers of a body in it and of an instruction.
fn put_body(out: &mut Vec<u8>, file: &[u8], body: u32, at: u32) -> Result<(), NoMemory>
    ensures { OnOk result (out.new.items ≡ out.old.items ++ behind (spec.refused_members (Body file.now body at))) }
{
    put_texted(out, "file", file)?;
    put(out, b",\"in\":\"body ".as_slice())?;
    put_number(out, u64::from(body))?;
    put(out, b" at ".as_slice())?;
    put_number(out, u64::from(at))?;
    put(out, b"\"".as_slice())
}
