//! What an audit answers.

ghost use Rattle.std.specs.Prelude.{◌≡◌, ◌++◌, OnOk};
ghost use Rattle.ns_json.specs.Json.{behind};
ghost use Rattle.ns_json.specs.Report as spec;
ghost use Rattle.ns_json.specs.declared.saying.Audit.TheVariants.{Performs, Sends};

use crate::object::Object;
use crate::put::{close_object, open_status, put_numbered, put_texted};
use crate::saying::Audit;
use ns_base::no_memory::NoMemory;

impl Object for Audit {
    ghost use Rattle.ns_json.specs.Report.{audited_members};

    ghost members = { audited_members };

    fn put_object(&self, out: &mut Vec<u8>) -> Result<(), NoMemory> {
        open_status(out, "audited")?;
        put_audit(out, self)?;
        close_object(out)
    }
}

/// Puts what an audit answers.
fn put_audit(out: &mut Vec<u8>, audit: &Audit) -> Result<(), NoMemory>
    ensures { OnOk result (out.new.items ≡ out.old.items ++ behind (spec.audit_members audit.now)) }
{
    match audit {
        Audit::Yes => put_texted(out, "audit", b"yes".as_slice()),
        Audit::Sends { selector, body, at } => put_sends(out, selector.bytes(), *body, *at),
        Audit::Performs { body, at } => put_performs(out, *body, *at),
    }
}

/// Puts the first instruction that sends a denied selector.
fn put_sends(out: &mut Vec<u8>, selector: &[u8], body: u32, at: u32) -> Result<(), NoMemory>
    ensures { OnOk result (out.new.items ≡ out.old.items ++ behind (spec.audit_members (Sends selector.now body at))) }
{
    put_texted(out, "audit", b"sends".as_slice())?;
    put_texted(out, "selector", selector)?;
    put_instruction(out, body, at)
}

/// Puts the first instruction that sends whatever its program says.
fn put_performs(out: &mut Vec<u8>, body: u32, at: u32) -> Result<(), NoMemory>
    ensures { OnOk result (out.new.items ≡ out.old.items ++ behind (spec.audit_members (Performs body at))) }
{
    put_texted(out, "audit", b"performs".as_slice())?;
    put_instruction(out, body, at)
}

/// Puts the numbers of a body and of an instruction in it.
fn put_instruction(out: &mut Vec<u8>, body: u32, at: u32) -> Result<(), NoMemory>
    ensures { OnOk result (out.new.items ≡ out.old.items ++ behind (spec.instruction_members body at)) }
{
    put_numbered(out, "body", u64::from(body))?;
    put_numbered(out, "at", u64::from(at))
}
