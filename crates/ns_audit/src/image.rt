//! The audit of an image: its bytes are read, the code is verified, the class is found, and its module is audited.

ghost use Rattle.std.specs.Prelude.{◌≡◌, ◌≤◌, None, Some, IfOk, IfSome, IsErrOf, true, length, option_and_then, slice_get, string_bytes};
ghost use Rattle.ns_code.specs.Fits.{Fits};
ghost use Rattle.ns_image.specs.declared.fault.ImageFault.{ImageFault};
ghost use Rattle.ns_verify.specs.Verify.{fault_of};
ghost use Rattle.ns_verify.specs.declared.fault.VerifyCause.{VerifyCause};
ghost use Rattle.ns_verify.specs.declared.fault.Where.{Where};
ghost use Rattle.ns_audit.specs.Audit.{sent_by as sent_by_lem};
ghost use Rattle.ns_audit.specs.declared.answer.Audit.TheVariants.{Sends};
ghost use Rattle.ns_audit.specs.Image as spec;
ghost use Rattle.ns_audit.specs.Module.{IsTopLevel};
ghost use Rattle.ns_audit.specs.declared.image.AuditFault.TheVariants.{Image, Unsound, NoClass};

use crate::answer::Audit;
use crate::audit::{audit, sent_by};
use ns_base::no_memory::NoMemory;
use ns_base::selector::Sel;
use ns_base::status::Status;
use ns_base::text::Text;
use ns_code::body::BodyCode;
use ns_code::class::ClassCode;
use ns_code::program::CodeProgram;
use ns_image::fault::ImageFault;
use ns_image::read::read;
use ns_json::saying;
use ns_verify::fault::{VerifyCause, VerifyFault, Where};
use ns_verify::verify::{Verified, verify};
use std::alloc::Global;

/// Why an image was not audited: its bytes are no image (never for want of memory, which has its own variant), its code
/// isn't admitted, it has no top-level class of that name, or no memory was found.
#[derive(Clone, Copy)]
pub enum AuditFault {
    Image(ImageFault),
    Unsound { cause: VerifyCause, at: Where },
    NoClass,
    Memory,
}

impl From<NoMemory> for AuditFault {
    ghost use Rattle.ns_audit.specs.declared.image.AuditFault.TheVariants.{Memory};

    ghost from_gives = { λ _ e. e ≡ Memory };

    fn from(_error: NoMemory) -> AuditFault {
        AuditFault::Memory
    }
}

/// What an audit tells: its line, the status with which its command ends, and its answer in parts.
#[derive(Drop)]
pub struct AuditTold {
    pub line: Text,
    pub status: Status,
    pub part: saying::Audit,
}

/// The audit of the module of the first top-level class of that name in an image, for the denied selectors of these
/// texts; or the first fault of the bytes, or of the code, or that there is no such class.
pub fn audit_image(
    alloc: Global,
    bytes: &[u8],
    denied: &[Text],
    class: &[u8],
) -> Result<AuditTold, AuditFault>
    ensures told { IfOk result (λ told. spec.audited_image bytes.now denied.now class.now ≡ spec.answers told.line told.status told.part) }
    ensures image { (fault : ImageFault) → IsErrOf result (Image fault) →
        spec.audited_image bytes.now denied.now class.now ≡ spec.unread fault }
    ensures unsound { (cause : VerifyCause) (at : Where) → IsErrOf result (Unsound cause at) →
        spec.audited_image bytes.now denied.now class.now ≡ spec.unadmitted cause at }
    ensures no_class { IsErrOf result NoClass → spec.audited_image bytes.now denied.now class.now ≡ spec.no_class }
{
    match read(alloc, bytes) {
        Ok(code) => audit_read(alloc, code, denied, class),
        Err(fault) => Err(told_fault(fault)),
    }
}

/// The fault of an image, with want of memory as a variant of its own.
fn told_fault(fault: ImageFault) -> AuditFault
    ensures { result ≡ spec.told_fault fault }
{
    match fault {
        ImageFault::Memory => AuditFault::Memory,
        fault => AuditFault::Image(fault),
    }
}

/// The audit of code that was read, or its first fault.
fn audit_read(
    alloc: Global,
    code: CodeProgram,
    denied: &[Text],
    class: &[u8],
) -> Result<AuditTold, AuditFault>
    requires fits { Fits code }
    ensures told { IfOk result (λ told. spec.of_code denied.now class.now code (fault_of code) ≡ spec.answers told.line told.status told.part) }
    ensures unsound { (cause : VerifyCause) (at : Where) → IsErrOf result (Unsound cause at) →
        spec.of_code denied.now class.now code (fault_of code) ≡ spec.unadmitted cause at }
    ensures no_class { IsErrOf result NoClass → spec.of_code denied.now class.now code (fault_of code) ≡ spec.no_class }
    ensures no_image { (fault : ImageFault) → IsErrOf result (Image fault) → ⊥ }
{
    match verify(alloc, code) {
        Ok(verified) => audit_verified(alloc, verified, denied, class),
        Err(VerifyFault::Memory) => Err(AuditFault::Memory),
        Err(VerifyFault::At { cause, at }) => Err(AuditFault::Unsound { cause, at }),
    }
}

/// The audit of code that was admitted.
fn audit_verified(
    alloc: Global,
    code: Verified,
    denied: &[Text],
    class: &[u8],
) -> Result<AuditTold, AuditFault>
    ensures told { IfOk result (λ told. spec.of_code denied.now class.now code None ≡ spec.answers told.line told.status told.part) }
    ensures unsound { (cause : VerifyCause) (at : Where) → IsErrOf result (Unsound cause at) → ⊥ }
    ensures no_class { IsErrOf result NoClass → spec.of_code denied.now class.now code None ≡ spec.no_class }
    ensures no_image { (fault : ImageFault) → IsErrOf result (Image fault) → ⊥ }
{
    match class_called(code.code(), class) {
        Some(number) => {
            let told = audit_class(alloc, &code, denied, number)?;
            Ok(told)
        }
        None => Err(AuditFault::NoClass),
    }
}

/// The first top-level class of that name.
fn class_called(code: &CodeProgram, name: &[u8]) -> Option<u32>
    requires { length code.now.classes ≤ 65536 }
    ensures called { result ≡ spec.called_from code.now name.now 0 code.now.classes }
    ensures top { IfSome result (λ number. IsTopLevel code.now number) }
{
    let mut number: u32 = 0;
    'classes: for class in code.classes.as_slice() {
        if is_called(code, name, class) {
            return Some(number);
        }
        number += 1;
    }
    None
}

/// Whether a class is top-level and has that name.
fn is_called(code: &CodeProgram, name: &[u8], class: &ClassCode) -> bool
    ensures called { result ≡ spec.is_called code.now name.now class.now }
    ensures top { result ≡ true → class.now.outer ≡ None }
{
    class.outer.is_none() && code.selector_text(class.name) == name
}

/// The audit of the module of a class.
fn audit_class(
    alloc: Global,
    code: &Verified,
    denied: &[Text],
    class: u32,
) -> Result<AuditTold, NoMemory>
    requires top { IsTopLevel code.now class }
    ensures { IfOk result (λ told. spec.of_class code.now denied.now (Some class) ≡ spec.answers told.line told.status told.part) }
{
    let denied = denied_in(alloc, code.code(), denied)?;
    let answer = audit(code, class, denied.as_slice());
    let line = answer_line(alloc, code.code(), answer)?;
    let part = answer_part(alloc, code.code(), answer)?;
    Ok(AuditTold {
        line: Text::from_vec(line),
        status: answer_status(answer),
        part,
    })
}

/// The selectors of these texts that the code names.
fn denied_in(alloc: Global, code: &CodeProgram, texts: &[Text]) -> Result<Vec<Sel>, NoMemory>
    requires { length code.now.names ≤ 65536 }
    ensures { IfOk result (λ sels. sels.items ≡ spec.denied_in code.now texts.now) }
{
    let mut sels = Vec::new(alloc);
    'texts: for text in texts {
        match named(code.names.as_slice(), text.bytes()) {
            Some(number) => sels.push(Sel(number))?,
            None => (),
        }
    }
    Ok(sels)
}

/// The number of the first name that is this text.
fn named(names: &[Text], text: &[u8]) -> Option<u32>
    requires { length names.now ≤ 65536 }
    ensures { result ≡ spec.named_from names.now 0 text.now }
{
    let mut number: u32 = 0;
    'names: for name in names {
        if name.bytes() == text {
            return Some(number);
        }
        number += 1;
    }
    None
}

/// The line of an answer.
fn answer_line(alloc: Global, code: &CodeProgram, answer: Audit) -> Result<Vec<u8>, NoMemory>
    ensures { IfOk result (λ line. line.items ≡ spec.answer_line code.now answer) }
{
    match answer {
        Audit::Yes => Ok(Vec::from_slice(alloc, b"yes\n")?),
        Audit::Sends { body, at } => sends_line(alloc, code, body, at),
        Audit::Performs { body, at } => performs_line(alloc, body, at),
    }
}

fn sends_line(alloc: Global, code: &CodeProgram, body: u32, at: u32) -> Result<Vec<u8>, NoMemory>
    ensures { IfOk result (λ line. line.items ≡ spec.answer_line code.now (Sends body at)) }
{
    let sent = sent_by_instr(code, body, at);
    let place = instruction_text(alloc, body, at)?;
    let mut line = place.into_bytes();
    line.extend_from_slice(b" sends ")?;
    line.extend_from_slice(text_of(code, sent))?;
    line.push(b'\n')?;
    Ok(line)
}

fn performs_line(alloc: Global, body: u32, at: u32) -> Result<Vec<u8>, NoMemory>
    ensures { IfOk result (λ line. line.items ≡ spec.performs_text body at) }
{
    let place = instruction_text(alloc, body, at)?;
    let mut line = place.into_bytes();
    line.extend_from_slice(b" performs\n")?;
    Ok(line)
}

/// An answer in parts.
fn answer_part(alloc: Global, code: &CodeProgram, answer: Audit) -> Result<saying::Audit, NoMemory>
    ensures { IfOk result (λ part. part ≡ spec.answer_part code.now answer) }
{
    match answer {
        Audit::Yes => Ok(saying::Audit::Yes),
        Audit::Sends { body, at } => sends_part(alloc, code, body, at),
        Audit::Performs { body, at } => Ok(saying::Audit::Performs { body, at }),
    }
}

fn sends_part(
    alloc: Global,
    code: &CodeProgram,
    body: u32,
    at: u32,
) -> Result<saying::Audit, NoMemory>
    ensures { IfOk result (λ part. part ≡ spec.answer_part code.now (Sends body at)) }
{
    let sent = sent_by_instr(code, body, at);
    let selector = Text::of(alloc, text_of(code, sent))?;
    Ok(saying::Audit::Sends { selector, body, at })
}

/// The place of an instruction in words.
fn instruction_text(alloc: Global, body: u32, at: u32) -> Result<String, NoMemory>
    ensures { IfOk result (λ text. string_bytes text ≡ spec.instruction_text body at) }
{
    let body = format!(in alloc; "body {body}")?;
    Ok(format!(in alloc; "{body} at {at}")?)
}

/// What an instruction sends, by the numbers of its body and of itself.
fn sent_by_instr(code: &CodeProgram, body: u32, at: u32) -> Option<Sel>
    ensures { result ≡ spec.sent_by_instr code.now body at }
{
    match code.bodies.as_slice().get(body as usize) {
        Some(body) => sent_in(body, at),
        None => None,
    }
}

/// What an instruction of a body sends.
fn sent_in(body: &BodyCode, at: u32) -> Option<Sel>
    ensures { result ≡ option_and_then sent_by_lem (slice_get body.now.instrs at) }
{
    let mut left = body.instrs.left();
    let mut before = at;
    'instrs: while let Some((instr, rest)) = left.split_first() {
        if before == 0 {
            return sent_by(instr);
        }
        before -= 1;
        left = rest;
    }
    None
}

/// The text of a selector, empty where there is none.
fn text_of(code: &CodeProgram, sel: Option<Sel>) -> &[u8]
    ensures { result.now ≡ spec.text_of code.now sel }
{
    match sel {
        Some(sel) => code.selector_text(sel),
        None => b"".as_slice(),
    }
}

/// The status of an answer: one that isn't yes is an error of the program.
fn answer_status(answer: Audit) -> Status
    ensures { result ≡ spec.answer_status answer }
{
    match answer {
        Audit::Yes => Status::Done,
        Audit::Sends { .. } => Status::ProgramError,
        Audit::Performs { .. } => Status::ProgramError,
    }
}
