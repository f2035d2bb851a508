//! The audit of a module: the first of its instructions that sends a denied selector, or `perform:with:`.

ghost use Rattle.std.specs.Prelude.{◌≡◌, ◌≤◌, Some, length};
ghost use Rattle.ns_audit.specs.Audit as spec;
ghost use Rattle.ns_audit.specs.Module.{IsTopLevel};
ghost use Rattle.ns_audit.specs.Stated.{AnswerIsThere, NeverSends};
ghost use Rattle.ns_audit.specs.declared.answer.Audit.TheVariants.{Yes};
ghost use Rattle.ns_code.specs.Fits.{Fits};
ghost use Rattle.ns_verify.specs.Counts.{HasFewParts};

use crate::answer::Audit;
use crate::laws::{others_are_there, yes_is_kept};
use crate::module::{is_inside, put_tops};
use ns_base::selector::Sel;
use ns_code::body::BodyCode;
use ns_code::instruction::Instr;
use ns_code::instructions::Instructions;
use ns_code::program::CodeProgram;
use ns_verify::verify::Verified;

/// The most classes of a program.
const MOST_CLASSES: usize = 4_096;

/// The audit of the module of a top-level class, for these denied selectors: where it answers yes, no run of the code ever
/// sends one of them from the module, whatever a host begins. It takes no memory.
pub fn audit(code: &Verified, class: u32, denied: &[Sel]) -> Audit
    requires top { IsTopLevel code.now class }
    ensures is { result ≡ spec.audited code.now class denied.now }
    ensures yes { result ≡ Yes → NeverSends code.now class denied.now }
    ensures there { AnswerIsThere code.now class denied.now result }
{
    yes_is_kept();
    others_are_there();
    audit_code(code.code(), class, denied)
}

/// The audit of code that fits its fields.
fn audit_code(code: &CodeProgram, class: u32, denied: &[Sel]) -> Audit
    requires { Fits code.now }
    ensures { result ≡ spec.audited code.now class denied.now }
{
    let mut room = [0; MOST_CLASSES];
    let classes = code.classes.as_slice();
    put_tops(&mut room, classes);
    match told_from(code, denied, &room[..classes.len()], class) {
        Some(audit) => audit,
        None => Audit::Yes,
    }
}

/// The first answer that the bodies of a module ask for, by the top-level class around each class.
fn told_from(code: &CodeProgram, denied: &[Sel], tops: &[u32], top: u32) -> Option<Audit>
    requires { HasFewParts code.now }
    ensures { result ≡ spec.told_from code.now denied.now tops.now top 0 code.now.bodies }
{
    let mut number: u32 = 0;
    'bodies: for body in code.bodies.as_slice() {
        let inside = is_inside(tops, top, body.class);
        match told_of_body(code, denied, inside, number, body) {
            Some(audit) => return Some(audit),
            None => number += 1,
        }
    }
    None
}

/// The first answer that a body asks for, where it is of the module.
fn told_of_body(
    code: &CodeProgram,
    denied: &[Sel],
    inside: bool,
    number: u32,
    body: &BodyCode,
) -> Option<Audit>
    requires few { length body.now.instrs ≤ 65536 }
    ensures { result ≡ spec.told_of_body code.now denied.now inside number body.now }
{
    if !inside {
        return None;
    }
    told_in(code, denied, number, &body.instrs)
}

/// The first answer that the instructions of a body ask for.
fn told_in(code: &CodeProgram, denied: &[Sel], body: u32, instrs: &Instructions) -> Option<Audit>
    requires few { length instrs.now ≤ 65536 }
    ensures { result ≡ spec.told_in code.now denied.now body 0 instrs.now }
{
    let mut left = instrs.left();
    let mut at: u32 = 0;
    'instrs: while let Some((instr, rest)) = left.split_first() {
        match told_of(code, denied, body, at, sent_by(instr)) {
            Some(audit) => return Some(audit),
            None => at += 1,
        }
        left = rest;
    }
    None
}

/// The answer that a send asks for, if it asks for one.
fn told_of(
    code: &CodeProgram,
    denied: &[Sel],
    body: u32,
    at: u32,
    sent: Option<Sel>,
) -> Option<Audit>
    ensures { result ≡ spec.told_of code.now denied.now body at sent }
{
    match sent {
        Some(sel) => told_of_sel(code, denied, body, at, sel),
        None => None,
    }
}

/// The answer that a send of a selector asks for: a denied one that is `perform:with:` too is denied.
fn told_of_sel(code: &CodeProgram, denied: &[Sel], body: u32, at: u32, sel: Sel) -> Option<Audit>
    ensures { result ≡ spec.told_of code.now denied.now body at (Some sel) }
{
    if is_denied(denied, sel) {
        return Some(Audit::Sends { body, at });
    }
    if is_perform(code, sel) {
        Some(Audit::Performs { body, at })
    } else {
        None
    }
}

/// What an instruction sends, where it is one of the four sends.
pub fn sent_by(instr: Instr) -> Option<Sel>
    ensures { result ≡ spec.sent_by instr }
{
    match instr {
        Instr::Send { sel, .. } => Some(sel),
        Instr::SendInner { sel, .. } => Some(sel),
        Instr::SendPrivate { sel, .. } => Some(sel),
        Instr::SendSuper { sel, .. } => Some(sel),
        _ => None,
    }
}

/// Whether a selector is one of these.
fn is_denied(denied: &[Sel], sel: Sel) -> bool
    ensures { result ≡ spec.is_denied denied.now sel }
{
    denied.iter().any(|other| other.0 == sel.0)
}

/// Whether a selector is `perform:with:`.
fn is_perform(code: &CodeProgram, sel: Sel) -> bool
    ensures { result ≡ spec.is_perform code.now sel }
{
    code.selector_text(sel) == b"perform:with:".as_slice()
}
