//! The sends of code that nothing can answer.

ghost use Rattle.std.specs.Prelude.{◌≡◌, ◌++◌, IfOk, OnOk, None, Some, flat_map, slice_get};
ghost use Rattle.std.specs.Option.{option_map_or};
ghost use Rattle.ns_sends.specs.Unanswered as spec;

use crate::answered::Answered;
use crate::order::in_order;
use crate::sent::SentAt;
use ns_base::no_memory::NoMemory;
use ns_base::place::Place;
use ns_base::selector::Sel;
use ns_code::body::BodyCode;
use ns_code::instruction::Instr;
use ns_code::program::CodeProgram;
use std::alloc::Global;

/// The sends of code that nothing can answer, each once, by file, line and column: those of a selector that is no name of
/// a class, no factory and no member of the program, on any side and with any access, and that no row of the kernel has.
pub fn unanswered(alloc: Global, code: &CodeProgram) -> Result<Vec<SentAt>, NoMemory>
    ensures { IfOk result (λ told. told.items ≡ spec.unanswered code.now) }
{
    let answered = Answered::of(alloc, code)?;
    let lost = lost_sends(alloc, &answered)?;
    in_order(alloc, lost)
}

fn lost_sends(alloc: Global, answered: &Answered<'_>) -> Result<Vec<SentAt>, NoMemory>
    ensures { IfOk result (λ lost. lost.items ≡ spec.lost_sends answered.now) }
{
    let mut lost = Vec::new(alloc);
    let bodies = answered.code().bodies.as_slice();
    'bodies: for body in bodies {
        put_body(alloc, &mut lost, answered, body)?;
    }
    Ok(lost)
}

/// Puts the sends of a body that nothing answers to others.
fn put_body(
    alloc: Global,
    lost: &mut Vec<SentAt>,
    answered: &Answered<'_>,
    body: &BodyCode,
) -> Result<(), NoMemory>
    ensures { OnOk result (lost.new.items ≡ lost.old.items ++ spec.lost_in answered.now body.now) }
{
    let instrs = body.instrs.to_vec(alloc)?;
    put_places(lost, answered, &instrs, body.places.as_slice())
}

fn put_places(
    lost: &mut Vec<SentAt>,
    answered: &Answered<'_>,
    instrs: &[Instr],
    places: &[(u32, Place)],
) -> Result<(), NoMemory>
    ensures { OnOk result (lost.new.items ≡ lost.old.items ++ flat_map (spec.lost_by answered.now instrs.now) places.now) }
{
    'places: for placed in places {
        put_lost(lost, answered, placed.1, sent_at(instrs, placed.0))?;
    }
    Ok(())
}

/// Puts a selector that is sent at a place, where nothing answers it.
fn put_lost(
    lost: &mut Vec<SentAt>,
    answered: &Answered<'_>,
    place: Place,
    sel: Option<Sel>,
) -> Result<(), NoMemory>
    ensures { OnOk result (lost.new.items ≡ lost.old.items ++ spec.lost_at answered.now place sel) }
{
    match sel {
        None => Ok(()),
        Some(sel) => put_unless_answered(lost, answered, SentAt { place, sel }),
    }
}

fn put_unless_answered(
    lost: &mut Vec<SentAt>,
    answered: &Answered<'_>,
    sent: SentAt,
) -> Result<(), NoMemory>
    ensures { OnOk result (lost.new.items ≡ lost.old.items ++ spec.lost_at answered.now sent.place (Some sent.sel)) }
{
    if answered.has(answered.code().selector_text(sent.sel)) {
        return Ok(());
    }
    lost.push(sent)?;
    Ok(())
}

/// What the instruction of that number sends, where it is a send.
fn sent_at(instrs: &[Instr], number: u32) -> Option<Sel>
    ensures { result ≡ option_map_or spec.sent_by (slice_get instrs.now number) None }
{
    match instrs.get(number as usize) {
        None => None,
        Some(instr) => sent_by(*instr),
    }
}

/// What an instruction sends, where it is a send.
fn sent_by(instr: Instr) -> Option<Sel>
    ensures { result ≡ spec.sent_by instr }
{
    match instr {
        Instr::Send { sel, argc: _ } => Some(sel),
        Instr::SendInner { sel, argc: _ } => Some(sel),
        Instr::SendPrivate {
            level: _,
            sel,
            argc: _,
        } => Some(sel),
        Instr::SendSuper { sel, argc: _ } => Some(sel),
        Instr::PushNil => None,
        Instr::PushTrue => None,
        Instr::PushFalse => None,
        Instr::PushInt(_) => None,
        Instr::PushSym(_) => None,
        Instr::PushText(_) => None,
        Instr::PushSelf => None,
        Instr::PushOuter(_) => None,
        Instr::PushLocal { hops: _, index: _ } => None,
        Instr::StoreLocal { hops: _, index: _ } => None,
        Instr::PushBlock(_) => None,
        Instr::MakeArray(_) => None,
        Instr::Pop => None,
        Instr::Pick(_) => None,
        Instr::InitSuper(_) => None,
        Instr::StoreSlot(_) => None,
        Instr::Return => None,
        Instr::ReturnSelf => None,
        Instr::ReturnHome => None,
        Instr::Jump(_) => None,
        Instr::JumpFalse(_) => None,
        Instr::JumpTrue(_) => None,
    }
}
