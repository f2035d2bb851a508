//! The steps of one body.

ghost use Rattle.std.specs.Prelude.{◌≡◌, ◌+◌, ◌≤◌, ◌<◌, length, All, IfOk, OnOk};
ghost use Rattle.ns_machine_plan.specs.declared.step.Step.TheVariants as made;
ghost use Rattle.ns_machine_plan.specs.Members.{ArePrivatesOf};
ghost use Rattle.ns_machine_plan.specs.Packed.{AllStandFor, IsPut, StandsForSame};
ghost use Rattle.ns_machine_plan.specs.Privates.{member_at};
ghost use Rattle.ns_machine_plan.specs.Steps as spec;
ghost use Rattle.ns_machine_plan.specs.Spelled.{AreRowsOf, spelled_by};
ghost use Rattle.ns_machine_plan.specs.Making.{AreFrom, SendsAName, number_at, behind};

use crate::members::Privates;
use crate::packed::Packed;
use crate::privates::member_at;
use crate::spelled::SpelledRows;
use crate::step::{NO_PLACE, Step};
use crate::tables::Tables;
use ns_base::no_memory::NoMemory;
use ns_base::place::Place;
use ns_base::selector::Sel;
use ns_code::body::BodyCode;
use ns_code::instruction::Instr;
use ns_code::program::CodeProgram;
use ns_find::found::Sending;
use std::alloc::Global;

/// Packs the steps of a body, whose places are numbered from that number on, into a list of its size.
pub fn pack_steps(
    alloc: Global,
    tables: &mut Tables,
    code: &CodeProgram,
    privates: &Privates,
    rows: &SpelledRows,
    body: &BodyCode,
    first: u32,
) -> Result<Vec<Packed>, NoMemory>
    requires privates { ArePrivatesOf code.now privates.now }
    requires rows { AreRowsOf code.now rows.now }
    requires names { All (SendsAName code.now) body.now.instrs }
    requires few { length body.now.instrs ≤ 65536 }
    requires order { AreFrom 0 body.now.places }
    requires numbers { first + length body.now.places ≤ spec.no_place }
    ensures keeps { StandsForSame tables.old tables.new }
    ensures packed { IfOk result (λ packed.
        AllStandFor tables.new (spec.prepared code.now body.now first body.now.places 0 body.now.instrs) packed.items) }
{
    let instrs = body.instrs.to_vec(alloc)?;
    let mut packed = Vec::with_capacity(alloc, instrs.len())?;
    let end = first + body.places.len() as u32;
    let mut left = body.places.as_slice();
    let mut at: u32 = 0;
    'instrs: for instr in instrs.as_slice() {
        let place = number_at(left, end, at);
        let step = step_of(code, privates, rows, body, place, *instr);
        put_step(tables, &mut packed, step)?;
        left = behind(left, at);
        at += 1;
    }
    Ok(packed)
}

/// Packs a step, and puts it behind others.
fn put_step(tables: &mut Tables, packed: &mut Vec<Packed>, step: Step) -> Result<(), NoMemory>
    ensures keeps { StandsForSame tables.old tables.new }
    ensures put { OnOk result (IsPut tables.old tables.new packed.old.items packed.new.items step) }
{
    let one = tables.pack(step)?;
    packed.push(one)?;
    Ok(())
}

/// The number of the place of an instruction, where the places from it on are left, and are numbered up to an end.
fn number_at(left: &[(u32, Place)], end: u32, at: u32) -> u32
    requires { length left.now ≤ end }
    ensures { result ≡ number_at left.now end at }
{
    match left {
        [(number, _), ..] => {
            if *number == at {
                end - left.len() as u32
            } else {
                NO_PLACE
            }
        }
        [] => NO_PLACE,
    }
}

/// The places that are left behind an instruction.
fn behind(left: &[(u32, Place)], at: u32) -> &[(u32, Place)]
    ensures { result.now ≡ behind left.now at }
{
    match left {
        [(number, _), rest @ ..] => { if *number == at { rest } else { left } }
        [] => left,
    }
}

/// An instruction of a body as a step, whose place has that number.
fn step_of(
    code: &CodeProgram,
    privates: &Privates,
    rows: &SpelledRows,
    body: &BodyCode,
    place: u32,
    instr: Instr,
) -> Step
    requires privates { ArePrivatesOf code.now privates.now }
    requires rows { AreRowsOf code.now rows.now }
    requires name { SendsAName code.now instr }
    ensures { result ≡ spec.step_of code.now body.now place instr }
{
    match instr {
        Instr::PushNil => Step::PushNil,
        Instr::PushTrue => Step::PushTrue,
        Instr::PushFalse => Step::PushFalse,
        Instr::PushInt(number) => Step::PushInt(number),
        Instr::PushSym(sel) => Step::PushSym(sel),
        Instr::PushText(text) => Step::PushText(text),
        Instr::PushSelf => Step::PushSelf,
        Instr::PushOuter(level) => Step::PushOuter(level),
        Instr::PushLocal { hops, index } => Step::PushLocal { hops, index },
        Instr::StoreLocal { hops, index } => Step::StoreLocal { hops, index },
        Instr::PushBlock(block) => Step::PushBlock(block),
        Instr::MakeArray(count) => Step::MakeArray(count),
        Instr::Pop => Step::Pop,
        Instr::Pick(number) => Step::Pick(number),
        Instr::Send { sel, argc } => send(code, rows, Sending::Plain, sel, argc, place),
        Instr::SendInner { sel, argc } => send(code, rows, Sending::Inner, sel, argc, place),
        Instr::SendPrivate { level, sel, argc } => send_private(
            code, privates, body, level, sel, argc, place,
        ),
        Instr::SendSuper { sel, argc } => Step::SendSuper { sel, argc, place },
        Instr::InitSuper(argc) => Step::InitSuper { argc, place },
        Instr::StoreSlot(slot) => Step::StoreSlot(slot),
        Instr::Return => Step::Return,
        Instr::ReturnSelf => Step::ReturnSelf,
        Instr::ReturnHome => Step::ReturnHome,
        Instr::Jump(target) => Step::Jump(target),
        Instr::JumpFalse(target) => Step::JumpFalse(target),
        Instr::JumpTrue(target) => Step::JumpTrue(target),
    }
}

/// A send to a value, with the row of Integer or of Boolean that its selector spells.
fn send(
    code: &CodeProgram,
    rows: &SpelledRows,
    kind: Sending,
    sel: Sel,
    argc: u8,
    place: u32,
) -> Step
    requires { AreRowsOf code.now rows.now }
    ensures { result ≡ made.Send sel argc kind place (spelled_by code.now sel) }
{
    Step::Send {
        sel,
        argc,
        kind,
        place,
        row: rows.of_send(code, sel),
    }
}

/// A private send, with the member that it finds.
fn send_private(
    code: &CodeProgram,
    privates: &Privates,
    body: &BodyCode,
    level: u8,
    sel: Sel,
    argc: u8,
    place: u32,
) -> Step
    requires privates { ArePrivatesOf code.now privates.now }
    requires name { sel.0 < length code.now.names }
    ensures { result ≡ made.SendPrivate level sel argc place (member_at code.now body.now level sel) }
{
    Step::SendPrivate {
        level,
        sel,
        argc,
        place,
        member: member_at(code, privates, body, level, sel),
    }
}
