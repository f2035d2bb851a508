//! The first fault of code: over its classes, then its bodies, then their instructions.

ghost use Rattle.std.specs.Prelude.{◌≡◌, ◌≢◌, ◌≤◌, ◌<◌, IfOk, length};
ghost use Rattle.std.specs.List.{AllPairs};
ghost use Rattle.ns_verify.specs.Counts.{HasFewParts};
ghost use Rattle.ns_verify.specs.Chains.{home_kinds};
ghost use Rattle.ns_verify.specs.Heights.{begin};
ghost use Rattle.ns_verify_members.specs.Numbers.{IsNameTable};
ghost use Rattle.ns_verify.specs.Around.{AreTablesOf, IsAround};
ghost use Rattle.ns_verify.specs.Verify as spec;

use crate::around::Around;
use crate::chains::{home_kinds, kind_or};
use crate::classes::class_cause;
use crate::fault::{Fault, VerifyCause, Where};
use crate::heights::Pass;
use crate::instructions::{cause_at, empty_cause};
use crate::tables::Tables;
use ns_base::no_memory::NoMemory;
use ns_code::body::BodyCode;
use ns_code::instruction::Instr;
use ns_code::program::CodeProgram;
use ns_verify_members::names::NameTable;
use std::alloc::Global;

/// The first fault of code, if it has one. The code has few enough parts that 32 bits number them,
/// and its names differ.
pub fn first_fault(alloc: Global, code: &CodeProgram) -> Result<Option<Fault>, NoMemory>
    requires few { HasFewParts code.now }
    requires differ { AllPairs (λ a b. a ≢ b) code.now.names }
    ensures { IfOk result (λ fault. fault ≡ spec.fault_of code.now) }
{
    let names = NameTable::new(alloc, code)?;
    match first_class_fault(alloc, code, &names) {
        Ok(None) => first_body_fault(alloc, code, names),
        Ok(Some(fault)) => {
            drop(names);
            Ok(Some(fault))
        }
        Err(error) => {
            drop(names);
            Err(error)
        }
    }
}

/// The first fault of the classes, of which there is at least one.
fn first_class_fault(
    alloc: Global,
    code: &CodeProgram,
    names: &NameTable,
) -> Result<Option<Fault>, NoMemory>
    requires few { length code.now.classes ≤ 65536 }
    requires names { IsNameTable code.now names.now }
    ensures { IfOk result (λ fault. fault ≡ spec.first_class_fault code.now code.now.classes) }
{
    match code.classes.as_slice() {
        [] => Ok(Some(Fault {
            cause: VerifyCause::BadScope,
            at: Where::Class(0),
        })),
        [_, ..] => classes_fault(alloc, code, names),
    }
}

fn classes_fault(
    alloc: Global,
    code: &CodeProgram,
    names: &NameTable,
) -> Result<Option<Fault>, NoMemory>
    requires few { length code.now.classes ≤ 65536 }
    requires names { IsNameTable code.now names.now }
    ensures { IfOk result (λ fault. fault ≡ spec.classes_fault code.now 0 code.now.classes) }
{
    let mut number: u32 = 0;
    'classes: for class in code.classes.as_slice() {
        match class_cause(alloc, code, names, number, class)? {
            Some(cause) => {
                return Ok(Some(Fault {
                    cause,
                    at: Where::Class(number),
                }));
            }
            None => number += 1,
        }
    }
    Ok(None)
}

/// The first fault of the bodies.
fn first_body_fault(
    alloc: Global,
    code: &CodeProgram,
    names: NameTable,
) -> Result<Option<Fault>, NoMemory>
    requires few { HasFewParts code.now }
    requires names { IsNameTable code.now names }
    ensures { IfOk result (λ fault. fault ≡ spec.bodies_fault code.now 0 code.now.bodies) }
{
    let tables = Tables::new(alloc, code, names)?;
    let fault = body_fault_by(alloc, code, &tables);
    drop(tables);
    fault
}

/// The first fault of the bodies, by the tables of the code.
fn body_fault_by(
    alloc: Global,
    code: &CodeProgram,
    tables: &Tables,
) -> Result<Option<Fault>, NoMemory>
    requires few { HasFewParts code.now }
    requires tables { AreTablesOf code.now tables.now }
    ensures { IfOk result (λ fault. fault ≡ spec.bodies_fault code.now 0 code.now.bodies) }
{
    let homes = home_kinds(alloc, code.bodies.as_slice())?;
    bodies_fault(alloc, code, tables, homes.as_slice())
}

fn bodies_fault(
    alloc: Global,
    code: &CodeProgram,
    tables: &Tables,
    homes: &[u8],
) -> Result<Option<Fault>, NoMemory>
    requires few { HasFewParts code.now }
    requires tables { AreTablesOf code.now tables.now }
    requires homes { homes.now ≡ home_kinds code.now }
    ensures { IfOk result (λ fault. fault ≡ spec.bodies_fault code.now 0 code.now.bodies) }
{
    let mut number: u32 = 0;
    'bodies: for body in code.bodies.as_slice() {
        let home = kind_or(homes, number, body.kind);
        match body_fault(alloc, code, tables, number, body, home)? {
            Some(fault) => return Ok(Some(fault)),
            None => number += 1,
        }
    }
    Ok(None)
}

/// The first fault of a body, whose outermost body is of that kind.
fn body_fault(
    alloc: Global,
    code: &CodeProgram,
    tables: &Tables,
    number: u32,
    body: &BodyCode,
    home: u8,
) -> Result<Option<Fault>, NoMemory>
    requires few { length body.now.instrs ≤ 65536 }
    requires tables { AreTablesOf code.now tables.now }
    ensures { IfOk result (λ fault. fault ≡ spec.body_fault_in code.now number body.now home body.now.instrs) }
{
    let instrs = body.instrs.to_vec(alloc)?;
    match instrs.as_slice() {
        [] => Ok(Some(Fault {
            cause: empty_cause(code, number, body),
            at: Where::Body(number, 0),
        })),
        [_, ..] => {
            let around = Around::of(alloc, code, tables, number, body.class)?;
            instrs_fault(alloc, code, tables, &around, number, body, &instrs, home)
        }
    }
}

fn instrs_fault(
    alloc: Global,
    code: &CodeProgram,
    tables: &Tables,
    around: &Around,
    number: u32,
    body: &BodyCode,
    instrs: &[Instr],
    home: u8,
) -> Result<Option<Fault>, NoMemory>
    requires few { length body.now.instrs ≤ 65536 }
    requires instrs { instrs.now ≡ body.now.instrs }
    requires tables { AreTablesOf code.now tables.now }
    requires around { IsAround code.now number body.now.class around.now }
    ensures { IfOk result (λ fault. fault ≡ spec.instrs_fault code.now number body.now home (begin (length body.now.instrs)) 0 body.now.instrs) }
{
    let mut pass = Pass::begin(alloc, instrs.len())?;
    let mut at: u32 = 0;
    'instrs: for instr in instrs {
        match cause_at(code, tables, around, number, body, home, &pass, at, *instr) {
            Some(cause) => {
                return Ok(Some(Fault {
                    cause,
                    at: Where::Body(number, at),
                }));
            }
            None => pass.advance(at, *instr),
        }
        at += 1;
    }
    Ok(None)
}
