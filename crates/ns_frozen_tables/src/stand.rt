//! Where a body can stand: each instruction with the operands before it, and for what it waits.

ghost use Rattle.std.specs.Prelude.{◌≡◌, IfOk, Some, slice_get};
ghost use Rattle.ns_code.specs.Fits.{Fits};
ghost use Rattle.ns_verify.specs.Verify.{IsSound};
ghost use Rattle.ns_frozen_tables.specs.Stands as spec;

use ns_base::items::Items;
use ns_base::no_memory::NoMemory;
use ns_code::body::BodyCode;
use ns_code::instruction::Instr;
use ns_code::program::CodeProgram;
use ns_code::table::takes;
use ns_verify::heights::Pass;
use ns_verify::laws::heights_agree;
use std::alloc::Global;

/// For what an instruction waits: for nothing, for a value, or for the end of a superclass part.
#[derive(Clone, Copy)]
pub enum Waits {
    Never,
    ForValue,
    ForPart,
}

/// An instruction: how many operands there are before it, how many it leaves while it waits, and for what.
#[derive(Clone, Copy)]
pub struct Stand {
    pub height: u16,
    pub left: u16,
    pub waits: Waits,
}

/// The instructions of a body of sound code.
pub fn stands_of(
    alloc: Global,
    code: &CodeProgram,
    number: u32,
    body: &BodyCode,
) -> Result<Items<Stand>, NoMemory>
    requires sound { IsSound code.now }
    requires fits { Fits code.now }
    requires there { slice_get code.now.bodies number ≡ Some body.now }
    ensures { IfOk result (λ stands. stands ≡ spec.stands_of body.now) }
{
    heights_agree();
    // The code and the number stand in what is required alone.
    let _code = code;
    let _number = number;
    let count = body.instrs.len();
    let mut pass = Pass::begin(alloc, count)?;
    let mut stands = Vec::with_capacity(alloc, count)?;
    let mut left = body.instrs.left();
    let mut at: u32 = 0;
    'instrs: while let Some((instr, rest)) = left.split_first() {
        stands.push(stand_at(pass.height_at(at) as u16, instr))?;
        pass.advance(at, instr);
        at += 1;
        left = rest;
    }
    Ok(Items::from_vec(stands))
}

/// An instruction with so many operands before it.
fn stand_at(height: u16, instr: Instr) -> Stand
    ensures { result ≡ spec.stand_at height instr }
{
    Stand {
        height,
        left: height.saturating_sub(takes(instr) as u16),
        waits: waits_of(instr),
    }
}

/// For what an instruction waits.
fn waits_of(instr: Instr) -> Waits
    ensures { result ≡ spec.waits_of instr }
{
    match instr {
        Instr::Send { .. } => Waits::ForValue,
        Instr::SendInner { .. } => Waits::ForValue,
        Instr::SendPrivate { .. } => Waits::ForValue,
        Instr::SendSuper { .. } => Waits::ForValue,
        Instr::InitSuper(_) => Waits::ForPart,
        _ => Waits::Never,
    }
}

/// Whether what waits so waits for what stands above, where that is an initialiser or not.
pub fn waits_for(part: bool, waits: Waits) -> bool
    ensures { result ≡ spec.waits_for part waits }
{
    match waits {
        Waits::ForValue => true,
        Waits::ForPart => part,
        Waits::Never => false,
    }
}
