//! Instructions: a code of one byte, and the operands.

ghost use Rattle.ns_code.specs.declared.instruction.Instr.TheVariants as i;
ghost use Rattle.ns_image.specs.Reading as spec;
ghost use Rattle.ns_image.specs.Reads.{ReadsBytes};

use crate::fault::Fault;
use crate::read::format::Format;
use crate::read::input::Input;
use ns_code::instruction::Instr;
use std::alloc::Global;

/// An instruction.
pub struct Instruction;

impl Format for Instruction {
    type Value = Instr;

    ghost reader = { λ _. spec.instr };

    #[tactic(auto, unfolding(crate::specs::Reading::instr))]
    fn read(&self, _alloc: Global, input: &mut Input<'_>) -> Result<Instr, Fault> {
        let left = input.rest.len();
        let code = input.byte()?;
        behind(input, left, code)
    }
}

/// What follows a code. So many bytes were left where the code stands.
fn behind(input: &mut Input<'_>, left: usize, code: u8) -> Result<Instr, Fault>
    ensures { ReadsBytes (spec.behind left (spec.operands_of code) input.old.rest.now) result input.new.rest.now }
{
    match code {
        1 => Ok(Instr::PushNil),
        2 => Ok(Instr::PushTrue),
        3 => Ok(Instr::PushFalse),
        4 => Ok(Instr::PushInt(input.long()?)),
        5 => Ok(Instr::PushSym(input.sel()?)),
        6 => Ok(Instr::PushText(input.word()?)),
        7 => Ok(Instr::PushSelf),
        8 => Ok(Instr::PushOuter(input.byte()?)),
        9 => push_local(input),
        10 => store_local(input),
        11 => Ok(Instr::PushBlock(input.word()?)),
        12 => Ok(Instr::MakeArray(input.byte()?)),
        13 => Ok(Instr::Pop),
        14 => Ok(Instr::Pick(input.byte()?)),
        15 => send(input),
        16 => send_inner(input),
        17 => send_private(input),
        18 => send_super(input),
        19 => Ok(Instr::InitSuper(input.byte()?)),
        20 => Ok(Instr::StoreSlot(input.half()?)),
        21 => Ok(Instr::Return),
        22 => Ok(Instr::ReturnSelf),
        23 => Ok(Instr::ReturnHome),
        24 => Ok(Instr::Jump(input.word()?)),
        25 => Ok(Instr::JumpFalse(input.word()?)),
        26 => Ok(Instr::JumpTrue(input.word()?)),
        0 | 27..=255 => Err(Fault::Bad(left)),
    }
}

fn push_local(input: &mut Input<'_>) -> Result<Instr, Fault>
    ensures { ReadsBytes (spec.operands (spec.two_bytes i.PushLocal) input.old.rest.now) result input.new.rest.now }
{
    let hops = input.byte()?;
    let index = input.byte()?;
    Ok(Instr::PushLocal { hops, index })
}

fn store_local(input: &mut Input<'_>) -> Result<Instr, Fault>
    ensures { ReadsBytes (spec.operands (spec.two_bytes i.StoreLocal) input.old.rest.now) result input.new.rest.now }
{
    let hops = input.byte()?;
    let index = input.byte()?;
    Ok(Instr::StoreLocal { hops, index })
}

fn send(input: &mut Input<'_>) -> Result<Instr, Fault>
    ensures { ReadsBytes (spec.operands (spec.sending i.Send) input.old.rest.now) result input.new.rest.now }
{
    let sel = input.sel()?;
    let argc = input.byte()?;
    Ok(Instr::Send { sel, argc })
}

fn send_inner(input: &mut Input<'_>) -> Result<Instr, Fault>
    ensures { ReadsBytes (spec.operands (spec.sending i.SendInner) input.old.rest.now) result input.new.rest.now }
{
    let sel = input.sel()?;
    let argc = input.byte()?;
    Ok(Instr::SendInner { sel, argc })
}

fn send_private(input: &mut Input<'_>) -> Result<Instr, Fault>
    ensures { ReadsBytes (spec.operands spec.sending_at input.old.rest.now) result input.new.rest.now }
{
    let level = input.byte()?;
    let sel = input.sel()?;
    let argc = input.byte()?;
    Ok(Instr::SendPrivate { level, sel, argc })
}

fn send_super(input: &mut Input<'_>) -> Result<Instr, Fault>
    ensures { ReadsBytes (spec.operands (spec.sending i.SendSuper) input.old.rest.now) result input.new.rest.now }
{
    let sel = input.sel()?;
    let argc = input.byte()?;
    Ok(Instr::SendSuper { sel, argc })
}
