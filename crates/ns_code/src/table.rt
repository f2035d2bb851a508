//! What each instruction does with operands, and where it goes on.

ghost use Rattle.std.specs.Prelude.{◌≡◌, ◌≤◌, ◌<◌};
ghost use Rattle.ns_code.specs.Table as spec;

use crate::instruction::Instr;

/// How many operands it takes or reads.
pub fn takes(instr: Instr) -> u32
    ensures takes { result ≡ spec.takes instr }
    ensures few { result ≤ 256 }
{
    match instr {
        Instr::MakeArray(count) => u32::from(count),
        Instr::Pick(depth) => u32::from(depth) + 1,
        Instr::Send { argc, .. } | Instr::SendInner { argc, .. } => u32::from(argc) + 1,
        Instr::SendPrivate { argc, .. } | Instr::SendSuper { argc, .. } | Instr::InitSuper(argc) =>
            { u32::from(argc) }
        Instr::StoreLocal { .. }
        | Instr::Pop
        | Instr::StoreSlot(_)
        | Instr::Return
        | Instr::ReturnHome
        | Instr::JumpFalse(_)
        | Instr::JumpTrue(_) => 1,
        _ => 0,
    }
}

/// How many it leaves in their stead. What is only read is left again.
pub fn leaves(instr: Instr) -> u32
    ensures leaves { result ≡ spec.leaves instr }
    ensures few { result ≤ 257 }
{
    match instr {
        Instr::Pick(depth) => u32::from(depth) + 2,
        Instr::Pop
        | Instr::InitSuper(_)
        | Instr::StoreSlot(_)
        | Instr::Return
        | Instr::ReturnSelf
        | Instr::ReturnHome
        | Instr::Jump(_)
        | Instr::JumpFalse(_)
        | Instr::JumpTrue(_) => 0,
        _ => 1,
    }
}

/// The height after it, from the height before.
pub fn height_after(instr: Instr, height: u32) -> u32
    requires { height ≤ 65535 }
    ensures { result ≡ spec.height_after instr height }
{
    height.saturating_sub(takes(instr)) + leaves(instr)
}

/// Where it may jump to.
pub fn target(instr: Instr) -> Option<u32>
    ensures { result ≡ spec.target instr }
{
    match instr {
        Instr::Jump(at) | Instr::JumpFalse(at) | Instr::JumpTrue(at) => Some(at),
        _ => None,
    }
}

/// Whether it may go on to the next one.
pub fn goes_on(instr: Instr) -> bool
    ensures { result ≡ spec.goes_on instr }
{
    match instr {
        Instr::Return | Instr::ReturnSelf | Instr::ReturnHome | Instr::Jump(_) => false,
        _ => true,
    }
}

/// Whether it ends its frame at a height at which no frame may end.
pub fn ends_wrongly(instr: Instr, height: u32) -> bool
    ensures { result ≡ spec.ends_wrongly instr height }
{
    match instr {
        Instr::Return | Instr::ReturnHome => height != 1,
        Instr::ReturnSelf => height != 0,
        _ => false,
    }
}

/// Whether it begins a superclass part.
pub fn starts_super(instr: Instr) -> bool
    ensures { result ≡ spec.starts_super instr }
{
    matches!(instr, Instr::InitSuper(_))
}
