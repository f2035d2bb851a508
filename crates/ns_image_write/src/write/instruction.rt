//! Instructions: a code of one byte, and the operands.

ghost use Rattle.std.specs.Prelude.{◌≡◌, ◌++◌, OnOk};
ghost use Rattle.ns_image.specs.Bytes as spec;

use crate::write::output::{Part, put_byte, put_half, put_long, put_word};
use ns_base::no_memory::NoMemory;
use ns_base::selector::Sel;
use ns_code::instruction::Instr;

impl Part for Instr {
    ghost layout = { spec.instr };

    ghost fits = { λ _. Unit {0} };

    fn put(&self, out: &mut Vec<u8>) -> Result<(), NoMemory> {
        match *self {
            Instr::PushNil => put_byte(out, 1),
            Instr::PushTrue => put_byte(out, 2),
            Instr::PushFalse => put_byte(out, 3),
            Instr::PushInt(number) => with_long(out, 4, number),
            Instr::PushSym(sel) => with_word(out, 5, sel.0),
            Instr::PushText(text) => with_word(out, 6, text),
            Instr::PushSelf => put_byte(out, 7),
            Instr::PushOuter(level) => with_byte(out, 8, level),
            Instr::PushLocal { hops, index } => with_bytes(out, 9, hops, index),
            Instr::StoreLocal { hops, index } => with_bytes(out, 10, hops, index),
            Instr::PushBlock(body) => with_word(out, 11, body),
            Instr::MakeArray(count) => with_byte(out, 12, count),
            Instr::Pop => put_byte(out, 13),
            Instr::Pick(below) => with_byte(out, 14, below),
            Instr::Send { sel, argc } => with_message(out, 15, sel, argc),
            Instr::SendInner { sel, argc } => with_message(out, 16, sel, argc),
            Instr::SendPrivate { level, sel, argc } => send_private(out, level, sel, argc),
            Instr::SendSuper { sel, argc } => with_message(out, 18, sel, argc),
            Instr::InitSuper(argc) => with_byte(out, 19, argc),
            Instr::StoreSlot(slot) => with_half(out, 20, slot),
            Instr::Return => put_byte(out, 21),
            Instr::ReturnSelf => put_byte(out, 22),
            Instr::ReturnHome => put_byte(out, 23),
            Instr::Jump(target) => with_word(out, 24, target),
            Instr::JumpFalse(target) => with_word(out, 25, target),
            Instr::JumpTrue(target) => with_word(out, 26, target),
        }
    }
}

/// A code with an operand of one byte.
fn with_byte(out: &mut Vec<u8>, code: u8, operand: u8) -> Result<(), NoMemory>
    ensures { OnOk result (out.new.items ≡ out.old.items ++ (spec.byte code ++ spec.byte operand)) }
{
    put_byte(out, code)?;
    put_byte(out, operand)
}

/// A code with two operands of one byte.
fn with_bytes(out: &mut Vec<u8>, code: u8, first: u8, second: u8) -> Result<(), NoMemory>
    ensures { OnOk result (out.new.items ≡ out.old.items ++ (spec.byte code ++ (spec.byte first ++ spec.byte second))) }
{
    put_byte(out, code)?;
    put_byte(out, first)?;
    put_byte(out, second)
}

/// A code with an operand of two bytes.
fn with_half(out: &mut Vec<u8>, code: u8, operand: u16) -> Result<(), NoMemory>
    ensures { OnOk result (out.new.items ≡ out.old.items ++ (spec.byte code ++ spec.half operand)) }
{
    put_byte(out, code)?;
    put_half(out, operand)
}

/// A code with an operand of eight bytes.
fn with_long(out: &mut Vec<u8>, code: u8, operand: i64) -> Result<(), NoMemory>
    ensures { OnOk result (out.new.items ≡ out.old.items ++ (spec.byte code ++ spec.long operand)) }
{
    put_byte(out, code)?;
    put_long(out, operand)
}

/// A private send: its code, a level, a selector and the count of its arguments.
fn send_private(out: &mut Vec<u8>, level: u8, sel: Sel, argc: u8) -> Result<(), NoMemory>
    ensures { OnOk result (out.new.items ≡ out.old.items ++ (spec.byte 17 ++ (spec.byte level ++ (spec.word sel.0 ++ spec.byte argc)))) }
{
    with_byte(out, 17, level)?;
    put_word(out, sel.0)?;
    put_byte(out, argc)
}

/// A code with an operand of four bytes.
fn with_word(out: &mut Vec<u8>, code: u8, operand: u32) -> Result<(), NoMemory>
    ensures { OnOk result (out.new.items ≡ out.old.items ++ (spec.byte code ++ spec.word operand)) }
{
    put_byte(out, code)?;
    put_word(out, operand)
}

/// A code with a selector and the count of its arguments.
fn with_message(out: &mut Vec<u8>, code: u8, sel: Sel, argc: u8) -> Result<(), NoMemory>
    ensures { OnOk result (out.new.items ≡ out.old.items ++ (spec.byte code ++ (spec.word sel.0 ++ spec.byte argc))) }
{
    put_byte(out, code)?;
    put_word(out, sel.0)?;
    put_byte(out, argc)
}
