//! Instructions: a name, and the operands.

ghost use Rattle.std.specs.Prelude.{◌≡◌, ◌++◌, ◌∷◌, OnOk, codes};
ghost use Rattle.std.specs.Fmt.{signed_decimal};
ghost use Rattle.ns_image_list.specs.Listing as spec;
ghost use Rattle.ns_image_list.specs.Output.{after};

use crate::output::Output;
use crate::source::Source;
use ns_base::no_memory::NoMemory;
use ns_base::selector::Sel;
use ns_code::instruction::Instr;

/// An instruction's name and operands.
pub fn put_instruction(out: &mut Output, source: &Source<'_>, instr: Instr) -> Result<(), NoMemory>
    ensures { OnOk result (out.new ≡ after out.old (spec.instr_shown source.now instr)) }
{
    match instr {
        Instr::PushNil => out.put(b"PushNil"),
        Instr::PushTrue => out.put(b"PushTrue"),
        Instr::PushFalse => out.put(b"PushFalse"),
        Instr::PushInt(number) => push_int(out, number),
        Instr::PushSym(sel) => push_sym(out, source, sel),
        Instr::PushText(text) => push_text(out, source, text),
        Instr::PushSelf => out.put(b"PushSelf"),
        Instr::PushOuter(level) => with_byte(out, b"PushOuter", level),
        Instr::PushLocal { hops, index } => with_bytes(out, b"PushLocal", hops, index),
        Instr::StoreLocal { hops, index } => with_bytes(out, b"StoreLocal", hops, index),
        Instr::PushBlock(body) => with_word(out, b"PushBlock", body),
        Instr::MakeArray(count) => with_byte(out, b"MakeArray", count),
        Instr::Pop => out.put(b"Pop"),
        Instr::Pick(below) => with_byte(out, b"Pick", below),
        Instr::Send { sel, argc } => with_message(out, source, b"Send", sel, argc),
        Instr::SendInner { sel, argc } => with_message(out, source, b"SendInner", sel, argc),
        Instr::SendPrivate { level, sel, argc } => send_private(out, source, level, sel, argc),
        Instr::SendSuper { sel, argc } => with_message(out, source, b"SendSuper", sel, argc),
        Instr::InitSuper(argc) => with_byte(out, b"InitSuper", argc),
        Instr::StoreSlot(slot) => with_word(out, b"StoreSlot", u32::from(slot)),
        Instr::Return => out.put(b"Return"),
        Instr::ReturnSelf => out.put(b"ReturnSelf"),
        Instr::ReturnHome => out.put(b"ReturnHome"),
        Instr::Jump(target) => with_word(out, b"Jump", target),
        Instr::JumpFalse(target) => with_word(out, b"JumpFalse", target),
        Instr::JumpTrue(target) => with_word(out, b"JumpTrue", target),
    }
}

fn push_int(out: &mut Output, number: i64) -> Result<(), NoMemory>
    ensures { OnOk result (out.new ≡ after out.old (codes "PushInt" ++ 32 ∷ signed_decimal number)) }
{
    out.put(b"PushInt")?;
    out.put_signed(number)
}

fn push_sym(out: &mut Output, source: &Source<'_>, sel: Sel) -> Result<(), NoMemory>
    ensures { OnOk result (out.new ≡ after out.old (codes "PushSym" ++ spec.selector source.now sel.0)) }
{
    out.put(b"PushSym")?;
    out.put_behind_blank(source.name(sel))
}

fn push_text(out: &mut Output, source: &Source<'_>, text: u32) -> Result<(), NoMemory>
    ensures { OnOk result (out.new ≡ after out.old (codes "PushText" ++ 32 ∷ spec.text_shown source.now text)) }
{
    out.put(b"PushText")?;
    out.put_behind_blank(source.text(text))
}

fn send_private(
    out: &mut Output,
    source: &Source<'_>,
    level: u8,
    sel: Sel,
    argc: u8,
) -> Result<(), NoMemory>
    ensures { OnOk result (out.new ≡ after out.old (codes "SendPrivate" ++ (spec.number level ++ (spec.selector source.now sel.0 ++ spec.number argc)))) }
{
    with_byte(out, b"SendPrivate", level)?;
    put_message(out, source, sel, argc)
}

fn with_byte(out: &mut Output, name: &[u8], operand: u8) -> Result<(), NoMemory>
    ensures { OnOk result (out.new ≡ after out.old (name.now ++ spec.number operand)) }
{
    out.put_counted(name, u64::from(operand))
}

fn with_bytes(out: &mut Output, name: &[u8], first: u8, second: u8) -> Result<(), NoMemory>
    ensures { OnOk result (out.new ≡ after out.old (name.now ++ (spec.number first ++ spec.number second))) }
{
    out.put_counted(name, u64::from(first))?;
    out.put_number(u64::from(second))
}

fn with_word(out: &mut Output, name: &[u8], operand: u32) -> Result<(), NoMemory>
    ensures { OnOk result (out.new ≡ after out.old (name.now ++ spec.number operand)) }
{
    out.put_counted(name, u64::from(operand))
}

fn with_message(
    out: &mut Output,
    source: &Source<'_>,
    name: &[u8],
    sel: Sel,
    argc: u8,
) -> Result<(), NoMemory>
    ensures { OnOk result (out.new ≡ after out.old (name.now ++ (spec.selector source.now sel.0 ++ spec.number argc))) }
{
    out.put(name)?;
    put_message(out, source, sel, argc)
}

/// A selector and the count of its arguments.
fn put_message(out: &mut Output, source: &Source<'_>, sel: Sel, argc: u8) -> Result<(), NoMemory>
    ensures { OnOk result (out.new ≡ after out.old (spec.selector source.now sel.0 ++ spec.number argc)) }
{
    out.put_behind_blank(source.name(sel))?;
    out.put_number(u64::from(argc))
}
