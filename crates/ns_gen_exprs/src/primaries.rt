//! Primaries in which no expression stands that is written in place.

ghost use Rattle.std.specs.Prelude.{◌≡◌, ◌+◌, [], ℕ, length, IfOk, OnOk};
ghost use Rattle.ns_tree.specs.Plain as p;
ghost use Rattle.ns_tree.specs.PlainOf.{primary_of, block_of, statements_of};
ghost use Rattle.ns_scope.specs.Bodies.{primary_blocks, block_blocks};
ghost use Rattle.ns_resolved.specs.Program as m;
ghost use Rattle.ns_resolved.specs.Expressions.{primary_receiver};
ghost use Rattle.ns_gen_draft.specs.Standing.{standing};
ghost use Rattle.ns_gen_exprs.specs.Sending.{with_node, with_receiver, kept};

use crate::literals::{put_named, put_number, put_symbol, put_text};
use crate::receiver::Receiver;
use ns_base::no_memory::NoMemory;
use ns_base::text::Text;
use ns_code::instruction::Instr;
use ns_gen_draft::counting::{count_bare_block, count_block};
use ns_gen_draft::here::Here;
use ns_gen_draft::never::cannot_come;
use ns_gen_draft::writer::Writer;
use ns_tree::tree::{Block, Primary, Statements};

/// A block, of which the number alone is written; those in it are passed over.
#[tactic(auto, using(ns_gen_draft::specs::laws::BlockCounts::block_counted))]
pub fn put_block(
    writer: &mut Writer,
    here: &Here<'_>,
    next: &mut u32,
    block: &Block,
) -> Result<(), NoMemory>
    ensures put { OnOk result (writer.new ≡ with_node (m.block next.old) writer.old) }
    ensures next { OnOk result (next.new ≡ next.old + length (block_blocks here.now.scope.now (block_of block.now))) }
{
    writer.does(Instr::PushBlock(*next))?;
    count_block(next, block)
}

/// A block without parameters and locals, in the same way.
#[tactic(auto, using(ns_gen_draft::specs::laws::BlockCounts::block_counted))]
pub fn put_bare_block(
    writer: &mut Writer,
    here: &Here<'_>,
    next: &mut u32,
    body: &Statements,
) -> Result<(), NoMemory>
    ensures put { OnOk result (writer.new ≡ with_node (m.block next.old) writer.old) }
    ensures next { OnOk result (next.new ≡ next.old + length (block_blocks here.now.scope.now (p.block_with [] p.no_bars (statements_of body.now)))) }
{
    writer.does(Instr::PushBlock(*next))?;
    count_bare_block(next, body)
}

/// A primary without parts. Any other is written where it is taken apart.
pub fn put_alone(
    writer: &mut Writer,
    here: &Here<'_>,
    at: u32,
    primary: &Primary,
) -> Result<Receiver, NoMemory>
    ensures put { (next : ℕ) → OnOk result (writer.new ≡ with_receiver (primary_receiver (standing here.now) next at (primary_of primary.now)) writer.old) }
    ensures kept { (next : ℕ) → IfOk result (λ receiver. receiver ≡ kept (primary_receiver (standing here.now) next at (primary_of primary.now))) }
    ensures none { OnOk result (length (primary_blocks here.now.scope.now (primary_of primary.now)) ≡ 0) }
{
    match primary {
        Primary::SelfWord => Ok(Receiver::Own),
        Primary::Super => Ok(Receiver::Super),
        Primary::Outer(name) => {
            let class = Text::of(writer.alloc(), name.text.bytes())?;
            Ok(Receiver::Outer(class))
        }
        Primary::Name(text) => {
            put_named(writer, here, text, at)?;
            Ok(Receiver::Value)
        }
        Primary::Number { minus, size } => {
            put_number(writer, *minus, *size)?;
            Ok(Receiver::Value)
        }
        Primary::Str(text) => {
            put_text(writer, text)?;
            Ok(Receiver::Value)
        }
        Primary::Symbol(name) => {
            put_symbol(writer, name)?;
            Ok(Receiver::Value)
        }
        Primary::Nil => {
            writer.does(Instr::PushNil)?;
            Ok(Receiver::Value)
        }
        Primary::True => {
            writer.does(Instr::PushTrue)?;
            Ok(Receiver::Value)
        }
        Primary::False => {
            writer.does(Instr::PushFalse)?;
            Ok(Receiver::Value)
        }
        _ => Err(cannot_come()),
    }
}
