//! What clauses do: the head of a class's clause, whose value is the superclass.

ghost use Rattle.std.specs.Prelude.{◌≡◌, OnOk};
ghost use Rattle.ns_resolved.specs.Program.{as_clause};
ghost use Rattle.ns_resolved.specs.Classes.{base_node, head_node, over_sign_at, words_before};
ghost use Rattle.ns_gen_draft.specs.Standing.{standing};
ghost use Rattle.ns_gen_exprs.specs.Sending.{with_node};
ghost use Rattle.ns_gen_bodies.specs.Stepping.{with_body};

use ns_base::no_memory::NoMemory;
use ns_base::text::Text;
use ns_code::instruction::Instr;
use ns_gen_draft::draft::SendWay;
use ns_gen_draft::here::Here;
use ns_gen_draft::writer::Writer;
use ns_gen_exprs::literals::put_named;
use ns_gen_exprs::receiver::{Receiver, put_name};
use ns_tree::tree::{Base, Origin};

/// All that a clause with this head does.
#[tactic(auto, using(crate::proofs::Starting::clause_whole))]
pub fn put_clause(
    writer: &mut Writer,
    here: &Here<'_>,
    head: &Base,
    over: &Option<Base>,
) -> Result<(), NoMemory>
    ensures { OnOk result (writer.new ≡ with_body (as_clause (head_node (standing here.now) head.now over.now)) writer.old) }
{
    put_head(writer, here, head, over)?;
    writer.does(Instr::Return)?;
    Ok(())
}

/// A base, or a mixin to which the superclass is sent.
fn put_head(
    writer: &mut Writer,
    here: &Here<'_>,
    head: &Base,
    over: &Option<Base>,
) -> Result<(), NoMemory>
    ensures { OnOk result (writer.new ≡ with_node (head_node (standing here.now) head.now over.now) writer.old) }
{
    put_base(writer, here, head)?;
    match over {
        None => Ok(()),
        Some(over) => {
            put_base(writer, here, over)?;
            let place = here.place(over_sign_at(over));
            writer.sends(SendWay::Plain, b"<:".as_slice(), place, 1)?;
            Ok(())
        }
    }
}

/// A base is a message without arguments.
fn put_base(writer: &mut Writer, here: &Here<'_>, base: &Base) -> Result<(), NoMemory>
    ensures { OnOk result (writer.new ≡ with_node (base_node (standing here.now) base.now) writer.old) }
{
    match &base.origin {
        Origin::Here => put_named(writer, here, &base.name.text, base.name.at),
        Origin::Super => put_name(writer, here, &Receiver::Super, &base.name),
        Origin::Outer(class) => {
            let class = Text::of(writer.alloc(), class.text.bytes())?;
            put_name(writer, here, &Receiver::Outer(class), &base.name)
        }
    }
}

/// The number of the token `<:` before a base.
fn over_sign_at(base: &Base) -> u32
    ensures { result ≡ over_sign_at base.now }
{
    base.name
        .at
        .saturating_sub(words_before(&base.origin))
        .saturating_sub(1)
}

/// How many tokens stand before a base's name.
fn words_before(origin: &Origin) -> u32
    ensures { result ≡ words_before origin.now }
{
    match origin {
        Origin::Here => 0,
        Origin::Super => 1,
        Origin::Outer(_) => 2,
    }
}
