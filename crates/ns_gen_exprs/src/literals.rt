//! Literals, and names alone.

ghost use Rattle.std.specs.Prelude.{◌≡◌, ◌<◌, IfOk, OnOk};
ghost use Rattle.ns_scope.specs.Resolve.{resolve};
ghost use Rattle.ns_resolved.specs.Program as m;
ghost use Rattle.ns_resolved.specs.Expressions.{integer_of, name_node, sent_at};
ghost use Rattle.ns_gen_draft.specs.Standing.{standing};
ghost use Rattle.ns_gen_exprs.specs.Sending.{meant_reach, with_node};

use crate::reach::{Reach, reach_of};
use crate::receiver::begin_object;
use ns_base::no_memory::NoMemory;
use ns_base::text::Text;
use ns_code::instruction::Instr;
use ns_gen_draft::here::Here;
use ns_gen_draft::keys::byte;
use ns_gen_draft::never::cannot_come;
use ns_gen_draft::writer::Writer;
use ns_scope::resolve::Target;

/// The Integer of a number as it is written.
fn integer(minus: bool, size: u64) -> Result<i64, NoMemory>
    ensures { IfOk result (λ number. number ≡ integer_of minus size) }
{
    match i64::try_from(size) {
        Ok(number) => Ok(if minus { -number } else { number }),
        Err(_) => lowest(minus, size),
    }
}

/// The least Integer, whose size is one more than the greatest.
fn lowest(minus: bool, size: u64) -> Result<i64, NoMemory>
    ensures { IfOk result (λ number. number ≡ integer_of minus size) }
{
    if minus && size == 9223372036854775808 {
        Ok(i64::MIN)
    } else {
        Err(cannot_come())
    }
}

/// A number as it is written.
pub fn put_number(writer: &mut Writer, minus: bool, size: u64) -> Result<(), NoMemory>
    ensures { OnOk result (writer.new ≡ with_node (m.integer (integer_of minus size)) writer.old) }
{
    let number = integer(minus, size)?;
    writer.does(Instr::PushInt(number))
}

/// A literal text.
pub fn put_text(writer: &mut Writer, text: &Text) -> Result<(), NoMemory>
    ensures { OnOk result (writer.new ≡ with_node (m.text text.now) writer.old) }
{
    writer.text(text.bytes())
}

/// A symbol.
pub fn put_symbol(writer: &mut Writer, name: &Text) -> Result<(), NoMemory>
    ensures { OnOk result (writer.new ≡ with_node (m.symbol name.now) writer.old) }
{
    writer.symbol(name.bytes())
}

/// A name alone: a local, or an implicit send.
pub fn put_named(writer: &mut Writer, here: &Here<'_>, text: &Text, at: u32) -> Result<(), NoMemory>
    ensures { OnOk result (writer.new ≡ with_node (name_node (standing here.now) (sent_at (standing here.now) text.now at)) writer.old) }
{
    match here.resolve(text.bytes()) {
        Target::Local { hops, index } => {
            let local = Instr::PushLocal {
                hops: byte(hops)?,
                index: byte(index)?,
            };
            writer.does(local)
        }
        target => {
            let reach = reach_of(target)?;
            put_sent(writer, here, reach, text, at)
        }
    }
}

/// A send without arguments to an object.
#[tactic(auto, using(crate::specs::laws::Composing::object_named))]
fn put_sent(
    writer: &mut Writer,
    here: &Here<'_>,
    reach: Reach,
    text: &Text,
    at: u32,
) -> Result<(), NoMemory>
    ensures { OnOk result (writer.new ≡ with_node (m.send_to (meant_reach reach) (sent_at (standing here.now) text.now at) m.no_nodes) writer.old) }
{
    let way = begin_object(writer, reach)?;
    writer.sends(way, text.bytes(), here.place(at), 0)
}
