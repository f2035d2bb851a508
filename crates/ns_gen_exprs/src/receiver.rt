//! Receivers, and messages to them.

ghost use Rattle.std.specs.Prelude.{◌≡◌, IfOk, OnOk, []};
ghost use Rattle.ns_resolved.specs.Program.{no_nodes};
ghost use Rattle.ns_resolved.specs.Expressions.{name_sent};
ghost use Rattle.ns_gen_code.specs.Code.{object_lines, way_of as meant_way};
ghost use Rattle.ns_gen_draft.specs.Drafts.{way_of};
ghost use Rattle.ns_gen_draft.specs.Standing.{standing};
ghost use Rattle.ns_gen_exprs.specs.Cascading.{with_copy, with_copies, is_repeated};
ghost use Rattle.ns_gen_exprs.specs.Sending.{meant_reach, with_lines, begin_lines, begin_way, with_message, with_names, with_value, left};

use crate::reach::{Reach, reach_outer, reach_self};
use ns_base::no_memory::NoMemory;
use ns_base::text::Text;
use ns_code::instruction::Instr;
use ns_gen_draft::draft::SendWay;
use ns_gen_draft::here::Here;
use ns_gen_draft::writer::Writer;
use ns_tree::tree::Named;

/// What the next message is sent to: the value that lies on top; self; self from the superclass on;
/// or the enclosing object for the innermost declaration of a name. Only a value is written before
/// its message is known.
#[derive(Drop)]
pub enum Receiver {
    Value,
    Own,
    Super,
    Outer(Text),
}

/// The object under the arguments of a send; a private member needs none.
#[tactic(auto, using(ns_gen_draft::specs::laws::Filling::filled_none))]
pub fn put_object(writer: &mut Writer, reach: Reach) -> Result<(), NoMemory>
    ensures { OnOk result (writer.new ≡ with_lines (object_lines (meant_reach reach) []) writer.old) }
{
    match reach {
        Reach::Own => writer.does(Instr::PushSelf),
        Reach::Enclosing(level) => writer.does(Instr::PushOuter(level)),
        Reach::PrivateOf(_) => Ok(()),
    }
}

/// How a send finds its method that reaches this.
pub fn way_of(reach: Reach) -> SendWay
    ensures { way_of result ≡ meant_way (meant_reach reach) }
{
    match reach {
        Reach::PrivateOf(level) => SendWay::PrivateAt(level),
        _ => SendWay::Inner,
    }
}

/// Begins a message to an object: writes what stands under its arguments, and tells how it is sent.
pub fn begin_object(writer: &mut Writer, reach: Reach) -> Result<SendWay, NoMemory>
    ensures lines { OnOk result (writer.new ≡ with_lines (object_lines (meant_reach reach) []) writer.old) }
    ensures way { IfOk result (λ way. way_of way ≡ meant_way (meant_reach reach)) }
{
    put_object(writer, reach)?;
    Ok(way_of(reach))
}

/// Begins a message to a receiver.
#[tactic(auto, using(ns_gen_draft::specs::laws::Filling::filled_none))]
pub fn begin(
    writer: &mut Writer,
    here: &Here<'_>,
    receiver: &Receiver,
    selector: &[u8],
) -> Result<SendWay, NoMemory>
    ensures lines { OnOk result (writer.new ≡ with_lines (begin_lines here.now.scope.now receiver.now selector.now []) writer.old) }
    ensures way { IfOk result (λ way. way_of way ≡ begin_way here.now.scope.now receiver.now selector.now) }
{
    match receiver {
        Receiver::Value => Ok(SendWay::Plain),
        Receiver::Super => Ok(SendWay::Super),
        Receiver::Own => begin_object(writer, reach_self(here.scope, selector)),
        Receiver::Outer(class) => {
            let reach = reach_outer(here.scope, class.bytes(), selector)?;
            begin_object(writer, reach)
        }
    }
}

/// The value of a receiver to which no message is sent.
pub fn put_value(writer: &mut Writer, receiver: &Receiver) -> Result<(), NoMemory>
    ensures { OnOk result (writer.new ≡ with_value receiver.now writer.old) }
{
    match receiver {
        Receiver::Value => Ok(()),
        _ => writer.does(Instr::PushSelf),
    }
}

/// A unary message.
pub fn put_name(
    writer: &mut Writer,
    here: &Here<'_>,
    receiver: &Receiver,
    name: &Named,
) -> Result<(), NoMemory>
    ensures { OnOk result (writer.new ≡ with_message here.now.scope.now receiver.now (name_sent (standing here.now) name.now) no_nodes writer.old) }
{
    let selector = name.text.bytes();
    let way = begin(writer, here, receiver, selector)?;
    writer.sends(way, selector, here.place(name.at), 0)
}

/// Unary messages in turn. What the next message is sent to is their value, if there is one.
pub fn put_names(
    writer: &mut Writer,
    here: &Here<'_>,
    receiver: Receiver,
    names: &[Named],
) -> Result<Receiver, NoMemory>
    ensures put { OnOk result (writer.new ≡ with_names (standing here.now) receiver names.now writer.old) }
    ensures left { IfOk result (λ behind. behind ≡ left receiver names.now) }
{
    let mut receiver = receiver;
    for name in names {
        put_name(writer, here, &receiver, name)?;
        receiver = Receiver::Value;
    }
    Ok(receiver)
}

/// A copy of a receiver that is a value, for a message behind which there is another.
pub fn put_copy(writer: &mut Writer, receiver: &Receiver) -> Result<(), NoMemory>
    ensures { OnOk result (writer.new ≡ with_copy receiver.now writer.old) }
{
    match receiver {
        Receiver::Value => writer.does(Instr::Pick(0)),
        _ => Ok(()),
    }
}

/// The same, where so many messages are left.
#[tactic(auto, using(crate::proofs::Cascaded::copies_some))]
pub fn put_copies(writer: &mut Writer, receiver: &Receiver, left: usize) -> Result<(), NoMemory>
    ensures { OnOk result (writer.new ≡ with_copies left receiver.now writer.old) }
{
    if left == 0 {
        Ok(())
    } else {
        put_copy(writer, receiver)
    }
}

/// Whether several messages go to such a receiver.
pub fn is_repeated(receiver: &Receiver) -> bool
    ensures { result ≡ is_repeated receiver.now }
{
    match receiver {
        Receiver::Value | Receiver::Own => true,
        Receiver::Super | Receiver::Outer(_) => false,
    }
}
