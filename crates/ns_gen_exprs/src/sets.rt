//! Names that are set to the value that lies on top, which stays there.

ghost use Rattle.std.specs.Prelude.{◌≡◌, OnOk};
ghost use Rattle.ns_scope.specs.Resolve.{resolve};
ghost use Rattle.ns_gen_draft.specs.Standing.{standing};
ghost use Rattle.ns_gen_exprs.specs.Sending.{meant_reach};
ghost use Rattle.ns_gen_exprs.specs.Setting.{with_setter, with_set, with_sets, setter_reach, setter_sent, below};
ghost use Rattle.ns_resolved.specs.Expressions.{sent_at};

use crate::reach::{Reach, reach_of};
use crate::receiver::begin_object;
use ns_base::no_memory::NoMemory;
use ns_base::text::Text;
use ns_code::instruction::Instr;
use ns_gen_draft::here::Here;
use ns_gen_draft::keys::{byte, setter_of};
use ns_gen_draft::writer::Writer;
use ns_scope::resolve::Target;
use ns_tree::tree::Named;

/// Sets names, the last first.
pub fn put_sets(writer: &mut Writer, here: &Here<'_>, names: &[Named]) -> Result<(), NoMemory>
    ensures { OnOk result (writer.new ≡ with_sets (standing here.now) names.now writer.old) }
{
    let mut left = names.len();
    'names: while left > 0 {
        left -= 1;
        put_set(writer, here, &names[left])?;
    }
    Ok(())
}

/// Sets a local, or sends a setter.
fn put_set(writer: &mut Writer, here: &Here<'_>, name: &Named) -> Result<(), NoMemory>
    ensures { OnOk result (writer.new ≡ with_set (standing here.now) name.now (resolve here.now.scope.now name.now.text) writer.old) }
{
    match here.resolve(name.text.bytes()) {
        Target::Local { hops, index } => {
            let local = Instr::StoreLocal {
                hops: byte(hops)?,
                index: byte(index)?,
            };
            writer.does(local)
        }
        _ => put_name_setter(writer, here, name),
    }
}

/// Sends the setter of a name to what it reaches.
fn put_name_setter(writer: &mut Writer, here: &Here<'_>, name: &Named) -> Result<(), NoMemory>
    ensures { OnOk result (writer.new ≡ with_setter (setter_reach (standing here.now) name.now) (setter_sent (standing here.now) name.now) writer.old) }
{
    let setter = setter_of(writer.alloc(), &name.text)?;
    let reach = reach_of(here.resolve(setter.bytes()))?;
    put_setter(writer, here, reach, &setter, name.at)
}

/// Sends a setter a copy of the value, and drops its answer.
#[tactic(auto, using(crate::proofs::Setting::setter_put))]
fn put_setter(
    writer: &mut Writer,
    here: &Here<'_>,
    reach: Reach,
    setter: &Text,
    at: u32,
) -> Result<(), NoMemory>
    ensures { OnOk result (writer.new ≡ with_setter (meant_reach reach) (sent_at (standing here.now) setter.now at) writer.old) }
{
    let way = begin_object(writer, reach)?;
    writer.does(Instr::Pick(below(reach)))?;
    writer.sends(way, setter.bytes(), here.place(at), 1)?;
    writer.does(Instr::Pop)
}

/// How far below the top the value lies that a setter is sent.
fn below(reach: Reach) -> u8
    ensures { result ≡ below reach }
{
    match reach {
        Reach::PrivateOf(_) => 0,
        _ => 1,
    }
}
