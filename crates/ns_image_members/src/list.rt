//! The listing with members.

ghost use Rattle.std.specs.Prelude.{◌≡◌, ◌++◌, OnOk, IfOk};
ghost use Rattle.ns_image_list.specs.Output.{after};
ghost use Rattle.ns_image_list.specs.Listing.{numbered};
ghost use Rattle.ns_image_members.specs.Members as spec;

use crate::bodies::put_bodies;
use crate::classes::put_classes;
use crate::named::body_names;
use ns_base::no_memory::NoMemory;
use ns_base::selector::Sel;
use ns_code::program::CodeProgram;
use ns_image_list::output::Output;
use ns_image_list::source::Source;
use std::alloc::Global;

/// The lines of each class with its members, and then of each body with its owner, its locals and its instructions, these
/// with the places of sends. A number that names nothing is shown as a question mark. The bytes are counted first, so that
/// room for them is asked for once.
pub fn list_members(alloc: Global, code: &CodeProgram) -> Result<Vec<u8>, NoMemory>
    ensures { IfOk result (λ lines. lines.items ≡ spec.members_listing code.now) }
{
    let names = body_names(alloc, code)?;
    let source = Source::new(alloc, code)?;
    let mut counted = Output::counting(alloc);
    put_members(&mut counted, &source, &names)?;
    let mut lines = Output::with_room(alloc, counted.counted())?;
    put_members(&mut lines, &source, &names)?;
    Ok(lines.into_bytes())
}

fn put_members(out: &mut Output, source: &Source<'_>, names: &[Option<Sel>]) -> Result<(), NoMemory>
    ensures { OnOk result (out.new ≡ after out.old
        (numbered (spec.class_lines source.now) 0 source.now.classes ++ numbered (spec.body_lines source.now names.now) 0 source.now.bodies)) }
{
    put_classes(out, source)?;
    put_bodies(out, source, names)
}
