//! The line of JSON that tells what a command says.

ghost use Rattle.std.specs.Prelude.{◌≡◌, ◌∷◌, ◌++◌, [], IfOk, OnOk};
ghost use Rattle.ns_json.specs.Json.{object_text, value_text};
ghost use Rattle.ns_json.specs.Objects.{listed};
ghost use Rattle.ns_json.specs.Report as spec;

use crate::object::Object;
use crate::put::{
    close_object, open_status, put, put_listed, put_numbered, put_objects, put_texted,
};
use crate::saying::{Actor, Fault, Saying, Unanswered};
use ns_base::no_memory::NoMemory;
use ns_base::text::Text;
use std::alloc::Global;

/// The line of JSON that tells what a command says, with its line feed.
pub fn json_of(alloc: Global, saying: &Saying) -> Result<Text, NoMemory>
    ensures { IfOk result (λ line. line ≡ spec.json_of saying.now) }
{
    let mut line = Vec::new(alloc);
    put_saying(&mut line, saying)?;
    put(&mut line, b"\n".as_slice())?;
    Ok(Text::from_vec(line))
}

/// Puts the value that tells what a command says.
#[tactic(auto, unfolding(crate::specs::Json::object_text))]
fn put_saying(out: &mut Vec<u8>, saying: &Saying) -> Result<(), NoMemory>
    ensures { OnOk result (out.new.items ≡ out.old.items ++ value_text (spec.report saying.now)) }
{
    match saying {
        Saying::Ran { run } => run.put_object(out),
        Saying::Session { runs } => put_objects(out, runs.as_slice()),
        Saying::Checked => put_checked(out),
        Saying::Searched { unanswered } => put_searched(out, unanswered.as_slice()),
        Saying::Faulty { faults } => put_faulty(out, faults.as_slice()),
        Saying::Stored { image, bytes } => put_stored(out, image.bytes(), *bytes),
        Saying::Refused { refusal } => refusal.put_object(out),
        Saying::Tested { tests } => tests.put_object(out),
        Saying::Audited { audit } => audit.put_object(out),
        Saying::Acted { actors } => put_acted(out, actors.as_slice()),
    }
}

/// Puts that the files are a program.
fn put_checked(out: &mut Vec<u8>) -> Result<(), NoMemory>
    ensures { OnOk result (out.new.items ≡ out.old.items ++ object_text spec.ok_members) }
{
    open_status(out, "ok")?;
    close_object(out)
}

/// Puts that they are one in which nothing can answer these sends.
fn put_searched(out: &mut Vec<u8>, unanswered: &[Unanswered]) -> Result<(), NoMemory>
    ensures { OnOk result (out.new.items ≡ out.old.items ++ object_text (spec.searched_members unanswered.now)) }
{
    put_status_with(out, "ok", "unanswered", unanswered)
}

/// Puts that they have these static faults.
fn put_faulty(out: &mut Vec<u8>, faults: &[Fault]) -> Result<(), NoMemory>
    ensures { OnOk result (out.new.items ≡ out.old.items ++ object_text (spec.faulty_members faults.now)) }
{
    put_status_with(out, "refused", "faults", faults)
}

/// Puts that so many bytes were stored as an image.
fn put_stored(out: &mut Vec<u8>, image: &[u8], bytes: u64) -> Result<(), NoMemory>
    ensures { OnOk result (out.new.items ≡ out.old.items ++ object_text (spec.stored_members image.now bytes)) }
{
    open_status(out, "stored")?;
    put_texted(out, "image", image)?;
    put_numbered(out, "bytes", bytes)?;
    close_object(out)
}

/// Puts actors that have come to rest.
fn put_acted(out: &mut Vec<u8>, actors: &[Actor]) -> Result<(), NoMemory>
    ensures { OnOk result (out.new.items ≡ out.old.items ++ object_text (spec.acted_members actors.now)) }
{
    put_status_with(out, "acted", "actors", actors)
}

/// Puts an object of a status and an array of that name.
fn put_status_with<T: Object>(
    out: &mut Vec<u8>,
    word: &str,
    name: &str,
    things: &[T],
) -> Result<(), NoMemory>
    ensures { OnOk result (out.new.items ≡ out.old.items ++ object_text (spec.status word.now ∷ listed name.now T.members things.now ∷ [])) }
{
    open_status(out, word)?;
    put_listed(out, name, things)?;
    close_object(out)
}
