//! What is told of actors: the text of each, and whether one has stopped.

ghost use Rattle.std.specs.Prelude.{◌≡◌, ◌++◌, slice_get, option_map, IfOk, OnOk};
ghost use Rattle.ns_actors.specs.Rounds as spec;
ghost use Rattle.ns_actors_rounds.specs.Told.{printed_text, report_text, taken_text, text_at, why_text};

use ns_actors::told::Acted;
use ns_actors::turn::Stop;
use ns_actors_calls::actors::Actors;
use ns_base::no_memory::NoMemory;
use ns_base::status::Status;
use ns_base::text::Text;
use ns_machine_report::output::put;
use std::alloc::Global;

/// What is told of actors, with these names of the files of their code.
pub fn told_of(alloc: Global, actors: &Actors, files: &[Text]) -> Result<Acted, NoMemory>
    ensures { IfOk result (λ told. told ≡ spec.told_of files.now actors.now) }
{
    let out = text_of(alloc, actors, files)?;
    Ok(Acted {
        out: Text::from_vec(out),
        status: status_of(actors),
    })
}

/// The texts of all actors.
fn text_of(alloc: Global, actors: &Actors, files: &[Text]) -> Result<Vec<u8>, NoMemory>
    ensures { IfOk result (λ text. text.items ≡ spec.text_from files.now 0 actors.now.actors) }
{
    let mut text = Vec::new(alloc);
    'actors: for number in 0..actors.count() {
        put_actor(alloc, &mut text, actors, number, files)?;
    }
    Ok(text)
}

/// Puts the text of an actor: its number and how many letters it has taken, what it printed, and why it stopped if it did.
fn put_actor(
    alloc: Global,
    text: &mut Vec<u8>,
    actors: &Actors,
    number: u32,
    files: &[Text],
) -> Result<(), NoMemory>
    ensures { OnOk result (text.new.items ≡ text.old.items ++ text_at files.now number (slice_get actors.now.actors number)) }
{
    put_taken(alloc, text, number, actors.taken(number))?;
    put_printed(text, actors.transcript(number))?;
    let report = actors.report(alloc, number, files)?;
    put_why(text, actors.stopped(number), report)?;
    Ok(())
}

/// Puts the number of an actor and how many letters it has taken, if it is there.
fn put_taken(
    alloc: Global,
    text: &mut Vec<u8>,
    number: u32,
    taken: Option<u64>,
) -> Result<(), NoMemory>
    ensures { OnOk result (text.new.items ≡ text.old.items ++ taken_text number taken) }
{
    match taken {
        Some(taken) => {
            let line = format!(in alloc; "actor {number} taken {taken}\n")?;
            put(text, line.as_bytes())
        }
        None => Ok(()),
    }
}

/// Puts what an actor has printed, if it is there.
fn put_printed(text: &mut Vec<u8>, printed: Option<&[u8]>) -> Result<(), NoMemory>
    ensures { OnOk result (text.new.items ≡ text.old.items ++ printed_text (option_map (λ bytes. bytes.now) printed.entry)) }
{
    match printed {
        Some(bytes) => put(text, bytes),
        None => Ok(()),
    }
}

/// Puts why an actor stopped, if it did: its report line, if it has one.
fn put_why(text: &mut Vec<u8>, why: Option<Stop>, report: Option<Vec<u8>>) -> Result<(), NoMemory>
    ensures { OnOk result (text.new.items ≡ text.old.items ++ why_text why (option_map (λ bytes. bytes.items) report)) }
{
    match why {
        Some(_) => put_report(text, report),
        None => Ok(()),
    }
}

/// Puts that an actor stopped, and its report line, if it has one.
fn put_report(text: &mut Vec<u8>, report: Option<Vec<u8>>) -> Result<(), NoMemory>
    ensures { OnOk result (text.new.items ≡ text.old.items ++ report_text (option_map (λ bytes. bytes.items) report)) }
{
    put(text, b"stopped: ".as_slice())?;
    match report {
        Some(line) => put(text, line.as_slice()),
        None => put(text, b"outbox\n".as_slice()),
    }
}

/// An error of the program where an actor has stopped.
fn status_of(actors: &Actors) -> Status
    ensures { result ≡ spec.status_of actors.now.actors }
{
    'actors: for number in 0..actors.count() {
        match actors.stopped(number) {
            Some(_) => return Status::ProgramError,
            None => {}
        }
    }
    Status::Done
}
