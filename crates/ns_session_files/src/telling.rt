//! What is told of applications that have ended.

ghost use Rattle.std.specs.Prelude.{◌≡◌, ◌<◌, ◌++◌, drop, IfOk, Some, OnOk, length, slice_get};
ghost use Rattle.ns_run_code.specs.Machine.{told_at};
ghost use Rattle.ns_run_code.specs.Running.{IsRunStatus};
ghost use Rattle.ns_session_files.specs.Joint.{status_of_all, status_then as status_then_lem, text_from, text_of};
ghost use Rattle.ns_session_files.specs.Stood.{AllStandAlone, runs_at, with_run};
ghost use Rattle.ns_session.specs.Rounds.{HaveEnded};
ghost use Rattle.ns_session.specs.Session.{IsAloneAt};
ghost use Rattle.ns_session.specs.Member.{MemberView};

use crate::joint::Told;
use ns_base::no_memory::NoMemory;
use ns_base::status::Status;
use ns_base::text::Text;
use ns_run_code::code::status_of;
use ns_session::session::Session;
use std::alloc::Global;

/// What is told of the applications from that number on, behind what was told of those before it.
pub fn tell(alloc: Global, session: &Session, number: u32, told: Told) -> Result<Told, NoMemory>
    requires ended { HaveEnded session.now }
    requires run { IsRunStatus told.status }
    ensures out { IfOk result (λ all. all.out ≡ told.out ++ text_from number (runs_at (drop number session.now.members))) }
    ensures status { IfOk result (λ all. all.status ≡ status_then_lem told.status
        (status_of_all (runs_at (drop number session.now.members)))) }
    ensures alone { OnOk result (AllStandAlone (drop number session.now.members)) }
    ensures run { IfOk result (λ all. IsRunStatus all.status) }
{
    if number >= session.count() {
        return Ok(told);
    }
    match tell_one(alloc, session, number, told) {
        Ok(more) => tell(alloc, session, number + 1, more),
        Err(NoMemory) => Err(NoMemory),
    }
}

/// What is told of the application of that number, behind what was told.
fn tell_one(alloc: Global, session: &Session, number: u32, told: Told) -> Result<Told, NoMemory>
    requires ended { HaveEnded session.now }
    requires there { number < length session.now.members }
    requires run { IsRunStatus told.status }
    ensures told { (member : MemberView) → slice_get session.now.members number ≡ Some member →
        IfOk result (λ all. all ≡ with_run number (told_at member.application.code member.state) told) }
    ensures alone { IsAloneAt number session.now }
    ensures run { IfOk result (λ all. IsRunStatus all.status) }
{
    let status = status_at(session, number);
    match (session.transcript(number), session.line(alloc, number)) {
        (Some(transcript), Ok(Some(line))) => {
            let out = with_text(alloc, told.out, number, transcript, line.as_slice())?;
            Ok(Told {
                out,
                status: status_then(told.status, status),
            })
        }
        (_, Err(NoMemory)) => Err(NoMemory),
        _ => unreachable!(),
    }
}

/// The status of the application of that number.
fn status_at(session: &Session, number: u32) -> Status
    requires ended { HaveEnded session.now }
    requires there { number < length session.now.members }
    ensures status { (member : MemberView) → slice_get session.now.members number ≡ Some member →
        result ≡ (told_at member.application.code member.state).status }
    ensures alone { IsAloneAt number session.now }
    ensures run { IsRunStatus result }
{
    match session.ending(number) {
        Some(ending) => status_of(*ending),
        None => unreachable!(),
    }
}

/// The first of two statuses, unless it is Done.
fn status_then(first: Status, other: Status) -> Status
    ensures is { result ≡ status_then_lem first other }
    ensures run { IsRunStatus first → IsRunStatus other → IsRunStatus result }
{
    match first {
        Status::Done => other,
        Status::ProgramError => Status::ProgramError,
        Status::Refused => Status::Refused,
        Status::Limit => Status::Limit,
        Status::ReadFault => Status::ReadFault,
        Status::WriteFault => Status::WriteFault,
        Status::Memory => Status::Memory,
    }
}

/// A text with an application's behind it: its number, what it printed, and its report line.
fn with_text(
    alloc: Global,
    text: Text,
    number: u32,
    transcript: &[u8],
    line: &[u8],
) -> Result<Text, NoMemory>
    ensures { IfOk result (λ all. all ≡ text ++ text_of number transcript.now line.now) }
{
    let head = format!(in alloc; "app {number}\n")?;
    let mut out = text.into_vec()?;
    out.extend_from_slice(head.as_bytes())?;
    out.extend_from_slice(transcript)?;
    out.extend_from_slice(line)?;
    Ok(Text::from_vec(out))
}
