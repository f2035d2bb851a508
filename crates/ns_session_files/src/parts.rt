//! What is told in parts of applications that have ended.

ghost use Rattle.std.specs.Prelude.{◌≡◌, ◌<◌, map, IfOk, Some, length, slice_get};
ghost use Rattle.ns_session.specs.Member.{MemberView};
ghost use Rattle.ns_session.specs.Rounds.{HaveEnded};
ghost use Rattle.ns_session_files.specs.Joint as spec;

use ns_base::items::Items;
use ns_base::no_memory::NoMemory;
use ns_json::saying::Run;
use ns_run_told::told::told_run;
use ns_session::session::Session;
use std::alloc::Global;

/// What the applications of a session tell in parts, where that is asked for.
pub fn parts_of(
    alloc: Global,
    in_parts: bool,
    session: &Session,
) -> Result<Option<Items<Run>>, NoMemory>
    requires { HaveEnded session.now }
    ensures { IfOk result (λ parts. parts ≡ spec.parts_of in_parts session.now.members) }
{
    if !in_parts {
        return Ok(None);
    }
    let parts = all_parts(alloc, session)?;
    Ok(Some(parts))
}

/// What all of them tell so, in their order.
fn all_parts(alloc: Global, session: &Session) -> Result<Items<Run>, NoMemory>
    requires { HaveEnded session.now }
    ensures { IfOk result (λ parts. parts ≡ map spec.part_of session.now.members) }
{
    let mut parts = Vec::new(alloc);
    'members: for number in 0..session.count() {
        parts.push(part_at(alloc, session, number)?)?;
    }
    Ok(Items::from_vec(parts))
}

/// What the application of that number tells so.
fn part_at(alloc: Global, session: &Session, number: u32) -> Result<Run, NoMemory>
    requires ended { HaveEnded session.now }
    requires there { number < length session.now.members }
    ensures { (member : MemberView) → slice_get session.now.members number ≡ Some member →
        IfOk result (λ part. part ≡ spec.part_of member) }
{
    match session.machine(number) {
        Some(machine) => told_run(alloc, machine),
        None => unreachable!(),
    }
}
