//! Several applications that take turns until all have ended, and what is told of them.

ghost use Rattle.std.specs.Prelude.{◌≡◌, ◌≤◌, IfOk, IfErr, IsErrOf, List, [], Some, map, length, string_bytes};
ghost use Rattle.ns_base.specs.Count.{Rose};
ghost use Rattle.ns_base.specs.Files.{Files};
ghost use Rattle.ns_base.specs.Limits.{InRange};
ghost use Rattle.ns_base.specs.declared.limits.Limits.{Limits as AnyLimits};
ghost use Rattle.ns_base.specs.Shelf.{OnlyRead};
ghost use Rattle.ns_run_code.specs.Running.{IsRunStatus};
ghost use Rattle.ns_session.specs.Play.{opened};
ghost use Rattle.ns_session.specs.Rounds.{HaveEnded};
ghost use Rattle.ns_run_words.specs.Application.{AreApplications};
ghost use Rattle.ns_run_words.specs.Named.{OfSomeTexts, SomeIsThere};
ghost use Rattle.ns_session_files.specs.Answer.{AreAdmitted, HasRefusedFile, IsMissingFile, TellsOfAll};
ghost use Rattle.ns_session_files.specs.Joint as spec;
ghost use Rattle.ns_session_files.specs.Making.{Source, application_of, files_named};
ghost use Rattle.ns_session_files.specs.declared.fault.JointFault.TheVariants.{Memory, Unread};

use crate::fault::JointFault;
use crate::laws::{applications_run_as_their_sources_mean, sessions_keep_their_applications};
use crate::making::make_all;
use crate::parts::parts_of;
use crate::telling::tell;
use ns_base::items::Items;
use ns_base::limits::Limits;
use ns_base::no_memory::NoMemory;
use ns_base::shelf::Shelf;
use ns_base::status::Status;
use ns_base::text::Text;
use ns_json::saying::Run;
use ns_session::robin_laws::sessions_run_as_a_function;
use ns_session::rounds::run_round_robin;
use ns_session::session::Session;
use std::alloc::Global;

/// What is told of all applications: the number, output and report line of each, and their status.
#[derive(Drop)]
pub struct Told {
    pub out: Text,
    pub status: Status,
}

/// What is told of a session, in parts too where that is asked for.
#[derive(Drop)]
pub struct ToldSession {
    pub told: Told,
    pub parts: Option<Items<Run>>,
}

/// The session of the applications that these words ask for, each within these limits: when all are made, they take turns of
/// so many steps until all have ended. What is told of them is told in parts too where that is asked for.
pub fn run_jointly<S: Shelf>(
    alloc: Global,
    words: &[String],
    in_parts: bool,
    lib: bool,
    limits: Limits,
    quantum: u64,
    shelf: &mut S,
) -> Result<ToldSession, JointFault>
    requires range { InRange limits }
    requires quantum { 1 ≤ quantum }
    requires asked { AreApplications (map string_bytes words.now) }
    requires few { length words.now ≤ 16 }
    ensures told { (files : Files) → S.holds shelf.old ≡ Some files → TellsOfAll
        (spec.joint_over files in_parts lib limits quantum (map string_bytes words.now)) result }
    ensures texts { OfSomeTexts (files_named (map string_bytes words.now)) (λ texts.
        TellsOfAll (spec.joint_of in_parts lib limits quantum (map string_bytes words.now) texts) result) }
    ensures status { IfOk result (λ session. IsRunStatus session.told.status) }
    ensures refused { IfErr result HasRefusedFile }
    ensures only_read { OnlyRead S.holds S.misses S.faults S.store_faults shelf.old shelf.new }
    ensures missing { IfErr result (λ why. IsMissingFile why → Rose (S.misses shelf.old) (S.misses shelf.new)) }
    ensures read_fault { IsErrOf result Unread → Rose (S.faults shelf.old) (S.faults shelf.new) }
    ensures read_fault_there { (files : Files) → S.holds shelf.old ≡ Some files → IsErrOf result Unread →
        SomeIsThere files (files_named (map string_bytes words.now)) }
{
    let mut session = Session::new(alloc);
    // By a `match`, and not by `?`: the clauses speak of the very fault that was answered.
    match make_all(alloc, words, lib, limits, shelf, &mut session) {
        Ok(()) => run_all(alloc, in_parts, quantum, session),
        Err(why) => Err(why),
    }
}

/// The turns of all applications of a session, and what is told of them.
fn run_all(
    alloc: Global,
    in_parts: bool,
    quantum: u64,
    session: Session,
) -> Result<ToldSession, JointFault>
    requires { 1 ≤ quantum }
    ensures told { (limits : AnyLimits) (sources : List Source) → InRange limits →
        session ≡ opened (map (application_of limits) sources) → AreAdmitted sources →
        IfOk result (λ session. session ≡ spec.session_told in_parts limits quantum sources) }
    ensures status { IfOk result (λ session. IsRunStatus session.told.status) }
    ensures memory { IfErr result (λ why. why ≡ Memory) }
{
    sessions_run_as_a_function();
    sessions_keep_their_applications();
    applications_run_as_their_sources_mean();
    let mut session = session;
    run_round_robin(&mut session, quantum);
    match tell(alloc, &session, 0, nothing(alloc)) {
        Ok(told) => with_parts(alloc, in_parts, &session, told),
        Err(NoMemory) => Err(JointFault::Memory),
    }
}

/// What was told of a session whose applications have ended, and what they tell in parts where that is asked for.
fn with_parts(
    alloc: Global,
    in_parts: bool,
    session: &Session,
    told: Told,
) -> Result<ToldSession, JointFault>
    requires { HaveEnded session.now }
    ensures told { IfOk result (λ all. all ≡ record { told = told; parts = spec.parts_of in_parts session.now.members }) }
    ensures memory { IfErr result (λ why. why ≡ Memory) }
{
    match parts_of(alloc, in_parts, session) {
        Ok(parts) => Ok(ToldSession { told, parts }),
        Err(NoMemory) => Err(JointFault::Memory),
    }
}

/// Nothing is told yet.
fn nothing(alloc: Global) -> Told
    ensures out { result.out ≡ [] }
    ensures status { result.status ≡ Status.Done }
{
    Told {
        out: Text::from_vec(Vec::new(alloc)),
        status: Status::Done,
    }
}
