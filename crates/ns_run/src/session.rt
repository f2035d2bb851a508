//! The session of several applications, and its report.

ghost use Rattle.std.specs.Prelude.{◌≡◌, ◌≤◌, map, IfOk, IsErrOf, length, option_map, string_bytes};
ghost use Rattle.ns_base.specs.Limits.{InRange};
ghost use Rattle.ns_json.specs.declared.saying.Saying.TheVariants as said;
ghost use Rattle.ns_session_files.specs.Answer.{HasRefusedFile, RefusesAs};
ghost use Rattle.ns_session_files.specs.Making.{files_named};
ghost use Rattle.ns_run.specs.Meaning as spec;
ghost use Rattle.ns_run_outcome.specs.Stated.{Reports};
ghost use Rattle.ns_run_words.specs.Application.{AreApplications};
ghost use Rattle.ns_session_files.specs.declared.fault.JointFault.TheVariants.{Unread};

use ns_base::items::Items;
use ns_base::limits::Limits;
use ns_base::shelf::Shelf;
use ns_base::text::Text;
use ns_json::saying::{Run, Saying};
use ns_run_files::files::{name_of, on_cause, on_static_fault};
use ns_run_outcome::cause::size_name;
use ns_run_outcome::report::{Report, refused_size};
use ns_run_outcome::stop::{Stop, or_stop};
use ns_session_files::fault::JointFault;
use ns_session_files::joint::{ToldSession, run_jointly};
use std::alloc::Global;

/// The report of the session of the applications that these words ask for, which is told in parts too where that is asked for.
pub fn on_session<S: Shelf>(
    alloc: Global,
    in_parts: bool,
    lib: bool,
    limits: Limits,
    quantum: u64,
    words: &[String],
    shelf: &mut S,
) -> Result<Report, Stop>
    requires range { InRange limits }
    requires quantum { 1 ≤ quantum }
    requires asked { AreApplications (map string_bytes words.now) }
    requires few { length words.now ≤ 16 }
    ensures { Reports S.holds S.misses S.faults S.store_faults shelf.old shelf.new
        (files_named (map string_bytes words.now)) (spec.of_session in_parts lib limits quantum (map string_bytes words.now)) result }
{
    match run_jointly(alloc, words, in_parts, lib, limits, quantum, shelf) {
        Ok(session) => Ok(told_jointly(alloc, session)),
        Err(why) => on_refusal(alloc, why),
    }
}

/// The report of a session that has told so.
fn told_jointly(alloc: Global, session: ToldSession) -> Report
    ensures { result ≡ spec.told_jointly session }
{
    let ToldSession { told, parts } = session;
    Report {
        out: told.out,
        err: Text::from_vec(Vec::new(alloc)),
        status: told.status,
        stored: None,
        said: said_of(parts),
    }
}

/// What is said of the runs of a session, where they are told in parts.
fn said_of(parts: Option<Items<Run>>) -> Option<Saying>
    ensures { result ≡ option_map said.Session parts }
{
    match parts {
        Some(runs) => Some(Saying::Session { runs }),
        None => None,
    }
}

/// The report of a session that was refused.
fn on_refusal(alloc: Global, why: JointFault) -> Result<Report, Stop>
    requires { HasRefusedFile why }
    ensures told { IfOk result (λ r. RefusesAs (λ refusal. r ≡ spec.of_refusal refusal) why) }
    ensures read_fault { IsErrOf result Stop.ReadFault → why ≡ Unread }
{
    match why {
        JointFault::Unread => Err(Stop::ReadFault),
        JointFault::Unloaded { names, cause, file } => {
            on_cause(alloc, name_of(names.as_slice(), file as usize), cause)
        }
        JointFault::Unchecked {
            names,
            place,
            cause,
        } => { or_stop(on_static_fault(alloc, names.as_slice(), place, cause)) }
        JointFault::TooLarge(kind) => or_stop(refused_size(alloc, size_name(kind))),
        JointFault::Memory => Err(Stop::Memory),
    }
}
