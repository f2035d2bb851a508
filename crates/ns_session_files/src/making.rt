//! The applications of a session, made one after another.

ghost use Rattle.std.specs.Prelude.{◌≡◌, ◌≤◌, ◌<◌, ◌+◌, IfOk, IfErr, IsErrOf, Some, map, true, length, string_bytes};
ghost use Rattle.ns_base.specs.Count.{Rose};
ghost use Rattle.ns_base.specs.Files.{Files};
ghost use Rattle.ns_base.specs.Limits.{InRange};
ghost use Rattle.ns_base.specs.Shelf.{OnlyRead};
ghost use Rattle.ns_run_words.specs.Application.{AreApplications, are_few, asked_of, is_application};
ghost use Rattle.ns_run_words.specs.Line.{asked_seen};
ghost use Rattle.ns_run_words.specs.Named.{OfSomeTexts, SomeIsThere};
ghost use Rattle.ns_session_files.specs.Answer.{HasRefusedFile, IsMissingFile, AddsAll};
ghost use Rattle.ns_session_files.specs.Making as spec;
ghost use Rattle.ns_session_files.specs.declared.fault.JointFault.TheVariants.{Memory, Unread};
ghost use Rattle.ns_session.specs.Session.{added};

use crate::fault::JointFault;
use crate::source::code_of;
use ns_base::limits::Limits;
use ns_base::shelf::Shelf;
use ns_facets::row::Grants;
use ns_run_words::application::{Asked, application_of};
use ns_session::fault::AddFault;
use ns_session::session::Session;
use ns_verify::verify::Verified;
use std::alloc::Global;

/// Adds the applications that these words ask for to a session; or tells why the first that is refused can't be made. Each
/// is made before a file of the next is read.
pub fn make_all<S: Shelf>(
    alloc: Global,
    words: &[String],
    lib: bool,
    limits: Limits,
    shelf: &mut S,
    session: &mut Session,
) -> Result<(), JointFault>
    requires range { InRange limits }
    requires asked { AreApplications (map string_bytes words.now) }
    requires room { length session.old.members + length words.now ≤ 16 }
    ensures told { (files : Files) → S.holds shelf.old ≡ Some files →
        AddsAll limits (spec.made_over files lib (map string_bytes words.now)) session.old session.new result }
    ensures texts { OfSomeTexts (spec.files_named (map string_bytes words.now)) (λ texts.
        AddsAll limits (spec.made_by lib (map string_bytes words.now) texts) session.old session.new result) }
    ensures refused { IfErr result HasRefusedFile }
    ensures only_read { OnlyRead S.holds S.misses S.faults S.store_faults shelf.old shelf.new }
    ensures missing { IfErr result (λ why. IsMissingFile why → Rose (S.misses shelf.old) (S.misses shelf.new)) }
    ensures read_fault { IsErrOf result Unread → Rose (S.faults shelf.old) (S.faults shelf.new) }
    ensures read_fault_there { (files : Files) → S.holds shelf.old ≡ Some files → IsErrOf result Unread →
        SomeIsThere files (spec.files_named (map string_bytes words.now)) }
{
    // By a `match`, and not by `?`: the clauses speak of the very fault that was answered.
    match words {
        [] => Ok(()),
        [word, rest @ ..] => match make_one(alloc, word.as_str(), lib, limits, shelf, session) {
            Ok(()) => make_all(alloc, rest, lib, limits, shelf, session),
            Err(why) => Err(why),
        },
    }
}

/// Adds the application that this word asks for.
fn make_one<S: Shelf>(
    alloc: Global,
    word: &str,
    lib: bool,
    limits: Limits,
    shelf: &mut S,
    session: &mut Session,
) -> Result<(), JointFault>
    requires range { InRange limits }
    requires asked { is_application word.now ≡ true }
    requires room { length session.old.members < 16 }
    ensures told { (files : Files) → S.holds shelf.old ≡ Some files →
        AddsAll limits (spec.made_from files lib (asked_of word.now)) session.old session.new result }
    ensures texts { OfSomeTexts (asked_of word.now).names (λ texts. AddsAll limits (spec.made_of lib (asked_of word.now) texts)
        session.old session.new result) }
    ensures count { IfOk result (λ _. length session.new.members ≡ length session.old.members + 1) }
    ensures refused { IfErr result HasRefusedFile }
    ensures only_read { OnlyRead S.holds S.misses S.faults S.store_faults shelf.old shelf.new }
    ensures missing { IfErr result (λ why. IsMissingFile why → Rose (S.misses shelf.old) (S.misses shelf.new)) }
    ensures read_fault { IsErrOf result Unread → Rose (S.faults shelf.old) (S.faults shelf.new) }
    ensures read_fault_there { (files : Files) → S.holds shelf.old ≡ Some files → IsErrOf result Unread →
        SomeIsThere files (asked_of word.now).names }
{
    match application_of(word) {
        Some(asked) => add_asked(alloc, asked, lib, limits, shelf, session),
        None => unreachable!(),
    }
}

/// Adds the application that is asked for.
fn add_asked<S: Shelf>(
    alloc: Global,
    asked: Asked<'_>,
    lib: bool,
    limits: Limits,
    shelf: &mut S,
    session: &mut Session,
) -> Result<(), JointFault>
    requires range { InRange limits }
    requires few { are_few 16 (asked_seen asked).names ≡ true }
    requires room { length session.old.members < 16 }
    ensures told { (files : Files) → S.holds shelf.old ≡ Some files →
        AddsAll limits (spec.made_from files lib (asked_seen asked.entry)) session.old session.new result }
    ensures texts { OfSomeTexts (asked_seen asked.entry).names (λ texts.
        AddsAll limits (spec.made_of lib (asked_seen asked.entry) texts) session.old session.new result) }
    ensures count { IfOk result (λ _. length session.new.members ≡ length session.old.members + 1) }
    ensures refused { IfErr result HasRefusedFile }
    ensures only_read { OnlyRead S.holds S.misses S.faults S.store_faults shelf.old shelf.new }
    ensures missing { IfErr result (λ why. IsMissingFile why → Rose (S.misses shelf.old) (S.misses shelf.new)) }
    ensures read_fault { IsErrOf result Unread → Rose (S.faults shelf.old) (S.faults shelf.new) }
    ensures read_fault_there { (files : Files) → S.holds shelf.old ≡ Some files → IsErrOf result Unread →
        SomeIsThere files (asked_seen asked.entry).names }
{
    // By a `match`, and not by `?`: the clauses speak of the very fault that was answered.
    match code_of(alloc, asked, lib, shelf) {
        Ok(code) => add(code, granted(asked), limits, session),
        Err(why) => Err(why),
    }
}

/// What is asked that an application is granted.
fn granted(asked: Asked<'_>) -> Grants
    ensures { result ≡ spec.granted (asked_seen asked.entry) }
{
    Grants {
        console: asked.console,
        kernel: asked.kernel,
        mirrors: asked.mirrors,
        board: asked.board,
    }
}

/// Adds an application to a session that has room for it.
fn add(
    code: Verified,
    grants: Grants,
    limits: Limits,
    session: &mut Session,
) -> Result<(), JointFault>
    requires range { InRange limits }
    requires room { length session.old.members < 16 }
    ensures added { IfOk result (λ _. session.new ≡ added (record { code = code; grants = grants; limits = limits }) session.old) }
    ensures memory { IfErr result (λ why. why ≡ Memory) }
{
    match session.add(code, grants, limits) {
        Ok(_) => Ok(()),
        Err(AddFault::Memory) => Err(JointFault::Memory),
        Err(AddFault::Full) => unreachable!(),
    }
}
