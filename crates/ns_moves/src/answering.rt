//! From what a send finds to what it comes to.

ghost use Rattle.std.specs.Prelude.{◌≡◌, ◌<◌, All};
ghost use Rattle.ns_base.specs.declared.selector.Sel.{Sel};
ghost use Rattle.ns_code.specs.declared.own.Own.TheVariants.{DoesNotUnderstand};
ghost use Rattle.ns_code.specs.Selector.{own_number};
ghost use Rattle.ns_world.specs.Lawful.{IsLawful, IsLiveValue};
ghost use Rattle.ns_world.specs.Starts.{start_of};
ghost use Rattle.ns_find.specs.declared.found.Sending.TheVariants.{Inner};
ghost use Rattle.ns_find.specs.Find.{found_from};
ghost use Rattle.ns_find.specs.Memo.{PlaceIsRight};
ghost use Rattle.ns_moves.specs.declared.site.Site.{Site};
ghost use Rattle.ns_moves.specs.Bodies.{no_home};
ghost use Rattle.ns_moves.specs.Control.{Activation};
ghost use Rattle.ns_moves.specs.Lawful.{FitsSelector};
ghost use Rattle.ns_moves.specs.Sends as spec;
ghost use Rattle.ns_moves.specs.Suits.{Suits};
ghost use Rattle.ns_moves.specs.Answered.{answered_shown, answered, IsAnswered};
ghost use Rattle.ns_moves.specs.Plain.{IsPlain};
ghost use Rattle.ns_moves.specs.Room.{HasCellRoom, SameRest};
ghost use Rattle.ns_moves.specs.Run.{progress_of, IsReady, KeepsRight};
ghost use Rattle.ns_moves.specs.StatedAnswers.{RunReachesAs, RunAnswersAs};

use crate::control::Reached;
use crate::finding::{entries_are_inside, lookups_can_start, what_is_found_suits};
use crate::run::Run;
use crate::sends::{
    Answered, enter_factory, enter_factory_with_message, enter_method, enter_method_with_message,
    get, nested_in, set, set_with_message,
};
use ns_base::selector::Sel;
use ns_code::program::CodeProgram;
use ns_find::found::{Found, Sending};
use ns_find::memo::{Memo, find_kept};
use ns_world::ending::{Fault, Kind};
use ns_world::value::Value;
use ns_world::world::World;

/// What a selector finds from the start of a receiver, by the kept lookups.
#[inline(always)]
pub fn found_of(
    run: &mut Run,
    code: &CodeProgram,
    receiver: Value,
    sel: Sel,
    kind: Sending,
) -> Found
    requires lawful { IsLawful run.old.world.world code.now }
    requires receiver { IsLiveValue run.old.world.world.cells code.now receiver }
    requires kept { All (PlaceIsRight run.old.world.world.cells code.now) run.old.memo }
    ensures found { result ≡ found_from run.old.world.world.cells code.now (start_of run.old.world.world.cells receiver) sel.0 kind }
    ensures kept { All (PlaceIsRight run.old.world.world.cells code.now) run.new.memo }
    ensures rest { run.new ≡ record run.old { memo = run.new.memo } }
{
    look(&mut run.world, code, &mut run.memo, receiver, sel, kind)
}

/// The same, in a world and with a memo.
#[inline(always)]
fn look(
    world: &mut World,
    code: &CodeProgram,
    memo: &mut Memo,
    receiver: Value,
    sel: Sel,
    kind: Sending,
) -> Found
    requires lawful { IsLawful world.old.world code.now }
    requires receiver { IsLiveValue world.old.world.cells code.now receiver }
    requires kept { All (PlaceIsRight world.old.world.cells code.now) memo.old }
    ensures found { result ≡ found_from world.old.world.cells code.now (start_of world.old.world.cells receiver) sel.0 kind }
    ensures kept { All (PlaceIsRight world.old.world.cells code.now) memo.new }
    ensures world { world.new ≡ world.old }
{
    lookups_can_start();
    let start = world.start(receiver);
    find_kept(world, code, memo, start, sel, kind)
}

/// What is done with a member that was found, with the arguments as they stand.
#[inline(always)]
pub fn done_with(
    run: &mut Run,
    code: &CodeProgram,
    found: Found,
    receiver: Value,
    values: &[Value],
) -> Answered
    requires lawful { IsLawful run.old.world.world code.now }
    requires room { HasCellRoom run.old.world }
    requires begun { run.old.begun < no_home }
    requires suits { Suits run.old.world.world.cells code.now receiver found }
    ensures answered { (site : Site) (sel : Sel) →
        answered_shown code.now sel receiver site values.now result (progress_of run.new)
        ≡ spec.done_with code.now found sel receiver (spec.Listed values.now) site (progress_of run.old) }
    ensures member { IsAnswered found run.old.world result run.new.world }
    ensures rest { SameRest run.old.world run.new.world }
    ensures memo { run.new.memo ≡ run.old.memo }
{
    entries_are_inside();
    match found {
        Found::Method { body, holder } => {
            Answered::Comes(enter_method(run, code, body, holder, receiver, values))
        }
        Found::Getter { word, .. } => Answered::Comes(get(&mut run.world, receiver, word)),
        Found::Setter { word, .. } => {
            Answered::Comes(set(&mut run.world, receiver, word, values))
        }
        Found::Nested { class, holder } => {
            Answered::Comes(nested_in(&mut run.world, code, receiver, holder, class))
        }
        Found::Factory { class } => {
            Answered::Comes(enter_factory(&mut run.world, code, class, values))
        }
        Found::Kernel(number) => Answered::Row(number),
        Found::NotPublic => Answered::Comes(Reached::Fails(Fault::Kind(Kind::NotPublic))),
        Found::Absent => Answered::Comes(Reached::Fails(Fault::Kind(Kind::NotUnderstood))),
    }
}

/// How a send goes on that found nothing: as `doesNotUnderstand:` with a Message, by what that
/// finds; it isn't understood where that is the kernel's row.
#[inline(never)]
fn not_found(
    run: &mut Run,
    code: &CodeProgram,
    found: Found,
    sel: Sel,
    receiver: Value,
    values: &[Value],
) -> Reached
    requires lawful { IsLawful run.old.world.world code.now }
    requires room { HasCellRoom run.old.world }
    requires begun { run.old.begun < no_home }
    requires suits { Suits run.old.world.world.cells code.now receiver found }
    requires selector { FitsSelector run.old.world.world.cells code.now sel values.now }
    ensures reached { RunReachesAs code.now values.now result run.old run.new (spec.not_found code.now found sel receiver values.now) }
    ensures rest { SameRest run.old.world run.new.world }
    ensures memo { run.new.memo ≡ run.old.memo }
    ensures plain { IsPlain result }
{
    entries_are_inside();
    match found {
        Found::Method { body, holder } => {
            enter_method_with_message(run, code, body, holder, receiver, sel, values)
        }
        Found::Getter { word, .. } => get(&mut run.world, receiver, word),
        Found::Setter { word, .. } => {
            set_with_message(&mut run.world, code, receiver, word, sel, values)
        }
        Found::Nested { class, holder } => {
            nested_in(&mut run.world, code, receiver, holder, class)
        }
        Found::Factory { class } => {
            enter_factory_with_message(&mut run.world, code, class, sel, values)
        }
        Found::Kernel(_) => Reached::Fails(Fault::Kind(Kind::NotUnderstood)),
        Found::NotPublic => Reached::Fails(Fault::Kind(Kind::NotPublic)),
        Found::Absent => Reached::Fails(Fault::Kind(Kind::NotUnderstood)),
    }
}

/// The same from its lookup on, by the number of `doesNotUnderstand:`.
#[inline(never)]
fn not_understood(
    run: &mut Run,
    code: &CodeProgram,
    own: Sel,
    sel: Sel,
    receiver: Value,
    values: &[Value],
) -> Reached
    requires ready { IsReady code.now run.old }
    requires kept { KeepsRight code.now run.old }
    requires own { own.0 ≡ own_number code.now DoesNotUnderstand }
    requires receiver { IsLiveValue run.old.world.world.cells code.now receiver }
    requires selector { FitsSelector run.old.world.world.cells code.now sel values.now }
    ensures reached { RunReachesAs code.now values.now result run.old run.new (spec.not_understood code.now sel receiver values.now) }
    ensures rest { SameRest run.old.world run.new.world }
    ensures kept { All (PlaceIsRight run.old.world.world.cells code.now) run.new.memo }
    ensures plain { IsPlain result }
{
    what_is_found_suits();
    let found = found_of(run, code, receiver, own, Sending::Inner);
    not_found(run, code, found, sel, receiver, values)
}

/// What a send comes to with what it found, by the number of `doesNotUnderstand:`.
#[inline(always)]
pub fn answered_by(
    run: &mut Run,
    code: &CodeProgram,
    own: Sel,
    found: Found,
    sel: Sel,
    receiver: Value,
    values: &[Value],
) -> Answered
    requires ready { IsReady code.now run.old }
    requires kept { KeepsRight code.now run.old }
    requires own { own.0 ≡ own_number code.now DoesNotUnderstand }
    requires receiver { IsLiveValue run.old.world.world.cells code.now receiver }
    requires selector { FitsSelector run.old.world.world.cells code.now sel values.now }
    requires suits { Suits run.old.world.world.cells code.now receiver found }
    ensures answered { RunAnswersAs code.now sel receiver values.now result run.old run.new
        (spec.answered_by code.now found sel receiver values.now) }
    ensures member { IsAnswered found run.old.world result run.new.world }
    ensures rest { SameRest run.old.world run.new.world }
    ensures kept { All (PlaceIsRight run.old.world.world.cells code.now) run.new.memo }
{
    match found {
        Found::Absent => { Answered::Comes(not_understood(run, code, own, sel, receiver, values)) }
        _ => done_with(run, code, found, receiver, values),
    }
}

/// A send to a value whose step is charged: its lookup, and what it comes to.
#[inline(always)]
pub fn send(
    run: &mut Run,
    code: &CodeProgram,
    own: Sel,
    receiver: Value,
    kind: Sending,
    sel: Sel,
    values: &[Value],
) -> Answered
    requires ready { IsReady code.now run.old }
    requires kept { KeepsRight code.now run.old }
    requires own { own.0 ≡ own_number code.now DoesNotUnderstand }
    requires receiver { IsLiveValue run.old.world.world.cells code.now receiver }
    requires selector { FitsSelector run.old.world.world.cells code.now sel values.now }
    ensures answered { (site : Site) (activation : Activation) →
        answered_shown code.now sel receiver site values.now result (progress_of run.new)
        ≡ answered code.now activation (spec.To receiver kind) sel values.now site (progress_of run.old) }
    ensures member { IsAnswered (found_from run.old.world.world.cells code.now (start_of run.old.world.world.cells receiver) sel.0 kind)
        run.old.world result run.new.world }
    ensures rest { SameRest run.old.world run.new.world }
    ensures kept { All (PlaceIsRight run.old.world.world.cells code.now) run.new.memo }
{
    what_is_found_suits();
    let found = found_of(run, code, receiver, sel, kind);
    answered_by(run, code, own, found, sel, receiver, values)
}
