//! What a send of running code finds that isn't looked up from its receiver's own start, and the
//! class of a receiver.

ghost use Rattle.std.specs.Prelude.{◌≡◌, All, IsSome};
ghost use Rattle.ns_code.specs.declared.own.Own.TheVariants.{DoesNotUnderstand};
ghost use Rattle.ns_code.specs.Selector.{own_number};
ghost use Rattle.ns_world.specs.Lawful.{IsLawful, IsLiveValue};
ghost use Rattle.ns_world.specs.Starts.{class_name_of};
ghost use Rattle.ns_find.specs.Memo.{PlaceIsRight};
ghost use Rattle.ns_find.specs.declared.found.Sending.TheVariants.{Inner};
ghost use Rattle.ns_find.specs.Find.{found_from, side_of, super_start as start_above};
ghost use Rattle.ns_moves.specs.Bodies as bodies;
ghost use Rattle.ns_moves.specs.Lawful.{FitsActivation, FitsSelector, declaration_at};
ghost use Rattle.ns_moves.specs.Sends as spec;
ghost use Rattle.ns_moves.specs.Answered.{answered, IsAnswered};
ghost use Rattle.ns_moves.specs.Room.{SameRest};
ghost use Rattle.ns_moves.specs.Run.{IsReady, KeepsRight};
ghost use Rattle.ns_moves.specs.Running.{activation_at, code_of};
ghost use Rattle.ns_moves.specs.StatedAnswers.{RunAnswersAs};

use crate::answering::answered_by;
use crate::enclosing::enclosing;
use crate::finding::{enclosing_objects_are_there, lookups_can_start, what_is_found_suits};
use crate::run::Run;
use crate::running::{Running, is_on_class_side};
use crate::sends::Answered;
use ns_base::selector::Sel;
use ns_code::program::CodeProgram;
use ns_find::find::{find_private, super_start};
use ns_find::found::{Found, Sending};
use ns_find::memo::{Memo, find_kept};
use ns_world::kernel::ClassName;
use ns_world::value::Value;
use ns_world::world::World;

/// The class of a receiver, by which the site of its send names it.
#[inline(always)]
pub fn class_of(world: &World, code: &CodeProgram, receiver: Value) -> ClassName
    requires lawful { IsLawful world.now.world code.now }
    requires live { IsLiveValue world.now.world.cells code.now receiver }
    ensures { result ≡ class_name_of world.now.world.cells receiver }
{
    lookups_can_start();
    let _code = code;
    let start = world.start(receiver);
    world.class_name(start)
}

/// What a selector finds above the holder of running code, on its side.
#[inline]
fn found_above(
    world: &mut World,
    code: &CodeProgram,
    memo: &mut Memo,
    running: Running,
    sel: Sel,
) -> Found
    requires lawful { IsLawful world.old.world code.now }
    requires running { FitsActivation world.old.world.cells code.now (code_of running) }
    requires kept { All (PlaceIsRight world.old.world.cells code.now) memo.old }
    ensures found { result ≡ found_from world.old.world.cells code.now
        (start_above world.old.world.cells running.holder (bodies.side_of_body code.now running.body)) sel.0 Inner }
    ensures kept { All (PlaceIsRight world.old.world.cells code.now) memo.new }
    ensures world { world.new ≡ world.old }
{
    enclosing_objects_are_there();
    let start = super_start(world, running.holder, is_on_class_side(code, running.body));
    find_kept(world, code, memo, start, sel, Sending::Inner)
}

/// A send to super whose step is charged: its lookup, and what it comes to.
#[inline]
pub fn send_super(
    run: &mut Run,
    code: &CodeProgram,
    own: Sel,
    running: Running,
    sel: Sel,
    values: &[Value],
) -> Answered
    requires ready { IsReady code.now run.old }
    requires kept { KeepsRight code.now run.old }
    requires own { own.0 ≡ own_number code.now DoesNotUnderstand }
    requires running { FitsActivation run.old.world.world.cells code.now (code_of running) }
    requires selector { FitsSelector run.old.world.world.cells code.now sel values.now }
    ensures answered { RunAnswersAs code.now sel running.me values.now result run.old run.new
        (λ site. answered code.now (activation_at site running) spec.ToSuper sel values.now site) }
    ensures member { IsAnswered (spec.found_at run.old.world.world.cells code.now (code_of running) spec.ToSuper
        sel.0) run.old.world result run.new.world }
    ensures rest { SameRest run.old.world run.new.world }
    ensures kept { All (PlaceIsRight run.old.world.world.cells code.now) run.new.memo }
{
    what_is_found_suits();
    let found = found_above(&mut run.world, code, &mut run.memo, running, sel);
    answered_by(run, code, own, found, sel, running.me, values)
}

/// What a private send finds, and its receiver.
#[derive(Clone, Copy)]
struct Private {
    found: Found,
    receiver: Value,
}

/// The private member of a declaration around running code, and its object.
fn private_at(world: &World, code: &CodeProgram, running: Running, level: u8, sel: Sel) -> Private
    requires lawful { IsLawful world.now.world code.now }
    requires running { FitsActivation world.now.world.cells code.now (code_of running) }
    requires level { IsSome (declaration_at code.now running.body level) }
    ensures found { result.found ≡ spec.found_at world.now.world.cells code.now (code_of running) (spec.ToPrivate level) sel.0 }
    ensures receiver { result.receiver ≡ spec.receiver_of world.now.world.cells (code_of running) (spec.ToPrivate level) }
{
    enclosing_objects_are_there();
    let place = enclosing(world, code, running, level);
    let class_side = is_side_at(code, running, level);
    let found = find_private(world, code, place.holder, class_side, sel);
    Private {
        found,
        receiver: place.object,
    }
}

/// Whether the members of the class side count at a level: only those of the code itself may.
fn is_side_at(code: &CodeProgram, running: Running, level: u8) -> bool
    ensures { bodies.side_at code.now (code_of running) level ≡ side_of result }
{
    match level {
        0 => is_on_class_side(code, running.body),
        _ => false,
    }
}

/// The same, of a world that may change later.
fn found_private(
    world: &mut World,
    code: &CodeProgram,
    running: Running,
    level: u8,
    sel: Sel,
) -> Private
    requires lawful { IsLawful world.old.world code.now }
    requires running { FitsActivation world.old.world.cells code.now (code_of running) }
    requires level { IsSome (declaration_at code.now running.body level) }
    ensures found { result.found ≡ spec.found_at world.old.world.cells code.now (code_of running) (spec.ToPrivate level) sel.0 }
    ensures receiver { result.receiver ≡ spec.receiver_of world.old.world.cells (code_of running) (spec.ToPrivate level) }
    ensures world { world.new ≡ world.old }
{
    private_at(world, code, running, level, sel)
}

/// A private send whose step is charged: its lookup, and what it comes to.
pub fn send_private(
    run: &mut Run,
    code: &CodeProgram,
    own: Sel,
    running: Running,
    level: u8,
    sel: Sel,
    values: &[Value],
) -> Answered
    requires ready { IsReady code.now run.old }
    requires kept { KeepsRight code.now run.old }
    requires own { own.0 ≡ own_number code.now DoesNotUnderstand }
    requires running { FitsActivation run.old.world.world.cells code.now (code_of running) }
    requires level { IsSome (declaration_at code.now running.body level) }
    requires selector { FitsSelector run.old.world.world.cells code.now sel values.now }
    ensures answered { RunAnswersAs code.now sel (spec.receiver_of run.old.world.world.cells (code_of running) (spec.ToPrivate level))
        values.now result
        run.old run.new (λ site. answered code.now (activation_at site running) (spec.ToPrivate level) sel values.now site) }
    ensures member { IsAnswered (spec.found_at run.old.world.world.cells code.now (code_of running) (spec.ToPrivate level) sel.0)
        run.old.world result run.new.world }
    ensures rest { SameRest run.old.world run.new.world }
    ensures kept { All (PlaceIsRight run.old.world.world.cells code.now) run.new.memo }
{
    what_is_found_suits();
    enclosing_objects_are_there();
    let member = found_private(&mut run.world, code, running, level, sel);
    answered_by(run, code, own, member.found, sel, member.receiver, values)
}
