//! The class of an object, and what is found from it for a send.

ghost use Rattle.std.specs.Prelude.{◌≡◌, All, IfSome};
ghost use Rattle.ns_world.specs.declared.kernel.Start.TheVariants.{Instance};
ghost use Rattle.ns_world.specs.Lawful.{IsLawful, IsLiveValue};
ghost use Rattle.ns_world.specs.Starts.{class_name_of, start_of};
ghost use Rattle.ns_find.specs.Find.{found_from};
ghost use Rattle.ns_find.specs.Memo.{PlaceIsRight};

use ns_base::selector::Sel;
use ns_code::program::CodeProgram;
use ns_find::found::{Found, Sending};
use ns_find::memo::{Memo, find_kept};
use ns_moves::finding::lookups_can_start;
use ns_moves::run::Run;
use ns_moves::targets::class_of;
use ns_world::kernel::{ClassName, Start};
use ns_world::value::Value;
use ns_world::world::World;

/// The class of a value that is an object.
#[inline(always)]
pub fn class_of_object(world: &World, code: &CodeProgram, value: Value) -> Option<u32>
    requires lawful { IsLawful world.now.world code.now }
    requires live { IsLiveValue world.now.world.cells code.now value }
    ensures { IfSome result (λ class. start_of world.now.world.cells value ≡ Instance class) }
{
    lookups_can_start();
    let _code = code;
    match world.start(value) {
        Start::Instance(class) => Some(class),
        _ => None,
    }
}

/// The class of a receiver, by which the site of its send names it: of an object by two words, and of any other value in code of its own.
#[inline(always)]
pub fn name_of_class(world: &World, code: &CodeProgram, receiver: Value) -> ClassName
    requires lawful { IsLawful world.now.world code.now }
    requires live { IsLiveValue world.now.world.cells code.now receiver }
    ensures { result ≡ class_name_of world.now.world.cells receiver }
{
    lookups_can_start();
    match class_of_object(world, code, receiver) {
        Some(class) => world.class_name(Start::Instance(class)),
        None => name_apart(world, code, anew(receiver)),
    }
}

/// The class of any receiver.
#[inline(never)]
fn name_apart(world: &World, code: &CodeProgram, receiver: Value) -> ClassName
    requires lawful { IsLawful world.now.world code.now }
    requires live { IsLiveValue world.now.world.cells code.now receiver }
    ensures { result ≡ class_name_of world.now.world.cells receiver }
{
    class_of(world, code, receiver)
}

/// The same value, written to memory where a call asks for it there: so it needn't stand there on a way that makes no such call.
#[inline(always)]
fn anew(value: Value) -> Value
    ensures { result ≡ value }
{
    match value {
        Value::Ref(at) => Value::Ref(at),
        other => other,
    }
}

/// What a selector finds from that class of an object, by the kept lookups.
#[inline(always)]
pub fn found_in(
    run: &mut Run,
    code: &CodeProgram,
    object: Value,
    class: u32,
    sel: Sel,
    kind: Sending,
) -> Found
    requires lawful { IsLawful run.old.world.world code.now }
    requires object { IsLiveValue run.old.world.world.cells code.now object }
    requires class { start_of run.old.world.world.cells object ≡ Instance class }
    requires kept { All (PlaceIsRight run.old.world.world.cells code.now) run.old.memo }
    ensures found { result ≡ found_from run.old.world.world.cells code.now (start_of run.old.world.world.cells object) sel.0 kind }
    ensures kept { All (PlaceIsRight run.old.world.world.cells code.now) run.new.memo }
    ensures rest { run.new ≡ record run.old { memo = run.new.memo } }
{
    look_in(
        &mut run.world,
        code,
        &mut run.memo,
        object,
        class,
        sel,
        kind,
    )
}

/// The same, in a world and with a memo.
#[inline(always)]
fn look_in(
    world: &mut World,
    code: &CodeProgram,
    memo: &mut Memo,
    object: Value,
    class: u32,
    sel: Sel,
    kind: Sending,
) -> Found
    requires lawful { IsLawful world.old.world code.now }
    requires object { IsLiveValue world.old.world.cells code.now object }
    requires class { start_of world.old.world.cells object ≡ Instance class }
    requires kept { All (PlaceIsRight world.old.world.cells code.now) memo.old }
    ensures found { result ≡ found_from world.old.world.cells code.now (start_of world.old.world.cells object) sel.0 kind }
    ensures kept { All (PlaceIsRight world.old.world.cells code.now) memo.new }
    ensures world { world.new ≡ world.old }
{
    lookups_can_start();
    let _object = object;
    find_kept(world, code, memo, Start::Instance(class), sel, kind)
}
