//! `<:` of a declared class.

ghost use Rattle.std.specs.Prelude.{◌≡◌, List};
ghost use Rattle.ns_code.specs.declared.program.CodeProgram.{CodeProgram};
ghost use Rattle.ns_world.specs.declared.value.Value.{Value};
ghost use Rattle.ns_world.specs.World.{SameRoom};
ghost use Rattle.ns_world.specs.Lawful.{IsLawful, IsLiveValue};
ghost use Rattle.ns_world.specs.Heap.{Heap};
ghost use Rattle.ns_kernel_rows.specs.Asked.{HasWorldRoom};
ghost use Rattle.ns_kernel_rows.specs.Plain.{IsOfRow};
ghost use Rattle.ns_kernel_rows.specs.Reaching.{ReachesAlone, class_answered};
ghost use Rattle.ns_kernel_rows.specs.Parts.{applied};

use crate::reached::fails;
use ns_classes::apply::{MakeFault, apply};
use ns_code::program::CodeProgram;
use ns_kdata::arguments::shape_of_value;
use ns_moves::control::Reached;
use ns_moves::site::make_fault;
use ns_world::cell::NewCell;
use ns_world::ending::Kind;
use ns_world::value::Value;
use ns_world::world::World;

/// A new class of a mixin's declaration and enclosing object over another superclass; NotAClass
/// where the mixin is no class, or the first check that fails.
#[inline(never)]
pub fn mixed(world: &mut World, code: &CodeProgram, mixin: Value, over: Value) -> Reached
    requires lawful { IsLawful world.old.world code.now }
    requires mixin { IsLiveValue world.old.world.cells code.now mixin }
    requires over { IsLiveValue world.old.world.cells code.now over }
    requires room { HasWorldRoom world.old }
    ensures reached { (values : List Value) → ReachesAlone code.now values (applied code.now mixin over) world.old result world.new }
    ensures limits { world.new.world.limits ≡ world.old.world.limits }
    ensures room { SameRoom world.old world.new }
    ensures row { IsOfRow world.new.world.cells result }
{
    match shape_of_value(world, mixin) {
        NewCell::Class {
            decl,
            encl,
            holder,
            ..
        } => made(apply(world, code, decl, encl, holder, over)),
        _ => fails(Kind::NotAClass),
    }
}

/// A class that was made, or the fault of its making.
#[inline(never)]
fn made(class: Result<u32, MakeFault>) -> Reached
    ensures reached { result ≡ class_answered class }
    ensures row { (heap : Heap) → IsOfRow heap result }
{
    match class {
        Ok(number) => Reached::Gives(Value::Ref(number)),
        Err(fault) => Reached::Fails(make_fault(fault)),
    }
}
