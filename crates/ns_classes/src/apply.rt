//! Making a class: the checks of its superclass in their order, then the charge.

ghost use Rattle.std.specs.Prelude.{◌≡◌, ℕ, ◌≤◌, true, IsTrue, IsSome, IfOk};
ghost use Rattle.ns_world.specs.Heap.{find_cell, is_class, is_superclass, chain_of};
ghost use Rattle.ns_world.specs.Layout.{entries_above};
ghost use Rattle.ns_world.specs.Lawful.{IsLive, IsLawful};
ghost use Rattle.ns_world.specs.Keeping.{IsEnclosed};
ghost use Rattle.ns_world.specs.World.{SameRoom};
ghost use Rattle.ns_classes.specs.Apply.{AppliesClass, class_cell, class_fault, declared_fault, chain_fault, kernel_fault, is_object, Checks};
ghost use Rattle.ns_world.specs.declared.value.Value.TheVariants.{Ref};

use crate::layout::layout;
use ns_code::program::CodeProgram;
use ns_world::cell::NewCell;
use ns_world::value::{KClass, Value};
use ns_world::world::World;

/// Why a class isn't made, in the order in which the causes are tried: its superclass is no class,
/// or a kernel class other than Object; its chain would have 257 declared classes; its cell doesn't
/// fit.
#[derive(Clone, Copy, PartialEq, Eq)]
pub enum MakeFault {
    NotAClass,
    KernelSuper,
    ChainLimit,
    CellLimit,
}

/// A new class of a declaration over a superclass, within the object and the holder that the
/// declaration asks for. After a fault nothing has changed. Takes no memory.
pub fn apply(
    world: &mut World,
    code: &CodeProgram,
    decl: u32,
    encl: Value,
    holder: Value,
    over: Value,
) -> Result<u32, MakeFault>
    requires lawful { IsLawful world.old.world code.now }
    requires live { IsLive world.old.world.cells code.now over }
    requires enclosed { IsEnclosed world.old.world.cells code.now decl encl holder }
    requires room { world.old.world.limits.cells ≤ world.old.cell_room }
    ensures applies { AppliesClass (class_fault world.old.world.cells over) world.old
        (class_cell world.old.world.cells code.now decl encl holder over) result world.new }
    ensures class { IfOk result (λ number. IsTrue (is_class (find_cell world.new.world.cells number))) }
    ensures lawful { IsLawful world.new.world code.now }
    ensures limits { world.new.world.limits ≡ world.old.world.limits }
    ensures room { SameRoom world.old world.new }
{
    make_class(world, code, decl, encl, holder, over)
}

/// The checks, the charge and the making.
fn make_class(
    world: &mut World,
    code: &CodeProgram,
    decl: u32,
    encl: Value,
    holder: Value,
    over: Value,
) -> Result<u32, MakeFault>
    requires lawful { IsLawful world.old.world code.now }
    requires live { (at : ℕ) → over ≡ Ref at → IsSome (find_cell world.old.world.cells at) }
    requires room { world.old.world.limits.cells ≤ world.old.cell_room }
    ensures applies { AppliesClass (class_fault world.old.world.cells over) world.old
        (class_cell world.old.world.cells code.now decl encl holder over) result world.new }
    ensures limits { world.new.world.limits ≡ world.old.world.limits }
    ensures room { SameRoom world.old world.new }
{
    check_superclass(world, over)?;
    let base = base_over(world, code, over);
    match world.make(NewCell::Class {
        decl,
        base,
        encl,
        holder,
        over,
    }) {
        Ok(number) => Ok(number),
        Err(_) => Err(MakeFault::CellLimit),
    }
}

/// The base of a class over a superclass: how many entries the instances of that have.
fn base_over(world: &World, code: &CodeProgram, over: Value) -> u32
    requires lawful { IsLawful world.now.world code.now }
    requires superclass { IsTrue (is_superclass world.now.world.cells over) }
    ensures { result ≡ entries_above world.now.world.cells code.now over }
{
    match over {
        Value::Ref(class) => layout(world, code, class),
        _ => 0,
    }
}

/// Whether a class can be made over this value.
fn check_superclass(world: &World, over: Value) -> Result<(), MakeFault>
    requires { (at : ℕ) → over ≡ Ref at → IsSome (find_cell world.now.world.cells at) }
    ensures { Checks (class_fault world.now.world.cells over) (is_superclass world.now.world.cells over) result }
{
    match over {
        Value::Kernel(class) => check_kernel(class),
        Value::Ref(at) => check_declared(world, at),
        _ => Err(MakeFault::NotAClass),
    }
}

fn check_kernel(class: KClass) -> Result<(), MakeFault>
    ensures { Checks (kernel_fault class) (is_object class) result }
{
    match class {
        KClass::Object => Ok(()),
        KClass::Array => Err(MakeFault::KernelSuper),
    }
}

fn check_declared(world: &World, at: u32) -> Result<(), MakeFault>
    requires { IsSome (find_cell world.now.world.cells at) }
    ensures { Checks (declared_fault world.now.world.cells at) (is_class (find_cell world.now.world.cells at)) result }
{
    if world.is_class(at) {
        check_chain(world, at)
    } else {
        Err(MakeFault::NotAClass)
    }
}

fn check_chain(world: &World, class: u32) -> Result<(), MakeFault>
    requires { IsTrue (is_class (find_cell world.now.world.cells class)) }
    ensures { Checks (chain_fault (chain_of world.now.world.cells class)) true result }
{
    match world.chain(class, 255) {
        Some(_) => Err(MakeFault::ChainLimit),
        None => Ok(()),
    }
}
