//! Looking a selector up: the first member of that name decides, unless it is private.

ghost use Rattle.std.specs.Prelude.{◌≡◌, ◌≤◌, ◌++◌, true, length, slice_get, Some, IsTrue};
ghost use Rattle.ns_world.specs.Heap.{find_cell, is_class, chain_of, is_chain_start};
ghost use Rattle.ns_world.specs.Lawful.{IsLawful};
ghost use Rattle.ns_world.specs.Layout.{declaration_of};
ghost use Rattle.ns_find.specs.Members as spec;
ghost use Rattle.ns_find.specs.Find.{found_from, found_private, class_side_members, members_from, is_start, side_of, super_start};
ghost use Rattle.ns_find.specs.declared.members.Wanted.TheVariants.{Visible};
ghost use Rattle.ns_find.specs.declared.members.Side.TheVariants as side_is;
ghost use Rattle.ns_world.specs.declared.kernel.Start.TheVariants as start_is;

use crate::found::{Found, Sending};
use crate::kernel::row_named;
use crate::members::{Asked, Side, Wanted, method, nested, slots};
use crate::passing::{next_stop, stop_at_declaring};
use ns_base::selector::Sel;
use ns_code::class::ClassCode;
use ns_code::program::CodeProgram;
use ns_world::kernel::Start;
use ns_world::kernel_class::KernelRow;
use ns_world::world::World;

/// The most classes that a code declares.
const MOST_CLASSES: usize = 4_096;

/// What a selector finds from a start: the first member of that name that isn't private, or a
/// row of the kernel, or nothing.
#[inline(never)]
pub fn find(world: &World, code: &CodeProgram, start: Start, sel: Sel, kind: Sending) -> Found
    requires lawful { IsLawful world.now.world code.now }
    requires start { IsTrue (is_start world.now.world.cells start) }
    ensures { result ≡ found_from world.now.world.cells code.now start sel.0 kind }
{
    let asked = Asked {
        sel,
        kind,
        wanted: Wanted::Visible,
    };
    from(world, code, start, asked).unwrap_or(Found::Absent)
}

/// The private member of that name of a holder's declaration, on one of its sides.
#[inline(never)]
pub fn find_private(
    world: &World,
    code: &CodeProgram,
    holder: u32,
    class_side: bool,
    sel: Sel,
) -> Found
    requires lawful { IsLawful world.now.world code.now }
    requires holder { IsTrue (is_class (find_cell world.now.world.cells holder)) }
    ensures { result ≡ found_private world.now.world.cells code.now holder (side_of class_side) sel.0 }
{
    let asked = Asked {
        sel,
        kind: Sending::Inner,
        wanted: Wanted::Private,
    };
    of_holder(world, code, holder, side_of(class_side), asked).unwrap_or(Found::Absent)
}

/// Where a send to `super` starts: above the holder of the running code, on its side, and on a class
/// side without a factory.
#[inline(never)]
pub fn super_start(world: &World, holder: u32, class_side: bool) -> Start
    requires { IsTrue (is_class (find_cell world.now.world.cells holder)) }
    ensures above { result ≡ super_start world.now.world.cells holder (side_of class_side) }
    ensures start { IsTrue (is_start world.now.world.cells result) }
{
    let class = world.superclass(holder);
    match side_of(class_side) {
        Side::Instance => Start::Instance(class),
        Side::Class => Start::ClassSide {
            class,
            factory: false,
        },
    }
}

#[inline(never)]
fn side_of(class_side: bool) -> Side
    ensures { result ≡ side_of class_side }
{
    if class_side {
        Side::Class
    } else {
        Side::Instance
    }
}

#[inline(never)]
fn from(world: &World, code: &CodeProgram, start: Start, asked: Asked) -> Option<Found>
    requires lawful { IsLawful world.now.world code.now }
    requires start { IsTrue (is_start world.now.world.cells start) }
    requires visible { asked.wanted ≡ Visible }
    ensures { result ≡ spec.search code.now asked.sel.0 asked.kind (members_from world.now.world.cells code.now start) }
{
    match start {
        Start::Instance(class) => from_instance(world, code, class, asked),
        Start::ClassSide { class, factory } => from_class(world, code, class, factory, asked),
        Start::Kernel(row) => from_kernel(world, code, row, asked),
    }
}

#[inline(never)]
#[tactic(auto, using(crate::proofs::Parts::search_append))]
fn from_instance(world: &World, code: &CodeProgram, class: u32, asked: Asked) -> Option<Found>
    requires lawful { IsLawful world.now.world code.now }
    requires class { IsTrue (is_chain_start world.now.world.cells class) }
    requires visible { asked.wanted ≡ Visible }
    ensures { result ≡ spec.search code.now asked.sel.0 asked.kind (members_from world.now.world.cells code.now (start_is.Instance class)) }
{
    match along(world, code, class, Side::Instance, asked) {
        Some(found) => Some(found),
        None => row_named(world, code, KernelRow::Object, asked.sel, asked.kind),
    }
}

#[inline(never)]
#[tactic(auto, using(crate::proofs::Parts::search_append))]
fn from_class(
    world: &World,
    code: &CodeProgram,
    class: u32,
    factory: bool,
    asked: Asked,
) -> Option<Found>
    requires lawful { IsLawful world.now.world code.now }
    requires class { IsTrue (is_chain_start world.now.world.cells class) }
    requires factory { factory ≡ true → IsTrue (is_class (find_cell world.now.world.cells class)) }
    requires visible { asked.wanted ≡ Visible }
    ensures { result ≡ spec.search code.now asked.sel.0 asked.kind (members_from world.now.world.cells code.now (start_is.ClassSide class factory)) }
{
    match factory_of(world, code, class, factory, asked) {
        Some(found) => Some(found),
        None => from_side(world, code, class, asked),
    }
}

#[inline(never)]
#[tactic(auto, using(crate::proofs::Parts::search_append))]
fn from_side(world: &World, code: &CodeProgram, class: u32, asked: Asked) -> Option<Found>
    requires lawful { IsLawful world.now.world code.now }
    requires class { IsTrue (is_chain_start world.now.world.cells class) }
    requires visible { asked.wanted ≡ Visible }
    ensures { result ≡ spec.search code.now asked.sel.0 asked.kind (class_side_members world.now.world.cells code.now class) }
{
    match along(world, code, class, Side::Class, asked) {
        Some(found) => Some(found),
        None => from_kernel(world, code, KernelRow::Class, asked),
    }
}

#[inline(never)]
#[tactic(auto, using(crate::proofs::Parts::search_append))]
fn from_kernel(world: &World, code: &CodeProgram, row: KernelRow, asked: Asked) -> Option<Found>
    requires { length code.now.classes ≤ 4096 }
    ensures { result ≡ spec.search code.now asked.sel.0 asked.kind (members_from world.now.world.cells code.now (start_is.Kernel row)) }
{
    match row_named(world, code, row, asked.sel, asked.kind) {
        Some(found) => Some(found),
        None => row_named(world, code, KernelRow::Object, asked.sel, asked.kind),
    }
}

/// The factory of a class, where the start says so.
#[inline(never)]
fn factory_of(
    world: &World,
    code: &CodeProgram,
    class: u32,
    factory: bool,
    asked: Asked,
) -> Option<Found>
    requires factory { factory ≡ true → IsTrue (is_class (find_cell world.now.world.cells class)) }
    ensures { result ≡ spec.search code.now asked.sel.0 asked.kind (spec.factory_member world.now.world.cells code.now class factory) }
{
    if !factory {
        return None;
    }
    match code
        .classes
        .as_slice()
        .get(world.declaration(class) as usize)
    {
        Some(declared) => {
            if asked.sel.0 == declared.factory.0 {
                return Some(Found::Factory { class });
            }
            None
        }
        None => None,
    }
}

/// The member of that name along a chain, on which no class is gone through whose declaration is passed by.
#[inline(never)]
fn along(world: &World, code: &CodeProgram, class: u32, side: Side, asked: Asked) -> Option<Found>
    requires lawful { IsLawful world.now.world code.now }
    requires class { IsTrue (is_chain_start world.now.world.cells class) }
    requires visible { asked.wanted ≡ Visible }
    ensures { result ≡ spec.search code.now asked.sel.0 asked.kind
        (spec.members_along world.now.world.cells code.now side (chain_of world.now.world.cells class)) }
{
    let mut passed = [true; MOST_CLASSES];
    stop_at_declaring(code, &mut passed, side, asked.sel);
    let mut at = next_stop(world, &passed, class);
    'up: while !world.is_past(at) {
        match of_holder(world, code, at, side, asked) {
            Some(found) => return Some(found),
            None => at = next_stop(world, &passed, world.superclass(at)),
        }
    }
    None
}

/// The member of that name of a holder's declaration.
#[inline(never)]
fn of_holder(
    world: &World,
    code: &CodeProgram,
    holder: u32,
    side: Side,
    asked: Asked,
) -> Option<Found>
    requires lawful { IsLawful world.now.world code.now }
    requires holder { IsTrue (is_class (find_cell world.now.world.cells holder)) }
    ensures { result ≡ spec.search code.now asked.sel.0 asked.kind (spec.holder_members world.now.world.cells code.now asked.wanted side holder) }
{
    match code
        .classes
        .as_slice()
        .get(world.declaration(holder) as usize)
    {
        Some(declared) => of_side(world, code, declared, holder, side, asked),
        None => None,
    }
}

#[inline(never)]
fn of_side(
    world: &World,
    code: &CodeProgram,
    declared: &ClassCode,
    holder: u32,
    side: Side,
    asked: Asked,
) -> Option<Found>
    requires lawful { IsLawful world.now.world code.now }
    requires holder { IsTrue (is_class (find_cell world.now.world.cells holder)) }
    requires declared { slice_get code.now.classes (declaration_of world.now.world.cells holder) ≡ Some declared.now }
    ensures { result ≡ spec.search code.now asked.sel.0 asked.kind (spec.side_members world.now.world.cells code.now asked.wanted side holder declared.now) }
{
    match side {
        Side::Instance => of_instance_side(world, code, declared, holder, asked),
        Side::Class => method(declared.side_methods.as_slice(), holder, asked),
    }
}

#[inline(never)]
#[tactic(auto, using(crate::proofs::Parts::search_append))]
fn of_instance_side(
    world: &World,
    code: &CodeProgram,
    declared: &ClassCode,
    holder: u32,
    asked: Asked,
) -> Option<Found>
    requires lawful { IsLawful world.now.world code.now }
    requires holder { IsTrue (is_class (find_cell world.now.world.cells holder)) }
    requires declared { slice_get code.now.classes (declaration_of world.now.world.cells holder) ≡ Some declared.now }
    ensures { result ≡ spec.search code.now asked.sel.0 asked.kind
        (spec.side_members world.now.world.cells code.now asked.wanted side_is.Instance holder declared.now) }
{
    match slots(world, code, declared.slots.as_slice(), holder, asked) {
        Some(found) => Some(found),
        None => nested_or_method(code, declared, holder, asked),
    }
}

#[inline(never)]
#[tactic(auto, using(crate::proofs::Parts::search_append))]
fn nested_or_method(
    code: &CodeProgram,
    declared: &ClassCode,
    holder: u32,
    asked: Asked,
) -> Option<Found>
    ensures { result ≡ spec.search code.now asked.sel.0 asked.kind
        (spec.nested_members asked.wanted holder declared.now.nested ++ spec.method_members asked.wanted holder declared.now.methods) }
{
    match nested(code, declared.nested.as_slice(), holder, asked) {
        Some(found) => Some(found),
        None => method(declared.methods.as_slice(), holder, asked),
    }
}
