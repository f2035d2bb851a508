//! The members of a class: slots, nested classes by number, and methods by the numbers of their bodies.

ghost use Rattle.std.specs.Prelude.{◌≡◌, ◌+◌, ◌++◌, ◌∷◌, [], length, OnOk, IfOk};
ghost use Rattle.ns_tree.specs.PlainOf.{bars_of, slots_of, init_of, what_of, members_of, side_of, class_side_of, class_of, method_of};
ghost use Rattle.ns_scope.specs.Bodies as b;
ghost use Rattle.ns_resolved.specs.Classes as c;
ghost use Rattle.ns_gen_draft.specs.Standing.{around_of};

use crate::counted::count_method;
use crate::declaration::{MethodOf, NestedOf, SlotOf};
use ns_base::no_memory::NoMemory;
use ns_base::text::Text;
use ns_gen_draft::around::{Around, advance};
use ns_scope::names::{access_or, selector};
use ns_scope::scope::CodeSide;
use ns_tree::tree::{Access, Class, Member, Method, Side, Slot, SlotInit, What};
use std::alloc::Global;

// ---- slots

/// The slots of a class.
pub fn slots(alloc: Global, bars: &Option<Vec<Slot>>) -> Result<Vec<SlotOf>, NoMemory>
    ensures { IfOk result (λ all. all.items ≡ c.bars_slots (bars_of bars.now)) }
{
    let mut all = Vec::new(alloc);
    put_bars(alloc, &mut all, bars)?;
    Ok(all)
}

fn put_bars(alloc: Global, all: &mut Vec<SlotOf>, bars: &Option<Vec<Slot>>) -> Result<(), NoMemory>
    ensures { OnOk result (all.new.items ≡ all.old.items ++ c.bars_slots (bars_of bars.now)) }
{
    match bars {
        None => Ok(()),
        Some(slots) => put_slots(alloc, all, slots),
    }
}

fn put_slots(alloc: Global, all: &mut Vec<SlotOf>, slots: &[Slot]) -> Result<(), NoMemory>
    ensures { OnOk result (all.new.items ≡ all.old.items ++ c.slots_of (slots_of slots.now)) }
{
    for slot in slots {
        all.push(SlotOf {
            name: Text::of(alloc, slot.name.text.bytes())?,
            access: access_or(Access::Protected, slot.access),
            mutable: is_mutable(&slot.init),
        })?;
    }
    Ok(())
}

/// A slot of the form `x = e.` has no setter.
fn is_mutable(init: &SlotInit) -> bool
    ensures { result ≡ c.is_mutable (init_of init.now) }
{
    match init {
        SlotInit::Bare { stop: _ } => true,
        SlotInit::Fixed(_) => false,
        SlotInit::Mutable(_) => true,
    }
}

// ---- classes

/// The classes on a side of a class of this number.
pub fn nested(alloc: Global, number: u32, side: &Side) -> Result<Vec<NestedOf>, NoMemory>
    ensures { IfOk result (λ all. all.items ≡ c.side_nested (number + 1) (side_of side.now)) }
{
    let mut first = number;
    advance(&mut first)?;
    let all = members_nested(alloc, first, &side.members)?;
    Ok(all)
}

fn members_nested(alloc: Global, first: u32, members: &[Member]) -> Result<Vec<NestedOf>, NoMemory>
    ensures { IfOk result (λ all. all.items ≡ c.members_nested first (members_of members.now)) }
{
    let mut all = Vec::new(alloc);
    put_nested(&mut all, first, members)?;
    Ok(all)
}

fn put_nested(all: &mut Vec<NestedOf>, first: u32, members: &[Member]) -> Result<(), NoMemory>
    ensures { OnOk result (all.new.items ≡ all.old.items ++ c.members_nested first (members_of members.now)) }
{
    let mut number = first;
    for member in members {
        let access = access_or(Access::Protected, member.access);
        put_what_nested(all, &mut number, access, &member.what)?;
    }
    Ok(())
}

fn put_what_nested(
    all: &mut Vec<NestedOf>,
    number: &mut u32,
    access: Access,
    what: &What,
) -> Result<(), NoMemory>
    ensures put { OnOk result (all.new.items ≡ all.old.items ++ c.what_nested number.old access (what_of what.now)) }
    ensures next { OnOk result (number.new ≡ number.old + c.what_count (what_of what.now)) }
{
    match what {
        What::Method(_) => Ok(()),
        What::Class(class) => {
            all.push(NestedOf {
                class: *number,
                access,
            })?;
            count_class(number, class)?;
            Ok(())
        }
    }
}

/// A class, and those in it.
#[cycle(count)]
fn count_class(count: &mut u32, class: &Class) -> Result<(), NoMemory>
    ensures { OnOk result (count.new ≡ count.old + c.class_count (class_of class.now)) }
{
    advance(count)?;
    count_side(count, &class.side)?;
    Ok(())
}

#[cycle(count)]
fn count_side(count: &mut u32, side: &Side) -> Result<(), NoMemory>
    ensures { OnOk result (count.new ≡ count.old + c.side_count (side_of side.now)) }
{
    count_members(count, &side.members)?;
    Ok(())
}

#[cycle(count)]
fn count_members(count: &mut u32, members: &[Member]) -> Result<(), NoMemory>
    ensures { OnOk result (count.new ≡ count.old + c.members_count (members_of members.now)) }
{
    for member in members {
        count_what(count, &member.what)?;
    }
    Ok(())
}

#[cycle(count)]
fn count_what(count: &mut u32, what: &What) -> Result<(), NoMemory>
    ensures { OnOk result (count.new ≡ count.old + c.what_count (what_of what.now)) }
{
    match what {
        What::Class(class) => count_class(count, class),
        What::Method(_) => Ok(()),
    }
}

// ---- methods

/// The methods of a side, which have this access where no word says another; the first body has
/// that number.
pub fn side_methods(
    alloc: Global,
    around: &Around<'_>,
    side: CodeSide,
    next: &mut u32,
    other: Access,
    members: &Side,
) -> Result<Vec<MethodOf>, NoMemory>
    ensures listed { IfOk result (λ all. all.items ≡ c.side_listed (around_of around.now) side next.old other (side_of members.now)) }
    ensures next { OnOk result (next.new ≡ next.old + length (b.side_bodies around.now.classes.now side (side_of members.now))) }
{
    let mut all = Vec::new(alloc);
    put_side(alloc, &mut all, around, side, next, other, members)?;
    Ok(all)
}

/// The methods of the class side.
pub fn class_side_methods(
    alloc: Global,
    around: &Around<'_>,
    next: &mut u32,
    side: &Option<Side>,
) -> Result<Vec<MethodOf>, NoMemory>
    ensures listed { IfOk result (λ all. all.items ≡ c.class_side_listed (around_of around.now) next.old (class_side_of side.now)) }
    ensures next { OnOk result (next.new ≡ next.old + length (b.class_side_bodies around.now.classes.now (class_side_of side.now))) }
{
    let mut all = Vec::new(alloc);
    put_class_side(alloc, &mut all, around, next, side)?;
    Ok(all)
}

/// The methods of the class side, if there is one.
fn put_class_side(
    alloc: Global,
    all: &mut Vec<MethodOf>,
    around: &Around<'_>,
    next: &mut u32,
    side: &Option<Side>,
) -> Result<(), NoMemory>
    ensures put { OnOk result (all.new.items ≡ all.old.items ++ c.class_side_listed (around_of around.now) next.old (class_side_of side.now)) }
    ensures next { OnOk result (next.new ≡ next.old + length (b.class_side_bodies around.now.classes.now (class_side_of side.now))) }
{
    match side {
        None => Ok(()),
        Some(members) => put_side(
            alloc,
            all,
            around,
            CodeSide::Class,
            next,
            Access::Public,
            members,
        ),
    }
}

/// The methods of a side, which have this access where no word says another; the first body has
/// that number.
fn put_side(
    alloc: Global,
    all: &mut Vec<MethodOf>,
    around: &Around<'_>,
    side: CodeSide,
    next: &mut u32,
    other: Access,
    members: &Side,
) -> Result<(), NoMemory>
    ensures put { OnOk result (all.new.items ≡ all.old.items ++ c.side_listed (around_of around.now) side next.old other (side_of members.now)) }
    ensures next { OnOk result (next.new ≡ next.old + length (b.side_bodies around.now.classes.now side (side_of members.now))) }
{
    put_methods(alloc, all, around, side, next, other, &members.members)?;
    Ok(())
}

fn put_methods(
    alloc: Global,
    all: &mut Vec<MethodOf>,
    around: &Around<'_>,
    side: CodeSide,
    next: &mut u32,
    other: Access,
    members: &[Member],
) -> Result<(), NoMemory>
    ensures put { OnOk result (all.new.items ≡ all.old.items ++ c.methods_listed (around_of around.now) side next.old other (members_of members.now)) }
    ensures next { OnOk result (next.new ≡ next.old + length (b.methods_bodies around.now.classes.now side (members_of members.now))) }
{
    for member in members {
        let access = access_or(other, member.access);
        put_what(alloc, all, around, side, next, access, &member.what)?;
    }
    Ok(())
}

fn put_what(
    alloc: Global,
    all: &mut Vec<MethodOf>,
    around: &Around<'_>,
    side: CodeSide,
    next: &mut u32,
    access: Access,
    what: &What,
) -> Result<(), NoMemory>
    ensures put { OnOk result (all.new.items ≡ all.old.items ++ c.what_listed next.old access (what_of what.now)) }
    ensures next { OnOk result (next.new ≡ next.old + length (b.member_methods around.now.classes.now side (what_of what.now))) }
{
    match what {
        What::Class(_) => Ok(()),
        What::Method(method) => {
            put_method(alloc, all, *next, access, method)?;
            count_method(next, method)?;
            Ok(())
        }
    }
}

fn put_method(
    alloc: Global,
    all: &mut Vec<MethodOf>,
    body: u32,
    access: Access,
    method: &Method,
) -> Result<(), NoMemory>
    ensures { OnOk result (all.new.items ≡ all.old.items ++ c.method_of body access (method_of method.now) ∷ []) }
{
    all.push(MethodOf {
        selector: selector(alloc, &method.pattern.parts)?,
        access,
        body,
    })?;
    Ok(())
}
