//! The names under which declarations are listed.

ghost use Rattle.std.specs.Prelude.{◌≡◌, ◌++◌, ◌∷◌, [], ℕ, List, slice_get, OnOk};
ghost use Rattle.ns_code.specs.declared.class.ClassCode.{ClassCode};
ghost use Rattle.ns_code.specs.Listed.{under_names};
ghost use Rattle.ns_code.specs.MemberNames.{has_setter, instance_names, side_names, setter_names, slot_names, mutable_names, nested_names, method_names, name_of};

use crate::class::{ClassCode, MethodCode, NestedCode, SlotCode};
use crate::kinds::PRIVATE;
use crate::listed::Listed;
use ns_base::no_memory::NoMemory;
use ns_base::selector::Sel;

/// Which names of a declaration it is listed under.
pub trait Naming {
    ghost names: { Self → ClassCode → List ℕ };

    /// Puts a declaration under each of them.
    fn put(
        &self,
        listed: &mut Vec<Listed>,
        declaration: u32,
        class: &ClassCode,
    ) -> Result<(), NoMemory>
        ensures { OnOk result (listed.new.items ≡ listed.old.items ++ under_names declaration (names self.now class.now)) };
}

/// Those of its members of the instance side, among some declarations of which it may nest some.
#[derive(Clone, Copy)]
pub struct Members<'a> {
    pub declared: &'a [ClassCode],
}

/// Those of its methods of the class side.
pub struct SideMethods;

/// Those of its mutable slots.
pub struct Setters;

impl<'a> Naming for Members<'a> {
    ghost names = { λ members. instance_names members.declared.now };

    fn put(
        &self,
        listed: &mut Vec<Listed>,
        declaration: u32,
        class: &ClassCode,
    ) -> Result<(), NoMemory> {
        put_slots(listed, declaration, class.slots.as_slice())?;
        put_nested(listed, declaration, self.declared, class.nested.as_slice())?;
        put_methods(listed, declaration, class.methods.as_slice())
    }
}

impl Naming for SideMethods {
    ghost names = { λ _. side_names };

    fn put(
        &self,
        listed: &mut Vec<Listed>,
        declaration: u32,
        class: &ClassCode,
    ) -> Result<(), NoMemory> {
        put_methods(listed, declaration, class.side_methods.as_slice())
    }
}

impl Naming for Setters {
    ghost names = { λ _. setter_names };

    fn put(
        &self,
        listed: &mut Vec<Listed>,
        declaration: u32,
        class: &ClassCode,
    ) -> Result<(), NoMemory> {
        put_setters(listed, declaration, class.slots.as_slice())
    }
}

fn put_slots(listed: &mut Vec<Listed>, declaration: u32, slots: &[SlotCode]) -> Result<(), NoMemory>
    ensures { OnOk result (listed.new.items ≡ listed.old.items ++ under_names declaration (slot_names slots.now)) }
{
    'slots: for slot in slots {
        if slot.access != PRIVATE {
            put(listed, declaration, slot.name)?;
        }
    }
    Ok(())
}

fn put_setters(
    listed: &mut Vec<Listed>,
    declaration: u32,
    slots: &[SlotCode],
) -> Result<(), NoMemory>
    ensures { OnOk result (listed.new.items ≡ listed.old.items ++ under_names declaration (mutable_names slots.now)) }
{
    'slots: for slot in slots {
        if has_setter(slot) {
            put(listed, declaration, slot.name)?;
        }
    }
    Ok(())
}

/// Whether a slot has a setter that isn't private.
fn has_setter(slot: &SlotCode) -> bool
    ensures { result ≡ has_setter slot.now }
{
    slot.access != PRIVATE && slot.mutable
}

fn put_nested(
    listed: &mut Vec<Listed>,
    declaration: u32,
    classes: &[ClassCode],
    nested: &[NestedCode],
) -> Result<(), NoMemory>
    ensures { OnOk result (listed.new.items ≡ listed.old.items ++ under_names declaration (nested_names classes.now nested.now)) }
{
    'nested: for one in nested {
        if one.access != PRIVATE {
            put_named(listed, declaration, classes, one.class)?;
        }
    }
    Ok(())
}

/// Puts a declaration under the name of the class of that number, if it is there.
fn put_named(
    listed: &mut Vec<Listed>,
    declaration: u32,
    classes: &[ClassCode],
    class: u32,
) -> Result<(), NoMemory>
    ensures { OnOk result (listed.new.items ≡ listed.old.items ++ under_names declaration (name_of (slice_get classes.now class))) }
{
    match classes.get(class as usize) {
        Some(class) => put(listed, declaration, class.name),
        None => Ok(()),
    }
}

fn put_methods(
    listed: &mut Vec<Listed>,
    declaration: u32,
    methods: &[MethodCode],
) -> Result<(), NoMemory>
    ensures { OnOk result (listed.new.items ≡ listed.old.items ++ under_names declaration (method_names methods.now)) }
{
    'methods: for method in methods {
        if method.access != PRIVATE {
            put(listed, declaration, method.sel)?;
        }
    }
    Ok(())
}

/// Puts a declaration under a name.
fn put(listed: &mut Vec<Listed>, declaration: u32, name: Sel) -> Result<(), NoMemory>
    ensures { OnOk result (listed.new.items ≡ listed.old.items ++ under_names declaration (name.0 ∷ [])) }
{
    listed.push(Listed {
        name: name.0,
        declaration,
    })?;
    Ok(())
}
