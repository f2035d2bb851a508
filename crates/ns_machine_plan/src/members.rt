//! The private members of all declarations, and what stands around these, found once before any send looks for one.

ghost use Rattle.std.specs.Prelude.{◌≡◌, ◌<◌, [], ◌∷◌, ◌++◌, length, IfOk, OnOk};
ghost use Rattle.ns_code.specs.Fits.{Fits, ClassFits};
ghost use Rattle.ns_find.specs.Find.{side_of};
ghost use Rattle.ns_verify_members.specs.Numbers.{IsNameTable};
ghost use Rattle.ns_machine_plan.specs.Members as spec;
ghost use Rattle.ns_machine_plan.specs.Privates.{declaration_out, private_member};

use crate::index::{Entry, Index};
use crate::outers::Outers;
use crate::step::Member;
use ns_base::items::Items;
use ns_base::no_memory::NoMemory;
use ns_base::selector::Sel;
use ns_code::class::{ClassCode, MethodCode, NestedCode, SlotCode};
use ns_code::program::CodeProgram;
use ns_verify_members::names::{NameTable, is_name};
use std::alloc::Global;

/// The access of private members.
const PRIVATE: u8 = 2;

/// The private members of a declaration, of both sides.
#[derive(Drop)]
pub struct Members {
    pub instance: Index,
    pub side: Index,
}

/// Those of all declarations, by number, and the declarations around these.
#[derive(Drop)]
pub struct Privates {
    classes: Items<Members>,
    outers: Outers,
}

impl Privates {
    /// Those of the declarations of a code.
    pub fn new(alloc: Global, code: &CodeProgram) -> Result<Privates, NoMemory>
        requires { Fits code.now }
        ensures { IfOk result (λ privates. spec.ArePrivatesOf code.now privates) }
    {
        let names = NameTable::new(alloc, code)?;
        let mut classes = Vec::with_capacity(alloc, code.classes.len())?;
        'classes: for class in code.classes.as_slice() {
            classes.push(members_of(alloc, code, &names, class)?)?;
        }
        Ok(Privates {
            classes: Items::from_vec(classes),
            outers: Outers::new(alloc, code)?,
        })
    }

    /// The declaration so many levels out from one, where there are as many.
    pub fn declaration_out(&self, code: &CodeProgram, decl: u32, level: u8) -> Option<u32>
        requires { spec.ArePrivatesOf code.now self.now }
        ensures { result ≡ declaration_out code.now decl level }
    {
        self.outers.declaration_out(code, decl, level)
    }

    /// The private member of that name of a declaration.
    pub fn member(&self, code: &CodeProgram, class_side: bool, sel: Sel, decl: u32) -> Member
        requires privates { spec.ArePrivatesOf code.now self.now }
        requires name { sel.0 < length code.now.names }
        ensures { result ≡ private_member code.now (side_of class_side) sel.0 decl }
    {
        let _code = code;
        match self.classes.as_slice().get(decl as usize) {
            Some(members) => members.find(class_side, sel).unwrap_or(Member::Absent),
            None => Member::Absent,
        }
    }
}

impl Members {
    /// The first under the number of a name on a side.
    fn find(&self, class_side: bool, sel: Sel) -> Option<Member>
        ensures { result ≡ spec.found_on self.now (side_of class_side) sel.0 }
    {
        if class_side {
            self.side.find(sel.0)
        } else {
            self.instance.find(sel.0)
        }
    }
}

/// The private members of a declaration.
fn members_of(
    alloc: Global,
    code: &CodeProgram,
    names: &NameTable,
    class: &ClassCode,
) -> Result<Members, NoMemory>
    requires fits { Fits code.now }
    requires class { ClassFits class.now }
    requires names { IsNameTable code.now names.now }
    ensures { IfOk result (λ members. spec.AreMembersOf code.now class.now members) }
{
    let instance = instance_entries(alloc, code, names, class)?;
    let side = side_entries(alloc, class)?;
    Ok(Members {
        instance: Index::of(instance)?,
        side: Index::of(side)?,
    })
}

/// The private members of the instance side, in the order of a lookup.
fn instance_entries(
    alloc: Global,
    code: &CodeProgram,
    names: &NameTable,
    class: &ClassCode,
) -> Result<Vec<Entry>, NoMemory>
    requires few { length class.now.slots < 65536 }
    requires names { IsNameTable code.now names.now }
    ensures { IfOk result (λ found. found.items ≡ spec.instance_entries code.now class.now) }
{
    let mut found = Vec::new(alloc);
    add_slots(code, names, class.slots.as_slice(), &mut found)?;
    add_nested(code, class.nested.as_slice(), &mut found)?;
    add_methods(class.methods.as_slice(), &mut found)?;
    Ok(found)
}

/// The private members of the class side.
fn side_entries(alloc: Global, class: &ClassCode) -> Result<Vec<Entry>, NoMemory>
    ensures { IfOk result (λ found. found.items ≡ spec.method_entries class.now.side_methods) }
{
    let mut found = Vec::new(alloc);
    add_methods(class.side_methods.as_slice(), &mut found)?;
    Ok(found)
}

/// Adds the getters and setters of private slots.
fn add_slots(
    code: &CodeProgram,
    names: &NameTable,
    slots: &[SlotCode],
    found: &mut Vec<Entry>,
) -> Result<(), NoMemory>
    requires few { length slots.now < 65536 }
    requires names { IsNameTable code.now names.now }
    ensures { OnOk result (found.new.items ≡ found.old.items ++ spec.all_slot_entries code.now.names 0 slots.now) }
{
    let mut entry: u32 = 0;
    'slots: for slot in slots {
        add_slot(code, names, entry, *slot, found)?;
        entry += 1;
    }
    Ok(())
}

/// Adds the getter of a slot of that number, and the setter where it is mutable, if the slot is private and has a name.
fn add_slot(
    code: &CodeProgram,
    names: &NameTable,
    entry: u32,
    slot: SlotCode,
    found: &mut Vec<Entry>,
) -> Result<(), NoMemory>
    requires names { IsNameTable code.now names.now }
    ensures { OnOk result (found.new.items ≡ found.old.items ++ spec.slot_entries code.now.names entry slot) }
{
    if slot.access == PRIVATE && is_name(code, slot.name) {
        add_named(code, names, entry, slot, found)
    } else {
        Ok(())
    }
}

/// The same, where it is and has.
fn add_named(
    code: &CodeProgram,
    names: &NameTable,
    entry: u32,
    slot: SlotCode,
    found: &mut Vec<Entry>,
) -> Result<(), NoMemory>
    requires names { IsNameTable code.now names.now }
    requires named { slot.name.0 < length code.now.names }
    ensures { OnOk result (found.new.items ≡ found.old.items ++ spec.named_entries code.now.names entry slot) }
{
    found.push(Entry {
        number: slot.name.0,
        member: Member::Getter { entry },
    })?;
    if slot.mutable {
        found.push(Entry {
            number: names.setter(code, slot.name),
            member: Member::Setter { entry },
        })?;
    }
    Ok(())
}

/// Adds the private nested classes.
fn add_nested(
    code: &CodeProgram,
    nested: &[NestedCode],
    found: &mut Vec<Entry>,
) -> Result<(), NoMemory>
    ensures { OnOk result (found.new.items ≡ found.old.items ++ spec.nested_entries code.now nested.now) }
{
    'nested: for one in nested {
        add_one_nested(code, *one, found)?;
    }
    Ok(())
}

/// Adds a nested class under the number of its name, if it is private and there.
fn add_one_nested(
    code: &CodeProgram,
    nested: NestedCode,
    found: &mut Vec<Entry>,
) -> Result<(), NoMemory>
    ensures { OnOk result (found.new.items ≡ found.old.items ++ spec.nested_entry code.now nested) }
{
    if nested.access != PRIVATE {
        return Ok(());
    }
    match code.classes.as_slice().get(nested.class as usize) {
        Some(class) => add(
            class.name,
            Member::Nested {
                class: nested.class,
            },
            found,
        ),
        None => Ok(()),
    }
}

/// Adds the private methods.
fn add_methods(methods: &[MethodCode], found: &mut Vec<Entry>) -> Result<(), NoMemory>
    ensures { OnOk result (found.new.items ≡ found.old.items ++ spec.method_entries methods.now) }
{
    'methods: for method in methods {
        add_method(*method, found)?;
    }
    Ok(())
}

/// Adds a method, if it is private.
fn add_method(method: MethodCode, found: &mut Vec<Entry>) -> Result<(), NoMemory>
    ensures { OnOk result (found.new.items ≡ found.old.items ++ spec.method_entry method) }
{
    if method.access == PRIVATE {
        add(method.sel, Member::Method { body: method.body }, found)
    } else {
        Ok(())
    }
}

/// Adds a member under the number of a name.
fn add(name: Sel, member: Member, found: &mut Vec<Entry>) -> Result<(), NoMemory>
    ensures { OnOk result (found.new.items ≡ found.old.items ++ spec.under name.0 member ∷ []) }
{
    found.push(Entry {
        number: name.0,
        member,
    })?;
    Ok(())
}
