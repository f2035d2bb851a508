//! The members of a declaration that a selector names.

ghost use Rattle.std.specs.Prelude.{◌≡◌, ◌<◌, ◌≤◌, ℕ, length, IsTrue};
ghost use Rattle.ns_world.specs.Heap.{find_cell, is_class};
ghost use Rattle.ns_world.specs.Lawful.{IsLawful};
ghost use Rattle.ns_world.specs.Layout.{declaration_of, entries_of};
ghost use Rattle.ns_code.specs.declared.program.CodeProgram.{CodeProgram};
ghost use Rattle.ns_code.specs.Fits.{Fits};
ghost use Rattle.ns_code.specs.Soundness.{is_identifier_name};
ghost use Rattle.ns_find.specs.Members as spec;
ghost use Rattle.ns_find.specs.Setters.{IsFrontOf, AreNamed};
ghost use Rattle.ns_find.specs.Members.{NamedAs, SetterOf};

use crate::found::{Found, Sending};
use ns_base::selector::Sel;
use ns_classes::layout::word;
use ns_code::class::{ClassCode, MethodCode, NestedCode, SlotCode};
use ns_code::program::CodeProgram;
use ns_world::world::World;

/// Which members a lookup looks through: those that aren't private, or the private ones.
#[derive(Clone, Copy)]
pub enum Wanted {
    Visible,
    Private,
}

/// The two sides of a declaration.
#[derive(Clone, Copy)]
pub enum Side {
    Instance,
    Class,
}

/// What a lookup asks for.
#[derive(Clone, Copy)]
pub struct Asked {
    pub sel: Sel,
    pub kind: Sending,
    pub wanted: Wanted,
}

/// Whether a member of this access is looked at.
fn is_wanted(wanted: Wanted, access: u8) -> bool
    ensures { result ≡ spec.is_wanted wanted access }
{
    match wanted {
        Wanted::Visible => access != 2,
        Wanted::Private => access == 2,
    }
}

/// What a send finds: a plain one that meets a member that isn't public finds that it isn't.
pub fn allowed(kind: Sending, access: u8, found: Found) -> Found
    ensures { result ≡ spec.allowed kind access found }
{
    match kind {
        Sending::Plain => { if access == 0 { found } else { Found::NotPublic } }
        Sending::Inner => found,
    }
}

/// The method of that name.
pub fn method(methods: &[MethodCode], holder: u32, asked: Asked) -> Option<Found>
    ensures { (code : CodeProgram) → result ≡ spec.search code asked.sel.0 asked.kind (spec.method_members asked.wanted holder methods.now) }
{
    'methods: for one in methods {
        if asked.sel.0 == one.sel.0 && is_wanted(asked.wanted, one.access) {
            return Some(allowed(
                asked.kind,
                one.access,
                Found::Method {
                    body: one.body,
                    holder,
                },
            ));
        }
    }
    None
}

/// The nested class of that name.
pub fn nested(code: &CodeProgram, nested: &[NestedCode], holder: u32, asked: Asked) -> Option<Found>
    ensures { result ≡ spec.search code.now asked.sel.0 asked.kind (spec.nested_members asked.wanted holder nested.now) }
{
    'nested: for one in nested {
        if is_named_as(code, asked.sel, one.class) && is_wanted(asked.wanted, one.access) {
            return Some(allowed(
                asked.kind,
                one.access,
                Found::Nested {
                    class: one.class,
                    holder,
                },
            ));
        }
    }
    None
}

/// Whether a selector is the name of a class.
pub fn is_named_as(code: &CodeProgram, sel: Sel, class: u32) -> bool
    ensures { result ≡ spec.is_named code.now sel.0 (NamedAs class) }
{
    match code.classes.as_slice().get(class as usize) {
        Some(declared) => sel.0 == declared.name.0,
        None => false,
    }
}

/// Whether a selector, before whose colon the name of that number stands, is that of a slot of this name with a colon behind it.
pub fn is_setter_of(front: Option<u32>, name: Sel) -> bool
    ensures { (code : CodeProgram) (sel : ℕ) → Fits code → IsFrontOf code sel front → IsTrue (is_identifier_name code name) →
        result ≡ spec.is_named code sel (SetterOf name.0) }
{
    match front {
        Some(number) => number == name.0,
        None => false,
    }
}

/// The getter or the setter of a slot, which is the entry of that number of its holder.
fn slot(
    world: &World,
    code: &CodeProgram,
    slot: SlotCode,
    holder: u32,
    entry: u32,
    asked: Asked,
    front: Option<u32>,
) -> Option<Found>
    requires lawful { IsLawful world.now.world code.now }
    requires front { IsFrontOf code.now asked.sel.0 front }
    requires named { IsTrue (is_identifier_name code.now slot.name) }
    requires holder { IsTrue (is_class (find_cell world.now.world.cells holder)) }
    requires entry { entry < entries_of code.now (declaration_of world.now.world.cells holder) }
    ensures { result ≡ spec.search code.now asked.sel.0 asked.kind (spec.slot_members world.now.world.cells code.now asked.wanted holder entry slot) }
{
    if asked.sel.0 == slot.name.0 && is_wanted(asked.wanted, slot.access) {
        let word = word(world, code, holder, entry);
        return Some(allowed(asked.kind, slot.access, Found::Getter { holder, word }));
    }
    if is_setter_of(front, slot.name) && is_wanted(asked.wanted, slot.access) && slot.mutable {
        let word = word(world, code, holder, entry);
        return Some(allowed(asked.kind, slot.access, Found::Setter { holder, word }));
    }
    None
}

/// The getter or the setter of that name.
pub fn slots(
    world: &World,
    code: &CodeProgram,
    slots: &[SlotCode],
    holder: u32,
    asked: Asked,
) -> Option<Found>
    requires lawful { IsLawful world.now.world code.now }
    requires holder { IsTrue (is_class (find_cell world.now.world.cells holder)) }
    requires entries { length slots.now ≤ entries_of code.now (declaration_of world.now.world.cells holder) }
    requires few { length slots.now < 65536 }
    requires named { AreNamed code.now slots.now }
    ensures { result ≡ spec.search code.now asked.sel.0 asked.kind (spec.slots_members world.now.world.cells code.now asked.wanted holder 0 slots.now) }
{
    let front = code.names.front(asked.sel);
    let mut entry: u32 = 0;
    'slots: for one in slots {
        match slot(world, code, *one, holder, entry, asked, front) {
            Some(found) => return Some(found),
            None => entry += 1,
        }
    }
    None
}
