//! The members of a declaration: the numbers of their selectors, and whether one comes twice.

ghost use Rattle.std.specs.Prelude.{◌≡◌, ◌<◌, [], ◌∷◌, ◌++◌, ◌==◌, length, IfOk, OnOk, filter, option_map, slice_get};
ghost use Rattle.ns_code.specs.declared.class.ClassCode.{ClassCode};
ghost use Rattle.ns_code.specs.declared.class.MethodCode.{MethodCode};
ghost use Rattle.ns_code.specs.declared.class.NestedCode.{NestedCode};
ghost use Rattle.ns_code.specs.declared.class.SlotCode.{SlotCode};
ghost use Rattle.ns_code.specs.Soundness as sound;
ghost use Rattle.ns_verify_members.specs.Members.{has_different_members};
ghost use Rattle.ns_verify_members.specs.Numbers as spec;

use crate::names::{NameTable, is_name};
use crate::numbers::are_apart;
use ns_base::no_memory::NoMemory;
use ns_base::selector::Sel;
use ns_code::class::{ClassCode, MethodCode, NestedCode, SlotCode};
use ns_code::kinds::PRIVATE;
use ns_code::program::CodeProgram;
use std::alloc::Global;

/// Whether no two members of one side have one selector.
pub fn has_different_members(
    alloc: Global,
    code: &CodeProgram,
    names: &NameTable,
    class: &ClassCode,
) -> Result<bool, NoMemory>
    requires { spec.IsNameTable code.now names.now }
    ensures { IfOk result (λ different. different ≡ has_different_members code.now class.now) }
{
    if !has_different_instance_members(alloc, code, names, class)? {
        return Ok(false);
    }
    has_different_side_members(alloc, code, names, class)
}

/// Whether no two members of the instance side have one selector.
#[tactic(auto, using(crate::proofs::Selectors::different_instances))]
fn has_different_instance_members(
    alloc: Global,
    code: &CodeProgram,
    names: &NameTable,
    class: &ClassCode,
) -> Result<bool, NoMemory>
    requires { spec.IsNameTable code.now names.now }
    ensures { IfOk result (λ different. different ≡ sound.are_different (sound.instance_selectors code.now class.now)) }
{
    let slots = class.slots.as_slice();
    let nested = class.nested.as_slice();
    let methods = class.methods.as_slice();
    let numbers = numbers_of(alloc, code, names, slots, nested, methods)?;
    are_apart(numbers)
}

/// Whether no two members of the class side have one selector.
#[tactic(auto, using(crate::proofs::Selectors::different_sides))]
fn has_different_side_members(
    alloc: Global,
    code: &CodeProgram,
    names: &NameTable,
    class: &ClassCode,
) -> Result<bool, NoMemory>
    requires { spec.IsNameTable code.now names.now }
    ensures { IfOk result (λ different. different ≡ sound.are_different (sound.side_selectors code.now class.now)) }
{
    let numbers = method_numbers(alloc, code, class.side_methods.as_slice())?;
    are_apart(numbers)
}

/// The numbers of slots, nested classes and methods.
fn numbers_of(
    alloc: Global,
    code: &CodeProgram,
    names: &NameTable,
    slots: &[SlotCode],
    nested: &[NestedCode],
    methods: &[MethodCode],
) -> Result<Vec<u32>, NoMemory>
    requires { spec.IsNameTable code.now names.now }
    ensures { IfOk result (λ found. found.items ≡ spec.numbers_of code.now slots.now nested.now methods.now) }
{
    let mut found = Vec::new(alloc);
    add_slots(code, names, slots, &mut found)?;
    add_nested(code, nested, &mut found)?;
    add_methods(code, methods, &mut found)?;
    Ok(found)
}

/// The numbers of methods.
fn method_numbers(
    alloc: Global,
    code: &CodeProgram,
    methods: &[MethodCode],
) -> Result<Vec<u32>, NoMemory>
    ensures { IfOk result (λ found. found.items ≡ spec.method_numbers code.now.names methods.now) }
{
    let mut found = Vec::new(alloc);
    add_methods(code, methods, &mut found)?;
    Ok(found)
}

/// Adds the numbers of slots.
fn add_slots(
    code: &CodeProgram,
    names: &NameTable,
    slots: &[SlotCode],
    found: &mut Vec<u32>,
) -> Result<(), NoMemory>
    requires { spec.IsNameTable code.now names.now }
    ensures { OnOk result (found.new.items ≡ found.old.items ++ spec.all_slot_numbers code.now.names slots.now) }
{
    'slots: for slot in slots {
        add_slot(code, names, *slot, found)?;
    }
    Ok(())
}

/// Adds the number of a slot's name, and that of its setter where it is mutable.
fn add_slot(
    code: &CodeProgram,
    names: &NameTable,
    slot: SlotCode,
    found: &mut Vec<u32>,
) -> Result<(), NoMemory>
    requires { spec.IsNameTable code.now names.now }
    ensures { OnOk result (found.new.items ≡ found.old.items ++ spec.slot_numbers code.now.names slot) }
{
    if is_name(code, slot.name) {
        add_named(code, names, slot, found)
    } else {
        Ok(())
    }
}

/// The same, where the slot has a name.
fn add_named(
    code: &CodeProgram,
    names: &NameTable,
    slot: SlotCode,
    found: &mut Vec<u32>,
) -> Result<(), NoMemory>
    requires table { spec.IsNameTable code.now names.now }
    requires name { slot.name.0 < length code.now.names }
    ensures { OnOk result (found.new.items ≡ found.old.items ++ spec.named_numbers code.now.names slot) }
{
    found.push(slot.name.0)?;
    if slot.mutable {
        found.push(names.setter(code, slot.name))?;
    }
    Ok(())
}

/// Adds the numbers of nested classes.
fn add_nested(
    code: &CodeProgram,
    nested: &[NestedCode],
    found: &mut Vec<u32>,
) -> Result<(), NoMemory>
    ensures { OnOk result (found.new.items ≡ found.old.items ++ spec.there code.now.names (sound.nested_names code.now nested.now)) }
{
    'nested: for one in nested {
        add_class_name(code, *one, found)?;
    }
    Ok(())
}

/// Adds the number of a nested class's name, where it is a class and has a name.
fn add_class_name(
    code: &CodeProgram,
    nested: NestedCode,
    found: &mut Vec<u32>,
) -> Result<(), NoMemory>
    ensures { OnOk result (found.new.items ≡ found.old.items ++ spec.there code.now.names (sound.nested_names code.now (nested ∷ []))) }
{
    match class_name(code, nested.class) {
        Some(name) => add_name(code, name, found),
        None => Ok(()),
    }
}

/// The name of a class, where it is one.
fn class_name(code: &CodeProgram, number: u32) -> Option<Sel>
    ensures { result ≡ option_map (λ (class : ClassCode). class.name) (slice_get code.now.classes number) }
{
    match code.classes.as_slice().get(number as usize) {
        Some(class) => Some(class.name),
        None => None,
    }
}

/// Adds the numbers of methods.
fn add_methods(
    code: &CodeProgram,
    methods: &[MethodCode],
    found: &mut Vec<u32>,
) -> Result<(), NoMemory>
    ensures { OnOk result (found.new.items ≡ found.old.items ++ spec.method_numbers code.now.names methods.now) }
{
    'methods: for method in methods {
        add_name(code, method.sel, found)?;
    }
    Ok(())
}

/// Adds a number, where it is a name's.
fn add_name(code: &CodeProgram, name: Sel, found: &mut Vec<u32>) -> Result<(), NoMemory>
    ensures { OnOk result (found.new.items ≡ found.old.items ++ spec.there code.now.names (name.0 ∷ [])) }
{
    if is_name(code, name) {
        found.push(name.0)?;
    }
    Ok(())
}

/// The numbers of the private members of the instance side.
pub fn private_instance_numbers(
    alloc: Global,
    code: &CodeProgram,
    names: &NameTable,
    class: &ClassCode,
) -> Result<Vec<u32>, NoMemory>
    requires { spec.IsNameTable code.now names.now }
    ensures { IfOk result (λ found. found.items ≡ spec.private_instance_numbers code.now class.now) }
{
    let slots = private_slots(alloc, class.slots.as_slice())?;
    let nested = private_nested(alloc, class.nested.as_slice())?;
    let methods = private_methods(alloc, class.methods.as_slice())?;
    numbers_of(
        alloc,
        code,
        names,
        slots.as_slice(),
        nested.as_slice(),
        methods.as_slice(),
    )
}

/// The numbers of the private members of the class side.
pub fn private_side_numbers(
    alloc: Global,
    code: &CodeProgram,
    class: &ClassCode,
) -> Result<Vec<u32>, NoMemory>
    ensures { IfOk result (λ found. found.items ≡ spec.private_side_numbers code.now class.now) }
{
    let methods = private_methods(alloc, class.side_methods.as_slice())?;
    method_numbers(alloc, code, methods.as_slice())
}

fn private_slots(alloc: Global, slots: &[SlotCode]) -> Result<Vec<SlotCode>, NoMemory>
    ensures { IfOk result (λ found. found.items ≡ filter (λ (slot : SlotCode). slot.access == 2) slots.now) }
{
    Ok(
        slots
            .iter()
            .copied()
            .filter(|slot| slot.access == PRIVATE)
            .collect(alloc)?,
    )
}

fn private_nested(alloc: Global, nested: &[NestedCode]) -> Result<Vec<NestedCode>, NoMemory>
    ensures { IfOk result (λ found. found.items ≡ filter (λ (nested : NestedCode). nested.access == 2) nested.now) }
{
    Ok(
        nested
            .iter()
            .copied()
            .filter(|nested| nested.access == PRIVATE)
            .collect(alloc)?,
    )
}

fn private_methods(alloc: Global, methods: &[MethodCode]) -> Result<Vec<MethodCode>, NoMemory>
    ensures { IfOk result (λ found. found.items ≡ filter (λ (method : MethodCode). method.access == 2) methods.now) }
{
    Ok(
        methods
            .iter()
            .copied()
            .filter(|method| method.access == PRIVATE)
            .collect(alloc)?,
    )
}
