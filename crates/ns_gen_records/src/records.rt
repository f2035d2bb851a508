//! The records of classes, in the table of names that is there in the end.

ghost use Rattle.std.specs.Prelude.{◌≡◌, map, IfOk};
ghost use Rattle.ns_resolved.specs.Tables.{access_number, class_code, slot_code, nested_code, method_code, sel_of};

use crate::declaration::{Declaration, MethodOf, NestedOf, SlotOf};
use ns_base::items::Items;
use ns_base::no_memory::NoMemory;
use ns_base::selector::Sel;
use ns_base::text::Text;
use ns_code::class::{ClassCode, MethodCode, NestedCode, SlotCode};
use ns_code::kinds::{PRIVATE, PROTECTED, PUBLIC};
use ns_gen_draft::names::Names;
use ns_tree::tree::Access;
use std::alloc::Global;

/// The records of classes.
pub fn class_codes(
    alloc: Global,
    names: &Names,
    classes: &[Declaration],
) -> Result<Vec<ClassCode>, NoMemory>
    ensures { IfOk result (λ codes. codes.items ≡ map (class_code names.now) classes.now) }
{
    let mut codes = Vec::new(alloc);
    for class in classes {
        codes.push(class_code(alloc, names, class)?)?;
    }
    Ok(codes)
}

/// The record of a class.
fn class_code(alloc: Global, names: &Names, class: &Declaration) -> Result<ClassCode, NoMemory>
    ensures { IfOk result (λ code. code ≡ class_code names.now class.now) }
{
    let slots = slot_codes(alloc, names, class.slots.as_slice())?;
    let nested = nested_codes(alloc, class.nested.as_slice())?;
    let methods = method_codes(alloc, names, class.methods.as_slice())?;
    let side_methods = method_codes(alloc, names, class.side_methods.as_slice())?;
    Ok(ClassCode {
        name: number(names, &class.name)?,
        outer: class.outer,
        factory: number(names, &class.factory)?,
        params: class.params,
        clause: class.clause,
        init: class.initialiser,
        super_sel: number(names, &class.super_selector)?,
        slots: Items::from_vec(slots),
        nested: Items::from_vec(nested),
        methods: Items::from_vec(methods),
        side_methods: Items::from_vec(side_methods),
    })
}

/// The number of a name.
fn number(names: &Names, name: &Text) -> Result<Sel, NoMemory>
    ensures { IfOk result (λ sel. sel ≡ sel_of names.now name.now) }
{
    let sel = names.number(name.bytes())?;
    Ok(sel)
}

fn slot_codes(alloc: Global, names: &Names, slots: &[SlotOf]) -> Result<Vec<SlotCode>, NoMemory>
    ensures { IfOk result (λ codes. codes.items ≡ map (slot_code names.now) slots.now) }
{
    let mut codes = Vec::new(alloc);
    for slot in slots {
        codes.push(slot_code(names, slot)?)?;
    }
    Ok(codes)
}

fn slot_code(names: &Names, slot: &SlotOf) -> Result<SlotCode, NoMemory>
    ensures { IfOk result (λ code. code ≡ slot_code names.now slot.now) }
{
    Ok(SlotCode {
        name: number(names, &slot.name)?,
        access: access_number(slot.access),
        mutable: slot.mutable,
    })
}

fn nested_codes(alloc: Global, nested: &[NestedOf]) -> Result<Vec<NestedCode>, NoMemory>
    ensures { IfOk result (λ codes. codes.items ≡ map nested_code nested.now) }
{
    let mut codes = Vec::new(alloc);
    for class in nested {
        codes.push(nested_code(class))?;
    }
    Ok(codes)
}

fn nested_code(class: &NestedOf) -> NestedCode
    ensures { result ≡ nested_code class.now }
{
    NestedCode {
        class: class.class,
        access: access_number(class.access),
    }
}

fn method_codes(
    alloc: Global,
    names: &Names,
    methods: &[MethodOf],
) -> Result<Vec<MethodCode>, NoMemory>
    ensures { IfOk result (λ codes. codes.items ≡ map (method_code names.now) methods.now) }
{
    let mut codes = Vec::new(alloc);
    for method in methods {
        codes.push(method_code(names, method)?)?;
    }
    Ok(codes)
}

fn method_code(names: &Names, method: &MethodOf) -> Result<MethodCode, NoMemory>
    ensures { IfOk result (λ code. code ≡ method_code names.now method.now) }
{
    Ok(MethodCode {
        sel: number(names, &method.selector)?,
        access: access_number(method.access),
        body: method.body,
    })
}

fn access_number(access: Access) -> u8
    ensures { result ≡ access_number access }
{
    match access {
        Access::Public => PUBLIC,
        Access::Protected => PROTECTED,
        Access::Private => PRIVATE,
    }
}
