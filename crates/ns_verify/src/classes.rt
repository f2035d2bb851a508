//! What can be wrong with a class record.

ghost use Rattle.std.specs.Prelude.{◌≡◌, ◌==◌, IfOk, false, true, not, slice_get, unwrap_or};
ghost use Rattle.std.specs.List.{list_any};
ghost use Rattle.std.specs.Option.{option_map_or};
ghost use Rattle.ns_code.specs.declared.class.ClassCode.{ClassCode};
ghost use Rattle.ns_code.specs.declared.class.SlotCode.{SlotCode};
ghost use Rattle.ns_code.specs.declared.class.MethodCode.{MethodCode};
ghost use Rattle.ns_code.specs.Soundness as spec;
ghost use Rattle.ns_verify_members.specs.Numbers.{IsNameTable};
ghost use Rattle.ns_verify.specs.Verify as own;

use crate::fault::VerifyCause;
use ns_base::no_memory::NoMemory;
use ns_base::selector::Sel;
use ns_code::class::{ClassCode, MethodCode, NestedCode, SlotCode};
use ns_code::kinds::{CLASS, CLAUSE, INITIALISER, INSTANCES, METHOD};
use ns_code::program::CodeProgram;
use ns_verify_members::members::has_different_members;
use ns_verify_members::names::{NameTable, is_name};
use std::alloc::Global;

/// The first cause that holds of a class.
pub fn class_cause(
    alloc: Global,
    code: &CodeProgram,
    names: &NameTable,
    number: u32,
    class: &ClassCode,
) -> Result<Option<VerifyCause>, NoMemory>
    requires { IsNameTable code.now names.now }
    ensures { IfOk result (λ cause. cause ≡ own.class_cause code.now number class.now) }
{
    if has_bad_scope(alloc, code, names, number, class)? {
        return Ok(Some(VerifyCause::BadScope));
    }
    if has_bad_literal(code, names, class) {
        return Ok(Some(VerifyCause::BadLiteral));
    }
    Ok(None)
}

/// Whether what a class names isn't there, is of another kind, or stands at a wrong place.
fn has_bad_scope(
    alloc: Global,
    code: &CodeProgram,
    names: &NameTable,
    number: u32,
    class: &ClassCode,
) -> Result<bool, NoMemory>
    requires { IsNameTable code.now names.now }
    ensures { IfOk result (λ bad. bad ≡ spec.has_bad_scope code.now number class.now) }
{
    if !has_place(number, class) || !has_bodies(code, names, number, class) {
        return Ok(true);
    }
    if !has_nested(code, number, class) || !has_params(code, names, class) {
        return Ok(true);
    }
    Ok(!has_different_members(alloc, code, names, class)?)
}

/// Whether an outer declaration is an earlier class, and a clause stands only within one.
fn has_place(number: u32, class: &ClassCode) -> bool
    ensures { result ≡ spec.has_place number class.now }
{
    match class.outer {
        None => class.clause.is_none(),
        Some(outer) => outer < number && number != 0,
    }
}

/// Whether the bodies that a class names are those that their places ask for.
fn has_bodies(code: &CodeProgram, names: &NameTable, number: u32, class: &ClassCode) -> bool
    requires { IsNameTable code.now names.now }
    ensures { result ≡ spec.has_bodies code.now number class.now }
{
    is_body_with(code, class.init, INITIALISER, number, class.params)
        && has_clause(code, number, class)
        && have_bodies(code, names, INSTANCES, number, class.methods.as_slice())
        && have_bodies(code, names, CLASS, number, class.side_methods.as_slice())
}

fn has_clause(code: &CodeProgram, number: u32, class: &ClassCode) -> bool
    ensures { result ≡ option_map_or (λ clause.
        spec.is_body_of code.now clause spec.clause_kind spec.instance_side (unwrap_or class.now.outer number) (λ params. params == 0))
        class.now.clause true }
{
    match class.clause {
        Some(clause) => is_body_with(code, clause, CLAUSE, class.outer.unwrap_or(number), 0),
        None => true,
    }
}

/// Whether a body is there, of this kind and class, on the instance side, with so many parameters.
fn is_body_with(code: &CodeProgram, body: u32, kind: u8, class: u32, params: u8) -> bool
    ensures { result ≡ spec.is_body_of code.now body kind spec.instance_side class (λ given. given == params) }
{
    match code.bodies.as_slice().get(body as usize) {
        Some(body) => {
            body.kind == kind
                && body.side == INSTANCES
                && body.class == class
                && body.params == params
        }
        None => false,
    }
}

/// Whether each method of a side names its body.
fn have_bodies(
    code: &CodeProgram,
    names: &NameTable,
    side: u8,
    number: u32,
    methods: &[MethodCode],
) -> bool
    requires { IsNameTable code.now names.now }
    ensures { result ≡ spec.have_bodies code.now side number methods.now }
{
    'methods: for method in methods {
        if !is_method_body(code, names, side, number, *method) {
            return false;
        }
    }
    true
}

fn is_method_body(
    code: &CodeProgram,
    names: &NameTable,
    side: u8,
    number: u32,
    method: MethodCode,
) -> bool
    requires { IsNameTable code.now names.now }
    ensures { result ≡ spec.is_body_of code.now method.body spec.method_kind side number (spec.has_params_of code.now method.sel) }
{
    match code.bodies.as_slice().get(method.body as usize) {
        Some(body) => {
            body.kind == METHOD
                && body.side == side
                && body.class == number
                && names.has_params(code, method.sel, body.params)
        }
        None => false,
    }
}

/// Whether each nested entry is a class with this class as its outer.
fn has_nested(code: &CodeProgram, number: u32, class: &ClassCode) -> bool
    ensures { result ≡ spec.has_nested code.now number class.now }
{
    class
        .nested
        .as_slice()
        .iter()
        .all(|nested| is_inner(code, number, *nested))
}

fn is_inner(code: &CodeProgram, number: u32, nested: NestedCode) -> bool
    ensures { result ≡ option_map_or (λ (inner : ClassCode). option_map_or (λ outer. outer == number) inner.outer false)
        (slice_get code.now.classes nested.class) false }
{
    match code.classes.as_slice().get(nested.class as usize) {
        Some(inner) => inner.outer == Some(number),
        None => false,
    }
}

/// Whether the factory takes as many arguments as the class has parameters, at most 63.
fn has_params(code: &CodeProgram, names: &NameTable, class: &ClassCode) -> bool
    requires { IsNameTable code.now names.now }
    ensures { result ≡ spec.has_params code.now class.now }
{
    class.params < 64 && names.has_params(code, class.factory, class.params)
}

/// Whether a name isn't there, or that of a class or a slot isn't an identifier.
fn has_bad_literal(code: &CodeProgram, names: &NameTable, class: &ClassCode) -> bool
    requires { IsNameTable code.now names.now }
    ensures { result ≡ spec.has_bad_literal code.now class.now }
{
    if !is_identifier_name(code, names, class.name)
        || !is_name(code, class.factory)
        || !is_name(code, class.super_sel)
    {
        return true;
    }
    has_bad_slot(code, names, class.slots.as_slice())
        || has_bad_method(code, class.methods.as_slice())
        || has_bad_method(code, class.side_methods.as_slice())
}

fn has_bad_slot(code: &CodeProgram, names: &NameTable, slots: &[SlotCode]) -> bool
    requires { IsNameTable code.now names.now }
    ensures { result ≡ list_any (λ (slot : SlotCode). not (spec.is_identifier_name code.now slot.name)) slots.now }
{
    'slots: for slot in slots {
        if !is_identifier_name(code, names, slot.name) {
            return true;
        }
    }
    false
}

/// Whether it is the number of an identifier.
fn is_identifier_name(code: &CodeProgram, names: &NameTable, name: Sel) -> bool
    requires { IsNameTable code.now names.now }
    ensures { result ≡ spec.is_identifier_name code.now name }
{
    let _code = code;
    names.is_identifier(name)
}

fn has_bad_method(code: &CodeProgram, methods: &[MethodCode]) -> bool
    ensures { result ≡ list_any (λ (method : MethodCode). not (spec.is_name code.now method.sel)) methods.now }
{
    methods.iter().any(|method| !is_name(code, method.sel))
}
