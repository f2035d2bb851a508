//! The opening of a program of tests, the class that it answers, and its tests.

ghost use Rattle.std.specs.Prelude.{◌≡◌, Some, None, IfOk, IsSome, option_map, if◌then◌else◌};
ghost use Rattle.ns_base.specs.Limits.{InRange};
ghost use Rattle.ns_run_code.specs.Run.{granted};
ghost use Rattle.ns_run_code.specs.Running.{HasAnEnd};
ghost use Rattle.ns_world.specs.Heap.{find_cell, is_class};
ghost use Rattle.ns_world.specs.Lawful.{IsLiveValue};
ghost use Rattle.ns_world.specs.Layout.{declaration_of};
ghost use Rattle.ns_test.specs.Opening as spec;

use ns_base::limits::Limits;
use ns_base::no_memory::NoMemory;
use ns_base::selector::Sel;
use ns_code::class::{ClassCode, MethodCode};
use ns_code::program::CodeProgram;
use ns_code::selector::text_arity;
use ns_machine::machine::Machine;
use ns_run_code::code::rested_machine;
use ns_verify::verify::Verified;
use ns_world::value::Value;
use ns_world::world::World;
use std::alloc::Global;

/// The access of public members.
const PUBLIC: u8 = 0;

/// A machine of some code in which the opening has come to rest.
pub fn opened(alloc: Global, code: &Verified, limits: Limits) -> Result<Machine, NoMemory>
    requires { InRange limits }
    ensures machine { IfOk result (λ machine. machine ≡ record {
      code = code.now;
      grants = granted;
      state = spec.opened code.now limits;
    }) }
    ensures ended { IfOk result (λ machine. HasAnEnd machine.state) }
{
    let own = code.copy(alloc)?;
    let machine = rested_machine(alloc, own, limits, &[])?;
    Ok(machine)
}

/// The class of tests that a value is: a declared class whose factory is `new`. None comes where it is no such class.
pub fn tests_class<'a>(code: &'a CodeProgram, world: &World, value: Value) -> Option<&'a ClassCode>
    requires { IsLiveValue world.now.world.cells code.now value }
    ensures { option_map (λ class. class.now) result ≡ spec.tests_class code.now world.now.world.cells value }
{
    match class_declared(code, world, value) {
        Some(number) => class_with_new(code, number),
        None => None,
    }
}

/// The declaration of a value, where that is a declared class.
fn class_declared(code: &CodeProgram, world: &World, value: Value) -> Option<u32>
    requires { IsLiveValue world.now.world.cells code.now value }
    ensures { result ≡ spec.class_declared world.now.world.cells value }
{
    let _code = code;
    match value {
        Value::Ref(at) => declared_at(world, at),
        _ => None,
    }
}

/// The declaration of a cell, where that is a class.
fn declared_at(world: &World, at: u32) -> Option<u32>
    requires { IsSome (find_cell world.now.world.cells at) }
    ensures { result ≡ (if is_class (find_cell world.now.world.cells at) then Some (declaration_of world.now.world.cells at) else None) }
{
    if world.is_class(at) {
        Some(world.declaration(at))
    } else {
        None
    }
}

/// The class of that number, where its factory is `new`.
fn class_with_new(code: &CodeProgram, number: u32) -> Option<&ClassCode>
    ensures { option_map (λ class. class.now) result ≡ spec.class_with_new code.now number }
{
    match code.classes.as_slice().get(number as usize) {
        Some(class) => with_new(code, class),
        None => None,
    }
}

/// A class, where its factory is `new`.
fn with_new<'a>(code: &CodeProgram, class: &'a ClassCode) -> Option<&'a ClassCode>
    ensures { option_map (λ class. class.now) result ≡ spec.with_new code.now class.now }
{
    if code.selector_text(class.factory) == b"new".as_slice() {
        Some(class)
    } else {
        None
    }
}

/// The tests of a class: those of its own instance side, in the order of the text.
pub fn tests_of(alloc: Global, code: &CodeProgram, class: &ClassCode) -> Result<Vec<Sel>, NoMemory>
    ensures { IfOk result (λ tests. tests.items ≡ spec.tests_of code.now class.now) }
{
    Ok(
        class
            .methods
            .as_slice()
            .iter()
            .filter(|method| is_test(code, **method))
            .map(|method| method.sel)
            .collect(alloc)?,
    )
}

/// Whether a method is a test: it is public, and its name is a test's.
fn is_test(code: &CodeProgram, method: MethodCode) -> bool
    ensures { result ≡ spec.is_test code.now method }
{
    method.access == PUBLIC && names_test(code.selector_text(method.sel))
}

/// Whether a name is a test's: it takes no argument and begins with `test`.
fn names_test(name: &[u8]) -> bool
    ensures { result ≡ spec.names_test name.now }
{
    text_arity(name) == 0 && name.starts_with(b"test")
}
