//! The shapes of bodies: how many locals a body and those around it have. Bodies of one shape fit the same environments.

ghost use Rattle.std.specs.Prelude.{◌≡◌, ◌≤◌, true, IfOk, length};
ghost use Rattle.ns_frozen_tables.specs.Shapes as spec;

use ns_base::items::Items;
use ns_base::no_memory::NoMemory;
use ns_code::body::BodyCode;
use ns_code::program::CodeProgram;
use std::alloc::Global;
use std::collections::BTreeMap;

/// The shapes of all bodies, each told by the number of the first body that has it.
#[tactic(auto, using(crate::proofs::Alike::no_shapes))]
pub fn shapes_of(alloc: Global, code: &CodeProgram) -> Result<Items<u32>, NoMemory>
    requires { length code.now.bodies ≤ 65536 }
    ensures { IfOk result (λ shapes. spec.AreShapes code.now shapes) }
{
    let mut first = BTreeMap::new(alloc);
    let mut shapes = Vec::with_capacity(alloc, code.bodies.len())?;
    let mut number: u32 = 0;
    'bodies: for body in code.bodies.as_slice() {
        let key = key_of(shapes.as_slice(), body);
        let known = first.get(&key).copied();
        let shape = shape_of(code, shapes.as_slice(), number, body, known);
        if shape == number {
            first.insert(key, number)?;
        }
        shapes.push(shape)?;
        number += 1;
    }
    Ok(Items::from_vec(shapes))
}

/// What tells a shape: that of the body around, if there is one, and the count of locals.
fn key_of(shapes: &[u32], body: &BodyCode) -> u64 {
    let locals = u64::from(body.locals);
    match parent_shape(shapes, body.parent) {
        Some(shape) => (u64::from(shape) + 1) * 256 + locals,
        None => locals,
    }
}

/// The shape of the body around another, if there is one.
fn parent_shape(shapes: &[u32], parent: Option<u32>) -> Option<u32> {
    match parent {
        Some(parent) => shapes.get(parent as usize).copied(),
        None => None,
    }
}

/// The shape of the body of a number, where a body is known that seems to be like it.
fn shape_of(
    code: &CodeProgram,
    shapes: &[u32],
    number: u32,
    body: &BodyCode,
    known: Option<u32>,
) -> u32
    ensures { spec.IsShape code.now shapes.now number body.now result }
{
    match known {
        Some(other) => {
            if is_twin(code, shapes, body, other) {
                other
            } else {
                number
            }
        }
        None => number,
    }
}

/// Whether a body is like that of a number.
fn is_twin(code: &CodeProgram, shapes: &[u32], body: &BodyCode, number: u32) -> bool
    ensures { result ≡ true → spec.IsTwin code.now shapes.now body.now number }
{
    match code.bodies.as_slice().get(number as usize) {
        Some(other) => body.locals == other.locals && are_alike(shapes, body.parent, other.parent),
        None => false,
    }
}

/// Whether the bodies around two have one shape, or there are none.
fn are_alike(shapes: &[u32], one: Option<u32>, other: Option<u32>) -> bool
    ensures { result ≡ true → spec.AreAlike shapes.now one other }
{
    match (one, other) {
        (None, None) => true,
        (Some(one), Some(other)) => have_shape(shapes, one, other),
        _ => false,
    }
}

/// Whether two bodies have one shape.
pub fn have_shape(shapes: &[u32], one: u32, other: u32) -> bool
    ensures { result ≡ true → spec.HaveShape shapes.now one other }
{
    match (shapes.get(one as usize), shapes.get(other as usize)) {
        (Some(one), Some(other)) => *one == *other,
        _ => false,
    }
}
