//! Which bodies environments were found to fit. An environment that is known to fit a body fits all bodies of that shape, so
//! none is gone over twice.

ghost use Rattle.std.specs.Prelude.{◌≡◌, ◌<◌, ℕ, true, length, slice_get, slice_set, Some, IfOk, IfSome};
ghost use Rattle.ns_code.specs.Fits.{Fits};
ghost use Rattle.ns_verify.specs.Verify.{IsSound};
ghost use Rattle.ns_world.specs.declared.value.Value.TheVariants.{Ref};
ghost use Rattle.ns_frozen.specs.Live.{fits_environment};
ghost use Rattle.ns_frozen_seen.specs.Fitting.{AreFitting};
ghost use Rattle.ns_frozen_seen.specs.Seen.{IsSeen, heap_of};

use crate::environments::{around, fits_environment};
use ns_base::no_memory::NoMemory;
use ns_code::program::CodeProgram;
use ns_frozen::cell::CellData;
use ns_frozen::frame::{FrameKind, FrozenFrame};
use ns_frozen::stored::Cells;
use ns_frozen_seen::seen::Seen;
use ns_world::value::Value;
use std::alloc::Global;

/// The number of no body.
const NO_BODY: u32 = u32::MAX;

/// Sees these cells, over this code, and what the environments of these frames fit.
pub fn seen_fitting<'a>(
    alloc: Global,
    code: &'a CodeProgram,
    cells: &'a Cells,
    frames: &[FrozenFrame],
) -> Result<Seen<'a>, NoMemory>
    requires sound { IsSound code.now }
    requires fits { Fits code.now }
    ensures seen { IfOk result (λ seen. IsSeen seen) }
    ensures these { IfOk result (λ seen. (seen.code.now ≡ code.now) × (seen.cells.now ≡ cells.now)) }
{
    let mut seen = Seen::of(alloc, code, cells)?;
    let kept = fitting(alloc, &seen, frames)?;
    seen.kept = kept;
    Ok(seen)
}

/// What environments fit, as far as the blocks and then these frames tell: up to the first that has one which doesn't fit.
#[tactic(auto, using(crate::proofs::Fitted::seen_none_fit))]
fn fitting(alloc: Global, seen: &Seen<'_>, frames: &[FrozenFrame]) -> Result<Vec<u32>, NoMemory>
    requires { IsSeen seen.now }
    ensures { IfOk result (λ kept. AreFitting seen.now.code.now (heap_of seen.now) seen.now.numbers kept.items) }
{
    let mut kept = vec![in alloc; NO_BODY; seen.cells.len()]?;
    if !keep_blocks(seen, &mut kept) {
        return Ok(kept);
    }
    keep_frames(seen, &mut kept, frames);
    Ok(kept)
}

/// The same of all blocks, and whether all have what fits.
fn keep_blocks(seen: &Seen<'_>, kept: &mut Vec<u32>) -> bool
    requires seen { IsSeen seen.now }
    requires kept { AreFitting seen.now.code.now (heap_of seen.now) seen.now.numbers kept.old.items }
    ensures { AreFitting seen.now.code.now (heap_of seen.now) seen.now.numbers kept.new.items }
{
    'cells: for place in 0..seen.cells.len() {
        let cell = seen.cells.at(place);
        if !keep_cell(seen, kept, &cell) {
            return false;
        }
    }
    true
}

/// The same of one cell.
fn keep_cell(seen: &Seen<'_>, kept: &mut Vec<u32>, cell: &CellData<'_>) -> bool
    requires seen { IsSeen seen.now }
    requires kept { AreFitting seen.now.code.now (heap_of seen.now) seen.now.numbers kept.old.items }
    ensures { AreFitting seen.now.code.now (heap_of seen.now) seen.now.numbers kept.new.items }
{
    match cell {
        CellData::Block { body, env, .. } => keep_block(seen, kept, *body, *env),
        _ => true,
    }
}

/// The same of a block of that body.
fn keep_block(seen: &Seen<'_>, kept: &mut Vec<u32>, number: u32, env: Value) -> bool
    requires seen { IsSeen seen.now }
    requires kept { AreFitting seen.now.code.now (heap_of seen.now) seen.now.numbers kept.old.items }
    ensures { AreFitting seen.now.code.now (heap_of seen.now) seen.now.numbers kept.new.items }
{
    match seen.code.bodies.as_slice().get(number as usize) {
        Some(body) => keep(seen, kept, body.parent, env),
        None => false,
    }
}

/// The same of all frames.
fn keep_frames(seen: &Seen<'_>, kept: &mut Vec<u32>, frames: &[FrozenFrame])
    requires seen { IsSeen seen.now }
    requires kept { AreFitting seen.now.code.now (heap_of seen.now) seen.now.numbers kept.old.items }
    ensures { AreFitting seen.now.code.now (heap_of seen.now) seen.now.numbers kept.new.items }
{
    'frames: for frame in frames {
        if !keep_frame(seen, kept, frame) {
            return;
        }
    }
}

/// The same of one frame.
fn keep_frame(seen: &Seen<'_>, kept: &mut Vec<u32>, frame: &FrozenFrame) -> bool
    requires seen { IsSeen seen.now }
    requires kept { AreFitting seen.now.code.now (heap_of seen.now) seen.now.numbers kept.old.items }
    ensures { AreFitting seen.now.code.now (heap_of seen.now) seen.now.numbers kept.new.items }
{
    match frame.kind {
        FrameKind::Method(body) => keep_body(seen, kept, body, frame.env),
        FrameKind::Block(body) => keep_body(seen, kept, body, frame.env),
        FrameKind::Initialiser(body) => keep_body(seen, kept, body, frame.env),
        FrameKind::Clause { body, .. } => keep_body(seen, kept, body, frame.env),
        FrameKind::Kernel { .. } => true,
    }
}

/// The same of a frame of that body, which may have an environment of its own.
fn keep_body(seen: &Seen<'_>, kept: &mut Vec<u32>, number: u32, env: Value) -> bool
    requires seen { IsSeen seen.now }
    requires kept { AreFitting seen.now.code.now (heap_of seen.now) seen.now.numbers kept.old.items }
    ensures { AreFitting seen.now.code.now (heap_of seen.now) seen.now.numbers kept.new.items }
{
    match seen.code.bodies.as_slice().get(number as usize) {
        Some(body) => {
            if body.environment {
                keep(seen, kept, Some(number), env)
            } else {
                keep(seen, kept, body.parent, env)
            }
        }
        None => false,
    }
}

/// Keeps that an environment fits a body, and those around it what is around that, where they do.
fn keep(seen: &Seen<'_>, kept: &mut Vec<u32>, body: Option<u32>, env: Value) -> bool
    requires seen { IsSeen seen.now }
    requires kept { AreFitting seen.now.code.now (heap_of seen.now) seen.now.numbers kept.old.items }
    ensures { AreFitting seen.now.code.now (heap_of seen.now) seen.now.numbers kept.new.items }
{
    let depth = seen.code.bodies.len() as u64;
    if !fits_environment(seen, kept.as_slice(), depth, body, env) {
        return false;
    }
    keep_outwards(seen, kept, body, env);
    true
}

/// The same where they do.
fn keep_outwards(seen: &Seen<'_>, kept: &mut Vec<u32>, body: Option<u32>, env: Value)
    requires seen { IsSeen seen.now }
    requires kept { AreFitting seen.now.code.now (heap_of seen.now) seen.now.numbers kept.old.items }
    requires fits { fits_environment (length seen.now.code.now.bodies) seen.now.code.now (heap_of seen.now) body env ≡ true }
    ensures { AreFitting seen.now.code.now (heap_of seen.now) seen.now.numbers kept.new.items }
{
    let mut body = body;
    let mut env = env;
    'bodies: for _around in 0..seen.code.bodies.len() {
        match body {
            Some(number) => match keep_one(seen, kept, number, env) {
                Some((parent, outer)) => {
                    body = parent;
                    env = outer;
                }
                None => return,
            },
            None => return,
        }
    }
}

/// Keeps it of one, and gives what is around it, where nothing was known of it.
fn keep_one(
    seen: &Seen<'_>,
    kept: &mut Vec<u32>,
    number: u32,
    env: Value,
) -> Option<(Option<u32>, Value)>
    requires seen { IsSeen seen.now }
    requires kept { AreFitting seen.now.code.now (heap_of seen.now) seen.now.numbers kept.old.items }
    requires fits { fits_environment (length seen.now.code.now.bodies) seen.now.code.now (heap_of seen.now) (Some number) env ≡ true }
    ensures kept { AreFitting seen.now.code.now (heap_of seen.now) seen.now.numbers kept.new.items }
    ensures fits { IfSome result
        (λ around. fits_environment (length seen.now.code.now.bodies) seen.now.code.now (heap_of seen.now) around.0 around.1 ≡ true) }
{
    if is_known(seen, kept.as_slice(), number, env) {
        return None;
    }
    keep_shape(seen, kept, number, env);
    around(seen, number, env)
}

/// Keeps the shape of a body that an environment fits.
fn keep_shape(seen: &Seen<'_>, kept: &mut Vec<u32>, number: u32, env: Value)
    requires seen { IsSeen seen.now }
    requires kept { AreFitting seen.now.code.now (heap_of seen.now) seen.now.numbers kept.old.items }
    requires fits { fits_environment (length seen.now.code.now.bodies) seen.now.code.now (heap_of seen.now) (Some number) env ≡ true }
    ensures { AreFitting seen.now.code.now (heap_of seen.now) seen.now.numbers kept.new.items }
{
    match env {
        Value::Ref(at) => keep_shape_at(seen, kept, number, at),
        _ => {}
    }
}

/// The same of the environment of that number.
fn keep_shape_at(seen: &Seen<'_>, kept: &mut Vec<u32>, number: u32, at: u32)
    requires seen { IsSeen seen.now }
    requires kept { AreFitting seen.now.code.now (heap_of seen.now) seen.now.numbers kept.old.items }
    requires fits { fits_environment (length seen.now.code.now.bodies) seen.now.code.now (heap_of seen.now) (Some number) (Ref at) ≡ true }
    ensures { AreFitting seen.now.code.now (heap_of seen.now) seen.now.numbers kept.new.items }
{
    match number_in(seen.bodies.shapes.as_slice(), number as usize) {
        Some(shape) => keep_at(seen, kept, number, shape, at),
        None => {}
    }
}

/// The same of a body of that shape.
fn keep_at(seen: &Seen<'_>, kept: &mut Vec<u32>, number: u32, shape: u32, at: u32)
    requires seen { IsSeen seen.now }
    requires kept { AreFitting seen.now.code.now (heap_of seen.now) seen.now.numbers kept.old.items }
    requires told { slice_get seen.now.bodies.shapes number ≡ Some shape }
    requires fits { fits_environment (length seen.now.code.now.bodies) seen.now.code.now (heap_of seen.now) (Some number) (Ref at) ≡ true }
    ensures { AreFitting seen.now.code.now (heap_of seen.now) seen.now.numbers kept.new.items }
{
    match seen.place_of_cell(at) {
        Some(place) => set(kept, place, shape),
        None => {}
    }
}

/// Whether an environment is known to fit a body with so many around it.
pub fn is_known_within(seen: &Seen<'_>, kept: &[u32], depth: u64, number: u32, env: Value) -> bool
    requires seen { IsSeen seen.now }
    requires kept { AreFitting seen.now.code.now (heap_of seen.now) seen.now.numbers kept.now }
    ensures { result ≡ true → fits_environment depth seen.now.code.now (heap_of seen.now) (Some number) env ≡ true }
{
    u64::from(number) < depth && is_known(seen, kept, number, env)
}

/// Whether it is known to fit it.
fn is_known(seen: &Seen<'_>, kept: &[u32], number: u32, env: Value) -> bool
    requires seen { IsSeen seen.now }
    requires kept { AreFitting seen.now.code.now (heap_of seen.now) seen.now.numbers kept.now }
    ensures { (depth : ℕ) → result ≡ true → number < depth → fits_environment depth seen.now.code.now (heap_of seen.now) (Some number) env ≡ true }
{
    match env {
        Value::Ref(at) => is_known_at(seen, kept, number, at),
        _ => false,
    }
}

/// The same of the environment of that number.
fn is_known_at(seen: &Seen<'_>, kept: &[u32], number: u32, at: u32) -> bool
    requires seen { IsSeen seen.now }
    requires kept { AreFitting seen.now.code.now (heap_of seen.now) seen.now.numbers kept.now }
    ensures { (depth : ℕ) → result ≡ true → number < depth → fits_environment depth seen.now.code.now (heap_of seen.now) (Some number) (Ref at) ≡ true }
{
    match number_in(seen.bodies.shapes.as_slice(), number as usize) {
        Some(shape) => has_shape(seen, kept, number, shape, at),
        None => false,
    }
}

/// The same of a body of that shape.
fn has_shape(seen: &Seen<'_>, kept: &[u32], number: u32, shape: u32, at: u32) -> bool
    requires seen { IsSeen seen.now }
    requires kept { AreFitting seen.now.code.now (heap_of seen.now) seen.now.numbers kept.now }
    requires told { slice_get seen.now.bodies.shapes number ≡ Some shape }
    ensures { (depth : ℕ) → result ≡ true → number < depth → fits_environment depth seen.now.code.now (heap_of seen.now) (Some number) (Ref at) ≡ true }
{
    match seen.place_of_cell(at) {
        Some(place) => is_at(kept, place, shape),
        None => false,
    }
}

/// Whether that number stands at a place.
fn is_at(numbers: &[u32], place: usize, number: u32) -> bool
    ensures { result ≡ true → slice_get numbers.now place ≡ Some number }
{
    match number_in(numbers, place) {
        Some(other) => other == number,
        None => false,
    }
}

/// The number at a place, if there is one.
fn number_in(numbers: &[u32], place: usize) -> Option<u32>
    ensures { result ≡ slice_get numbers.now place }
{
    numbers.get(place).copied()
}

/// Sets the number at a place, if there is one.
fn set(numbers: &mut Vec<u32>, place: usize, number: u32)
    ensures { numbers.new.items ≡ slice_set numbers.old.items place number }
{
    if let Some(there) = numbers.get_mut(place) {
        *there = number;
    }
}
