//! What is asked of bodies, found once.

ghost use Rattle.std.specs.Prelude.{◌≡◌, IfOk, Some, map, option_map, slice_get};
ghost use Rattle.ns_code.specs.declared.program.CodeProgram.{CodeProgram};
ghost use Rattle.ns_code.specs.declared.body.BodyCode.{BodyCode as BodyOf};
ghost use Rattle.ns_code.specs.Fits.{Fits};
ghost use Rattle.ns_verify.specs.Verify.{IsSound};
ghost use Rattle.ns_moves.specs.ValidFrames.{is_in_method, has_block_home};
ghost use Rattle.ns_frozen.specs.Frames.{stands_at};
ghost use Rattle.ns_frozen_tables.specs.Above.{above_shown};
ghost use Rattle.ns_frozen_tables.specs.Bodies.{AreBodies};
ghost use Rattle.ns_frozen_tables.specs.Stands as spec;

use crate::above::{Above, is_under_initialiser};
use crate::shapes::shapes_of;
use crate::stand::{Stand, stands_of, waits_for};
use ns_base::items::Items;
use ns_base::no_memory::NoMemory;
use ns_code::kinds::{CLAUSE, METHOD};
use ns_code::program::CodeProgram;
use ns_verify::chains::{home_kinds, kind_or};
use std::alloc::Global;

/// The home of what runs in no method.
pub const NO_HOME: u64 = u64::MAX;

/// The kind of the outermost body around each body, where each can stand, and which have one shape.
#[derive(Drop)]
pub struct Bodies {
    pub homes: Items<u8>,
    pub stands: Items<Items<Stand>>,
    pub shapes: Items<u32>,
}

impl Bodies {
    /// Those of sound code.
    pub fn of(alloc: Global, code: &CodeProgram) -> Result<Bodies, NoMemory>
        requires sound { IsSound code.now }
        requires fits { Fits code.now }
        ensures { IfOk result (λ bodies. AreBodies code.now bodies) }
    {
        let homes = Items::from_vec(home_kinds(alloc, code.bodies.as_slice())?);
        let stands = all_stands(alloc, code)?;
        let shapes = shapes_of(alloc, code)?;
        Ok(Bodies {
            homes,
            stands,
            shapes,
        })
    }

    /// Whether a block of a body can have a home: one that began where the block stands in a method, and none otherwise.
    pub fn has_block_home(&self, homes: u64, body: u32, home: u64) -> bool
        ensures { (code : CodeProgram) → AreBodies code self.now → result ≡ has_block_home code homes body home }
    {
        if self.is_in_method(body) {
            home < homes
        } else {
            home == NO_HOME
        }
    }

    /// Whether the outermost body around a body is a method.
    fn is_in_method(&self, body: u32) -> bool
        ensures { (code : CodeProgram) → AreBodies code self.now → result ≡ is_in_method code body }
    {
        kind_or(self.homes.as_slice(), body, CLAUSE) == METHOD
    }

    /// Whether a body stands at an instruction with so many operands.
    pub fn stands_at(&self, body: u32, above: Above, at: u32, count: usize) -> bool
        ensures { (code : CodeProgram) (one : BodyOf) → AreBodies code self.now → slice_get code.bodies body ≡ Some one →
            result ≡ stands_at one (above_shown above) at count }
    {
        match kept_of(self.stands.as_slice(), body) {
            Some(stands) => stands_in(stands, above, at, count),
            None => false,
        }
    }
}

/// What is kept of the body of that number.
fn kept_of(all: &[Items<Stand>], body: u32) -> Option<&[Stand]>
    ensures { option_map (λ stands. stands.now) result ≡ slice_get all.now body }
{
    match all.get(body as usize) {
        Some(stands) => Some(stands.as_slice()),
        None => None,
    }
}

/// The same of its instructions.
fn stands_in(stands: &[Stand], above: Above, at: u32, count: usize) -> bool
    ensures { result ≡ spec.stands_in stands.now (above_shown above) at count }
{
    match stands.get(at as usize) {
        Some(stand) => stands_so(*stand, above, count),
        None => false,
    }
}

/// The same of one instruction.
fn stands_so(stand: Stand, above: Above, count: usize) -> bool
    ensures { result ≡ spec.stands_so stand (above_shown above) count }
{
    match above {
        Above::Free => count == usize::from(stand.height),
        _ => {
            waits_for(is_under_initialiser(above), stand.waits) && count == usize::from(stand.left)
        }
    }
}

/// Where all bodies can stand, by number.
fn all_stands(alloc: Global, code: &CodeProgram) -> Result<Items<Items<Stand>>, NoMemory>
    requires sound { IsSound code.now }
    requires fits { Fits code.now }
    ensures { IfOk result (λ all. all ≡ map spec.stands_of code.now.bodies) }
{
    let mut all = Vec::with_capacity(alloc, code.bodies.len())?;
    let mut number: u32 = 0;
    'bodies: for body in code.bodies.as_slice() {
        all.push(stands_of(alloc, code, number, body)?)?;
        number += 1;
    }
    Ok(Items::from_vec(all))
}
