//! Making a plan, body by body.

ghost use Rattle.std.specs.Prelude.{◌≡◌, ◌+◌, ◌<◌, ◌≤◌, length, max, All, IfOk, OnOk};
ghost use Rattle.ns_code.specs.Fits.{BodyFits};
ghost use Rattle.ns_machine_plan.specs.Steps.{no_place};
ghost use Rattle.ns_machine_plan.specs.Rows.{row_of};
ghost use Rattle.ns_machine_plan.specs.Making.{IsEmpty, IsAdded, SendsAName};
ghost use Rattle.ns_machine_plan.specs.Spelled.{AreRowsOf};
ghost use Rattle.ns_machine_plan.specs.Members.{ArePrivatesOf};

use crate::members::Privates;
use crate::packed_steps::PackedSteps;
use crate::row::Row;
use crate::spelled::SpelledRows;
use ns_base::no_memory::NoMemory;
use ns_code::body::BodyCode;
use ns_code::program::CodeProgram;
use std::alloc::Global;

/// What a plan has of the bodies that were added, and how many places these have.
#[derive(Drop)]
pub struct Draft {
    pub steps: PackedSteps,
    pub bodies: Vec<Row>,
    pub places: u32,
    pub greatest: u32,
}

impl Draft {
    /// No body yet, with room for so many and for as many sends as they have places.
    pub fn with_room(alloc: Global, bodies: usize, places: u32) -> Result<Draft, NoMemory>
        ensures { IfOk result IsEmpty }
    {
        let steps = PackedSteps::with_room(alloc, bodies, places as usize)?;
        let rows = Vec::with_capacity(alloc, bodies)?;
        Ok(Draft {
            steps,
            bodies: rows,
            places: 0,
            greatest: 0,
        })
    }

    /// Adds a body.
    pub fn add(
        &mut self,
        alloc: Global,
        code: &CodeProgram,
        privates: &Privates,
        rows: &SpelledRows,
        body: &BodyCode,
    ) -> Result<(), NoMemory>
        requires privates { ArePrivatesOf code.now privates.now }
        requires rows { AreRowsOf code.now rows.now }
        requires body { BodyFits code.now body.now }
        requires names { All (SendsAName code.now) body.now.instrs }
        requires number { length self.old.bodies.items < 65536 }
        requires places { self.old.places + length body.now.places ≤ no_place }
        ensures { OnOk result (IsAdded code.now body.now self.old self.new) }
    {
        let row = row_of(self.bodies.len() as u32, body);
        self.steps
            .add(alloc, code, privates, rows, body, self.places)?;
        self.bodies.push(row)?;
        self.places += body.places.len() as u32;
        self.greatest = greater(self.greatest, frame_size(body));
        Ok(())
    }
}

/// The row of a body by its number.
fn row_of(number: u32, body: &BodyCode) -> Row
    ensures { result ≡ row_of number body.now }
{
    Row {
        class: body.class,
        params: body.params,
        locals: body.locals,
        environment: body.environment,
        beside: if body.environment { 0 } else { body.locals },
        height: body.height,
        class_side: body.side == 1,
        kind: body.kind,
        parent: body.parent,
        around: if body.environment {
            Some(number)
        } else {
            body.parent
        },
    }
}

/// How many locals and operands a body has at most.
fn frame_size(body: &BodyCode) -> u32
    ensures { result ≡ body.now.locals + body.now.height }
{
    u32::from(body.locals) + u32::from(body.height)
}

/// The greater of two numbers.
fn greater(one: u32, other: u32) -> u32
    ensures { result ≡ max one other }
{
    one.max(other)
}
