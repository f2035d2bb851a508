//! Code prepared for running.

ghost use Rattle.std.specs.Prelude.{◌≡◌, ◌<◌, length, IfOk};
ghost use Rattle.ns_code.specs.declared.program.CodeProgram.{CodeProgram};
ghost use Rattle.ns_code.specs.Selector.{selector_arity, own_number};
ghost use Rattle.ns_machine_plan.specs.Plan.{IsPlanOf, HasStep, IsStepAt, AreStepsOf};
ghost use Rattle.ns_machine_plan.specs.Rows.{IsRowOf};
ghost use Rattle.ns_machine_plan.specs.Steps.{places_of};
ghost use Rattle.ns_moves.specs.Bodies.{greatest_of};

use crate::kept_step::{KeptSteps, kept_at, step_in};
use crate::making::Draft;
use crate::members::Privates;
use crate::packed_steps::PackedSteps;
use crate::room::place_count;
use crate::row::Row;
use crate::spelled::SpelledRows;
use crate::step::Step;
use ns_base::items::Items;
use ns_base::no_memory::NoMemory;
use ns_base::selector::Sel;
use ns_code::own::Own;
use ns_code::program::CodeProgram;
use ns_code::selectors::SelectorTable;
use ns_verify::laws::sound_instructions_are_usable;
use ns_verify::verify::Verified;
use std::alloc::Global;

/// Code prepared for running: the steps of each body; a row for each body; how many places the code has; its selectors;
/// and the greatest number of locals and operands of a body.
#[derive(Drop)]
pub struct Plan {
    steps: PackedSteps,
    bodies: Items<Row>,
    place_count: u32,
    selectors: SelectorTable,
    greatest: u32,
}

impl Plan {
    /// Prepares code that was verified. Only this takes memory.
    pub fn new(alloc: Global, verified: &Verified) -> Result<Plan, NoMemory>
        ensures { IfOk result (λ plan. IsPlanOf verified.now plan) }
    {
        let code = verified.code();
        let selectors = SelectorTable::new(alloc, code)?;
        let privates = Privates::new(alloc, code)?;
        let rows = SpelledRows::new(alloc, code)?;
        sound_instructions_are_usable();
        let place_count = place_count(code.bodies.as_slice())?;
        let mut draft = Draft::with_room(alloc, code.bodies.len(), place_count)?;
        'bodies: for body in code.bodies.as_slice() {
            draft.add(alloc, code, &privates, &rows, body)?;
        }
        Ok(Plan {
            steps: draft.steps,
            bodies: Items::from_vec(draft.bodies),
            place_count,
            selectors,
            greatest: draft.greatest,
        })
    }

    /// The row of a body.
    #[inline(always)]
    pub fn row(&self, code: &CodeProgram, body: u32) -> &Row
        requires plan { IsPlanOf code.now self.now }
        requires there { body < length code.now.bodies }
        ensures { IsRowOf code.now body result.now }
    {
        let _code = code;
        &self.bodies.as_slice()[body as usize]
    }

    /// The step of that number of a body. Its place is the one of its number among the places of the code.
    #[inline(always)]
    pub fn step(&self, code: &CodeProgram, body: u32, next: u32) -> Step
        requires plan { IsPlanOf code.now self.now }
        requires there { HasStep code.now body next }
        ensures { IsStepAt code.now body next result }
    {
        step_in(kept_at(self.steps_of(code, body), next))
    }

    /// The steps of a body as they are kept.
    #[inline(always)]
    pub fn steps_of(&self, code: &CodeProgram, body: u32) -> KeptSteps<'_>
        requires plan { IsPlanOf code.now self.now }
        requires there { body < length code.now.bodies }
        ensures { AreStepsOf code.now body result }
    {
        let _code = code;
        self.steps.of_body(body)
    }

    /// How many places the code has. A step's place has its number among them, in the order of the code.
    pub fn place_count(&self) -> u32
        ensures { (code : CodeProgram) → IsPlanOf code self.now → result ≡ length (places_of code) }
    {
        self.place_count
    }

    /// How many arguments a selector takes.
    #[inline(always)]
    pub fn arity(&self, sel: Sel) -> usize
        ensures { (code : CodeProgram) → IsPlanOf code self.now → result ≡ selector_arity code sel.0 }
    {
        self.selectors.arity(sel)
    }

    /// The number of an own selector.
    #[inline(always)]
    pub fn own(&self, own: Own) -> Sel
        ensures { (code : CodeProgram) → IsPlanOf code self.now → result.0 ≡ own_number code own }
    {
        self.selectors.own(own)
    }

    /// The greatest number of locals and operands that a body has.
    pub fn greatest_frame(&self) -> u32
        ensures { (code : CodeProgram) → IsPlanOf code self.now → result ≡ greatest_of code.bodies }
    {
        self.greatest
    }
}
