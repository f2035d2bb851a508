//! The steps of bodies, which are kept packed.

ghost use Rattle.std.specs.Prelude.{◌≡◌, ◌+◌, ◌<◌, ◌≤◌, [], ◌∷◌, ◌++◌, length, All, IfOk, OnOk};
ghost use Rattle.std.specs.List.{slice_index_or};
ghost use Rattle.ns_machine_plan.specs.Making.{AreFrom, SendsAName};
ghost use Rattle.ns_machine_plan.specs.Members.{ArePrivatesOf};
ghost use Rattle.ns_machine_plan.specs.Packed.{EntryIsThere, steps_in};
ghost use Rattle.ns_machine_plan.specs.Spelled.{AreRowsOf};
ghost use Rattle.ns_machine_plan.specs.Steps.{no_place, prepared};

use crate::kept_step::KeptSteps;
use crate::members::Privates;
use crate::packed::Packed;
use crate::spelled::SpelledRows;
use crate::steps::pack_steps;
use crate::tables::Tables;
use ns_base::items::Items;
use ns_base::no_memory::NoMemory;
use ns_code::body::BodyCode;
use ns_code::program::CodeProgram;
use std::alloc::Global;
use std::marker::Model;

/// The steps of bodies, each in eight bytes, and the tables of what doesn't fit into these. Those of a body stand in a list of
/// their own, which finds memory where one of all bodies would find none in one piece. A clause sees the lists of the steps.
#[derive(Drop)]
pub struct PackedSteps {
    bodies: Vec<Items<Packed>>,
    tables: Tables,
}

impl Model for PackedSteps {
    ghost use Rattle.std.specs.Prelude.{List, map, All};
    ghost use Rattle.ns_machine_plan.specs.declared.step.Step.{Step};
    ghost use Rattle.ns_machine_plan.specs.Packed.{unpacked, EntryIsThere};

    ghost Value = { List (List Step) };

    ghost view = { λ steps. map (map (unpacked steps.tables)) steps.bodies.items };

    ghost invariant = { λ steps. All (All (EntryIsThere steps.tables)) steps.bodies.items };
}

impl PackedSteps {
    /// Those of no body, with room for those of so many, and for so many sends to values.
    pub fn with_room(alloc: Global, bodies: usize, sends: usize) -> Result<PackedSteps, NoMemory>
        ensures { IfOk result (λ steps. steps ≡ []) }
    {
        let tables = Tables::with_room(alloc, sends)?;
        let bodies = Vec::with_capacity(alloc, bodies)?;
        Ok(PackedSteps { bodies, tables })
    }

    /// Adds the steps of a body, whose places are numbered from that number on.
    pub fn add(
        &mut self,
        alloc: Global,
        code: &CodeProgram,
        privates: &Privates,
        rows: &SpelledRows,
        body: &BodyCode,
        first: u32,
    ) -> Result<(), NoMemory>
        requires privates { ArePrivatesOf code.now privates.now }
        requires rows { AreRowsOf code.now rows.now }
        requires names { All (SendsAName code.now) body.now.instrs }
        requires few { length body.now.instrs ≤ 65536 }
        requires order { AreFrom 0 body.now.places }
        requires numbers { first + length body.now.places ≤ no_place }
        ensures { OnOk result (self.new ≡ self.old ++ prepared code.now body.now first body.now.places 0 body.now.instrs ∷ []) }
    {
        let packed = pack_steps(alloc, &mut self.tables, code, privates, rows, body, first)?;
        self.bodies.push(Items::from_vec(packed))?;
        Ok(())
    }

    /// Those of a body by its number, as they are kept.
    #[inline(always)]
    pub fn of_body(&self, body: u32) -> KeptSteps<'_>
        requires { body < length self.now }
        ensures there { All (EntryIsThere result.tables.now) result.packed.now }
        ensures steps { steps_in result ≡ slice_index_or self.now body [] }
    {
        KeptSteps {
            packed: self.bodies.as_slice()[body as usize].as_slice(),
            tables: &self.tables,
        }
    }
}
