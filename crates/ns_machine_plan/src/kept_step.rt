//! Steps as a plan keeps them.

ghost use Rattle.std.specs.Prelude.{◌≡◌, ◌<◌, length, All};
ghost use Rattle.std.specs.List.{slice_index_or};
ghost use Rattle.ns_machine_plan.specs.declared.step.Step.TheVariants.{PushNil};
ghost use Rattle.ns_machine_plan.specs.Packed.{EntryIsThere, step_in, steps_in};

use crate::packed::Packed;
use crate::step::Step;
use crate::tables::Tables;

/// A step in eight bytes, where it stands, and the tables of what doesn't fit into them. Whoever does it reads no more of it than
/// it asks for.
#[derive(Clone, Copy)]
pub struct KeptStep<'a> {
    pub packed: &'a Packed,
    pub tables: &'a Tables,
}

/// The step that a kept one stands for.
#[inline(always)]
pub fn step_in(kept: KeptStep<'_>) -> Step
    requires { EntryIsThere kept.tables.now kept.packed.now }
    ensures { result ≡ step_in kept.entry }
{
    kept.tables.unpack(kept.packed)
}

/// Kept steps, one behind the other.
#[derive(Clone, Copy)]
pub struct KeptSteps<'a> {
    pub packed: &'a [Packed],
    pub tables: &'a Tables,
}

/// The one of that number among kept steps.
#[inline(always)]
pub fn kept_at<'a>(steps: KeptSteps<'a>, number: u32) -> KeptStep<'a>
    requires within { number < length steps.packed.now }
    requires there { All (EntryIsThere steps.tables.now) steps.packed.now }
    ensures there { EntryIsThere result.tables.now result.packed.now }
    ensures step { step_in result ≡ slice_index_or (steps_in steps.entry) number PushNil }
{
    KeptStep {
        packed: &steps.packed[number as usize],
        tables: steps.tables,
    }
}
