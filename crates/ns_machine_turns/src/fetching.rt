//! The next step of the body that runs.

ghost use Rattle.std.specs.Prelude.{◌≡◌};
ghost use Rattle.ns_machine_plan.specs.Packed as kept;
ghost use Rattle.ns_machine_plan.specs.Packed.{EntryIsThere};
ghost use Rattle.ns_machine_plan.specs.Plan.{AreStepsOf};
ghost use Rattle.ns_machine_core.specs.declared.state.Next.TheVariants as next;
ghost use Rattle.ns_machine_core.specs.Straight.{TopRunsBody};
ghost use Rattle.ns_machine_turns.specs.Prepared.{IsPrepared, IsPreparedToRun, IsAhead};

use ns_code::program::CodeProgram;
use ns_machine_core::laws::valid_runs_have_a_next_step;
use ns_machine_core::state::Core;
use ns_machine_frames::registers::Registers;
use ns_machine_plan::kept_step::{KeptStep, KeptSteps, kept_at, step_in};
use ns_machine_plan::laws::running_bodies_have_steps;
use ns_machine_plan::plan::Plan;
use ns_machine_plan::step::Step;

/// The next step of the body that runs in the topmost frame.
#[inline(always)]
pub fn fetch(plan: &Plan, code: &CodeProgram, core: &Core, at: Registers, body: u32) -> Step
    requires prepared { IsPrepared code.now plan.now core.now.places }
    requires can { IsPreparedToRun code.now core.now (next.On at) }
    requires runs { TopRunsBody body core.now.stack.frames.items }
    ensures { IsAhead code.now core.now at body result }
{
    step_in(fetch_kept(plan, code, core, at, body))
}

/// The same as it is kept.
#[inline(always)]
pub fn fetch_kept<'a>(
    plan: &'a Plan,
    code: &CodeProgram,
    core: &Core,
    at: Registers,
    body: u32,
) -> KeptStep<'a>
    requires prepared { IsPrepared code.now plan.now core.now.places }
    requires can { IsPreparedToRun code.now core.now (next.On at) }
    requires runs { TopRunsBody body core.now.stack.frames.items }
    ensures there { EntryIsThere result.tables.now result.packed.now }
    ensures ahead { IsAhead code.now core.now at body (kept.step_in result) }
{
    running_bodies_have_steps();
    let steps = plan.steps_of(code, body);
    fetch_from(plan, code, core, at, body, steps)
}

/// The same among the steps of that body.
#[inline(always)]
pub fn fetch_from<'a>(
    plan: &'a Plan,
    code: &CodeProgram,
    core: &Core,
    at: Registers,
    body: u32,
    steps: KeptSteps<'a>,
) -> KeptStep<'a>
    requires prepared { IsPrepared code.now plan.now core.now.places }
    requires can { IsPreparedToRun code.now core.now (next.On at) }
    requires runs { TopRunsBody body core.now.stack.frames.items }
    requires steps { AreStepsOf code.now body steps }
    ensures there { EntryIsThere result.tables.now result.packed.now }
    ensures ahead { IsAhead code.now core.now at body (kept.step_in result) }
{
    valid_runs_have_a_next_step();
    running_bodies_have_steps();
    let _plan = plan;
    let _core = core;
    let _body = body;
    kept_at(steps, at.next)
}
