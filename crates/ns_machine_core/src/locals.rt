//! Instructions that read and store locals.

ghost use Rattle.std.specs.Prelude.{◌≡◌, Option, All, false};
ghost use Rattle.ns_base.specs.declared.place.Place.{Place as SourcePlace};
ghost use Rattle.ns_code.specs.declared.instruction.Instr.TheVariants as instr;
ghost use Rattle.ns_find.specs.Memo.{PlaceIsRight};
ghost use Rattle.ns_moves.specs.declared.site.Site.{Site};
ghost use Rattle.ns_moves.specs.Bodies as bodies;
ghost use Rattle.ns_moves.specs.Control.{Progress, in_world};
ghost use Rattle.ns_moves.specs.Room.{SameRest};
ghost use Rattle.ns_moves.specs.Running.{activation_at, code_of};
ghost use Rattle.ns_moves.specs.Locals.{HasEnvironments, LocalIsReadable, environments_out};
ghost use Rattle.ns_machine_frames.specs.Standing.{locals_in};
ghost use Rattle.ns_machine_frames.specs.Stack.{stood};
ghost use Rattle.ns_machine_core.specs.declared.state.Next.TheVariants as next;
ghost use Rattle.ns_machine_core.specs.Doing.{CanDo, IsDone};
ghost use Rattle.ns_machine_core.specs.Locals.{LocalIsThere};
ghost use Rattle.ns_machine_core.specs.Straight.{IsOnTop};

use crate::on_top::{OnTop, on_top};
use crate::settling::{push, running, running_code};
use crate::state::Core;
use ns_code::program::CodeProgram;
use ns_machine_frames::registers::Registers;
use ns_machine_frames::stack::Stack;
use ns_moves::locals::environment_number;
use ns_moves::run::Run;
use ns_moves::running::Running;
use ns_world::value::Value;

/// Whether a local stands beside the frame of the body that runs on top.
#[inline(always)]
fn stands_beside(code: &CodeProgram, here: Running, top: OnTop, hops: u8) -> bool
    requires { top.environment ≡ bodies.has_environment code.now here.body }
    ensures { (site : Site) → result ≡ bodies.is_beside code.now (activation_at site here) hops }
{
    let _code = code;
    let _here = here;
    match hops {
        0 => !top.environment,
        _ => false,
    }
}

/// The number of the environment in which a local stands that doesn't stand beside the frame of the body that runs on top.
#[inline(always)]
fn environment_of(code: &CodeProgram, run: &mut Run, here: Running, top: OnTop, hops: u8) -> u32
    requires way { HasEnvironments run.old.world.world.cells here.env (environments_out code.now here.body hops) }
    requires top { top.environment ≡ bodies.has_environment code.now here.body }
    requires kept { All (PlaceIsRight run.old.world.world.cells code.now) run.old.memo }
    ensures number { (site : Site) → result ≡ bodies.environment_at run.old.world.world.cells code.now (activation_at site here) hops }
    ensures rest { run.new ≡ record run.old { memo = run.new.memo } }
    ensures keeps { All (PlaceIsRight run.old.world.world.cells code.now) run.new.memo }
{
    if top.environment {
        return environment_number(&mut run.world, code, &mut run.memo, here.env, hops);
    }
    environment_number(
        &mut run.world,
        code,
        &mut run.memo,
        here.env,
        hops.saturating_sub(1),
    )
}

/// A local of the code that runs or of a body around it: it stands beside the frame, or in an environment.
#[inline(always)]
fn local(
    code: &CodeProgram,
    stack: &Stack,
    run: &mut Run,
    at: Registers,
    here: Running,
    top: OnTop,
    hops: u8,
    index: u8,
) -> Value
    requires there { LocalIsThere code.now stack.now at run.old.world.world.cells here hops index }
    requires top { top.environment ≡ bodies.has_environment code.now here.body }
    requires kept { All (PlaceIsRight run.old.world.world.cells code.now) run.old.memo }
    ensures value { (site : Site) → result ≡ bodies.local_at run.old.world.world.cells code.now (activation_at site here)
        (locals_in (stood stack.now at)) hops index }
    ensures rest { run.new ≡ record run.old { memo = run.new.memo } }
    ensures keeps { All (PlaceIsRight run.old.world.world.cells code.now) run.new.memo }
{
    if stands_beside(code, here, top, hops) {
        return stack.local(at, u32::from(index));
    }
    let environment = environment_of(code, run, here, top, hops);
    run.world.read(environment, u32::from(index))
}

/// Pushes a local.
#[inline(always)]
#[tactic(auto, using(crate::specs::laws::Pushed::runs))]
pub fn push_local(
    code: &CodeProgram,
    core: &mut Core,
    at: Registers,
    hops: u8,
    index: u8,
) -> Registers
    requires { CanDo code.now core.old at (instr.PushLocal hops index) }
    ensures { (place : Option SourcePlace) → IsDone code.now (instr.PushLocal hops index) place core.old at core.new (next.On result) }
{
    let top = on_top(code, &core.stack);
    push_local_of(code, core, at, top, hops, index)
}

/// The same, where the body that runs on top is known.
#[inline(always)]
#[tactic(auto, using(crate::specs::laws::Pushed::one_more, crate::specs::laws::Pushed::runs))]
pub fn push_local_of(
    code: &CodeProgram,
    core: &mut Core,
    at: Registers,
    top: OnTop,
    hops: u8,
    index: u8,
) -> Registers
    requires can { CanDo code.now core.old at (instr.PushLocal hops index) }
    requires top { IsOnTop code.now top core.old.stack.frames.items }
    ensures { (place : Option SourcePlace) → IsDone code.now (instr.PushLocal hops index) place core.old at core.new (next.On result) }
{
    let here = running_code(running(&mut core.stack).activation);
    let value = local(
        code,
        &mut core.stack,
        &mut core.run,
        at,
        here,
        top,
        hops,
        index,
    );
    push(code, core, at, value)
}

/// Stores the topmost operand, which stays, in a local.
#[inline(always)]
#[tactic(auto, using(crate::specs::laws::Pushed::runs))]
pub fn store_local(
    code: &CodeProgram,
    core: &mut Core,
    at: Registers,
    hops: u8,
    index: u8,
) -> Registers
    requires { CanDo code.now core.old at (instr.StoreLocal hops index) }
    ensures { (place : Option SourcePlace) → IsDone code.now (instr.StoreLocal hops index) place core.old at core.new (next.On result) }
{
    let top = on_top(code, &core.stack);
    store_local_of(code, core, at, top, hops, index)
}

/// The same, where the body that runs on top is known.
#[inline(always)]
#[tactic(auto, using(crate::specs::laws::Pushed::runs, crate::specs::laws::Taken::some_operand))]
pub fn store_local_of(
    code: &CodeProgram,
    core: &mut Core,
    at: Registers,
    top: OnTop,
    hops: u8,
    index: u8,
) -> Registers
    requires can { CanDo code.now core.old at (instr.StoreLocal hops index) }
    requires top { IsOnTop code.now top core.old.stack.frames.items }
    ensures { (place : Option SourcePlace) → IsDone code.now (instr.StoreLocal hops index) place core.old at core.new (next.On result) }
{
    let here = running_code(running(&mut core.stack).activation);
    let value = core.stack.operand(at, 0);
    if stands_beside(code, here, top, hops) {
        core.stack.set_local(at, u32::from(index), value);
        return at;
    }
    store_outside(code, &mut core.run, here, top, hops, index, value);
    at
}

/// Stores a value in a local that stands in an environment.
#[inline(always)]
fn store_outside(
    code: &CodeProgram,
    run: &mut Run,
    here: Running,
    top: OnTop,
    hops: u8,
    index: u8,
    value: Value,
)
    requires readable { LocalIsReadable run.old.world.world.cells code.now (code_of here) hops index }
    requires outside { bodies.is_beside code.now (code_of here) hops ≡ false }
    requires top { top.environment ≡ bodies.has_environment code.now here.body }
    requires kept { All (PlaceIsRight run.old.world.world.cells code.now) run.old.memo }
    ensures stored { (site : Site) (rest : Progress) → in_world rest run.new.world.world
        ≡ bodies.local_stored code.now (activation_at site here) hops index value (in_world rest run.old.world.world) }
    ensures rest { SameRest run.old.world run.new.world }
    ensures others { run.new ≡ record run.old { world = run.new.world; memo = run.new.memo } }
    ensures keeps { All (PlaceIsRight run.old.world.world.cells code.now) run.new.memo }
{
    let at = environment_of(code, run, here, top, hops);
    run.world.write(at, u32::from(index), value);
}
