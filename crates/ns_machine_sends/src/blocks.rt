//! Blocks that are entered at once, as if their evaluation waited: registers alone come back.

ghost use Rattle.std.specs.Prelude.{◌≡◌, ◌-◌, ◌<◌, length, IsSome};
ghost use Rattle.ns_facets.specs.declared.row.Grants.{Grants};
ghost use Rattle.ns_world.specs.declared.value.Value.TheVariants.{Ref};
ghost use Rattle.ns_world.specs.Blocks.{around};
ghost use Rattle.ns_world.specs.Heap.{find_cell, shape_at};
ghost use Rattle.ns_machine_core.specs.Arriving.{shape_of};
ghost use Rattle.ns_machine_sends.specs.Going.{arguments_in, IsLeft};
ghost use Rattle.ns_machine_sends.specs.Blocks.{EntersOrNot, IsBlockAt, MovesOrNot, block_of};
ghost use Rattle.ns_machine_sends.specs.Waiting.{BlockWaits, IsWaiting, with_block};

use crate::entering::enter_shaped;
use crate::opening::{has_room, open_block};
use crate::sent::Sent;
use ns_code::program::CodeProgram;
use ns_machine_core::arriving::shape_of;
use ns_machine_core::state::Core;
use ns_machine_frames::calls::BodyShape;
use ns_machine_frames::registers::Registers;
use ns_moves::control::Exit;
use ns_moves::laws::{
    actions_spend_exactly, sends_keep_lawful, sites_stay, what_is_handed_on_fits,
};
use ns_moves::running::Running;
use ns_world::value::Value;
use ns_world::world::World;

/// Enters a block for whose answer a place is there, where it takes so many arguments, a step is left and the limits leave room for its
/// body. Else nothing is done.
#[inline(always)]
#[tactic(auto, using(crate::proofs::AtOnce::cell_there))]
pub fn enter_at_once(
    code: &CodeProgram,
    core: &mut Core,
    at: Registers,
    sent: Sent,
    cell: u32,
) -> Option<Registers>
    requires waits { (grants : Grants) × BlockWaits code.now grants (with_block sent (Ref cell) core.old) at sent (Ref cell) }
    requires place { sent.floor < length core.old.stack.values.items }
    ensures { MovesOrNot code.now core.old at sent (Ref cell) core.new result }
{
    match block_at(&core.run.world, cell) {
        Some(running) => begin_block(code, core, at, sent, cell, running),
        None => None,
    }
}

/// Enters a block that waits, with its arguments where they stand, in the same cases.
#[inline(always)]
pub(crate) fn enter_quickly(
    code: &CodeProgram,
    core: &mut Core,
    at: Registers,
    sent: Sent,
    block: Value,
) -> Option<Registers>
    requires left { IsLeft code.now core.old at sent }
    requires is { IsWaiting code.now core.old (arguments_in core.old at sent) block }
    ensures { EntersOrNot code.now core.old at sent block core.new result }
{
    match block {
        Value::Ref(cell) => enter_cell(code, core, at, sent, cell),
        _ => None,
    }
}

/// The same of the block of that cell.
#[inline(always)]
#[tactic(auto, using(crate::proofs::AtOnce::cell_there))]
fn enter_cell(
    code: &CodeProgram,
    core: &mut Core,
    at: Registers,
    sent: Sent,
    cell: u32,
) -> Option<Registers>
    requires left { IsLeft code.now core.old at sent }
    requires is { IsWaiting code.now core.old (arguments_in core.old at sent) (Ref cell) }
    ensures { EntersOrNot code.now core.old at sent (Ref cell) core.new result }
{
    match block_at(&core.run.world, cell) {
        Some(running) => begin_block(code, core, at, sent, cell, running),
        None => None,
    }
}

/// What the block of that cell runs in, where its self is a cell and around it is an environment or none, as with most.
#[inline(always)]
fn block_at(world: &World, cell: u32) -> Option<Running>
    requires { IsSome (find_cell world.now.world.cells cell) }
    ensures { IsBlockAt (shape_at world.now.world.cells cell) result }
{
    match world.block(cell) {
        Some(parts) => Some(Running {
            me: Value::Ref(parts.receiver),
            holder: parts.holder,
            body: parts.body,
            home: parts.home,
            env: around(parts.env),
        }),
        None => None,
    }
}

/// The environment of that number, nil where there is none.
#[inline(always)]
fn around(env: Option<u32>) -> Value
    ensures { result ≡ around env }
{
    match env {
        Some(at) => Value::Ref(at),
        None => Value::Nil,
    }
}

/// Enters the block of that cell, by what it runs in, in code of its own for bodies with an environment and for those without.
#[inline(always)]
fn begin_block(
    code: &CodeProgram,
    core: &mut Core,
    at: Registers,
    sent: Sent,
    cell: u32,
    running: Running,
) -> Option<Registers>
    requires left { IsLeft code.now core.old at sent }
    requires is { IsWaiting code.now core.old (arguments_in core.old at sent) (Ref cell) }
    requires block { shape_at core.old.run.world.world.cells cell ≡ block_of running }
    ensures { EntersOrNot code.now core.old at sent (Ref cell) core.new result }
{
    let shape = shape_of(code, running.body);
    if at.top - sent.first != shape.params {
        return None;
    }
    if shape.environment {
        return begin_shaped(
            code,
            core,
            at,
            sent,
            cell,
            running,
            with_environment(shape, true),
        );
    }
    begin_shaped(
        code,
        core,
        at,
        sent,
        cell,
        running,
        with_environment(shape, false),
    )
}

/// The shape itself, of which it is known whether its body has an environment.
#[inline(always)]
fn with_environment(shape: BodyShape, environment: bool) -> BodyShape
    requires { shape.environment ≡ environment }
    ensures { result ≡ shape }
{
    BodyShape {
        environment,
        ..shape
    }
}

/// The same by the shape of its body, which takes so many arguments.
#[inline(always)]
#[tactic(auto, using(crate::proofs::Stepped::left_in))]
fn begin_shaped(
    code: &CodeProgram,
    core: &mut Core,
    at: Registers,
    sent: Sent,
    cell: u32,
    running: Running,
    shape: BodyShape,
) -> Option<Registers>
    requires left { IsLeft code.now core.old at sent }
    requires is { IsWaiting code.now core.old (arguments_in core.old at sent) (Ref cell) }
    requires block { shape_at core.old.run.world.world.cells cell ≡ block_of running }
    requires shape { shape ≡ shape_of code.now running.body }
    requires many { at.top - sent.first ≡ shape.params }
    ensures { EntersOrNot code.now core.old at sent (Ref cell) core.new result }
{
    sends_keep_lawful();
    what_is_handed_on_fits();
    actions_spend_exactly();
    sites_stay();
    let _cell = cell;
    if !has_room(&core.run.world, shape, at.top - sent.first) {
        return None;
    }
    let arguments = core.stack.from(at, sent.first);
    match open_block(&mut core.run.world, code, running, arguments, shape) {
        Some(entered) => Some(enter_shaped(code, core, at, sent, Exit::Body, entered, shape)),
        None => None,
    }
}
