//! Where an action's end leads: into the body that it reached, or into a method of the kernel.

ghost use Rattle.std.specs.Prelude.{◌≡◌, [], drop};
ghost use Rattle.ns_moves.specs.declared.control.Given.TheVariants.{Listed};
ghost use Rattle.ns_machine_frames.specs.Stack.{in_use};
ghost use Rattle.ns_moves.specs.declared.control.Reached.TheVariants as reached;
ghost use Rattle.ns_machine_frames.specs.Calls.{leaving_of, arguments_of};
ghost use Rattle.ns_machine_core.specs.declared.state.Next.TheVariants as next;
ghost use Rattle.ns_machine_core.specs.Standing.{AreStanding, ArgumentsWait};
ghost use Rattle.ns_machine_core.specs.Arriving as spec;
ghost use Rattle.ns_machine_core.specs.Arriving.{reached_at, CanBegin, CanEnter, Arrives};

use crate::state::{Core, Next};
use ns_code::program::CodeProgram;
use ns_machine_frames::calls::{BodyShape, Call};
use ns_machine_frames::frame::{KeptSite, LoopingFrame, Pending};
use ns_machine_frames::laws::{frames_begin, frames_have_room};
use ns_machine_frames::registers::Registers;
use ns_moves::control::{Entered, Exit};
use ns_world::value::Value;

/// What code says of a body.
#[inline(always)]
pub fn shape_of(code: &CodeProgram, body: u32) -> BodyShape
    ensures { result ≡ spec.shape_of code.now body }
{
    match code.bodies.as_slice().get(body as usize) {
        Some(declared) => BodyShape {
            params: u32::from(declared.params),
            locals: u32::from(declared.locals),
            environment: declared.environment,
            height: u32::from(declared.height),
        },
        None => BodyShape {
            params: 0,
            locals: 0,
            environment: false,
            height: 0,
        },
    }
}

/// Begins a method of the kernel, which goes on with its first action.
#[inline(always)]
pub fn begin(code: &CodeProgram, core: &mut Core, at: Registers, looping: LoopingFrame) -> Registers
    requires { CanBegin code.now core.old at looping.floor looping.floor }
    ensures { Arrives code.now core.old at looping.floor (reached_at code.now core.old looping.site []
        (reached.Begins looping.method looping.state)) core.new (next.On result) }
{
    let _code = code;
    core.stack.begin(at, looping)
}

/// Enters a body that was reached, by its shape, on the arguments of a call where they stand.
#[inline(always)]
pub fn enter(
    code: &CodeProgram,
    core: &mut Core,
    at: Registers,
    call: Call,
    exit: Exit,
    entered: Entered,
    shape: BodyShape,
) -> Registers
    requires shape { shape ≡ spec.shape_of code.now entered.body }
    requires leaving { call.leaving ≡ leaving_of exit }
    requires can { CanEnter code.now core.old at call exit entered }
    ensures { Arrives code.now core.old at call.floor (reached_at code.now core.old call.site (arguments_of call core.old.stack at)
        (reached.Enters exit entered)) core.new (next.On result) }
{
    frames_begin();
    frames_have_room();
    let _code = code;
    let _exit = exit;
    core.stack.enter_body(at, call, entered, shape)
}

/// Lets the evaluation of a block wait, with its arguments where they stand.
#[inline(always)]
#[tactic(auto, using(crate::proofs::Arrived::block_waits))]
pub fn wait_for_block(
    code: &CodeProgram,
    core: &mut Core,
    at: Registers,
    block: Value,
    site: KeptSite,
    floor: u32,
    first: u32,
) -> Next
    requires stands { AreStanding code.now core.old.stack at }
    requires waits { ArgumentsWait code.now core.old.stack at floor first }
    ensures { Arrives code.now core.old at floor (reached_at code.now core.old site (drop first (in_use core.old.stack at))
        (reached.Evaluates block Listed)) core.new result }
{
    let _code = code;
    core.waiting = Pending::Evaluating {
        block,
        site,
        floor,
        first,
    };
    Next::Waits(at)
}

/// Lets the evaluation of a block wait, with the arguments that are kept.
#[inline(always)]
#[tactic(auto, using(crate::proofs::Arrived::block_waits_kept))]
pub fn wait_for_block_kept(
    code: &CodeProgram,
    core: &mut Core,
    at: Registers,
    block: Value,
    site: KeptSite,
    floor: u32,
) -> Next
    requires stands { AreStanding code.now core.old.stack at }
    requires waits { ArgumentsWait code.now core.old.stack at floor floor }
    ensures { Arrives code.now core.old at floor (reached_at code.now core.old site core.old.arguments.items
        (reached.Evaluates block Listed)) core.new result }
{
    let _code = code;
    core.waiting = Pending::EvaluatingKept { block, site, floor };
    Next::Waits(at)
}
