//! Values that are pushed on the operands of the body that runs, and what becomes of the answers of actions.

ghost use Rattle.std.specs.Prelude.{◌≡◌, ◌∷◌, ◌<◌, length};
ghost use Rattle.ns_moves.specs.Site.{fault_ending};
ghost use Rattle.ns_machine_frames.specs.declared.frame.Frame.TheVariants.{Running as RunningFrameOf};
ghost use Rattle.ns_machine_frames.specs.Standing.{below};
ghost use Rattle.ns_machine_frames.specs.View.{site_shown};
ghost use Rattle.ns_machine_core.specs.Doing.{IsRunning, running_of, Pushed, IsSettled};
ghost use Rattle.ns_machine_core.specs.Standing.{AreStanding};

use crate::places::Places;
use crate::state::{Core, Next};
use ns_code::program::CodeProgram;
use ns_machine_frames::frame::{Activation, Frame, KeptSite, RunningFrame};
use ns_machine_frames::registers::Registers;
use ns_machine_frames::stack::Stack;
use ns_moves::control::Answer;
use ns_moves::running::Running;
use ns_world::ending::{Ending, Fault, RunError};
use ns_world::value::Value;

/// The frame of the body that runs.
#[inline(always)]
pub fn running(stack: &Stack) -> RunningFrame
    requires { IsRunning stack.now.frames.items }
    ensures { stack.now.frames.items ≡ RunningFrameOf result ∷ below stack.now.frames.items }
{
    match *stack.topmost() {
        Frame::Running(running) => running,
        Frame::Looping(_) => unreachable!(),
    }
}

/// The code that runs in a frame, as the actions of a run take it.
#[inline(always)]
pub fn running_code(activation: Activation) -> Running
    ensures { result ≡ running_of activation }
{
    Running {
        me: activation.me,
        holder: activation.holder,
        body: activation.body,
        home: activation.home,
        env: activation.env,
    }
}

/// Pushes a value.
#[inline(always)]
#[tactic(auto, using(crate::proofs::Pushed::value_pushed))]
pub fn push(code: &CodeProgram, core: &mut Core, at: Registers, value: Value) -> Registers
    requires stands { AreStanding code.now core.old.stack at }
    requires place { at.top < length core.old.stack.values.items }
    ensures { Pushed code.now core.old at value core.new result }
{
    let _code = code;
    core.stack.push(at, value)
}

/// The end of a run by a fault at a site.
pub fn ending_at(places: &Places, site: KeptSite, fault: Fault) -> Ending
    ensures { result ≡ fault_ending fault (site_shown places.now site) }
{
    match fault {
        Fault::Kind(kind) => Ending::Error(RunError {
            kind,
            place: places.get(site.place),
            class: site.class,
            sel: site.sel,
        }),
        Fault::Limit(limit) => Ending::Limit(limit),
    }
}

/// Brings what an action has given to the body that runs, or ends the run by its fault at a site.
#[inline(always)]
#[tactic(auto, using(crate::proofs::Settled::given, crate::proofs::Settled::ended))]
pub fn settle(
    code: &CodeProgram,
    core: &mut Core,
    at: Registers,
    site: KeptSite,
    answer: Answer,
) -> Next
    requires stands { AreStanding code.now core.old.stack at }
    requires running { IsRunning core.old.stack.frames.items }
    requires place { at.top < length core.old.stack.values.items }
    ensures { IsSettled code.now core.old at site answer core.new result }
{
    match answer {
        Ok(value) => Next::On(push(code, core, at, value)),
        Err(fault) => {
            core.ending = ending_at(&mut core.places, site, fault);
            Next::Ended
        }
    }
}
