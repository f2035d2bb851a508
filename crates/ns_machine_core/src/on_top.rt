//! The body that runs on top.

ghost use Rattle.ns_machine_core.specs.Doing.{IsRunning};
ghost use Rattle.ns_machine_core.specs.Straight.{IsOnTop};

use crate::settling::running;
use ns_code::program::CodeProgram;
use ns_machine_frames::stack::Stack;
use ns_moves::running::has_environment;

/// The body that runs on top, as far as its steps ask for it again and again: its number, and whether its locals stand in an
/// environment.
#[derive(Clone, Copy)]
pub struct OnTop {
    pub body: u32,
    pub environment: bool,
}

/// The body of the topmost frame.
#[inline(always)]
#[tactic(auto, using(crate::specs::laws::Straight::runs_top))]
pub fn on_top(code: &CodeProgram, stack: &Stack) -> OnTop
    requires { IsRunning stack.now.frames.items }
    ensures { IsOnTop code.now result stack.now.frames.items }
{
    let body = running(stack).activation.body;
    OnTop {
        body,
        environment: has_environment(code, body),
    }
}
