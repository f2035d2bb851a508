//! Whether the next move charges a step, told before it.

ghost use Rattle.std.specs.Prelude.{◌≡◌, ◌≤◌, length, true, false};
ghost use Rattle.ns_code.specs.Table.{takes};
ghost use Rattle.ns_kcode.specs.declared.state.KAction.TheVariants as action;
ghost use Rattle.ns_kdata.specs.Arguments.{CellIsThere};
ghost use Rattle.ns_moves.specs.Blocks.{block_arity};
ghost use Rattle.ns_moves.specs.Jumps.{takes_jump};
ghost use Rattle.ns_moves.specs.Charging as charging;
ghost use Rattle.ns_moves.specs.Charging.{will_charge};
ghost use Rattle.ns_machine_frames.specs.Standing.{operands_in};
ghost use Rattle.ns_machine_frames.specs.Stack.{stood, IsLaid};
ghost use Rattle.ns_machine_plan.specs.Steps.{instr_of};
ghost use Rattle.ns_machine_core.specs.declared.state.Next.TheVariants as next;
ghost use Rattle.ns_machine_core.specs.Shown.{shown};
ghost use Rattle.ns_machine_turns.specs.Prepared.{IsPrepared, IsPreparedToRun};
ghost use Rattle.ns_machine_turns.specs.Charging as spec;

use crate::fetching::fetch;
use ns_code::program::CodeProgram;
use ns_kcode::next::next as next_action;
use ns_kcode::state::KAction;
use ns_kdata::arguments::shape_of_value;
use ns_machine_core::state::{Core, Next};
use ns_machine_frames::frame::{Frame, Pending};
use ns_machine_frames::registers::Registers;
use ns_machine_frames::stack::Stack;
use ns_machine_plan::laws::steps_lead_to_steps;
use ns_machine_plan::plan::Plan;
use ns_machine_plan::step::Step;
use ns_moves::move_laws::jumps_go_back;
use ns_moves::running::parameters;
use ns_world::cell::NewCell;
use ns_world::value::Value;
use ns_world::world::World;

/// Whether the next move of a run charges a step, or finds none left.
pub fn charges(plan: &Plan, code: &CodeProgram, core: &Core, next: Next) -> bool
    requires prepared { IsPrepared code.now plan.now core.now.places }
    requires can { IsPreparedToRun code.now core.now next }
    ensures { result ≡ will_charge code.now (shown code.now core.now next) }
{
    match next {
        Next::On(at) => frame_charges(plan, code, core, at),
        Next::Waits(at) => pending_charges(plan, code, core, at),
        Next::Ended => false,
    }
}

/// The same of a run that goes on with its topmost frame.
fn frame_charges(plan: &Plan, code: &CodeProgram, core: &Core, at: Registers) -> bool
    requires prepared { IsPrepared code.now plan.now core.now.places }
    requires can { IsPreparedToRun code.now core.now (next.On at) }
    ensures { result ≡ will_charge code.now (shown code.now core.now (next.On at)) }
{
    jumps_go_back();
    steps_lead_to_steps();
    match *core.stack.topmost() {
        Frame::Running(frame) => {
            let step = fetch(plan, code, core, at, frame.activation.body);
            step_charges(&core.stack, at, step)
        }
        Frame::Looping(looping) => action_charges(next_action(looping.method, looping.state)),
    }
}

/// Whether a step charges: each send does, and each jump that is taken and doesn't go behind itself.
pub fn step_charges(stack: &Stack, at: Registers, step: Step) -> bool
    requires laid { IsLaid stack.now at }
    requires enough { takes (instr_of step) ≤ length (operands_in (stood stack.now at)) }
    ensures { result ≡ spec.step_charges at.next (operands_in (stood stack.now at)) step }
{
    match step {
        Step::Send { .. } | Step::SendPrivate { .. } | Step::SendSuper { .. } => true,
        Step::Jump(target) => target <= at.next,
        Step::JumpFalse(target) => target <= at.next && is_false(stack.operand(at, 0)),
        Step::JumpTrue(target) => target <= at.next && is_true(stack.operand(at, 0)),
        _ => false,
    }
}

fn is_true(value: Value) -> bool
    ensures { result ≡ takes_jump true value }
{
    matches!(value, Value::True)
}

fn is_false(value: Value) -> bool
    ensures { result ≡ takes_jump false value }
{
    matches!(value, Value::False)
}

/// Whether an action of a method of the kernel charges: where a turn of a loop begins.
fn action_charges(action: KAction) -> bool
    ensures { result ≡ charging.action_charges action }
{
    match action {
        KAction::Evaluate { turn, .. } => turn,
        KAction::EvaluateItem { .. } => true,
        KAction::Answer(_) | KAction::Fail(_) => false,
    }
}

/// Whether what waits charges: a send, and the evaluation of a block with as many arguments as it takes.
fn pending_charges(plan: &Plan, code: &CodeProgram, core: &Core, at: Registers) -> bool
    requires prepared { IsPrepared code.now plan.now core.now.places }
    requires can { IsPreparedToRun code.now core.now (next.Waits at) }
    ensures { result ≡ will_charge code.now (shown code.now core.now (next.Waits at)) }
{
    match core.waiting {
        Pending::Nothing => frame_charges(plan, code, core, at),
        Pending::Evaluating { block, first, .. } => {
            u32::from(arity(code, &core.run.world, block)) == at.top - first
        }
        Pending::EvaluatingKept { block, .. } => {
            u32::from(arity(code, &core.run.world, block)) == core.arguments.count()
        }
        Pending::Sending { .. } | Pending::Performing { .. } => true,
    }
}

/// How many arguments a block takes.
fn arity(code: &CodeProgram, world: &World, block: Value) -> u8
    requires { CellIsThere world.now.world.cells block }
    ensures { result ≡ block_arity code.now world.now.world.cells block }
{
    let body = match shape_of_value(world, block) {
        NewCell::Block { body, .. } => body,
        _ => 0,
    };
    parameters(code, body)
}
