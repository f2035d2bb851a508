//! Actions of a method of the kernel that evaluates blocks, where its frame is topmost.

ghost use Rattle.std.specs.Prelude.{◌≡◌, ◌+◌, ◌<◌, ◌≤◌, ◌∷◌, ◌++◌, length};
ghost use Rattle.ns_moves.specs.Blocks.{listed};
ghost use Rattle.ns_moves.specs.declared.methods.Waited.TheVariants as waited;
ghost use Rattle.ns_machine_frames.specs.declared.frame.Frame.TheVariants.{Looping};
ghost use Rattle.ns_machine_frames.specs.Standing.{below};
ghost use Rattle.ns_machine_frames.specs.Stack.{in_use, IsLaid, KeepsRoom};
ghost use Rattle.ns_machine_core.specs.declared.state.Core.{Core as AnyCore};
ghost use Rattle.ns_machine_core.specs.declared.state.Next.TheVariants as next;
ghost use Rattle.ns_machine_core.specs.Own.{AreOwn};
ghost use Rattle.ns_machine_core.specs.Ready.{MakesMove};
ghost use Rattle.ns_machine_returns.specs.Acting.{IsLooping, IsTopmost, CanAct, IsAsked, awaiting};

use crate::handing::bring;
use ns_code::program::CodeProgram;
use ns_kcode::state::KState;
use ns_machine_core::own::OwnSends;
use ns_machine_core::state::{Core, Next};
use ns_machine_frames::frame::{Frame, LoopingFrame, Pending};
use ns_machine_frames::laws::frames_have_room;
use ns_machine_frames::registers::Registers;
use ns_machine_frames::stack::Stack;
use ns_moves::control::Answer;
use ns_moves::laws::actions_keep_lawful;
use ns_moves::methods::{Waited, method_next};
use ns_world::value::Value;

/// Does the next action of the method of the kernel that is topmost: it lets the evaluation of a block wait, or ends. It stands
/// in code of its own, in which all that it calls for an evaluation is united.
#[inline(never)]
#[tactic(auto, using(crate::proofs::Topmost::acting_loops))]
pub fn act(code: &CodeProgram, core: &mut Core, at: Registers, own: OwnSends) -> Next
    requires can { CanAct code.now core.old at }
    requires own { AreOwn code.now core.old.places own }
    ensures { MakesMove code.now core.old (next.On at) core.new result }
{
    let method = looping(&core.stack);
    match ask(code, core, at, method) {
        Waited::Evaluates {
            block,
            argument,
            state,
        } => {
            let above = prepare(code, core, at, method, block, argument, state);
            core.waiting = Pending::Evaluating {
                block,
                site: method.site,
                floor: method.floor,
                first: method.floor,
            };
            Next::Waits(above)
        }
        Waited::Ends(answer) => end_method(code, core, at, own, method, answer),
    }
}

/// Asks the method of the kernel that is topmost what it does next, with the step of a turn where one begins.
#[inline(always)]
pub fn ask(code: &CodeProgram, core: &mut Core, at: Registers, looping: LoopingFrame) -> Waited
    requires can { CanAct code.now core.old at }
    requires top { core.old.stack.frames.items ≡ Looping looping ∷ below core.old.stack.frames.items }
    ensures { IsAsked code.now core.old at looping core.new result }
{
    let _code = code;
    let _at = at;
    method_next(&mut core.run.world, looping.method, looping.state)
}

/// Puts the argument of an evaluation, if there is one, where the values of the method of the kernel begin, which waits for the
/// block's value in a state, and has a place for it. Which evaluation waits then isn't written: the clause tells it.
#[inline(always)]
pub fn prepare(
    code: &CodeProgram,
    core: &mut Core,
    at: Registers,
    looping: LoopingFrame,
    block: Value,
    argument: Option<Value>,
    state: KState,
) -> Registers
    requires { (first : AnyCore) × IsAsked code.now first at looping core.old (waited.Evaluates block argument state) }
    ensures moves { (first : AnyCore) → IsAsked code.now first at looping core.old (waited.Evaluates block argument state)
        → MakesMove code.now first (next.On at) (awaiting looping block core.new) (next.Waits result) }
    ensures top { IsTopmost looping core.new.stack.frames.items }
    ensures place { looping.floor < length core.new.stack.values.items }
{
    frames_have_room();
    let _code = code;
    let _block = block;
    core.stack.set_count(at, state.count);
    let here = Registers {
        top: looping.floor,
        ..at
    };
    core.stack.make_room(here, 1);
    push_argument(&mut core.stack, here, argument)
}

/// Ends the method of the kernel that is topmost.
#[inline(always)]
pub fn end_method(
    code: &CodeProgram,
    core: &mut Core,
    at: Registers,
    own: OwnSends,
    looping: LoopingFrame,
    answer: Answer,
) -> Next
    requires asked { (first : AnyCore) × IsAsked code.now first at looping core.old (waited.Ends answer) }
    requires own { AreOwn code.now core.old.places own }
    ensures { (first : AnyCore) → IsAsked code.now first at looping core.old (waited.Ends answer) →
        MakesMove code.now first (next.On at) core.new result }
{
    actions_keep_lawful();
    let here = core.stack.leave(at);
    bring(code, core, here, own, looping.site, answer)
}

/// The frame of the method of the kernel that is topmost.
#[inline(always)]
pub fn looping(stack: &Stack) -> LoopingFrame
    requires { IsLooping stack.now.frames.items }
    ensures { stack.now.frames.items ≡ Looping result ∷ below stack.now.frames.items }
{
    match *stack.topmost() {
        Frame::Looping(looping) => looping,
        Frame::Running(_) => unreachable!(),
    }
}

/// Puts the argument of an evaluation, if there is one, behind the values in use.
#[inline(always)]
fn push_argument(stack: &mut Stack, at: Registers, argument: Option<Value>) -> Registers
    requires laid { IsLaid stack.old at }
    requires room { at.top + 1 ≤ length stack.old.values.items }
    ensures used { in_use stack.new result ≡ in_use stack.old at ++ listed argument }
    ensures laid { IsLaid stack.new result }
    ensures frames { stack.new.frames ≡ stack.old.frames }
    ensures room { KeepsRoom stack.old stack.new }
    ensures top { at.top ≤ result.top }
{
    match argument {
        Some(value) => stack.push(at, value),
        None => at,
    }
}
