//! Moves of a method of the kernel that is topmost: its next action, and with it that of the block which it evaluates.

ghost use Rattle.std.specs.Prelude.{◌≡◌, ◌∷◌, ◌≤◌};
ghost use Rattle.ns_machine_frames.specs.declared.frame.Frame.TheVariants.{Looping};
ghost use Rattle.ns_machine_frames.specs.Standing.{below};
ghost use Rattle.ns_world.specs.declared.value.Value.TheVariants.{Ref};
ghost use Rattle.ns_machine_core.specs.declared.state.Next.TheVariants.{On, Waits};
ghost use Rattle.ns_machine_core.specs.Own.{AreOwn};
ghost use Rattle.ns_machine_core.specs.Ready.{MakesMove};
ghost use Rattle.ns_machine_returns.specs.Acting.{CanAct, IsLooping, IsTopmost, awaiting};
ghost use Rattle.ns_machine_turns.specs.Looping.{ActsTo, BlockStands, HasActed, LoopsBy};
ghost use Rattle.ns_machine_turns.specs.Turning.{ChargesAtMost, HasGone, RunsBy};

use crate::laws::{moves_charge_one, moves_go_along};
use ns_code::program::CodeProgram;
use ns_machine_core::own::OwnSends;
use ns_machine_core::state::{Core, Next};
use ns_machine_frames::frame::{LoopingFrame, Pending};
use ns_machine_frames::registers::Registers;
use ns_machine_frames::stack::Stack;
use ns_machine_plan::plan::Plan;
use ns_machine_returns::acting::{ask, end_method, looping, prepare};
use ns_machine_returns::laws::topmost_methods_can_act;
use ns_machine_sends::blocks::enter_at_once;
use ns_machine_sends::sent::Sent;
use ns_machine_sends::waiting::evaluate_at_once;
use ns_moves::methods::Waited;
use ns_world::kernel_parts::KMethod;
use ns_world::value::Value;

/// What the next action of a method of the kernel has come to: it waits for the block of that cell, with the registers one by one,
/// and a step is left; or moves have led there.
#[derive(Clone, Copy)]
pub enum Acted {
    Evaluates {
        next: u32,
        top: u32,
        base: u32,
        cell: u32,
    },
    Goes(Next),
}

/// Does the next action of the method of the kernel that is topmost, and evaluates its block at once where a step is left: the
/// evaluation waits in between, but isn't written. It stands in code of its own, in which all that it calls is united. The
/// registers are handed over one by one, so that they needn't stand in memory before any step.
#[inline(never)]
pub fn act_along(
    plan: &Plan,
    code: &CodeProgram,
    core: &mut Core,
    next: u32,
    top: u32,
    base: u32,
    left: u64,
    own: OwnSends,
) -> Next
    requires runs { RunsBy code.now plan.now own core.old (On (record { next = next; top = top; base = base })) }
    requires loops { IsLooping core.old.stack.frames.items }
    requires some { 1 ≤ left }
    ensures gone { HasGone code.now plan.now own left core.old (On (record { next = next; top = top; base = base })) core.new result }
    ensures few { ChargesAtMost 2 core.old core.new }
{
    moves_go_along();
    moves_charge_one();
    let here = Registers { next, top, base };
    match act(plan, code, core, here, left, own) {
        Acted::Evaluates {
            next,
            top,
            base,
            cell,
        } => evaluate(code, core, Registers { next, top, base }, cell),
        Acted::Goes(to) => to,
    }
}

/// Does the next action, in code for each method: what another method asks for isn't read then.
#[inline(always)]
#[tactic(auto, using(crate::proofs::Looped::loops_by))]
fn act(
    plan: &Plan,
    code: &CodeProgram,
    core: &mut Core,
    at: Registers,
    left: u64,
    own: OwnSends,
) -> Acted
    requires runs { RunsBy code.now plan.now own core.old (On at) }
    requires loops { IsLooping core.old.stack.frames.items }
    requires some { 1 ≤ left }
    ensures { HasActed code.now plan.now own left core.old at core.new result }
{
    match looping(&core.stack).method {
        KMethod::And => act_as(plan, code, core, at, left, own, KMethod::And),
        KMethod::Or => act_as(plan, code, core, at, left, own, KMethod::Or),
        KMethod::IfTrue => act_as(plan, code, core, at, left, own, KMethod::IfTrue),
        KMethod::IfFalse => act_as(plan, code, core, at, left, own, KMethod::IfFalse),
        KMethod::IfTrueIfFalse => {
            act_as(plan, code, core, at, left, own, KMethod::IfTrueIfFalse)
        }
        KMethod::IfFalseIfTrue => {
            act_as(plan, code, core, at, left, own, KMethod::IfFalseIfTrue)
        }
        KMethod::WhileTrue => act_as(plan, code, core, at, left, own, KMethod::WhileTrue),
        KMethod::WhileFalse => act_as(plan, code, core, at, left, own, KMethod::WhileFalse),
        KMethod::ToDo => act_as(plan, code, core, at, left, own, KMethod::ToDo),
        KMethod::TimesRepeat => act_as(plan, code, core, at, left, own, KMethod::TimesRepeat),
        KMethod::Do => act_as(plan, code, core, at, left, own, KMethod::Do),
    }
}

/// The same of that method, which is topmost.
#[inline(always)]
fn act_as(
    plan: &Plan,
    code: &CodeProgram,
    core: &mut Core,
    at: Registers,
    left: u64,
    own: OwnSends,
    method: KMethod,
) -> Acted
    requires runs { RunsBy code.now plan.now own core.old (On at) }
    requires loops { LoopsBy method core.old.stack.frames.items }
    requires some { 1 ≤ left }
    ensures { HasActed code.now plan.now own left core.old at core.new result }
{
    moves_go_along();
    moves_charge_one();
    topmost_methods_can_act();
    let _plan = plan;
    act_on(code, core, at, left, own, method)
}

/// The same, where nothing is said but what move it is: the method can act.
#[inline(always)]
pub fn act_on(
    code: &CodeProgram,
    core: &mut Core,
    at: Registers,
    left: u64,
    own: OwnSends,
    method: KMethod,
) -> Acted
    requires can { CanAct code.now core.old at }
    requires own { AreOwn code.now core.old.places own }
    requires loops { LoopsBy method core.old.stack.frames.items }
    ensures { ActsTo code.now left core.old at core.new result }
{
    let frame = looping_by(&core.stack, method);
    match ask(code, core, at, frame) {
        Waited::Evaluates {
            block,
            argument,
            state,
        } => {
            let above = prepare(code, core, at, frame, block, argument, state);
            match block {
                Value::Ref(cell) => {
                    if left < 2 {
                        return Acted::Goes(let_wait(
                            core,
                            above.next,
                            above.top,
                            above.base,
                            Value::Ref(cell),
                        ));
                    }
                    Acted::Evaluates {
                        next: above.next,
                        top: above.top,
                        base: above.base,
                        cell,
                    }
                }
                other => Acted::Goes(let_wait(core, above.next, above.top, above.base, other)),
            }
        }
        Waited::Ends(answer) => Acted::Goes(end_method(code, core, at, own, frame, answer)),
    }
}

/// Lets the evaluation of a block wait, on the values from the floor of the topmost method of the kernel on. That is rare, so the
/// frame is read again here, and where nothing waits its site isn't; nor does anything stand in memory for this.
#[inline(never)]
fn let_wait(core: &mut Core, next: u32, top: u32, base: u32, block: Value) -> Next
    requires { IsLooping core.old.stack.frames.items }
    ensures waits { (looping : LoopingFrame) → IsTopmost looping core.old.stack.frames.items → core.new ≡ awaiting looping block core.old }
    ensures at { result ≡ Waits (record { next = next; top = top; base = base }) }
{
    let frame = looping(&core.stack);
    core.waiting = Pending::Evaluating {
        block,
        site: frame.site,
        floor: frame.floor,
        first: frame.floor,
    };
    Next::Waits(Registers { next, top, base })
}

/// Evaluates the block of that cell, for which the topmost method of the kernel waits, at once: nothing that waits is written. The
/// site is read from the topmost frame, in one place for all such methods.
#[inline(always)]
pub fn evaluate(code: &CodeProgram, core: &mut Core, at: Registers, cell: u32) -> Next
    requires { (looping : LoopingFrame) × BlockStands code.now core.old at looping cell }
    ensures { (looping : LoopingFrame) → BlockStands code.now core.old at looping cell
        → MakesMove code.now (awaiting looping (Ref cell) core.old) (Waits at) core.new result }
{
    let frame = looping(&core.stack);
    let sent = Sent {
        site: frame.site,
        floor: frame.floor,
        first: frame.floor,
    };
    match enter_at_once(code, core, at, sent, cell) {
        Some(to) => Next::On(to),
        None => evaluate_apart(code, core, at.next, at.top, at.base, cell),
    }
}

/// The same in code of its own, where the block isn't entered at once: what this asks for isn't kept for it before.
#[inline(never)]
fn evaluate_apart(
    code: &CodeProgram,
    core: &mut Core,
    next: u32,
    top: u32,
    base: u32,
    cell: u32,
) -> Next
    requires { (looping : LoopingFrame) × BlockStands code.now core.old (record { next = next; top = top; base = base }) looping cell }
    ensures { (looping : LoopingFrame) → BlockStands code.now core.old (record { next = next; top = top; base = base }) looping cell
        → MakesMove code.now (awaiting looping (Ref cell) core.old) (Waits (record { next = next; top = top; base = base })) core.new result }
{
    let at = Registers { next, top, base };
    let frame = looping(&core.stack);
    let sent = Sent {
        site: frame.site,
        floor: frame.floor,
        first: frame.floor,
    };
    evaluate_at_once(code, core, at, sent, Value::Ref(cell))
}

/// The frame of that method of the kernel, which is topmost.
#[inline(always)]
#[tactic(auto, using(crate::proofs::Looped::by_loops, crate::proofs::Looped::looping_by))]
fn looping_by(stack: &Stack, method: KMethod) -> LoopingFrame
    requires { LoopsBy method stack.now.frames.items }
    ensures { stack.now.frames.items ≡ Looping result ∷ below stack.now.frames.items }
{
    let frame = looping(stack);
    LoopingFrame { method, ..frame }
}
