//! The body that a send or an evaluation has reached.

ghost use Rattle.std.specs.Prelude.{◌≡◌, length, true, false};
ghost use Rattle.ns_moves.specs.declared.control.Given.TheVariants as given;
ghost use Rattle.ns_moves.specs.declared.control.Reached.TheVariants as reached;
ghost use Rattle.ns_moves.specs.Bodies.{has_environment};
ghost use Rattle.ns_moves.specs.Shown.{passed};
ghost use Rattle.ns_moves.specs.Plain.{IsOwnGiven};
ghost use Rattle.ns_machine_core.specs.declared.state.Next.TheVariants as next;
ghost use Rattle.ns_machine_core.specs.Arriving as spec;
ghost use Rattle.ns_machine_core.specs.Arriving.{Arrives};
ghost use Rattle.ns_machine_sends.specs.Going.{arguments_in, control_at, ControlGoesOn, IsLeft, TakesNone, ArgumentsStand};
ghost use Rattle.ns_machine_sends.specs.Kept.{kept_control};

use crate::placing::place_kept;
use crate::sent::Sent;
use ns_code::program::CodeProgram;
use ns_machine_core::arriving::{enter, shape_of};
use ns_machine_core::laws::what_is_reached_can_be_entered;
use ns_machine_core::state::Core;
use ns_machine_frames::calls::{BodyShape, Call, leaving_of};
use ns_machine_frames::laws::frames_have_room;
use ns_machine_frames::registers::Registers;
use ns_moves::control::{Entered, Exit, Given};

/// Enters a body on its arguments where they stand.
#[inline(always)]
pub fn enter_on_arguments(
    code: &CodeProgram,
    core: &mut Core,
    at: Registers,
    sent: Sent,
    exit: Exit,
    entered: Entered,
) -> Registers
    requires left { IsLeft code.now core.old at sent }
    requires goes { ControlGoesOn code.now (length core.old.stack.frames.items) (control_at code.now core.old at sent
        (reached.Enters exit entered)) }
    requires taken { ArgumentsStand core.old exit entered.given (arguments_in core.old at sent) }
    ensures { Arrives code.now core.old at sent.floor (control_at code.now core.old at sent
        (reached.Enters exit entered)) core.new (next.On result) }
{
    let shape = shape_of(code, entered.body);
    enter_shaped(code, core, at, sent, exit, entered, shape)
}

/// The same by the shape of the body, where that was read before.
#[inline(always)]
#[tactic(auto, using(crate::proofs::Entered::may_enter))]
pub fn enter_shaped(
    code: &CodeProgram,
    core: &mut Core,
    at: Registers,
    sent: Sent,
    exit: Exit,
    entered: Entered,
    shape: BodyShape,
) -> Registers
    requires shape { shape ≡ spec.shape_of code.now entered.body }
    requires left { IsLeft code.now core.old at sent }
    requires goes { ControlGoesOn code.now (length core.old.stack.frames.items) (control_at code.now core.old at sent
        (reached.Enters exit entered)) }
    requires taken { ArgumentsStand core.old exit entered.given (arguments_in core.old at sent) }
    ensures { Arrives code.now core.old at sent.floor (control_at code.now core.old at sent
        (reached.Enters exit entered)) core.new (next.On result) }
{
    what_is_reached_can_be_entered();
    let call = Call {
        leaving: leaving_of(exit),
        site: sent.site,
        floor: sent.floor,
        first: sent.first,
    };
    enter(code, core, at, call, exit, entered, shape)
}

/// Enters a body on none of the arguments.
#[inline(never)]
#[tactic(auto, using(crate::proofs::Entered::left_bare, crate::proofs::Entered::bare_goes, crate::proofs::Entered::bare_taken, crate::proofs::Entered::bare_arrives))]
pub fn enter_without(
    code: &CodeProgram,
    core: &mut Core,
    at: Registers,
    sent: Sent,
    exit: Exit,
    entered: Entered,
) -> Registers
    requires left { IsLeft code.now core.old at sent }
    requires goes { ControlGoesOn code.now (length core.old.stack.frames.items) (control_at code.now core.old at sent
        (reached.Enters exit entered)) }
    requires none { TakesNone entered.given exit }
    ensures { Arrives code.now core.old at sent.floor (control_at code.now core.old at sent
        (reached.Enters exit entered)) core.new (next.On result) }
{
    let below = Registers {
        top: sent.floor,
        ..at
    };
    let bare = Sent {
        first: sent.floor,
        ..sent
    };
    enter_on_arguments(code, core, below, bare, exit, entered)
}

/// Enters the body that was reached, on its arguments where they stand, or on a Message; a clause has none.
#[inline(always)]
pub fn enter_reached(
    code: &CodeProgram,
    core: &mut Core,
    at: Registers,
    sent: Sent,
    exit: Exit,
    entered: Entered,
) -> Registers
    requires left { IsLeft code.now core.old at sent }
    requires goes { ControlGoesOn code.now (length core.old.stack.frames.items) (control_at code.now core.old at sent
        (reached.Enters exit entered)) }
    requires given { IsOwnGiven entered.given }
    ensures { Arrives code.now core.old at sent.floor (control_at code.now core.old at sent
        (reached.Enters exit entered)) core.new (next.On result) }
{
    match entered.given {
        Given::Listed => match exit {
            Exit::Method | Exit::Body => enter_on_arguments(code, core, at, sent, exit, entered),
            Exit::Clause { .. } => enter_without(code, core, at, sent, exit, entered),
        },
        Given::Message(_) => enter_without(code, core, at, sent, exit, entered),
        Given::Items(_) => unreachable!(),
    }
}

/// Enters the body that was reached, on the arguments that are kept, or on a Message; a clause has none.
pub fn enter_kept(
    code: &CodeProgram,
    core: &mut Core,
    at: Registers,
    sent: Sent,
    exit: Exit,
    entered: Entered,
) -> Registers
    requires left { IsLeft code.now core.old at sent }
    requires goes { ControlGoesOn code.now (length core.old.stack.frames.items) (kept_control code.now core.old sent
        (reached.Enters exit entered)) }
    requires given { IsOwnGiven entered.given }
    ensures { Arrives code.now core.old at sent.floor (kept_control code.now core.old sent
        (reached.Enters exit entered)) core.new (next.On result) }
{
    match entered.given {
        Given::Listed => match exit {
            Exit::Method | Exit::Body => enter_on_kept(code, core, at, sent, exit, entered),
            Exit::Clause { .. } => enter_without(code, core, at, sent, exit, entered),
        },
        Given::Message(_) => enter_without(code, core, at, sent, exit, entered),
        Given::Items(_) => unreachable!(),
    }
}

/// Enters a body on the arguments that are kept, which stand in its environment if it has one, and else beside it.
#[inline(always)]
fn enter_on_kept(
    code: &CodeProgram,
    core: &mut Core,
    at: Registers,
    sent: Sent,
    exit: Exit,
    entered: Entered,
) -> Registers
    requires left { IsLeft code.now core.old at sent }
    requires goes { ControlGoesOn code.now (length core.old.stack.frames.items) (kept_control code.now core.old sent
        (reached.Enters exit entered)) }
    requires listed { entered.given ≡ given.Listed }
    requires passed { passed exit core.old.arguments.items ≡ core.old.arguments.items }
    ensures { Arrives code.now core.old at sent.floor (kept_control code.now core.old sent
        (reached.Enters exit entered)) core.new (next.On result) }
{
    if shape_of(code, entered.body).environment {
        return enter_bare(code, core, at, sent, exit, entered);
    }
    enter_beside(code, core, at, sent, exit, entered)
}

/// Enters a body whose arguments stand in its environment.
#[tactic(auto, using(crate::proofs::Entered::left_bare, crate::proofs::EnteredKept::bare_goes, crate::proofs::EnteredKept::bare_taken, crate::proofs::EnteredKept::bare_arrives))]
fn enter_bare(
    code: &CodeProgram,
    core: &mut Core,
    at: Registers,
    sent: Sent,
    exit: Exit,
    entered: Entered,
) -> Registers
    requires left { IsLeft code.now core.old at sent }
    requires goes { ControlGoesOn code.now (length core.old.stack.frames.items) (kept_control code.now core.old sent
        (reached.Enters exit entered)) }
    requires listed { entered.given ≡ given.Listed }
    requires inside { has_environment code.now entered.body ≡ true }
    ensures { Arrives code.now core.old at sent.floor (kept_control code.now core.old sent
        (reached.Enters exit entered)) core.new (next.On result) }
{
    let below = Registers {
        top: sent.floor,
        ..at
    };
    let bare = Sent {
        first: sent.floor,
        ..sent
    };
    enter_on_arguments(code, core, below, bare, exit, entered)
}

/// Enters a body whose arguments stand beside it, where there is room for them among its locals.
fn enter_beside(
    code: &CodeProgram,
    core: &mut Core,
    at: Registers,
    sent: Sent,
    exit: Exit,
    entered: Entered,
) -> Registers
    requires left { IsLeft code.now core.old at sent }
    requires goes { ControlGoesOn code.now (length core.old.stack.frames.items) (kept_control code.now core.old sent
        (reached.Enters exit entered)) }
    requires listed { entered.given ≡ given.Listed }
    requires passed { passed exit core.old.arguments.items ≡ core.old.arguments.items }
    requires beside { has_environment code.now entered.body ≡ false }
    ensures { Arrives code.now core.old at sent.floor (kept_control code.now core.old sent
        (reached.Enters exit entered)) core.new (next.On result) }
{
    what_is_reached_can_be_entered();
    frames_have_room();
    let above = place_kept(code, core, at, sent);
    let placed = Sent {
        first: sent.floor,
        ..sent
    };
    enter_on_arguments(code, core, above, placed, exit, entered)
}
