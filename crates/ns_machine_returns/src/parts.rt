//! Superclass parts, which an initialiser begins.

ghost use Rattle.std.specs.Prelude.{Option};
ghost use Rattle.ns_base.specs.declared.place.Place.{Place as SourcePlace};
ghost use Rattle.ns_code.specs.declared.instruction.Instr.TheVariants as instr;
ghost use Rattle.ns_moves.specs.declared.control.Exit.TheVariants as exit;
ghost use Rattle.ns_machine_core.specs.declared.state.Next.TheVariants as next;
ghost use Rattle.ns_machine_core.specs.Arriving.{CanEnter};
ghost use Rattle.ns_machine_core.specs.Doing.{CanDo, IsDone};
ghost use Rattle.ns_machine_returns.specs.Parts.{part_call, listed, PartBegins};

use ns_code::program::CodeProgram;
use ns_machine_core::arriving::shape_of;
use ns_machine_core::laws::what_is_reached_can_be_entered;
use ns_machine_core::settling::{ending_at, running, running_code};
use ns_machine_core::state::{Core, Next};
use ns_machine_frames::calls::Call;
use ns_machine_frames::frame::{KeptSite, Leaving};
use ns_machine_frames::laws::{frames_begin, frames_have_room, operands_are_taken};
use ns_machine_frames::registers::Registers;
use ns_moves::classes::super_part;
use ns_moves::control::{Entered, Given, PartReached};
use ns_moves::finding::enclosing_objects_are_there;
use ns_moves::laws::{actions_keep_lawful, actions_spend_exactly, what_is_handed_on_fits};

/// Begins the part of the superclass of the class whose initialiser runs, with so many topmost operands as the arguments
/// of its superclass message.
#[inline(always)]
pub fn init_super(code: &CodeProgram, core: &mut Core, at: Registers, argc: u8) -> Next
    requires { CanDo code.now core.old at (instr.InitSuper argc) }
    ensures { (place : Option SourcePlace) → IsDone code.now (instr.InitSuper argc) place core.old at core.new result }
{
    begin_part(code, core, at, u32::from(argc))
}

/// The same, by their count in 32 bits.
#[tactic(auto, using(ns_machine_core::specs::laws::Pushed::runs, ns_machine_core::specs::laws::Pushed::one_more, ns_machine_core::specs::laws::Taken::some_operand))]
fn begin_part(code: &CodeProgram, core: &mut Core, at: Registers, count: u32) -> Next
    requires { CanDo code.now core.old at (instr.InitSuper count) }
    ensures { (place : Option SourcePlace) → IsDone code.now (instr.InitSuper count) place core.old at core.new result }
{
    operands_are_taken();
    enclosing_objects_are_there();
    actions_keep_lawful();
    actions_spend_exactly();
    what_is_handed_on_fits();
    what_is_reached_can_be_entered();
    let frame = running(&core.stack);
    let arguments = core.stack.operands(at, count);
    let reached = super_part(
        &mut core.run.world,
        code,
        running_code(frame.activation),
        arguments,
    );
    let first = at.top - count;
    match reached {
        PartReached::Skips => Next::On(Registers { top: first, ..at }),
        PartReached::Fails(fault) => {
            core.ending = ending_at(&core.places, frame.activation.site, fault);
            Next::Ended
        }
        PartReached::Enters(entered) => Next::On(enter_part(
            code,
            core,
            at,
            first,
            frame.activation.site,
            entered,
        )),
    }
}

/// Enters the initialiser of a superclass on its arguments, which stand behind the values of its caller.
fn enter_part(
    code: &CodeProgram,
    core: &mut Core,
    at: Registers,
    first: u32,
    site: KeptSite,
    entered: Entered,
) -> Registers
    requires { CanEnter code.now core.old at (part_call site first) exit.Body (listed entered) }
    ensures { PartBegins code.now core.old at first site entered core.new (next.On result) }
{
    frames_begin();
    frames_have_room();
    let shape = shape_of(code, entered.body);
    let call = Call {
        leaving: Leaving::Part,
        site,
        floor: first,
        first,
    };
    let part = Entered {
        given: Given::Listed,
        ..entered
    };
    core.stack.enter_body(at, call, part, shape)
}
