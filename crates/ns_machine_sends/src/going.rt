//! Where a send goes on with what its lookup came to.

ghost use Rattle.std.specs.Prelude.{◌≡◌, length};
ghost use Rattle.ns_world.specs.KernelTable.{row_at};
ghost use Rattle.ns_moves.specs.declared.sends.Answered.TheVariants as answers;
ghost use Rattle.ns_machine_core.specs.Doing.{IsRunning};
ghost use Rattle.ns_machine_sends.specs.Going.{ControlGoesOn, IsLeft, answered_at, CanAsk, CanAnswer, Leads};

use crate::arriving::arrive;
use crate::sent::Sent;
use ns_code::program::CodeProgram;
use ns_kernel_rows::row::row_reached;
use ns_machine_core::state::{Core, Next};
use ns_machine_frames::registers::Registers;
use ns_moves::sends::Answered;
use ns_world::kernel_row::Row;
use ns_world::kernel_table::row_of;
use ns_world::value::Value;

/// Goes on with what a send came to.
#[inline(always)]
#[tactic(auto, using(crate::specs::laws::Looked::comes_leads, crate::proofs::Leads::plain_given, crate::proofs::Leads::runs_body))]
pub fn go_on(
    code: &CodeProgram,
    core: &mut Core,
    at: Registers,
    sent: Sent,
    receiver: Value,
    answered: Answered,
) -> Next
    requires left { IsLeft code.now core.old at sent }
    requires goes { ControlGoesOn code.now (length core.old.stack.frames.items) (answered_at code.now core.old at sent receiver answered) }
    requires can { CanAnswer code.now core.old at sent receiver answered }
    requires runs { IsRunning core.old.stack.frames.items }
    ensures { Leads code.now core.old at sent.floor (answered_at code.now core.old at sent receiver answered) core.new result }
{
    match answered {
        Answered::Comes(reached) => arrive(code, core, at, sent, reached),
        Answered::Row(number) => ask(code, core, at, sent, receiver, number),
    }
}

/// Asks a row of the kernel, and goes where that leads. The rows of Integer, which are asked most, and `value` have a copy of
/// this code of their own each, in which there is no way but theirs.
#[inline(always)]
fn ask(
    code: &CodeProgram,
    core: &mut Core,
    at: Registers,
    sent: Sent,
    receiver: Value,
    number: u32,
) -> Next
    requires left { IsLeft code.now core.old at sent }
    requires goes { ControlGoesOn code.now (length core.old.stack.frames.items)
        (answered_at code.now core.old at sent receiver (answers.Row number)) }
    requires can { CanAsk code.now core.old at sent receiver number }
    requires runs { IsRunning core.old.stack.frames.items }
    ensures { Leads code.now core.old at sent.floor (answered_at code.now core.old at sent receiver (answers.Row number)) core.new result }
{
    let row = row_of(number);
    match row {
        Row::Integer(_) => ask_row(code, core, at, sent, receiver, number, row),
        Row::Value => ask_row(code, core, at, sent, receiver, number, row),
        _ => ask_apart(code, core, at, sent, receiver, number, row),
    }
}

/// The same with any row, apart from the code of those of Integer.
#[inline(never)]
fn ask_apart(
    code: &CodeProgram,
    core: &mut Core,
    at: Registers,
    sent: Sent,
    receiver: Value,
    number: u32,
    row: Row,
) -> Next
    requires left { IsLeft code.now core.old at sent }
    requires goes { ControlGoesOn code.now (length core.old.stack.frames.items)
        (answered_at code.now core.old at sent receiver (answers.Row number)) }
    requires can { CanAsk code.now core.old at sent receiver number }
    requires runs { IsRunning core.old.stack.frames.items }
    requires row { row ≡ row_at number }
    ensures { Leads code.now core.old at sent.floor (answered_at code.now core.old at sent receiver (answers.Row number)) core.new result }
{
    ask_row(code, core, at, sent, receiver, number, row)
}

/// Asks the row of a number.
#[inline(always)]
#[tactic(auto, using(crate::proofs::Leads::row_left, crate::proofs::Leads::row_goes, crate::proofs::Leads::row_given, crate::proofs::Leads::runs_body, crate::proofs::Leads::row_leads, crate::proofs::Leads::row_asked))]
fn ask_row(
    code: &CodeProgram,
    core: &mut Core,
    at: Registers,
    sent: Sent,
    receiver: Value,
    number: u32,
    row: Row,
) -> Next
    requires left { IsLeft code.now core.old at sent }
    requires goes { ControlGoesOn code.now (length core.old.stack.frames.items)
        (answered_at code.now core.old at sent receiver (answers.Row number)) }
    requires can { CanAsk code.now core.old at sent receiver number }
    requires runs { IsRunning core.old.stack.frames.items }
    requires row { row ≡ row_at number }
    ensures { Leads code.now core.old at sent.floor (answered_at code.now core.old at sent receiver (answers.Row number)) core.new result }
{
    let arguments = core.stack.from(at, sent.first);
    let reached = row_reached(
        &mut core.run.world,
        &mut core.run.board,
        code,
        row,
        sent.site.sel,
        receiver,
        arguments,
    );
    arrive(code, core, at, sent, reached)
}
