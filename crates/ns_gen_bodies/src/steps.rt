//! What methods and blocks do: their steps, behind the values that their locals get.

ghost use Rattle.std.specs.Prelude.{◌≡◌, ◌+◌, false, length, IfOk, OnOk};
ghost use Rattle.ns_tree.specs.PlainOf.{bars_of, statement_of, statement_list_of, statements_of};
ghost use Rattle.ns_scope.specs.Bodies.{routine_blocks, statement_blocks, list_blocks};
ghost use Rattle.ns_resolved.specs.Program.{as_method, as_block};
ghost use Rattle.ns_resolved.specs.Statements.{step_of, list_steps};
ghost use Rattle.ns_gen_draft.specs.Standing.{standing};
ghost use Rattle.ns_gen_bodies.specs.Stepping.{is_return, with_method_step, with_method, with_block_step, with_block_steps, with_block};
ghost use Rattle.ns_gen_bodies.specs.Stepping.{with_body, routine_does};

use crate::values::{Stores, put_bars};
use ns_base::no_memory::NoMemory;
use ns_code::instruction::Instr;
use ns_gen_draft::here::Here;
use ns_gen_draft::writer::Writer;
use ns_gen_exprs::expressions::put_expr;
use ns_tree::tree::{Slot, Statement, Statements};

/// All that a method does; so many of its locals are parameters.
pub fn put_method_body(
    writer: &mut Writer,
    here: &Here<'_>,
    next: &mut u32,
    params: u32,
    slots: &Option<Vec<Slot>>,
    body: &Statements,
) -> Result<(), NoMemory>
    ensures put { OnOk result (writer.new ≡ with_body
        (routine_does as_method (standing here.now) next.old params (bars_of slots.now) (statements_of body.now)) writer.old) }
    ensures next { OnOk result (next.new ≡ next.old + length (routine_blocks here.now.scope.now (bars_of slots.now) (statements_of body.now))) }
{
    put_bars(writer, here, next, Stores::Locals, params, slots)?;
    put_method_steps(writer, here, next, &body.list)?;
    Ok(())
}

/// All that a block does.
pub fn put_block_body(
    writer: &mut Writer,
    here: &Here<'_>,
    next: &mut u32,
    params: u32,
    slots: &Option<Vec<Slot>>,
    body: &Statements,
) -> Result<(), NoMemory>
    ensures put { OnOk result (writer.new ≡ with_body
        (routine_does as_block (standing here.now) next.old params (bars_of slots.now) (statements_of body.now)) writer.old) }
    ensures next { OnOk result (next.new ≡ next.old + length (routine_blocks here.now.scope.now (bars_of slots.now) (statements_of body.now))) }
{
    put_bars(writer, here, next, Stores::Locals, params, slots)?;
    put_block_steps(writer, here, next, &body.list)?;
    Ok(())
}

/// The steps of a method, which ends with self unless the last one returns.
fn put_method_steps(
    writer: &mut Writer,
    here: &Here<'_>,
    next: &mut u32,
    list: &[Statement],
) -> Result<(), NoMemory>
    ensures put { OnOk result (writer.new ≡ with_method (list_steps (standing here.now) next.old (statement_list_of list.now)) false writer.old) }
    ensures next { OnOk result (next.new ≡ next.old + length (list_blocks here.now.scope.now (statement_list_of list.now))) }
{
    let mut returned = false;
    for statement in list {
        returned = put_method_step(writer, here, next, statement)?;
    }
    if !returned {
        writer.does(Instr::ReturnSelf)?;
    }
    Ok(())
}

/// A step of a method. Tells whether it returns.
fn put_method_step(
    writer: &mut Writer,
    here: &Here<'_>,
    next: &mut u32,
    statement: &Statement,
) -> Result<bool, NoMemory>
    ensures put { OnOk result (writer.new ≡ with_method_step (step_of (standing here.now) next.old (statement_of statement.now)) writer.old) }
    ensures returns { IfOk result (λ returned. returned ≡ is_return (step_of (standing here.now) next.old (statement_of statement.now))) }
    ensures next { OnOk result (next.new ≡ next.old + length (statement_blocks here.now.scope.now (statement_of statement.now))) }
{
    put_expr(writer, here, next, &statement.expr)?;
    match statement.caret {
        None => {
            writer.does(Instr::Pop)?;
            Ok(false)
        }
        Some(_) => {
            writer.does(Instr::Return)?;
            Ok(true)
        }
    }
}

/// The steps of a block, which ends with the value of the last one unless that returns from the
/// home. The value of a block without steps is nil.
fn put_block_steps(
    writer: &mut Writer,
    here: &Here<'_>,
    next: &mut u32,
    list: &[Statement],
) -> Result<(), NoMemory>
    ensures put { OnOk result (writer.new ≡ with_block (list_steps (standing here.now) next.old (statement_list_of list.now)) writer.old) }
    ensures next { OnOk result (next.new ≡ next.old + length (list_blocks here.now.scope.now (statement_list_of list.now))) }
{
    match list {
        [] => {
            writer.does(Instr::PushNil)?;
            writer.does(Instr::Return)?;
            Ok(())
        }
        [_, ..] => {
            put_steps(writer, here, next, list)?;
            Ok(())
        }
    }
}

fn put_steps(
    writer: &mut Writer,
    here: &Here<'_>,
    next: &mut u32,
    list: &[Statement],
) -> Result<(), NoMemory>
    ensures put { OnOk result (writer.new ≡ with_block_steps (list_steps (standing here.now) next.old (statement_list_of list.now)) writer.old) }
    ensures next { OnOk result (next.new ≡ next.old + length (list_blocks here.now.scope.now (statement_list_of list.now))) }
{
    let mut left = list.len();
    for statement in list {
        left -= 1;
        put_block_step(writer, here, next, statement, left == 0)?;
    }
    Ok(())
}

/// A step of a block, which is the last or not.
fn put_block_step(
    writer: &mut Writer,
    here: &Here<'_>,
    next: &mut u32,
    statement: &Statement,
    last: bool,
) -> Result<(), NoMemory>
    ensures put { OnOk result (writer.new ≡ with_block_step last (step_of (standing here.now) next.old (statement_of statement.now)) writer.old) }
    ensures next { OnOk result (next.new ≡ next.old + length (statement_blocks here.now.scope.now (statement_of statement.now))) }
{
    put_expr(writer, here, next, &statement.expr)?;
    match (statement.caret, last) {
        (None, true) => writer.does(Instr::Return)?,
        (None, false) => writer.does(Instr::Pop)?,
        (Some(_), _) => writer.does(Instr::ReturnHome)?,
    }
    Ok(())
}
