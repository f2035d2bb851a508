//! What initialisers do: the start of the superclass part, the values of slots, and expressions.

ghost use Rattle.std.specs.Prelude.{◌≡◌, ◌+◌, length, map, option_map, IfOk, OnOk};
ghost use Rattle.ns_tree.specs.PlainOf.{message_of, clause_of, bars_of, statement_of, statement_list_of, statements_of};
ghost use Rattle.ns_scope.specs.Bodies.{message_blocks, super_blocks, bars_blocks, statement_blocks, list_blocks, statements_blocks};
ghost use Rattle.ns_code.specs.declared.instruction.Instr.TheVariants.{Pop};
ghost use Rattle.ns_resolved.specs.Program.{as_initialiser};
ghost use Rattle.ns_resolved.specs.Expressions.{place_at, message_said};
ghost use Rattle.ns_resolved.specs.Statements.{step_of, list_steps};
ghost use Rattle.ns_resolved.specs.Classes.{super_arguments};
ghost use Rattle.ns_resolved.specs.Tables.{step_node};
ghost use Rattle.ns_gen_code.specs.Code.{how_many};
ghost use Rattle.ns_gen_draft.specs.Standing.{standing};
ghost use Rattle.ns_gen_exprs.specs.Sending.{with_nodes};
ghost use Rattle.ns_gen_bodies.specs.Stepping.{with_body};
ghost use Rattle.ns_gen_bodies.specs.Valuing.{with_ended};
ghost use Rattle.ns_gen_bodies.specs.Starting.{with_start, with_expressions, expressions_of, start_of};

use crate::values::{Stores, put_bars, put_ended};
use ns_base::no_memory::NoMemory;
use ns_code::instruction::Instr;
use ns_gen_draft::here::Here;
use ns_gen_draft::keys::keys_count;
use ns_gen_draft::writer::Writer;
use ns_gen_exprs::expressions::{put_keys, put_un_value};
use ns_tree::tree::{Message, Named, Slot, Statement, Statements, SuperClause};

/// All that the initialiser of a class of this name does.
pub fn put_initialiser(
    writer: &mut Writer,
    here: &Here<'_>,
    next: &mut u32,
    name: &Named,
    clause: &Option<SuperClause>,
    slots: &Option<Vec<Slot>>,
    body: &Statements,
) -> Result<(), NoMemory>
    ensures put { OnOk result (writer.new ≡ with_body (as_initialiser
        (start_of (standing here.now) next.old name.now (option_map clause_of clause.now) (bars_of slots.now) (statements_of body.now)))
        writer.old) }
    ensures next { OnOk result (next.new ≡ next.old + length (super_blocks here.now.scope.now (option_map clause_of clause.now))
        + length (bars_blocks here.now.scope.now (bars_of slots.now)) + length (statements_blocks here.now.scope.now (statements_of body.now))) }
{
    put_start(writer, here, next, name, clause)?;
    put_bars(writer, here, next, Stores::Slots, 0, slots)?;
    put_expressions(writer, here, next, body)?;
    Ok(())
}

/// The message that initialises the superclass part.
fn put_start(
    writer: &mut Writer,
    here: &Here<'_>,
    next: &mut u32,
    name: &Named,
    clause: &Option<SuperClause>,
) -> Result<(), NoMemory>
    ensures put { OnOk result (writer.new ≡ with_start (place_at here.now.marks.now name.now.at)
        (super_arguments (standing here.now) next.old (option_map clause_of clause.now)) writer.old) }
    ensures next { OnOk result (next.new ≡ next.old + length (super_blocks here.now.scope.now (option_map clause_of clause.now))) }
{
    let count = put_super_arguments(writer, here, next, clause)?;
    writer.starts(here.place(name.at), count)?;
    Ok(())
}

/// Its arguments. Tells how many there are.
#[tactic(auto, using(ns_gen_exprs::specs::laws::Composing::with_none))]
fn put_super_arguments(
    writer: &mut Writer,
    here: &Here<'_>,
    next: &mut u32,
    clause: &Option<SuperClause>,
) -> Result<u8, NoMemory>
    ensures put { OnOk result (writer.new ≡ with_nodes (super_arguments (standing here.now) next.old (option_map clause_of clause.now)) writer.old) }
    ensures count { IfOk result (λ count. count ≡ how_many (super_arguments (standing here.now) next.old (option_map clause_of clause.now))) }
    ensures next { OnOk result (next.new ≡ next.old + length (super_blocks here.now.scope.now (option_map clause_of clause.now))) }
{
    match clause {
        None => Ok(0),
        Some(clause) => match &clause.message {
            None => Ok(0),
            Some(message) => put_arguments(writer, here, next, message),
        },
    }
}

/// The arguments of a message. Tells how many there are.
#[tactic(auto, using(ns_gen_exprs::specs::laws::Composing::with_none, ns_gen_exprs::specs::laws::Composing::with_one, ns_gen_draft::specs::laws::Keywords::keys_many))]
fn put_arguments(
    writer: &mut Writer,
    here: &Here<'_>,
    next: &mut u32,
    message: &Message,
) -> Result<u8, NoMemory>
    ensures put { OnOk result (writer.new ≡ with_nodes (message_said (standing here.now) next.old (message_of message.now)).arguments writer.old) }
    ensures count { IfOk result (λ count. count ≡ how_many (message_said (standing here.now) next.old (message_of message.now)).arguments) }
    ensures next { OnOk result (next.new ≡ next.old + length (message_blocks here.now.scope.now (message_of message.now))) }
{
    match message {
        Message::Unary(_) => Ok(0),
        Message::Binary(oper) => {
            put_un_value(writer, here, next, &oper.1)?;
            Ok(1)
        }
        Message::Keys(keys) => {
            let count = keys_count(keys)?;
            put_keys(writer, here, next, keys)?;
            Ok(count)
        }
    }
}

/// The expressions, and self at the end.
fn put_expressions(
    writer: &mut Writer,
    here: &Here<'_>,
    next: &mut u32,
    body: &Statements,
) -> Result<(), NoMemory>
    ensures put { OnOk result (writer.new ≡ with_expressions (expressions_of (standing here.now) next.old (statements_of body.now)) writer.old) }
    ensures next { OnOk result (next.new ≡ next.old + length (statements_blocks here.now.scope.now (statements_of body.now))) }
{
    put_list(writer, here, next, &body.list)?;
    Ok(())
}

fn put_list(
    writer: &mut Writer,
    here: &Here<'_>,
    next: &mut u32,
    list: &[Statement],
) -> Result<(), NoMemory>
    ensures put { OnOk result (writer.new ≡ with_expressions
        (map step_node (list_steps (standing here.now) next.old (statement_list_of list.now))) writer.old) }
    ensures next { OnOk result (next.new ≡ next.old + length (list_blocks here.now.scope.now (statement_list_of list.now))) }
{
    for statement in list {
        put_statement(writer, here, next, statement)?;
    }
    writer.does(Instr::ReturnSelf)?;
    Ok(())
}

/// An expression whose value is dropped.
fn put_statement(
    writer: &mut Writer,
    here: &Here<'_>,
    next: &mut u32,
    statement: &Statement,
) -> Result<(), NoMemory>
    ensures put { OnOk result (writer.new ≡ with_ended (step_node (step_of (standing here.now) next.old (statement_of statement.now))) Pop writer.old) }
    ensures next { OnOk result (next.new ≡ next.old + length (statement_blocks here.now.scope.now (statement_of statement.now))) }
{
    put_ended(writer, here, next, &statement.expr, Instr::Pop)
}
