//! How many blocks stand in methods and initialisers, wherever they stand.

ghost use Rattle.std.specs.Prelude.{◌≡◌, ◌+◌, length, List, OnOk, option_map};
ghost use Rattle.ns_tree.specs.PlainOf.{bars_of, statements_of, clause_of, method_of};
ghost use Rattle.ns_scope.specs.declared.scope.Scope.{Scope};
ghost use Rattle.ns_scope.specs.declared.scope.ClassScope.{ClassScope};
ghost use Rattle.ns_scope.specs.declared.scope.CodeSide.{CodeSide};
ghost use Rattle.ns_scope.specs.Bodies.{super_blocks, start_blocks, routine_blocks, bars_blocks, method_bodies};

use ns_base::no_memory::NoMemory;
use ns_gen_draft::around::advance;
use ns_gen_draft::counting::{count_message, count_slots, count_statements};
use ns_tree::tree::{Method, Slot, Statements, SuperClause};

/// A method, and the blocks in it.
#[tactic(auto, using(crate::proofs::BlocksOf::method_counted))]
pub fn count_method(count: &mut u32, method: &Method) -> Result<(), NoMemory>
    ensures { (classes : List ClassScope) (side : CodeSide) → OnOk result (count.new ≡ count.old + length (method_bodies classes side (method_of method.now))) }
{
    advance(count)?;
    count_routine(count, &method.slots, &method.body)?;
    Ok(())
}

/// The blocks in an initialiser.
#[tactic(auto, using(crate::proofs::BlocksOf::start_counted))]
pub fn count_start(
    count: &mut u32,
    clause: &Option<SuperClause>,
    slots: &Option<Vec<Slot>>,
    body: &Statements,
) -> Result<(), NoMemory>
    ensures { (scope : Scope) → OnOk result (count.new ≡ count.old + length
        (start_blocks scope (option_map clause_of clause.now) (bars_of slots.now) (statements_of body.now))) }
{
    count_super(count, clause)?;
    count_routine(count, slots, body)?;
    Ok(())
}

/// The blocks in the message to the superclass.
#[tactic(auto, using(crate::proofs::BlocksOf::message_counted))]
fn count_super(count: &mut u32, clause: &Option<SuperClause>) -> Result<(), NoMemory>
    ensures { (scope : Scope) → OnOk result (count.new ≡ count.old + length (super_blocks scope (option_map clause_of clause.now))) }
{
    match clause {
        None => Ok(()),
        Some(clause) => match &clause.message {
            None => Ok(()),
            Some(message) => count_message(count, message),
        },
    }
}

/// The blocks in locals and statements.
#[tactic(auto, using(crate::proofs::BlocksOf::routine_counted))]
fn count_routine(
    count: &mut u32,
    slots: &Option<Vec<Slot>>,
    body: &Statements,
) -> Result<(), NoMemory>
    ensures { (scope : Scope) → OnOk result (count.new ≡ count.old + length (routine_blocks scope (bars_of slots.now) (statements_of body.now))) }
{
    count_bars(count, slots)?;
    count_statements(count, body)?;
    Ok(())
}

/// The blocks in the values of slots or locals, if there are any.
#[tactic(auto, using(crate::proofs::BlocksOf::slots_counted))]
fn count_bars(count: &mut u32, slots: &Option<Vec<Slot>>) -> Result<(), NoMemory>
    ensures { (scope : Scope) → OnOk result (count.new ≡ count.old + length (bars_blocks scope (bars_of slots.now))) }
{
    match slots {
        None => Ok(()),
        Some(slots) => count_slots(count, slots),
    }
}
