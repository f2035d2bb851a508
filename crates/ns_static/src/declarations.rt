//! The faults of classes, their sides and members, and methods. Each function finds what the
//! definition of its name lists.

ghost use Rattle.std.specs.Prelude.{◌≡◌, ◌++◌, option_map, OnOk};
ghost use Rattle.ns_tree.specs.PlainOf.{bars_of, statements_of, pattern_of, clause_of, method_of};
ghost use Rattle.ns_tree.specs.PlainOf.{class_of, class_side_of, side_of, members_of, what_of};
ghost use Rattle.ns_static_rules.specs.Faults.{bars_faults, statements_faults, super_faults, clause_message_faults, initialiser_faults, method_faults};
ghost use Rattle.ns_static_rules.specs.Faults.{class_faults, class_inside_faults, class_side_faults, side_faults, members_faults, what_faults};
ghost use Rattle.ns_static_rules.specs.Walk.{with_found};

use crate::classes::enter_class;
use ns_base::no_memory::NoMemory;
use ns_scope::chain::Chain;
use ns_scope::scope::{ClassScope, CodeSide, Scope};
use ns_static_rules::bodies::{begin_initialiser, begin_method};
use ns_static_rules::checker::Checker;
use ns_static_rules::expressions::{bars_faults, message_faults, statements_faults};
use ns_tree::tree::{Class, Member, Method, Pattern, Side, Slot, Statements, SuperClause, What};

#[cycle(declarations)]
pub fn class_faults(
    checker: &mut Checker<'_>,
    outer: &Chain<ClassScope>,
    class: &Class,
) -> Result<(), NoMemory>
    ensures { OnOk result (checker.new ≡ with_found checker.old (class_faults outer.now (class_of class.now))) }
{
    let classes = enter_class(checker, outer, class)?;
    class_inside_faults(checker, &classes, class)
}

/// What stands in a class.
#[cycle(declarations)]
fn class_inside_faults(
    checker: &mut Checker<'_>,
    classes: &Chain<ClassScope>,
    class: &Class,
) -> Result<(), NoMemory>
    ensures { OnOk result (checker.new ≡ with_found checker.old (class_inside_faults classes.now (class_of class.now))) }
{
    initialiser_faults(
        checker,
        classes,
        &class.factory,
        &class.clause,
        &class.slots,
        &class.body,
    )?;
    side_faults(checker, classes, CodeSide::Instance, &class.side)?;
    class_side_faults(checker, classes, &class.class_side)
}

#[cycle(declarations)]
fn class_side_faults(
    checker: &mut Checker<'_>,
    classes: &Chain<ClassScope>,
    side: &Option<Side>,
) -> Result<(), NoMemory>
    ensures { OnOk result (checker.new ≡ with_found checker.old (class_side_faults classes.now (class_side_of side.now))) }
{
    match side {
        None => Ok(()),
        Some(side) => side_faults(checker, classes, CodeSide::Class, side),
    }
}

#[cycle(declarations)]
fn side_faults(
    checker: &mut Checker<'_>,
    classes: &Chain<ClassScope>,
    code_side: CodeSide,
    side: &Side,
) -> Result<(), NoMemory>
    ensures { OnOk result (checker.new ≡ with_found checker.old (side_faults classes.now code_side (side_of side.now))) }
{
    members_faults(checker, classes, code_side, &side.members)
}

#[cycle(declarations)]
fn members_faults(
    checker: &mut Checker<'_>,
    classes: &Chain<ClassScope>,
    code_side: CodeSide,
    members: &[Member],
) -> Result<(), NoMemory>
    ensures { OnOk result (checker.new ≡ with_found checker.old (members_faults classes.now code_side (members_of members.now))) }
{
    for member in members {
        what_faults(checker, classes, code_side, &member.what)?;
    }
    Ok(())
}

#[cycle(declarations)]
fn what_faults(
    checker: &mut Checker<'_>,
    classes: &Chain<ClassScope>,
    code_side: CodeSide,
    what: &What,
) -> Result<(), NoMemory>
    ensures { OnOk result (checker.new ≡ with_found checker.old (what_faults classes.now code_side (what_of what.now))) }
{
    match what {
        What::Class(class) => class_faults(checker, classes, class),
        What::Method(method) => method_faults(checker, classes, code_side, method),
    }
}

fn method_faults(
    checker: &mut Checker<'_>,
    classes: &Chain<ClassScope>,
    code_side: CodeSide,
    method: &Method,
) -> Result<(), NoMemory>
    ensures { OnOk result (checker.new ≡ with_found checker.old (method_faults classes.now code_side (method_of method.now))) }
{
    let scope = begin_method(
        checker,
        classes,
        code_side,
        &method.pattern.params,
        &method.slots,
    )?;
    body_faults(checker, &scope, &None, &method.slots, &method.body)
}

fn initialiser_faults(
    checker: &mut Checker<'_>,
    classes: &Chain<ClassScope>,
    factory: &Option<Pattern>,
    clause: &Option<SuperClause>,
    slots: &Option<Vec<Slot>>,
    body: &Statements,
) -> Result<(), NoMemory>
    ensures { OnOk result (checker.new ≡ with_found checker.old
        (initialiser_faults classes.now (option_map pattern_of factory.now) (option_map clause_of clause.now) (bars_of slots.now) (statements_of body.now))) }
{
    let scope = begin_initialiser(checker, classes, factory)?;
    body_faults(checker, &scope, clause, slots, body)
}

/// What stands in a method or an initialiser, which sees this. An initialiser may have a clause.
fn body_faults(
    checker: &mut Checker<'_>,
    scope: &Scope,
    clause: &Option<SuperClause>,
    slots: &Option<Vec<Slot>>,
    body: &Statements,
) -> Result<(), NoMemory>
    ensures { OnOk result (checker.new ≡ with_found checker.old
        (super_faults scope.now (option_map clause_of clause.now)
        ++ (bars_faults scope.now (bars_of slots.now) ++ statements_faults scope.now (statements_of body.now)))) }
{
    super_faults(checker, scope, clause)?;
    bars_faults(checker, scope, slots)?;
    statements_faults(checker, scope, body)
}

/// The message of a clause, which belongs to the initialiser.
fn super_faults(
    checker: &mut Checker<'_>,
    scope: &Scope,
    clause: &Option<SuperClause>,
) -> Result<(), NoMemory>
    ensures { OnOk result (checker.new ≡ with_found checker.old (super_faults scope.now (option_map clause_of clause.now))) }
{
    match clause {
        None => Ok(()),
        Some(clause) => clause_message_faults(checker, scope, clause),
    }
}

fn clause_message_faults(
    checker: &mut Checker<'_>,
    scope: &Scope,
    clause: &SuperClause,
) -> Result<(), NoMemory>
    ensures { OnOk result (checker.new ≡ with_found checker.old (clause_message_faults scope.now (clause_of clause.now))) }
{
    match &clause.message {
        None => Ok(()),
        Some(message) => message_faults(checker, scope, message),
    }
}
