//! The bodies of declarations, each as what is seen from it, in the order of their numbers.

ghost use Rattle.std.specs.Prelude.{◌≡◌, ◌++◌, ◌∷◌, map, OnOk, IfOk, option_map};
ghost use Rattle.ns_tree.specs.PlainOf.{bars_of, statements_of, clause_of, method_of, class_of, class_side_of, side_of, members_of, member_of, what_of, unit_of};
ghost use Rattle.ns_scope.specs.Scopes.{is_outside};
ghost use Rattle.ns_scope.specs.Bodies.{super_blocks, start_blocks, clause_bodies, initialiser_bodies, method_bodies, member_methods, methods_bodies, side_bodies, class_side_bodies, own_bodies};
ghost use Rattle.ns_scope.specs.Bodies.{class_bodies, class_inside, nested_bodies, members_bodies, member_nested, what_bodies, unit_bodies, bodies_of};

use crate::blocks::{put_bars, put_message, put_scope, put_statements};
use crate::scopes::Scopes;
use ns_base::no_memory::NoMemory;
use ns_scope::chain::Chain;
use ns_scope::program::Program;
use ns_scope::scope::{ClassScope, CodeSide, Scope};
use ns_tree::tree::{Class, Member, Method, Side, Slot, Statements, SuperClause, Unit, What};
use std::alloc::Global;

/// The scopes of a program's bodies. The only refusal is want of memory, which also stands for more
/// than 4,294,967,295 bodies.
pub fn scopes(alloc: Global, program: &Program) -> Result<Scopes, NoMemory>
    ensures { IfOk result (λ scopes. scopes ≡ bodies_of (map unit_of program.now.units)) }
{
    let mut all = Vec::new(alloc);
    for unit in program.units.as_slice() {
        put_unit(alloc, &mut all, unit)?;
    }
    Scopes::from_vec(all)
}

/// The bodies of a file.
fn put_unit(alloc: Global, all: &mut Vec<Scope>, unit: &Unit) -> Result<(), NoMemory>
    ensures { OnOk result (all.new.items ≡ all.old.items ++ unit_bodies (unit_of unit.now)) }
{
    let outside = Chain::end(alloc)?;
    put_class(alloc, all, &outside, &unit.class)
}

/// The bodies of a class, and then those of the classes in it.
#[cycle(bodies)]
fn put_class(
    alloc: Global,
    all: &mut Vec<Scope>,
    outer: &Chain<ClassScope>,
    class: &Class,
) -> Result<(), NoMemory>
    ensures { OnOk result (all.new.items ≡ all.old.items ++ class_bodies outer.now (class_of class.now)) }
{
    let classes = Chain::inside(alloc, ClassScope::of(alloc, class)?, outer)?;
    put_clause(alloc, all, outer, &class.clause)?;
    put_inside(alloc, all, &classes, class)
}

/// The bodies that stand in a class.
#[cycle(bodies)]
fn put_inside(
    alloc: Global,
    all: &mut Vec<Scope>,
    classes: &Chain<ClassScope>,
    class: &Class,
) -> Result<(), NoMemory>
    ensures { OnOk result (all.new.items ≡ all.old.items ++ class_inside classes.now (class_of class.now)) }
{
    put_own(alloc, all, classes, class)?;
    put_nested(alloc, all, classes, &class.side)
}

/// The initialiser and the methods of a class.
fn put_own(
    alloc: Global,
    all: &mut Vec<Scope>,
    classes: &Chain<ClassScope>,
    class: &Class,
) -> Result<(), NoMemory>
    ensures { OnOk result (all.new.items ≡ all.old.items ++ own_bodies classes.now (class_of class.now)) }
{
    put_initialiser(alloc, all, classes, class)?;
    put_side(alloc, all, classes, CodeSide::Instance, &class.side)?;
    put_class_side(alloc, all, classes, &class.class_side)
}

/// The clause of a nested class.
fn put_clause(
    alloc: Global,
    all: &mut Vec<Scope>,
    outer: &Chain<ClassScope>,
    clause: &Option<SuperClause>,
) -> Result<(), NoMemory>
    ensures { OnOk result (all.new.items ≡ all.old.items ++ clause_bodies outer.now (option_map clause_of clause.now)) }
{
    if clause.is_some() && !is_outside(outer) {
        all.push(Scope::clause(alloc, outer)?)?;
    }
    Ok(())
}

/// Whether there are no declarations.
fn is_outside(classes: &Chain<ClassScope>) -> bool
    ensures { result ≡ is_outside classes.now }
{
    classes.links().split().is_none()
}

fn put_initialiser(
    alloc: Global,
    all: &mut Vec<Scope>,
    classes: &Chain<ClassScope>,
    class: &Class,
) -> Result<(), NoMemory>
    ensures { OnOk result (all.new.items ≡ all.old.items ++ initialiser_bodies classes.now (class_of class.now)) }
{
    let scope = Scope::initialiser(alloc, classes, &class.factory)?;
    put_body(alloc, all, &scope, &class.clause, &class.slots, &class.body)
}

/// A body that stands in no other, which sees this, and the blocks in it. An initialiser may have a
/// clause.
fn put_body(
    alloc: Global,
    all: &mut Vec<Scope>,
    scope: &Scope,
    clause: &Option<SuperClause>,
    slots: &Option<Vec<Slot>>,
    body: &Statements,
) -> Result<(), NoMemory>
    ensures { OnOk result (all.new.items ≡ all.old.items
        ++ scope.now ∷ start_blocks scope.now (option_map clause_of clause.now) (bars_of slots.now) (statements_of body.now)) }
{
    put_scope(all, scope)?;
    put_super(alloc, all, scope, clause)?;
    put_bars(alloc, all, scope, slots)?;
    put_statements(alloc, all, scope, body)
}

/// The blocks in the message to the superclass.
fn put_super(
    alloc: Global,
    all: &mut Vec<Scope>,
    scope: &Scope,
    clause: &Option<SuperClause>,
) -> Result<(), NoMemory>
    ensures { OnOk result (all.new.items ≡ all.old.items ++ super_blocks scope.now (option_map clause_of clause.now)) }
{
    match clause {
        None => Ok(()),
        Some(clause) => match &clause.message {
            None => Ok(()),
            Some(message) => put_message(alloc, all, scope, message),
        },
    }
}

fn put_class_side(
    alloc: Global,
    all: &mut Vec<Scope>,
    classes: &Chain<ClassScope>,
    side: &Option<Side>,
) -> Result<(), NoMemory>
    ensures { OnOk result (all.new.items ≡ all.old.items ++ class_side_bodies classes.now (class_side_of side.now)) }
{
    match side {
        None => Ok(()),
        Some(side) => put_side(alloc, all, classes, CodeSide::Class, side),
    }
}

/// The methods of a side.
fn put_side(
    alloc: Global,
    all: &mut Vec<Scope>,
    classes: &Chain<ClassScope>,
    side: CodeSide,
    members: &Side,
) -> Result<(), NoMemory>
    ensures { OnOk result (all.new.items ≡ all.old.items ++ side_bodies classes.now side (side_of members.now)) }
{
    put_methods(alloc, all, classes, side, &members.members)
}

fn put_methods(
    alloc: Global,
    all: &mut Vec<Scope>,
    classes: &Chain<ClassScope>,
    side: CodeSide,
    members: &[Member],
) -> Result<(), NoMemory>
    ensures { OnOk result (all.new.items ≡ all.old.items ++ methods_bodies classes.now side (members_of members.now)) }
{
    for member in members {
        put_member_method(alloc, all, classes, side, &member.what)?;
    }
    Ok(())
}

fn put_member_method(
    alloc: Global,
    all: &mut Vec<Scope>,
    classes: &Chain<ClassScope>,
    side: CodeSide,
    what: &What,
) -> Result<(), NoMemory>
    ensures { OnOk result (all.new.items ≡ all.old.items ++ member_methods classes.now side (what_of what.now)) }
{
    match what {
        What::Class(_) => Ok(()),
        What::Method(method) => put_method(alloc, all, classes, side, method),
    }
}

fn put_method(
    alloc: Global,
    all: &mut Vec<Scope>,
    classes: &Chain<ClassScope>,
    side: CodeSide,
    method: &Method,
) -> Result<(), NoMemory>
    ensures { OnOk result (all.new.items ≡ all.old.items ++ method_bodies classes.now side (method_of method.now)) }
{
    let scope = Scope::method(alloc, classes, side, &method.pattern.params, &method.slots)?;
    put_body(alloc, all, &scope, &None, &method.slots, &method.body)
}

/// The bodies of the classes on a side.
#[cycle(bodies)]
fn put_nested(
    alloc: Global,
    all: &mut Vec<Scope>,
    classes: &Chain<ClassScope>,
    side: &Side,
) -> Result<(), NoMemory>
    ensures { OnOk result (all.new.items ≡ all.old.items ++ nested_bodies classes.now (side_of side.now)) }
{
    put_members(alloc, all, classes, &side.members)
}

#[cycle(bodies)]
fn put_members(
    alloc: Global,
    all: &mut Vec<Scope>,
    classes: &Chain<ClassScope>,
    members: &[Member],
) -> Result<(), NoMemory>
    ensures { OnOk result (all.new.items ≡ all.old.items ++ members_bodies classes.now (members_of members.now)) }
{
    for member in members {
        put_member(alloc, all, classes, member)?;
    }
    Ok(())
}

#[cycle(bodies)]
fn put_member(
    alloc: Global,
    all: &mut Vec<Scope>,
    classes: &Chain<ClassScope>,
    member: &Member,
) -> Result<(), NoMemory>
    ensures { OnOk result (all.new.items ≡ all.old.items ++ member_nested classes.now (member_of member.now)) }
{
    put_what(alloc, all, classes, &member.what)
}

#[cycle(bodies)]
fn put_what(
    alloc: Global,
    all: &mut Vec<Scope>,
    classes: &Chain<ClassScope>,
    what: &What,
) -> Result<(), NoMemory>
    ensures { OnOk result (all.new.items ≡ all.old.items ++ what_bodies classes.now (what_of what.now)) }
{
    match what {
        What::Class(class) => put_class(alloc, all, classes, class),
        What::Method(_) => Ok(()),
    }
}
