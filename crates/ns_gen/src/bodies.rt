//! The bodies of declarations, each with the blocks in it, in the order of their numbers.

ghost use Rattle.std.specs.Prelude.{◌≡◌, ◌+◌, false, Some, length, OnOk, option_map};
ghost use Rattle.ns_tree.specs.PlainOf.{bars_of, statements_of, clause_of, method_of, class_of, class_side_of, side_of, members_of, member_of, what_of};
ghost use Rattle.ns_scope.specs.Scopes.{is_outside};
ghost use Rattle.ns_scope.specs.Bodies as b;
ghost use Rattle.ns_resolved.specs.Classes.{super_bodies, clause_bodies, method_bodies, what_methods, members_methods, side_methods, class_side_methods, own_bodies};
ghost use Rattle.ns_resolved.specs.Classes.{class_bodies, nested_bodies, members_bodies, member_bodies, what_bodies, class_count, side_count, members_count, member_count, what_count};
ghost use Rattle.ns_gen_draft.specs.Standing.{around_of, standing};
ghost use Rattle.ns_gen_bodies.specs.Coding.{with_bodies};
ghost use Rattle.ns_gen.specs.Walking.{routine_inside, start_inside, start_bodies, inside_class, StandsAround};

use crate::inner::{put_bars, put_message, put_statements};
use ns_base::no_memory::NoMemory;
use ns_gen_bodies::output::Output;
use ns_gen_draft::around::{Around, advance};
use ns_gen_draft::here::Here;
use ns_scope::chain::Chain;
use ns_scope::scope::{ClassScope, CodeSide, Scope};
use ns_tree::tree::{Class, Member, Method, Side, Slot, Statements, SuperClause, What};

/// The bodies of a class of this number, and then those of the classes in it.
#[cycle(bodies)]
pub fn put_class(
    output: &mut Output,
    around: &Around<'_>,
    number: &mut u32,
    next: &mut u32,
    class: &Class,
) -> Result<(), NoMemory>
    requires { StandsAround around.now }
    ensures put { OnOk result (output.new ≡ with_bodies (class_bodies (around_of around.now) number.old next.old (class_of class.now)) output.old) }
    ensures number { OnOk result (number.new ≡ number.old + class_count (class_of class.now)) }
    ensures next { OnOk result (next.new ≡ next.old + length (b.class_bodies around.now.classes.now (class_of class.now))) }
{
    let scope = ClassScope::of(output.alloc(), class)?;
    let classes = Chain::inside(output.alloc(), scope, around.classes)?;
    let inside = Around {
        classes: &classes,
        outer: Some(*number),
        marks: around.marks,
    };
    put_clause(output, around, next, &class.clause)?;
    put_inside(output, &inside, number, next, class)?;
    Ok(())
}

/// The bodies that stand in a class of this number.
#[cycle(bodies)]
fn put_inside(
    output: &mut Output,
    around: &Around<'_>,
    number: &mut u32,
    next: &mut u32,
    class: &Class,
) -> Result<(), NoMemory>
    requires { StandsAround around.now }
    ensures put { OnOk result (output.new ≡ with_bodies (inside_class (around_of around.now) number.old next.old (class_of class.now)) output.old) }
    ensures number { OnOk result (number.new ≡ number.old + class_count (class_of class.now)) }
    ensures next { OnOk result (next.new ≡ next.old + length (b.class_inside around.now.classes.now (class_of class.now))) }
{
    put_own(output, around, *number, next, class)?;
    advance(number)?;
    put_nested(output, around, number, next, &class.side)?;
    Ok(())
}

/// The bodies of the classes on a side, the first of which has that number.
#[cycle(bodies)]
fn put_nested(
    output: &mut Output,
    around: &Around<'_>,
    number: &mut u32,
    next: &mut u32,
    side: &Side,
) -> Result<(), NoMemory>
    requires { StandsAround around.now }
    ensures put { OnOk result (output.new ≡ with_bodies (nested_bodies (around_of around.now) number.old next.old (side_of side.now)) output.old) }
    ensures number { OnOk result (number.new ≡ number.old + side_count (side_of side.now)) }
    ensures next { OnOk result (next.new ≡ next.old + length (b.nested_bodies around.now.classes.now (side_of side.now))) }
{
    put_members(output, around, number, next, &side.members)?;
    Ok(())
}

#[cycle(bodies)]
fn put_members(
    output: &mut Output,
    around: &Around<'_>,
    number: &mut u32,
    next: &mut u32,
    members: &[Member],
) -> Result<(), NoMemory>
    requires { StandsAround around.now }
    ensures put { OnOk result (output.new ≡ with_bodies (members_bodies (around_of around.now) number.old next.old (members_of members.now)) output.old) }
    ensures number { OnOk result (number.new ≡ number.old + members_count (members_of members.now)) }
    ensures next { OnOk result (next.new ≡ next.old + length (b.members_bodies around.now.classes.now (members_of members.now))) }
{
    for member in members {
        put_member(output, around, number, next, member)?;
    }
    Ok(())
}

#[cycle(bodies)]
fn put_member(
    output: &mut Output,
    around: &Around<'_>,
    number: &mut u32,
    next: &mut u32,
    member: &Member,
) -> Result<(), NoMemory>
    requires { StandsAround around.now }
    ensures put { OnOk result (output.new ≡ with_bodies (member_bodies (around_of around.now) number.old next.old (member_of member.now)) output.old) }
    ensures number { OnOk result (number.new ≡ number.old + member_count (member_of member.now)) }
    ensures next { OnOk result (next.new ≡ next.old + length (b.member_nested around.now.classes.now (member_of member.now))) }
{
    put_what(output, around, number, next, &member.what)
}

#[cycle(bodies)]
fn put_what(
    output: &mut Output,
    around: &Around<'_>,
    number: &mut u32,
    next: &mut u32,
    what: &What,
) -> Result<(), NoMemory>
    requires { StandsAround around.now }
    ensures put { OnOk result (output.new ≡ with_bodies (what_bodies (around_of around.now) number.old next.old (what_of what.now)) output.old) }
    ensures number { OnOk result (number.new ≡ number.old + what_count (what_of what.now)) }
    ensures next { OnOk result (next.new ≡ next.old + length (b.what_bodies around.now.classes.now (what_of what.now))) }
{
    match what {
        What::Class(class) => put_class(output, around, number, next, class),
        What::Method(_) => Ok(()),
    }
}

/// The initialiser and the methods of a class of this number.
fn put_own(
    output: &mut Output,
    around: &Around<'_>,
    number: u32,
    next: &mut u32,
    class: &Class,
) -> Result<(), NoMemory>
    ensures put { OnOk result (output.new ≡ with_bodies (own_bodies (around_of around.now) number next.old (class_of class.now)) output.old) }
    ensures next { OnOk result (next.new ≡ next.old + length (b.own_bodies around.now.classes.now (class_of class.now))) }
{
    put_initialiser(output, around, number, next, class)?;
    put_side(
        output,
        around,
        CodeSide::Instance,
        number,
        next,
        &class.side,
    )?;
    put_class_side(output, around, number, next, &class.class_side)?;
    Ok(())
}

/// The clause of a nested class.
fn put_clause(
    output: &mut Output,
    around: &Around<'_>,
    next: &mut u32,
    clause: &Option<SuperClause>,
) -> Result<(), NoMemory>
    requires { StandsAround around.now }
    ensures put { OnOk result (output.new ≡ with_bodies (clause_bodies (around_of around.now) next.old (option_map clause_of clause.now)) output.old) }
    ensures next { OnOk result (next.new ≡ next.old + length (b.clause_bodies around.now.classes.now (option_map clause_of clause.now))) }
{
    match clause {
        None => Ok(()),
        Some(clause) => put_head(output, around, next, clause),
    }
}

/// A clause, which is a body where a declaration stands around.
fn put_head(
    output: &mut Output,
    around: &Around<'_>,
    next: &mut u32,
    clause: &SuperClause,
) -> Result<(), NoMemory>
    requires { StandsAround around.now }
    ensures put { OnOk result (output.new ≡ with_bodies (clause_bodies (around_of around.now) next.old (Some (clause_of clause.now))) output.old) }
    ensures next { OnOk result (next.new ≡ next.old + length (b.clause_bodies around.now.classes.now (Some (clause_of clause.now)))) }
{
    match around.outer {
        None => Ok(()),
        Some(outer) => put_head_in(output, around, outer, next, clause),
    }
}

/// A clause in the declaration of that number.
fn put_head_in(
    output: &mut Output,
    around: &Around<'_>,
    outer: u32,
    next: &mut u32,
    clause: &SuperClause,
) -> Result<(), NoMemory>
    requires outer { around.now.outer ≡ Some outer }
    requires inside { is_outside around.now.classes.now ≡ false }
    ensures put { OnOk result (output.new ≡ with_bodies (clause_bodies (around_of around.now) next.old (Some (clause_of clause.now))) output.old) }
    ensures next { OnOk result (next.new ≡ next.old + length (b.clause_bodies around.now.classes.now (Some (clause_of clause.now)))) }
{
    let scope = Scope::clause(output.alloc(), around.classes)?;
    let here = Here {
        scope: &scope,
        body: *next,
        class: outer,
        marks: around.marks,
    };
    output.clause(&here, clause)?;
    advance(next)?;
    Ok(())
}

/// The initialiser of a class, and the blocks in it.
fn put_initialiser(
    output: &mut Output,
    around: &Around<'_>,
    number: u32,
    next: &mut u32,
    class: &Class,
) -> Result<(), NoMemory>
    ensures put { OnOk result (output.new ≡ with_bodies (start_bodies (around_of around.now) number next.old (class_of class.now)) output.old) }
    ensures next { OnOk result (next.new ≡ next.old + length (b.initialiser_bodies around.now.classes.now (class_of class.now))) }
{
    let scope = Scope::initialiser(output.alloc(), around.classes, &class.factory)?;
    let here = Here {
        scope: &scope,
        body: *next,
        class: number,
        marks: around.marks,
    };
    output.initialiser(&here, class)?;
    advance(next)?;
    put_start_inside(
        output,
        &here,
        next,
        &class.clause,
        &class.slots,
        &class.body,
    )?;
    Ok(())
}

/// The blocks in an initialiser.
fn put_start_inside(
    output: &mut Output,
    here: &Here<'_>,
    next: &mut u32,
    clause: &Option<SuperClause>,
    slots: &Option<Vec<Slot>>,
    body: &Statements,
) -> Result<(), NoMemory>
    ensures put { OnOk result (output.new ≡ with_bodies
        (start_inside (standing here.now) next.old (option_map clause_of clause.now) (bars_of slots.now) (statements_of body.now)) output.old) }
    ensures next { OnOk result (next.new ≡ next.old + length
        (b.start_blocks here.now.scope.now (option_map clause_of clause.now) (bars_of slots.now) (statements_of body.now))) }
{
    put_super(output, here, next, clause)?;
    put_routine_inside(output, here, next, slots, body)?;
    Ok(())
}

/// The blocks in the message to the superclass.
fn put_super(
    output: &mut Output,
    here: &Here<'_>,
    next: &mut u32,
    clause: &Option<SuperClause>,
) -> Result<(), NoMemory>
    ensures put { OnOk result (output.new ≡ with_bodies (super_bodies (standing here.now) next.old (option_map clause_of clause.now)) output.old) }
    ensures next { OnOk result (next.new ≡ next.old + length (b.super_blocks here.now.scope.now (option_map clause_of clause.now))) }
{
    match clause {
        None => Ok(()),
        Some(clause) => match &clause.message {
            None => Ok(()),
            Some(message) => put_message(output, here, next, message),
        },
    }
}

/// The blocks in locals and statements.
fn put_routine_inside(
    output: &mut Output,
    here: &Here<'_>,
    next: &mut u32,
    slots: &Option<Vec<Slot>>,
    body: &Statements,
) -> Result<(), NoMemory>
    ensures put { OnOk result (output.new ≡ with_bodies (routine_inside (standing here.now) next.old (bars_of slots.now) (statements_of body.now)) output.old) }
    ensures next { OnOk result (next.new ≡ next.old + length (b.routine_blocks here.now.scope.now (bars_of slots.now) (statements_of body.now))) }
{
    put_bars(output, here, next, slots)?;
    put_statements(output, here, next, body)?;
    Ok(())
}

fn put_class_side(
    output: &mut Output,
    around: &Around<'_>,
    number: u32,
    next: &mut u32,
    side: &Option<Side>,
) -> Result<(), NoMemory>
    ensures put { OnOk result (output.new ≡ with_bodies (class_side_methods (around_of around.now) number next.old (class_side_of side.now)) output.old) }
    ensures next { OnOk result (next.new ≡ next.old + length (b.class_side_bodies around.now.classes.now (class_side_of side.now))) }
{
    match side {
        None => Ok(()),
        Some(side) => put_side(output, around, CodeSide::Class, number, next, side),
    }
}

/// The methods of a side of a class of this number.
fn put_side(
    output: &mut Output,
    around: &Around<'_>,
    side: CodeSide,
    number: u32,
    next: &mut u32,
    members: &Side,
) -> Result<(), NoMemory>
    ensures put { OnOk result (output.new ≡ with_bodies (side_methods (around_of around.now) side number next.old (side_of members.now)) output.old) }
    ensures next { OnOk result (next.new ≡ next.old + length (b.side_bodies around.now.classes.now side (side_of members.now))) }
{
    put_methods(output, around, side, number, next, &members.members)?;
    Ok(())
}

fn put_methods(
    output: &mut Output,
    around: &Around<'_>,
    side: CodeSide,
    number: u32,
    next: &mut u32,
    members: &[Member],
) -> Result<(), NoMemory>
    ensures put { OnOk result (output.new ≡ with_bodies (members_methods (around_of around.now) side number next.old (members_of members.now)) output.old) }
    ensures next { OnOk result (next.new ≡ next.old + length (b.methods_bodies around.now.classes.now side (members_of members.now))) }
{
    for member in members {
        put_member_method(output, around, side, number, next, &member.what)?;
    }
    Ok(())
}

fn put_member_method(
    output: &mut Output,
    around: &Around<'_>,
    side: CodeSide,
    number: u32,
    next: &mut u32,
    what: &What,
) -> Result<(), NoMemory>
    ensures put { OnOk result (output.new ≡ with_bodies (what_methods (around_of around.now) side number next.old (what_of what.now)) output.old) }
    ensures next { OnOk result (next.new ≡ next.old + length (b.member_methods around.now.classes.now side (what_of what.now))) }
{
    match what {
        What::Class(_) => Ok(()),
        What::Method(method) => put_method(output, around, side, number, next, method),
    }
}

/// A method, and the blocks in it.
fn put_method(
    output: &mut Output,
    around: &Around<'_>,
    side: CodeSide,
    number: u32,
    next: &mut u32,
    method: &Method,
) -> Result<(), NoMemory>
    ensures put { OnOk result (output.new ≡ with_bodies (method_bodies (around_of around.now) side number next.old (method_of method.now)) output.old) }
    ensures next { OnOk result (next.new ≡ next.old + length (b.method_bodies around.now.classes.now side (method_of method.now))) }
{
    let params = method.pattern.params.as_slice();
    let scope = Scope::method(output.alloc(), around.classes, side, params, &method.slots)?;
    let here = Here {
        scope: &scope,
        body: *next,
        class: number,
        marks: around.marks,
    };
    output.method(&here, method)?;
    advance(next)?;
    put_routine_inside(output, &here, next, &method.slots, &method.body)?;
    Ok(())
}
