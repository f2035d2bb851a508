//! The heads of superclass clauses, which stand in the declarations around the class.

ghost use Rattle.std.specs.Prelude.{◌≡◌, option_map};
ghost use Rattle.ns_tree.specs.PlainOf.{clause_of, message_of};
ghost use Rattle.ns_static_rules.specs.Faults.{head_faults, clause_faults, base_faults, over_faults};
ghost use Rattle.ns_static_rules.specs.Rules.{top_found, is_object, is_object_name, is_new, is_new_message, base_start};
ghost use Rattle.ns_static_rules.specs.Walk.{with_found};

use ns_scope::chain::Chain;
use ns_scope::scope::ClassScope;
use ns_static_rules::checker::{Checker, found_if};
use ns_static_rules::fault::StaticCause;
use ns_static_rules::rules::outer_found;
use ns_tree::tree::{Base, Message, Origin, SuperClause};

pub fn head_faults(
    checker: &mut Checker<'_>,
    outer: &Chain<ClassScope>,
    clause: &Option<SuperClause>,
)
    ensures { checker.new ≡ with_found checker.old (head_faults outer.now (option_map clause_of clause.now)) }
{
    match clause {
        None => {}
        Some(clause) => clause_faults(checker, outer, clause),
    }
}

fn clause_faults(checker: &mut Checker<'_>, outer: &Chain<ClassScope>, clause: &SuperClause)
    ensures { checker.new ≡ with_found checker.old (clause_faults outer.now (clause_of clause.now)) }
{
    top_found(checker, outer, clause);
    base_faults(checker, outer, &clause.head);
    over_faults(checker, outer, &clause.over);
}

fn over_faults(checker: &mut Checker<'_>, outer: &Chain<ClassScope>, over: &Option<Base>)
    ensures { checker.new ≡ with_found checker.old (over_faults outer.now over.now) }
{
    match over {
        None => {}
        Some(base) => base_faults(checker, outer, base),
    }
}

fn base_faults(checker: &mut Checker<'_>, outer: &Chain<ClassScope>, base: &Base)
    ensures { checker.new ≡ with_found checker.old (base_faults outer.now base.now) }
{
    match &base.origin {
        Origin::Here => {}
        Origin::Super => {}
        Origin::Outer(name) => outer_found(checker, outer, name),
    }
}

/// TopSuper, at the first token of a top-level clause that isn't `Object` or `Object new`.
fn top_found(checker: &mut Checker<'_>, outer: &Chain<ClassScope>, clause: &SuperClause)
    ensures { checker.new ≡ with_found checker.old (top_found outer.now (clause_of clause.now)) }
{
    if outer.links().split().is_some() {
        return;
    }
    let wrong = !is_object(clause);
    let at = base_start(&clause.head);
    found_if(checker, wrong, at, StaticCause::TopSuper);
}

/// Whether it is `Object` or `Object new`.
fn is_object(clause: &SuperClause) -> bool
    ensures { result ≡ is_object (clause_of clause.now) }
{
    match &clause.over {
        Some(_) => false,
        None => is_object_name(&clause.head) && is_new(&clause.message),
    }
}

fn is_object_name(base: &Base) -> bool
    ensures { result ≡ is_object_name base.now }
{
    match &base.origin {
        Origin::Here => base.name.text.bytes() == b"Object".as_slice(),
        Origin::Super => false,
        Origin::Outer(_) => false,
    }
}

/// Whether there is no message, or it is `new`.
fn is_new(message: &Option<Message>) -> bool
    ensures { result ≡ is_new (option_map message_of message.now) }
{
    match message {
        None => true,
        Some(message) => is_new_message(message),
    }
}

fn is_new_message(message: &Message) -> bool
    ensures { result ≡ is_new_message (message_of message.now) }
{
    match message {
        Message::Unary(name) => name.text.bytes() == b"new".as_slice(),
        Message::Binary(_) => false,
        Message::Keys(_) => false,
    }
}

/// The number of a base's first token.
fn base_start(base: &Base) -> u32
    ensures { result ≡ base_start base.now }
{
    match &base.origin {
        Origin::Here => base.name.at,
        Origin::Super => base.name.at.saturating_sub(1),
        Origin::Outer(name) => name.at.saturating_sub(1),
    }
}
