//! The classes of a program, in the order of their numbers.

ghost use Rattle.std.specs.Prelude.{◌≡◌, ◌+◌, ◌++◌, ◌∷◌, [], Some, length, map, slice_get, OnOk, IfOk, option_map};
ghost use Rattle.ns_tree.specs.PlainOf.{clause_of, message_of, pattern_of, class_of, side_of, members_of, member_of, what_of, unit_of};
ghost use Rattle.ns_scope.specs.Scopes.{factory_params};
ghost use Rattle.ns_scope.specs.Bodies as b;
ghost use Rattle.ns_resolved.specs.Classes as c;
ghost use Rattle.ns_gen_records.specs.Declaring.{declaration_in, methods_in, side_methods_in};
ghost use Rattle.ns_gen_draft.specs.Standing.{around_of};

use crate::counted::count_start;
use crate::declaration::{Declaration, MethodOf};
use crate::members::{class_side_methods, nested, side_methods, slots};
use ns_base::items::Items;
use ns_base::no_memory::NoMemory;
use ns_base::place::Place;
use ns_base::text::Text;
use ns_gen_draft::around::{Around, advance};
use ns_gen_draft::keys::{count, joined};
use ns_gen_draft::never::cannot_come;
use ns_scope::chain::Chain;
use ns_scope::names::selector;
use ns_scope::scope::{ClassScope, CodeSide};
use ns_tree::tree::{Access, Class, Member, Message, Pattern, Side, SuperClause, Unit, What};
use std::alloc::Global;

/// The classes of units, each with the places of its tokens, and how many bodies they have.
pub fn declared(
    alloc: Global,
    units: &[Unit],
    marks: &[Items<Place>],
) -> Result<(Vec<Declaration>, u32), NoMemory>
    ensures classes { IfOk result (λ all. all.0.items ≡ c.units_declared 0 0 (map unit_of units.now) marks.now) }
    ensures bodies { IfOk result (λ all. all.1 ≡ length (c.units_bodies 0 0 (map unit_of units.now) marks.now)) }
{
    let mut all = Vec::new(alloc);
    let mut number: u32 = 0;
    let mut next: u32 = 0;
    let mut at: usize = 0;
    for unit in units {
        let places = places_of(marks, at)?;
        put_unit(alloc, &mut all, &mut number, &mut next, unit, places)?;
        at += 1;
    }
    Ok((all, next))
}

/// The places of a unit's tokens.
pub fn places_of<'a>(marks: &'a [Items<Place>], at: usize) -> Result<&'a [Place], NoMemory>
    ensures { IfOk result (λ places. slice_get marks.now at ≡ Some places.now) }
{
    match marks.get(at) {
        Some(places) => Ok(places.as_slice()),
        None => Err(cannot_come()),
    }
}

fn put_unit(
    alloc: Global,
    all: &mut Vec<Declaration>,
    number: &mut u32,
    next: &mut u32,
    unit: &Unit,
    marks: &[Place],
) -> Result<(), NoMemory>
    ensures put { OnOk result (all.new.items ≡ all.old.items ++ c.class_declared (c.in_file marks.now) number.old next.old (class_of unit.now.class)) }
    ensures number { OnOk result (number.new ≡ number.old + c.class_count (class_of unit.now.class)) }
    ensures next { OnOk result (next.new ≡ next.old + length (b.class_bodies [] (class_of unit.now.class))) }
{
    let outside = Chain::end(alloc)?;
    let around = Around {
        classes: &outside,
        outer: None,
        marks,
    };
    put_class(alloc, all, &around, number, next, &unit.class)?;
    Ok(())
}

/// A class of this number, and those in it; the first body has that number.
#[cycle(declared)]
fn put_class(
    alloc: Global,
    all: &mut Vec<Declaration>,
    around: &Around<'_>,
    number: &mut u32,
    next: &mut u32,
    class: &Class,
) -> Result<(), NoMemory>
    ensures put { OnOk result (all.new.items ≡ all.old.items ++ c.class_declared (around_of around.now) number.old next.old (class_of class.now)) }
    ensures number { OnOk result (number.new ≡ number.old + c.class_count (class_of class.now)) }
    ensures next { OnOk result (next.new ≡ next.old + length (b.class_bodies around.now.classes.now (class_of class.now))) }
{
    let scope = ClassScope::of(alloc, class)?;
    let classes = Chain::inside(alloc, scope, around.classes)?;
    let inside = Around {
        classes: &classes,
        outer: Some(*number),
        marks: around.marks,
    };
    let clause = clause_number(around, *next, &class.clause);
    count_clause(around, next, &class.clause)?;
    let made = declaration(alloc, &inside, around.outer, clause, *number, next, class)?;
    put_made(all, made)?;
    advance(number)?;
    put_nested(alloc, all, &inside, number, next, &class.side)?;
    Ok(())
}

#[cycle(declared)]
fn put_nested(
    alloc: Global,
    all: &mut Vec<Declaration>,
    around: &Around<'_>,
    number: &mut u32,
    next: &mut u32,
    side: &Side,
) -> Result<(), NoMemory>
    ensures put { OnOk result (all.new.items ≡ all.old.items ++ c.side_declared (around_of around.now) number.old next.old (side_of side.now)) }
    ensures number { OnOk result (number.new ≡ number.old + c.side_count (side_of side.now)) }
    ensures next { OnOk result (next.new ≡ next.old + length (b.nested_bodies around.now.classes.now (side_of side.now))) }
{
    put_members(alloc, all, around, number, next, &side.members)?;
    Ok(())
}

#[cycle(declared)]
fn put_members(
    alloc: Global,
    all: &mut Vec<Declaration>,
    around: &Around<'_>,
    number: &mut u32,
    next: &mut u32,
    members: &[Member],
) -> Result<(), NoMemory>
    ensures put { OnOk result (all.new.items ≡ all.old.items ++ c.members_declared (around_of around.now) number.old next.old (members_of members.now)) }
    ensures number { OnOk result (number.new ≡ number.old + c.members_count (members_of members.now)) }
    ensures next { OnOk result (next.new ≡ next.old + length (b.members_bodies around.now.classes.now (members_of members.now))) }
{
    for member in members {
        put_member(alloc, all, around, number, next, member)?;
    }
    Ok(())
}

#[cycle(declared)]
fn put_member(
    alloc: Global,
    all: &mut Vec<Declaration>,
    around: &Around<'_>,
    number: &mut u32,
    next: &mut u32,
    member: &Member,
) -> Result<(), NoMemory>
    ensures put { OnOk result (all.new.items ≡ all.old.items ++ c.member_declared (around_of around.now) number.old next.old (member_of member.now)) }
    ensures number { OnOk result (number.new ≡ number.old + c.member_count (member_of member.now)) }
    ensures next { OnOk result (next.new ≡ next.old + length (b.member_nested around.now.classes.now (member_of member.now))) }
{
    put_what(alloc, all, around, number, next, &member.what)
}

#[cycle(declared)]
fn put_what(
    alloc: Global,
    all: &mut Vec<Declaration>,
    around: &Around<'_>,
    number: &mut u32,
    next: &mut u32,
    what: &What,
) -> Result<(), NoMemory>
    ensures put { OnOk result (all.new.items ≡ all.old.items ++ c.what_declared (around_of around.now) number.old next.old (what_of what.now)) }
    ensures number { OnOk result (number.new ≡ number.old + c.what_count (what_of what.now)) }
    ensures next { OnOk result (next.new ≡ next.old + length (b.what_bodies around.now.classes.now (what_of what.now))) }
{
    match what {
        What::Class(class) => put_class(alloc, all, around, number, next, class),
        What::Method(_) => Ok(()),
    }
}

/// The body of a class's clause, where a declaration stands around.
fn clause_number(around: &Around<'_>, next: u32, clause: &Option<SuperClause>) -> Option<u32>
    ensures { result ≡ c.clause_number (around_of around.now) next (option_map clause_of clause.now) }
{
    match (clause, around.outer) {
        (Some(_), Some(_)) => Some(next),
        _ => None,
    }
}

/// A clause is a body where a declaration stands around.
#[tactic(auto, using(crate::specs::laws::Bodies::none_outside, crate::specs::laws::Bodies::one_inside))]
fn count_clause(
    around: &Around<'_>,
    count: &mut u32,
    clause: &Option<SuperClause>,
) -> Result<(), NoMemory>
    ensures { OnOk result (count.new ≡ count.old + length (b.clause_bodies around.now.classes.now (option_map clause_of clause.now))) }
{
    match clause {
        None => Ok(()),
        Some(_) => {
            if around.is_outside() {
                Ok(())
            } else {
                advance(count)
            }
        }
    }
}

fn put_made(all: &mut Vec<Declaration>, made: Declaration) -> Result<(), NoMemory>
    ensures { OnOk result (all.new.items ≡ all.old.items ++ made ∷ []) }
{
    all.push(made)?;
    Ok(())
}

/// The declaration of a class of that number, which is the innermost around: what stands around it,
/// its clause's body, and that of its initialiser, behind which its other bodies are counted.
fn declaration(
    alloc: Global,
    inside: &Around<'_>,
    outer: Option<u32>,
    clause: Option<u32>,
    number: u32,
    next: &mut u32,
    class: &Class,
) -> Result<Declaration, NoMemory>
    ensures made { IfOk result (λ declaration. declaration ≡ declaration_in (around_of inside.now) outer clause number next.old (class_of class.now)) }
    ensures next { OnOk result (next.new ≡ next.old + length (b.own_bodies inside.now.classes.now (class_of class.now))) }
{
    let initialiser = *next;
    let methods = methods(alloc, inside, next, class)?;
    let name = Text::of(alloc, class.name.text.bytes())?;
    let factory = factory_selector(alloc, &class.factory)?;
    let params = factory_count(&class.factory)?;
    let super_selector = super_selector(alloc, &class.clause)?;
    let slots = slots(alloc, &class.slots)?;
    let nested = nested(alloc, number, &class.side)?;
    Ok(Declaration {
        name,
        outer,
        factory,
        params,
        clause,
        initialiser,
        super_selector,
        slots: Items::from_vec(slots),
        nested: Items::from_vec(nested),
        methods: Items::from_vec(methods.0),
        side_methods: Items::from_vec(methods.1),
    })
}

/// The methods of both sides of a class, by bodies behind the initialiser of that number and the
/// blocks in it.
fn methods(
    alloc: Global,
    inside: &Around<'_>,
    next: &mut u32,
    class: &Class,
) -> Result<(Vec<MethodOf>, Vec<MethodOf>), NoMemory>
    ensures methods { IfOk result (λ made. made.0.items ≡ methods_in (around_of inside.now) next.old (class_of class.now)) }
    ensures side_methods { IfOk result (λ made. made.1.items ≡ side_methods_in (around_of inside.now) next.old (class_of class.now)) }
    ensures next { OnOk result (next.new ≡ next.old + length (b.own_bodies inside.now.classes.now (class_of class.now))) }
{
    advance(next)?;
    count_start(next, &class.clause, &class.slots, &class.body)?;
    let methods = side_methods(
        alloc,
        inside,
        CodeSide::Instance,
        next,
        Access::Protected,
        &class.side,
    )?;
    let others = class_side_methods(alloc, inside, next, &class.class_side)?;
    Ok((methods, others))
}

/// The selector of a factory; without a pattern it is `new`.
fn factory_selector(alloc: Global, factory: &Option<Pattern>) -> Result<Text, NoMemory>
    ensures { IfOk result (λ text. text ≡ c.factory_selector (option_map pattern_of factory.now)) }
{
    match factory {
        None => Text::of(alloc, b"new".as_slice()),
        Some(pattern) => selector(alloc, &pattern.parts),
    }
}

/// How many parameters a factory has.
fn factory_count(factory: &Option<Pattern>) -> Result<u8, NoMemory>
    ensures { IfOk result (λ count. count ≡ length (factory_params (option_map pattern_of factory.now))) }
{
    match factory {
        None => Ok(0),
        Some(pattern) => count(pattern.params.len()),
    }
}

/// The selector of the message that initialises the superclass part: that of the clause, or `new`.
fn super_selector(alloc: Global, clause: &Option<SuperClause>) -> Result<Text, NoMemory>
    ensures { IfOk result (λ text. text ≡ c.super_selector (option_map clause_of clause.now)) }
{
    match clause {
        None => Text::of(alloc, b"new".as_slice()),
        Some(clause) => match &clause.message {
            None => Text::of(alloc, b"new".as_slice()),
            Some(message) => message_selector(alloc, message),
        },
    }
}

fn message_selector(alloc: Global, message: &Message) -> Result<Text, NoMemory>
    ensures { IfOk result (λ text. text ≡ c.message_selector (message_of message.now)) }
{
    match message {
        Message::Unary(name) => Text::of(alloc, name.text.bytes()),
        Message::Binary(oper) => Text::of(alloc, oper.0.text.bytes()),
        Message::Keys(keys) => joined(alloc, keys),
    }
}
