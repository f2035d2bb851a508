//! Classes, their sides and members, and methods.

ghost use Rattle.std.specs.Prelude.{◌≡◌, ◌++◌, ◌∷◌, [], flat_map, zip, OnOk, option_map};
ghost use Rattle.ns_tree.specs.declared.token.Kind.TheVariants as k;
ghost use Rattle.ns_tree.specs.Flat.{ident, part_before, flat_bars, flat_statements, flat_pattern, flat_base, flat_over, flat_clause, flat_super, flat_method, flat_factory};
ghost use Rattle.ns_tree.specs.Flat.{flat_class, flat_side, flat_members, flat_member, flat_what, flat_marker, flat_category, head, flat};
ghost use Rattle.ns_tree.specs.PlainOf.{bars_of, statements_of, pattern_of, clause_of, method_of};
ghost use Rattle.ns_tree.specs.PlainOf.{class_of, side_of, members_of, member_of, what_of, unit_of};
ghost use Rattle.ns_print.specs.Printed.{lines};

use crate::expressions::{put_message, put_slots, put_statements};
use crate::tokens::{put, put_access, put_names, put_string, put_strings};
use ns_base::no_memory::NoMemory;
use ns_base::text::Text;
use ns_tree::tree::{
    Base, Class, Member, Method, Named, Origin, Pattern, Side, Slot, Statements, SuperClause, Unit,
    What,
};

/// A file.
pub fn put_unit(out: &mut Vec<u8>, unit: &Unit) -> Result<(), NoMemory>
    ensures { OnOk result (out.new.items ≡ out.old.items ++ lines (flat (unit_of unit.now))) }
{
    put_marker(out, unit.marker)?;
    put_category(out, &unit.category)?;
    put_class(out, &unit.class)
}

fn put_marker(out: &mut Vec<u8>, marker: bool) -> Result<(), NoMemory>
    ensures { OnOk result (out.new.items ≡ out.old.items ++ lines (flat_marker marker)) }
{
    if marker {
        put(out, b"Newspeak3")?;
    }
    Ok(())
}

fn put_category(out: &mut Vec<u8>, category: &Option<Text>) -> Result<(), NoMemory>
    ensures { OnOk result (out.new.items ≡ out.old.items ++ lines (flat_category category.now)) }
{
    match category {
        None => Ok(()),
        Some(text) => put_string(out, text.bytes()),
    }
}

#[cycle(declarations)]
fn put_class(out: &mut Vec<u8>, class: &Class) -> Result<(), NoMemory>
    ensures { OnOk result (out.new.items ≡ out.old.items ++ lines (flat_class (class_of class.now))) }
{
    put_head(out, class)?;
    put_side(out, &class.side)?;
    match &class.class_side {
        None => Ok(()),
        Some(side) => {
            put(out, b":")?;
            put_side(out, side)
        }
    }
}

/// What stands before a class's side.
fn put_head(out: &mut Vec<u8>, class: &Class) -> Result<(), NoMemory>
    ensures { OnOk result (out.new.items ≡ out.old.items ++ lines (head (class_of class.now))) }
{
    put(out, b"class")?;
    put(out, class.name.text.bytes())?;
    put_factory(out, &class.factory)?;
    put(out, b"=")?;
    put_super(out, &class.clause)?;
    put_body(out, &class.slots, &class.body)
}

#[cycle(declarations)]
fn put_side(out: &mut Vec<u8>, side: &Side) -> Result<(), NoMemory>
    ensures { OnOk result (out.new.items ≡ out.old.items ++ lines (flat_side (side_of side.now))) }
{
    put(out, b"(")?;
    put_members(out, &side.members)?;
    put_strings(out, &side.tail)?;
    put(out, b")")
}

#[cycle(declarations)]
fn put_members(out: &mut Vec<u8>, members: &[Member]) -> Result<(), NoMemory>
    ensures { OnOk result (out.new.items ≡ out.old.items ++ lines (flat_members (members_of members.now))) }
{
    for member in members {
        put_member(out, member)?;
    }
    Ok(())
}

#[cycle(declarations)]
fn put_member(out: &mut Vec<u8>, member: &Member) -> Result<(), NoMemory>
    ensures { OnOk result (out.new.items ≡ out.old.items ++ lines (flat_member (member_of member.now))) }
{
    put_strings(out, &member.categories)?;
    put_access(out, member.access)?;
    put_what(out, &member.what)
}

#[cycle(declarations)]
fn put_what(out: &mut Vec<u8>, what: &What) -> Result<(), NoMemory>
    ensures { OnOk result (out.new.items ≡ out.old.items ++ lines (flat_what (what_of what.now))) }
{
    match what {
        What::Class(class) => put_class(out, class),
        What::Method(method) => put_method(out, method),
    }
}

fn put_method(out: &mut Vec<u8>, method: &Method) -> Result<(), NoMemory>
    ensures { OnOk result (out.new.items ≡ out.old.items ++ lines (flat_method (method_of method.now))) }
{
    put_pattern(out, &method.pattern)?;
    put(out, b"=")?;
    put_body(out, &method.slots, &method.body)
}

/// Slots and statements in parentheses.
fn put_body(out: &mut Vec<u8>, slots: &Option<Vec<Slot>>, body: &Statements) -> Result<(), NoMemory>
    ensures { OnOk result (out.new.items ≡ out.old.items
        ++ lines (k.Open ∷ (flat_bars (bars_of slots.now) ++ (flat_statements (statements_of body.now) ++ k.Close ∷ [])))) }
{
    put(out, b"(")?;
    put_bars(out, slots)?;
    put_statements(out, body)?;
    put(out, b")")
}

fn put_bars(out: &mut Vec<u8>, slots: &Option<Vec<Slot>>) -> Result<(), NoMemory>
    ensures { OnOk result (out.new.items ≡ out.old.items ++ lines (flat_bars (bars_of slots.now))) }
{
    match slots {
        None => Ok(()),
        Some(slots) => put_slots(out, slots),
    }
}

fn put_factory(out: &mut Vec<u8>, factory: &Option<Pattern>) -> Result<(), NoMemory>
    ensures { OnOk result (out.new.items ≡ out.old.items ++ lines (flat_factory (option_map pattern_of factory.now))) }
{
    match factory {
        None => Ok(()),
        Some(pattern) => put_pattern(out, pattern),
    }
}

fn put_pattern(out: &mut Vec<u8>, pattern: &Pattern) -> Result<(), NoMemory>
    ensures { OnOk result (out.new.items ≡ out.old.items ++ lines (flat_pattern (pattern_of pattern.now))) }
{
    if pattern.params.is_empty() {
        return put_names(out, &pattern.parts);
    }
    put_parts(out, &pattern.parts, &pattern.params)
}

/// Parts and parameters in turn.
fn put_parts(out: &mut Vec<u8>, parts: &[Named], params: &[Named]) -> Result<(), NoMemory>
    ensures { OnOk result (out.new.items ≡ out.old.items ++ lines (flat_map (λ x. part_before x.0.text ∷ ident x.1 ∷ []) (zip parts.now params.now))) }
{
    for (part, param) in parts.iter().zip(params) {
        put(out, part.text.bytes())?;
        put(out, param.text.bytes())?;
    }
    Ok(())
}

fn put_super(out: &mut Vec<u8>, clause: &Option<SuperClause>) -> Result<(), NoMemory>
    ensures { OnOk result (out.new.items ≡ out.old.items ++ lines (flat_super (option_map clause_of clause.now))) }
{
    match clause {
        None => Ok(()),
        Some(clause) => put_clause(out, clause),
    }
}

fn put_clause(out: &mut Vec<u8>, clause: &SuperClause) -> Result<(), NoMemory>
    ensures { OnOk result (out.new.items ≡ out.old.items ++ lines (flat_clause (clause_of clause.now))) }
{
    put_base(out, &clause.head)?;
    put_over(out, &clause.over)?;
    match &clause.message {
        None => Ok(()),
        Some(message) => put_message(out, message),
    }
}

fn put_over(out: &mut Vec<u8>, over: &Option<Base>) -> Result<(), NoMemory>
    ensures { OnOk result (out.new.items ≡ out.old.items ++ lines (flat_over over.now)) }
{
    match over {
        None => Ok(()),
        Some(base) => {
            put(out, b"<:")?;
            put_base(out, base)
        }
    }
}

fn put_base(out: &mut Vec<u8>, base: &Base) -> Result<(), NoMemory>
    ensures { OnOk result (out.new.items ≡ out.old.items ++ lines (flat_base base.now)) }
{
    match &base.origin {
        Origin::Here => {}
        Origin::Super => put(out, b"super")?,
        Origin::Outer(class) => {
            put(out, b"outer")?;
            put(out, class.text.bytes())?;
        }
    }
    put(out, base.name.text.bytes())
}
