//! Classes, as the walk enters them.

ghost use Rattle.std.specs.Prelude.{◌≡◌, ◌∷◌, IfOk, OnOk};
ghost use Rattle.ns_tree.specs.PlainOf.{bars_of, class_of, class_side_of, side_of};
ghost use Rattle.ns_scope.specs.Names as names;
ghost use Rattle.ns_scope.specs.Scopes.{class_scope};
ghost use Rattle.ns_static_rules.specs.Rules.{members_found};
ghost use Rattle.ns_static_rules.specs.Faults.{class_members_found, class_found};
ghost use Rattle.ns_static_rules.specs.Walk.{with_found};

use crate::heads::head_faults;
use ns_base::no_memory::NoMemory;
use ns_base::text::Text;
use ns_scope::chain::Chain;
use ns_scope::names::{Declared, class_members, instance_members};
use ns_scope::scope::ClassScope;
use ns_scope::table::Table;
use ns_static_rules::bodies::{found_repeated, place_past};
use ns_static_rules::checker::{Checker, found_past};
use ns_static_rules::fault::{Many, StaticCause};
use ns_tree::tree::{Access, Class, Side, Slot};

/// Finds what is wrong with the members of a class and the head of its clause. Answers the
/// declarations around what stands in it.
pub fn enter_class(
    checker: &mut Checker<'_>,
    outer: &Chain<ClassScope>,
    class: &Class,
) -> Result<Chain<ClassScope>, NoMemory>
    ensures found { OnOk result (checker.new ≡ with_found checker.old (class_found outer.now (class_of class.now))) }
    ensures classes { IfOk result (λ classes. classes ≡ class_scope (class_of class.now) ∷ outer.now) }
{
    let scope = class_scope(checker, class)?;
    head_faults(checker, outer, &class.clause);
    Chain::inside(checker.alloc, scope, outer)
}

/// Finds what is wrong with the members of a class. Answers what each of their names stands for.
fn class_scope(checker: &mut Checker<'_>, class: &Class) -> Result<ClassScope, NoMemory>
    ensures found { OnOk result (checker.new ≡ with_found checker.old (class_members_found (class_of class.now))) }
    ensures scope { IfOk result (λ scope. scope ≡ class_scope (class_of class.now)) }
{
    let name = Text::of(checker.alloc, class.name.text.bytes())?;
    let instance = instance_found(checker, &class.slots, &class.side)?;
    let class_side = class_side_found(checker, &class.class_side)?;
    Ok(ClassScope {
        name,
        instance,
        class_side,
    })
}

/// Finds what is wrong with the members of the instance side.
fn instance_found(
    checker: &mut Checker<'_>,
    slots: &Option<Vec<Slot>>,
    side: &Side,
) -> Result<Table<Access>, NoMemory>
    ensures found { OnOk result (checker.new ≡ with_found checker.old (members_found
        (names.instance_members (bars_of slots.now) (side_of side.now)))) }
    ensures table { IfOk result (λ table. table ≡ names.table_of (names.instance_members (bars_of slots.now) (side_of side.now))) }
{
    let members = instance_members(checker.alloc, slots, side)?;
    members_found(checker, &members)
}

/// Finds what is wrong with the members of the class side.
fn class_side_found(
    checker: &mut Checker<'_>,
    side: &Option<Side>,
) -> Result<Table<Access>, NoMemory>
    ensures found { OnOk result (checker.new ≡ with_found checker.old (members_found (names.class_members (class_side_of side.now)))) }
    ensures table { IfOk result (λ table. table ≡ names.table_of (names.class_members (class_side_of side.now))) }
{
    let members = class_members(checker.alloc, side)?;
    members_found(checker, &members)
}

/// DuplicateMember, and TooMany(Members) past 1,023. Answers what each name stands for.
fn members_found(
    checker: &mut Checker<'_>,
    members: &[Declared<Access>],
) -> Result<Table<Access>, NoMemory>
    ensures found { OnOk result (checker.new ≡ with_found checker.old (members_found members.now)) }
    ensures table { IfOk result (λ table. table ≡ names.table_of members.now) }
{
    let table = found_repeated(checker, StaticCause::DuplicateMember, members)?;
    found_past(checker, place_past(members, 1023), Many::Members);
    Ok(table)
}
