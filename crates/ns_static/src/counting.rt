//! The classes of a program, counted in the order of its text.

ghost use Rattle.std.specs.Prelude.{◌≡◌, ◌++◌, ◌+◌, length, OnOk};
ghost use Rattle.ns_tree.specs.PlainOf.{class_of, side_of, members_of, what_of};
ghost use Rattle.ns_static_rules.specs.Faults.{class_names, side_names, members_names, what_names, classes_found};
ghost use Rattle.ns_static_rules.specs.Walk.{with_found};

use ns_base::no_memory::NoMemory;
use ns_static_rules::checker::{Checker, found_if};
use ns_static_rules::fault::{Many, StaticCause};
use ns_tree::tree::{Class, Member, Side, What};

/// TooMany(Classes), at the 4,097th class, in a class and those in it, where so many stand before
/// them. Counts them.
pub fn classes_found_in(
    checker: &mut Checker<'_>,
    before: &mut u64,
    class: &Class,
) -> Result<(), NoMemory>
    ensures found { OnOk result (checker.new ≡ with_found checker.old (classes_found before.old (class_names (class_of class.now)))) }
    ensures counted { OnOk result (before.new ≡ before.old + length (class_names (class_of class.now))) }
{
    let mut names = Vec::new(checker.alloc);
    class_names(&mut names, class)?;
    classes_found(checker, before, &names)
}

/// TooMany(Classes), at the 4,097th class, where so many stand before these. Counts them.
fn classes_found(checker: &mut Checker<'_>, before: &mut u64, names: &[u32]) -> Result<(), NoMemory>
    ensures found { OnOk result (checker.new ≡ with_found checker.old (classes_found before.old names.now)) }
    ensures counted { OnOk result (before.new ≡ before.old + length names.now) }
{
    for at in names {
        found_if(
            checker,
            *before == 4096,
            *at,
            StaticCause::TooMany(Many::Classes),
        );
        match before.checked_add(1) {
            None => return Err(NoMemory),
            Some(more) => *before = more,
        }
    }
    Ok(())
}

/// The names of a class and of those in it, as they stand in the text.
#[cycle(names)]
fn class_names(names: &mut Vec<u32>, class: &Class) -> Result<(), NoMemory>
    ensures { OnOk result (names.new.items ≡ names.old.items ++ class_names (class_of class.now)) }
{
    names.push(class.name.at)?;
    side_names(names, &class.side)
}

#[cycle(names)]
fn side_names(names: &mut Vec<u32>, side: &Side) -> Result<(), NoMemory>
    ensures { OnOk result (names.new.items ≡ names.old.items ++ side_names (side_of side.now)) }
{
    members_names(names, &side.members)
}

#[cycle(names)]
fn members_names(names: &mut Vec<u32>, members: &[Member]) -> Result<(), NoMemory>
    ensures { OnOk result (names.new.items ≡ names.old.items ++ members_names (members_of members.now)) }
{
    for member in members {
        what_names(names, &member.what)?;
    }
    Ok(())
}

#[cycle(names)]
fn what_names(names: &mut Vec<u32>, what: &What) -> Result<(), NoMemory>
    ensures { OnOk result (names.new.items ≡ names.old.items ++ what_names (what_of what.now)) }
{
    match what {
        What::Class(class) => class_names(names, class),
        What::Method(_) => Ok(()),
    }
}
