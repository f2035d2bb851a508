//! The faults of the units of a program, one behind the other.

ghost use Rattle.std.specs.Prelude.{◌≡◌, ◌+◌, length, IfOk, OnOk};
ghost use Rattle.ns_tree.specs.PlainOf.{class_of, unit_of};
ghost use Rattle.ns_static_rules.specs.Rules.{top_name_found};
ghost use Rattle.ns_static_rules.specs.Faults.{unit_faults, class_name, class_names};
ghost use Rattle.ns_tree.specs.Parts.{unit_class};
ghost use Rattle.ns_static_rules.specs.Least.{with_top};
ghost use Rattle.ns_static_rules.specs.Walk.{with_found, kept_after};

use crate::counting::classes_found_in;
use crate::declarations::class_faults;
use ns_base::no_memory::NoMemory;
use ns_base::place::Place;
use ns_base::text::Text;
use ns_scope::chain::Chain;
use ns_scope::table::Table;
use ns_static_rules::checker::{Checker, found_if};
use ns_static_rules::fault::StaticCause;
use ns_static_rules::kept::Kept;
use ns_tree::tree::{Class, Named, Unit};
use std::alloc::Global;

/// What stands before a unit: the names of the units' classes, and how many classes there are.
#[derive(Drop)]
pub struct Before {
    pub names: Table<u32>,
    pub classes: u64,
}

/// What is kept when the faults of a unit behind others are found too.
pub fn unit_faults(
    alloc: Global,
    before: &mut Before,
    kept: Kept,
    marks: &[Place],
    unit: &Unit,
) -> Result<Kept, NoMemory>
    ensures found { IfOk result (λ found. found ≡ kept_after marks.now kept
        (unit_faults before.old.names before.old.classes (unit_class (unit_of unit.now)))) }
    ensures names { OnOk result (before.new.names ≡ with_top before.old.names (class_name (unit_class (unit_of unit.now)))) }
    ensures classes { OnOk result (before.new.classes ≡ before.old.classes + length (class_names (unit_class (unit_of unit.now)))) }
{
    let mut checker = Checker { alloc, marks, kept };
    top_class_faults(&mut checker, before, &unit.class)?;
    Ok(checker.kept)
}

/// The faults of a top-level class.
fn top_class_faults(
    checker: &mut Checker<'_>,
    before: &mut Before,
    class: &Class,
) -> Result<(), NoMemory>
    ensures found { OnOk result (checker.new ≡ with_found checker.old (unit_faults before.old.names before.old.classes
        (class_of class.now))) }
    ensures names { OnOk result (before.new.names ≡ with_top before.old.names (class_name (class_of class.now))) }
    ensures classes { OnOk result (before.new.classes ≡ before.old.classes + length (class_names (class_of class.now))) }
{
    top_name_found(checker, &mut before.names, &class.name)?;
    classes_found_in(checker, &mut before.classes, class)?;
    let outside = Chain::end(checker.alloc)?;
    let found = class_faults(checker, &outside, class);
    drop(outside);
    found
}

/// DuplicateTop, at the name of a top-level class that an earlier one has. Puts the name to those.
fn top_name_found(
    checker: &mut Checker<'_>,
    names: &mut Table<u32>,
    name: &Named,
) -> Result<(), NoMemory>
    ensures found { OnOk result (checker.new ≡ with_found checker.old (top_name_found names.old name.now)) }
    ensures put { OnOk result (names.new ≡ with_top names.old name.now) }
{
    let text = Text::of(checker.alloc, name.text.bytes())?;
    let new = names.put_first(text, name.at)?;
    found_if(checker, !new, name.at, StaticCause::DuplicateTop);
    Ok(())
}
