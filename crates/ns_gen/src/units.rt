//! The bodies of a program's units.

ghost use Rattle.std.specs.Prelude.{◌≡◌, ◌+◌, [], length, map, OnOk};
ghost use Rattle.ns_tree.specs.PlainOf.{class_of, unit_of};
ghost use Rattle.ns_scope.specs.Bodies as b;
ghost use Rattle.ns_resolved.specs.Classes.{class_bodies, class_count, units_bodies, in_file};
ghost use Rattle.ns_gen_bodies.specs.Coding.{with_bodies};

use crate::bodies::put_class;
use ns_base::items::Items;
use ns_base::no_memory::NoMemory;
use ns_base::place::Place;
use ns_gen_bodies::output::Output;
use ns_gen_draft::around::Around;
use ns_gen_records::declared::places_of;
use ns_scope::chain::Chain;
use ns_tree::tree::Unit;

/// The bodies of units, each with the places of its tokens.
pub fn put_units(
    output: &mut Output,
    units: &[Unit],
    marks: &[Items<Place>],
) -> Result<(), NoMemory>
    ensures { OnOk result (output.new ≡ with_bodies (units_bodies 0 0 (map unit_of units.now) marks.now) output.old) }
{
    let mut number: u32 = 0;
    let mut next: u32 = 0;
    let mut at: usize = 0;
    for unit in units {
        let places = places_of(marks, at)?;
        put_unit(output, &mut number, &mut next, unit, places)?;
        at += 1;
    }
    Ok(())
}

/// The bodies of a file.
fn put_unit(
    output: &mut Output,
    number: &mut u32,
    next: &mut u32,
    unit: &Unit,
    marks: &[Place],
) -> Result<(), NoMemory>
    ensures put { OnOk result (output.new ≡ with_bodies (class_bodies (in_file marks.now) number.old next.old (class_of unit.now.class)) output.old) }
    ensures number { OnOk result (number.new ≡ number.old + class_count (class_of unit.now.class)) }
    ensures next { OnOk result (next.new ≡ next.old + length (b.class_bodies [] (class_of unit.now.class))) }
{
    let outside = Chain::end(output.alloc())?;
    let around = Around {
        classes: &outside,
        outer: None,
        marks,
    };
    put_class(output, &around, number, next, &unit.class)?;
    Ok(())
}
