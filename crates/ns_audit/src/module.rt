//! The code of a module: the bodies of a top-level class and of all classes declared inside it, with their blocks.

ghost use Rattle.std.specs.Prelude.{◌≡◌, ◌≤◌, [], length, take};
ghost use Rattle.std.specs.List.{slice_index_or};
ghost use Rattle.ns_audit.specs.Module as spec;

use ns_code::class::ClassCode;

/// The top-level classes around classes, by number: each is put into its place of the room, which has one for each class.
pub fn put_tops(room: &mut [u32], classes: &[ClassCode])
    requires room { length classes.now ≤ length room.old }
    requires few { length classes.now ≤ 65536 }
    ensures tops { take (length classes.now) room.new ≡ spec.tops_from [] classes.now }
{
    let mut number: usize = 0;
    'classes: for class in classes {
        room[number] = top_of(&room[..number], class);
        number += 1;
    }
}

/// The top-level class around a class, from those of all classes before it: a top-level class is its own.
fn top_of(before: &[u32], class: &ClassCode) -> u32
    requires { length before.now ≤ 65536 }
    ensures { result ≡ spec.top_of before.now class.now }
{
    let own = before.len() as u32;
    match class.outer {
        Some(outer) => number_or(before, outer, own),
        None => own,
    }
}

/// The number at a place, or else another one.
fn number_or(numbers: &[u32], place: u32, other: u32) -> u32
    ensures { result ≡ slice_index_or numbers.now place other }
{
    match numbers.get(place as usize) {
        Some(number) => *number,
        None => other,
    }
}

/// Whether a class is a module's: the module's own, or one that is declared inside it.
pub fn is_inside(tops: &[u32], top: u32, class: u32) -> bool
    ensures { result ≡ spec.is_inside tops.now top class }
{
    number_or(tops, class, class) == top
}
