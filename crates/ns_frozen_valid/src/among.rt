//! The first bad one of all cells.

ghost use Rattle.std.specs.Prelude.{◌≡◌, Some, map, option_map};
ghost use Rattle.ns_world.specs.Heap.{find_cell};
ghost use Rattle.ns_frozen.specs.Freezing.{cell_frozen};
ghost use Rattle.ns_frozen_valid.specs.Cells.{bad_data_from, stands_so};
ghost use Rattle.ns_frozen_valid.specs.First.{first_shown};
ghost use Rattle.ns_frozen_seen.specs.Seen.{IsSeen, heap_of};

use crate::cells::is_good_cell;
use crate::first::{First, arguments_behind, behind_first, is_awaited, stands_first};
use ns_frozen::cell::CellData;
use ns_frozen_seen::seen::Seen;
use ns_frozen_tables::numbers::size;

/// The place of the first bad cell, where these are to stand first, and then arguments, if they are wanted; how many cells
/// there are where one is missing.
pub fn bad_among(seen: &Seen<'_>, homes: u64, first: &[First], arguments: bool) -> Option<u64>
    requires { IsSeen seen.now }
    ensures { result ≡ bad_data_from seen.now.code.now (heap_of seen.now) homes (map first_shown first.now) arguments 0 0 seen.now.cells.now }
{
    let mut first = first;
    let mut arguments = arguments;
    let mut place: u64 = 0;
    let mut number: u128 = 0;
    'cells: for at in 0..seen.cells.len() {
        let cell = seen.cells.at(at);
        if !stands(seen, homes, first, arguments, number, &cell) {
            return Some(place);
        }
        arguments = arguments_behind(first, arguments, &cell);
        first = behind_first(first);
        place += 1;
        number += u128::from(size(&cell));
    }
    if is_awaited(first, arguments) {
        Some(place)
    } else {
        None
    }
}

/// Whether a cell of that number is as it must be, and stands where these are to come.
fn stands(
    seen: &Seen<'_>,
    homes: u64,
    first: &[First],
    arguments: bool,
    number: u128,
    cell: &CellData<'_>,
) -> bool
    requires seen { IsSeen seen.now }
    requires there { option_map cell_frozen (find_cell (heap_of seen.now) number) ≡ Some cell.now }
    ensures { result ≡ stands_so seen.now.code.now (heap_of seen.now) homes (map first_shown first.now) arguments number cell.now }
{
    is_good_cell(seen, homes, number, cell) && stands_first(first, arguments, cell)
}
