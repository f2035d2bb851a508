//! The numbers of cells, which are the sums of the sizes before them.

ghost use Rattle.std.specs.Prelude.{◌≡◌, ◌≤◌, true, length, IfOk, Some, slice_get};
ghost use Rattle.ns_frozen_tables.specs.Numbers as spec;

use ns_base::items::Items;
use ns_base::no_memory::NoMemory;
use ns_frozen::cell::CellData;
use ns_frozen::stored::Cells;
use std::alloc::Global;

/// What a cell costs.
pub fn size(cell: &CellData<'_>) -> u64
    ensures size { result ≡ spec.data_size cell.now }
    ensures few { result ≤ 9223372036854775808 }
{
    match cell {
        CellData::Object { class: _, words } => words.as_slice().len() as u64 + 1,
        CellData::Class { .. } => 4,
        CellData::Block { .. } => 3,
        CellData::Environment { parent: _, locals } => locals.as_slice().len() as u64 + 1,
        CellData::Array(items) => items.as_slice().len() as u64 + 1,
        CellData::Text(text) => text.as_slice().len().div_ceil(8) as u64 + 1,
        CellData::Facet(_) => 1,
        CellData::Mirror(_) => 2,
        CellData::Message { .. } => 3,
    }
}

/// The numbers of cells, in their order. What stands behind the last number that a reference can name has none.
#[tactic(auto, using(crate::proofs::Found::past_end, crate::proofs::Found::numbers_on))]
pub fn numbers_of(alloc: Global, cells: &Cells) -> Result<Items<u32>, NoMemory>
    ensures { IfOk result (λ numbers. numbers ≡ spec.numbers_from 0 cells.now) }
{
    let mut numbers = Vec::new(alloc);
    let mut number: u64 = 0;
    'cells: for place in 0..cells.len() {
        if number > u64::from(u32::MAX) {
            return Ok(Items::from_vec(numbers));
        }
        let cell = cells.at(place);
        numbers.push(number as u32)?;
        number += size(&cell);
    }
    Ok(Items::from_vec(numbers))
}

/// The place of a number among some that rise. It is sought where it stands if these rise evenly, and else by halves.
pub fn place_of(numbers: &[u32], number: u32) -> Option<usize>
    requires { spec.IsRising numbers.now }
    ensures { spec.IsPlaceOf numbers.now number result }
{
    let near = near_place(numbers, number);
    if stands_at(numbers, near, number) {
        return Some(near);
    }
    match numbers.binary_search(&number) {
        Ok(place) => Some(place),
        Err(_) => None,
    }
}

/// Whether a number stands at a place of some.
fn stands_at(numbers: &[u32], place: usize, number: u32) -> bool
    ensures { result ≡ true → spec.IsPlaceOf numbers.now number (Some place) }
{
    match numbers.get(place) {
        Some(there) => *there == number,
        None => false,
    }
}

/// How often a number is sought evenly.
const PARTS: u32 = 2;

/// The place of a number among some that rise, where it can be found in a few parts: each time the numbers that are left are parted
/// where it stands if they rise evenly. That reads few places, while halves lead through many that no cache holds.
fn near_place(numbers: &[u32], number: u32) -> usize {
    let mut from: usize = 0;
    let mut left = numbers;
    'parts: for _part in 0..PARTS {
        let (below, above) = left.split_at(even_place(left, number));
        if begins_above(above, number) {
            left = below;
        } else {
            from = from.saturating_add(below.len());
            left = above;
        }
    }
    from.saturating_add(even_place(left, number))
}

/// Whether the first of some numbers is greater than a number.
fn begins_above(numbers: &[u32], number: u32) -> bool {
    match numbers {
        [first, ..] => number < *first,
        [] => false,
    }
}

/// The place of a number among some, if they rise evenly.
fn even_place(numbers: &[u32], number: u32) -> usize
    ensures { result ≤ length numbers.now }
{
    match numbers {
        [first, .., last] => share(
            numbers.len(),
            number.saturating_sub(*first),
            last.saturating_sub(*first),
        ),
        _ => 0,
    }
}

/// The part of a count that another part is of a whole, and no more than the count.
fn share(count: usize, part: u32, whole: u32) -> usize
    ensures { result ≤ count }
{
    if part == 0 || whole == 0 {
        return 0;
    }
    let steps = (count as u64).saturating_sub(1);
    let place = steps.saturating_mul(u64::from(part)) / u64::from(whole);
    (place as usize).min(count)
}

/// The cell at a place.
pub fn cell_at(cells: &Cells, place: usize) -> Option<CellData<'_>>
    ensures { result ≡ slice_get cells.now place }
{
    if place < cells.len() {
        Some(cells.at(place))
    } else {
        None
    }
}
