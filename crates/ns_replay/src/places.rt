//! Where states of a run are kept.

ghost use Rattle.std.specs.Prelude.{◌<◌, ◌≤◌, IfSome};

/// A way through a run: the step of the state that was kept last, the step where the way begins, and the one where it ends.
#[derive(Clone, Copy)]
pub struct Way {
    pub last: u64,
    pub from: u64,
    pub end: u64,
}

/// At least so many steps are gone for each cell that is copied: then a run takes longer than its copies.
const STEPS_A_CELL: u64 = 2;

/// Whether a state at a step is worth its copy, where so many cells are used and another state was kept before it.
pub fn is_due(last: u64, step: u64, cells: u64) -> bool {
    worth(cells) <= step.saturating_sub(last)
}

/// The step at which the next state is kept on a way: a multiple of this number, behind the last one that is kept by more than an eighth
/// of the end, so that what is left behind the seventh is less, and by what the copy of so many cells is worth and a quarter more, since
/// some more may be used there. None comes before the end where that is not before it.
pub fn place_behind(way: Way, every: u64, cells: u64) -> Option<u64>
    requires { 0 < every }
    ensures { IfSome result (λ place. (way.from ≤ place) × (place ≤ way.end)) }
{
    let Way { last, from, end } = way;
    let copy = worth(cells);
    let apart = (end / 8 + 1).max(copy.saturating_add(copy / 4));
    let place = last
        .saturating_add(rounded(apart, every))
        .max(rounded(from, every));
    if from <= place && place < end {
        Some(place)
    } else {
        None
    }
}

/// How many steps the copy of so many cells is worth.
fn worth(cells: u64) -> u64 {
    cells.saturating_mul(STEPS_A_CELL)
}

/// A number rounded up to a multiple of another one.
fn rounded(number: u64, every: u64) -> u64
    requires { 0 < every }
{
    number.div_ceil(every).saturating_mul(every)
}
