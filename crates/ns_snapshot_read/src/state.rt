//! The state of a run.

ghost use Rattle.ns_image.specs.Read as fields;
ghost use Rattle.ns_image.specs.Reads.{ReadsAs, ReadsBytes};
ghost use Rattle.ns_snapshot.specs.Reading as spec;

use crate::cell::{cells, text};
use crate::field::{counted, double, from_1_to, option};
use crate::frame::FrameFormat;
use crate::pending::{EndingFormat, PendingFormat};
use ns_base::items::Items;
use ns_base::limits::Limits;
use ns_facets::board::{Board, Plain};
use ns_facets::row::Grants;
use ns_frozen::frozen::Frozen;
use ns_frozen::stored::Cells;
use ns_image::fault::Fault;
use ns_image::read::input::Input;
use ns_world::ending::Counters;
use std::alloc::Global;

/// Limits, each in its range.
#[tactic(auto, unfolding(ns_snapshot::specs::Reading::limits))]
fn limits(input: &mut Input<'_>) -> Result<Limits, Fault>
    ensures { ReadsBytes (spec.limits input.old.rest.now) result input.new.rest.now }
{
    let steps = from_1_to(input, 1_000_000_000_000)?;
    let cells = from_1_to(input, 64_000_000)?;
    let depth = from_1_to(input, 100_000)?;
    let out = from_1_to(input, 16_777_216)?;
    Ok(Limits {
        steps,
        cells,
        depth,
        out,
    })
}

/// What a run has used.
#[tactic(auto, unfolding(ns_snapshot::specs::Reading::counters))]
fn counters(input: &mut Input<'_>) -> Result<Counters, Fault>
    ensures { ReadsBytes (spec.counters input.old.rest.now) result input.new.rest.now }
{
    let steps = double(input)?;
    let cells = double(input)?;
    let depth = double(input)?;
    let out = double(input)?;
    Ok(Counters {
        steps,
        cells,
        depth,
        out,
    })
}

/// Which facets a run is granted.
#[tactic(auto, unfolding(ns_snapshot::specs::Reading::grants))]
fn grants(input: &mut Input<'_>) -> Result<Grants, Fault>
    ensures { ReadsBytes (spec.grants input.old.rest.now) result input.new.rest.now }
{
    let console = input.flag()?;
    let kernel = input.flag()?;
    let mirrors = input.flag()?;
    let board = input.flag()?;
    Ok(Grants {
        console,
        kernel,
        mirrors,
        board,
    })
}

/// A value of the board.
#[tactic(auto, unfolding(ns_snapshot::specs::Reading::plain, ns_snapshot::specs::Fields::one_of))]
fn plain(input: &mut Input<'_>) -> Result<Plain, Fault>
    ensures { ReadsBytes (spec.plain input.old.rest.now) result input.new.rest.now }
{
    let left = input.rest.len();
    match input.byte()? {
        0 => Ok(Plain::Nil),
        1 => Ok(Plain::True),
        2 => Ok(Plain::False),
        3 => Ok(Plain::Int(input.long()?)),
        4..=255 => Err(Fault::Bad(left)),
    }
}

/// The board.
#[tactic(auto, unfolding(ns_snapshot::specs::Reading::board))]
fn board(input: &mut Input<'_>) -> Result<Board, Fault>
    ensures { ReadsBytes (spec.board input.old.rest.now) result input.new.rest.now }
{
    let places = places(input)?;
    Ok(Board { places })
}

/// The places of the board, which have no count.
fn places(input: &mut Input<'_>) -> Result<[Plain; 64], Fault>
    ensures { ReadsBytes (fields.times 64 spec.plain input.old.rest.now) result input.new.rest.now }
{
    let mut places = [Plain::Nil; 64];
    'values: for place in 0..64 {
        let value = plain(input)?;
        places[place] = value;
    }
    Ok(places)
}

/// The state of a run.
#[tactic(auto, unfolding(ns_snapshot::specs::Reading::frozen))]
pub fn frozen(alloc: Global, input: &mut Input<'_>) -> Result<Frozen, Fault>
    ensures { ReadsBytes (spec.frozen input.old.rest.now) result input.new.rest.now }
{
    let limits = limits(input)?;
    let used = counters(input)?;
    let grants = grants(input)?;
    let board = board(input)?;
    frozen_from(alloc, input, limits, used, grants, board)
}

/// What follows the board.
#[tactic(auto, unfolding(ns_snapshot::specs::Reading::frozen_from))]
fn frozen_from(
    alloc: Global,
    input: &mut Input<'_>,
    limits: Limits,
    used: Counters,
    grants: Grants,
    board: Board,
) -> Result<Frozen, Fault>
    ensures { ReadsBytes (spec.frozen_from limits used grants board input.old.rest.now) result input.new.rest.now }
{
    let output = text(alloc, input)?;
    let homes = double(input)?;
    let phase = input.byte()?;
    let mut state = Frozen {
        limits,
        used,
        grants,
        board,
        output,
        homes,
        phase,
        pending: None,
        ending: None,
        cells: Cells::none(alloc),
        frames: Items::from_vec(Vec::new(alloc)),
    };
    match read_pending(alloc, input, &mut state) {
        Ok(()) => Ok(state),
        Err(fault) => {
            drop(state);
            Err(fault)
        }
    }
}

/// Reads what is pending, the ending, the cells and the frames into a state.
#[tactic(auto, unfolding(ns_snapshot::specs::Reading::with_pending))]
fn read_pending(alloc: Global, input: &mut Input<'_>, state: &mut Frozen) -> Result<(), Fault>
    ensures { ReadsAs (λ _. state.new) (spec.with_pending state.old input.old.rest.now) result input.new.rest.now }
{
    state.pending = option(alloc, input, &PendingFormat)?;
    state.ending = option(alloc, input, &EndingFormat)?;
    read_cells(alloc, input, state)
}

/// Reads the cells and the frames into a state.
#[tactic(auto, unfolding(ns_snapshot::specs::Reading::with_cells))]
fn read_cells(alloc: Global, input: &mut Input<'_>, state: &mut Frozen) -> Result<(), Fault>
    ensures { ReadsAs (λ _. state.new) (spec.with_cells state.old input.old.rest.now) result input.new.rest.now }
{
    state.cells = cells(alloc, input, state.limits.cells)?;
    state.frames = counted(alloc, input, &FrameFormat)?;
    Ok(())
}
