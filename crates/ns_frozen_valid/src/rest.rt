//! What stands beside the cells and the frames: numbers, what is pending, and the ending.

ghost use Rattle.std.specs.Prelude.{◌≡◌, ℕ};
ghost use Rattle.ns_world.specs.Heap.{heap_size};
ghost use Rattle.ns_frozen.specs.Rest as spec;
ghost use Rattle.ns_frozen_valid.specs.Rest as own;
ghost use Rattle.ns_frozen_seen.specs.Seen.{IsSeen, heap_of};

use crate::first::ends_start;
use ns_base::selector::Sel;
use ns_frozen::frame::{FrameKind, FrozenFrame};
use ns_frozen::frozen::Frozen;
use ns_frozen::pending::Pending;
use ns_frozen::plain::PlainValue;
use ns_frozen_seen::seen::Seen;
use ns_frozen_tables::numbers::size;
use ns_moves::site::Site;
use ns_world::ending::Ending;
use ns_world::value::Value;

/// Whether the rest is as it must be.
pub fn is_good_rest(seen: &Seen<'_>, frozen: &Frozen) -> bool
    requires seen { IsSeen seen.now }
    requires these { seen.now.cells.now ≡ frozen.now.cells }
    ensures { result ≡ spec.is_good_rest seen.now.code.now (heap_of seen.now) frozen.now }
{
    are_counted(seen, frozen)
        && is_deep(frozen.ending, frozen.used.depth, frozen.frames.len())
        && is_phased(frozen)
        && is_good_end_of(seen, frozen)
}

/// Whether what is pending and the ending are.
fn is_good_end_of(seen: &Seen<'_>, frozen: &Frozen) -> bool
    requires { IsSeen seen.now }
    ensures { result ≡ own.is_good_end_of seen.now.code.now (heap_of seen.now) frozen.now }
{
    is_good_waiting(seen, frozen.frames.as_slice(), &frozen.pending)
        && is_good_end(seen, frozen.phase, frozen.ending)
}

/// Whether no counter passes its limit, and the counters are those of the cells, the output and the homes.
fn are_counted(seen: &Seen<'_>, frozen: &Frozen) -> bool
    requires { IsSeen seen.now }
    ensures { result ≡ spec.are_counted (heap_of seen.now) frozen.now }
{
    are_within(frozen)
        && frozen.homes <= frozen.used.steps
        && u128::from(frozen.used.cells) == cells_used(seen)
        && frozen.used.out == frozen.output.bytes().len() as u64
}

/// The cells used.
fn cells_used(seen: &Seen<'_>) -> u128
    ensures { result ≡ heap_size (heap_of seen.now) }
{
    let mut used: u128 = 0;
    'cells: for place in 0..seen.cells.len() {
        let cell = seen.cells.at(place);
        used += u128::from(size(&cell));
    }
    used
}

/// Whether what is pending can be done above these frames, where something is.
fn is_good_waiting(seen: &Seen<'_>, frames: &[FrozenFrame], pending: &Option<Pending>) -> bool
    requires { IsSeen seen.now }
    ensures { result ≡ spec.is_good_waiting seen.now.code.now (heap_of seen.now) frames.now pending.now }
{
    match pending {
        Some(pending) => is_good_pending(seen, frames, pending),
        None => true,
    }
}

/// The same of what is.
fn is_good_pending(seen: &Seen<'_>, frames: &[FrozenFrame], pending: &Pending) -> bool
    requires { IsSeen seen.now }
    ensures { result ≡ spec.is_good_pending seen.now.code.now (heap_of seen.now) frames.now pending.now }
{
    match pending {
        Pending::Send {
            receiver,
            sel,
            args,
            site,
        } => frames.is_empty() && can_send(seen, *receiver, *sel, args.as_slice(), *site),
        Pending::Perform {
            receiver,
            sel,
            args,
            site,
        } => {
            (!is_on_kernel(frames) && seen.is_live(*receiver))
                && seen.has_elements_for(*sel, Value::Ref(*args))
                && seen.is_site(*site)
        }
        Pending::Evaluate { block, args, site } => {
            can_evaluate(seen, *block, args.as_slice(), *site)
        }
    }
}

/// Whether a send can be made.
fn can_send(
    seen: &Seen<'_>,
    receiver: Value,
    sel: Sel,
    arguments: &[PlainValue],
    site: Site,
) -> bool
    requires { IsSeen seen.now }
    ensures { result ≡ own.can_send seen.now.code.now (heap_of seen.now) receiver sel arguments.now site }
{
    seen.is_live(receiver)
        && takes_arguments(seen, sel, arguments.len())
        && arguments.len() <= 255
        && seen.are_live(arguments)
        && seen.is_site(site)
}

/// Whether so many arguments are those of a selector.
fn takes_arguments(seen: &Seen<'_>, sel: Sel, count: usize) -> bool
    requires { IsSeen seen.now }
    ensures { result ≡ spec.takes_arguments seen.now.code.now sel count }
{
    seen.has_selector(sel) && count == seen.arity(sel)
}

/// Whether a block can be evaluated.
fn can_evaluate(seen: &Seen<'_>, block: Value, arguments: &[PlainValue], site: Site) -> bool
    requires { IsSeen seen.now }
    ensures { result ≡ own.can_evaluate seen.now.code.now (heap_of seen.now) block arguments.now site }
{
    seen.is_block(block) && arguments.len() <= 255 && seen.are_live(arguments) && seen.is_site(site)
}

/// Whether a run can have ended so in a phase, where it has.
fn is_good_end(seen: &Seen<'_>, phase: u8, ending: Option<Ending>) -> bool
    requires { IsSeen seen.now }
    ensures { result ≡ spec.is_good_end seen.now.code.now (heap_of seen.now) phase ending }
{
    match ending {
        Some(ending) => ends_in(phase, ending) && is_good_ending(seen, ending),
        None => true,
    }
}

/// Whether what a run ended with is of the code.
fn is_good_ending(seen: &Seen<'_>, ending: Ending) -> bool
    requires { IsSeen seen.now }
    ensures { (phase : ℕ) → result ≡ spec.is_good_ending seen.now.code.now (heap_of seen.now) phase ending }
{
    match ending {
        Ending::Done(value) => seen.is_live(value),
        Ending::Error(error) => seen.is_site(Site {
            place: error.place,
            class: error.class,
            sel: error.sel,
        }),
        Ending::Limit(_) => true,
    }
}

/// Whether no counter passes its limit.
fn are_within(frozen: &Frozen) -> bool
    ensures { result ≡ own.are_within frozen.now }
{
    frozen.used.steps <= frozen.limits.steps
        && frozen.used.cells <= frozen.limits.cells
        && frozen.used.depth <= frozen.limits.depth
        && frozen.used.out <= frozen.limits.out
}

/// Whether the depth is that of the frames; after an error or a limit it can be any.
fn is_deep(ending: Option<Ending>, depth: u64, frames: usize) -> bool
    ensures { result ≡ spec.is_deep ending depth frames }
{
    match ending {
        None | Some(Ending::Done(_)) => depth == frames as u64,
        Some(_) => true,
    }
}

/// Whether a run can end so in a phase.
fn ends_in(phase: u8, ending: Ending) -> bool
    ensures { result ≡ spec.ends_in phase ending }
{
    match ending {
        Ending::Done(_) => 1 < phase,
        Ending::Error(_) => 0 < phase,
        Ending::Limit(limit) => 0 < phase || ends_start(phase, Some(Ending::Limit(limit))),
    }
}

/// Whether there is a frame, or something pending.
fn goes_on(frozen: &Frozen) -> bool
    ensures { result ≡ spec.goes_on frozen.now }
{
    !frozen.frames.as_slice().is_empty() || frozen.pending.is_some()
}

/// Whether one is there exactly where a run was begun and hasn't ended.
fn is_phased(frozen: &Frozen) -> bool
    ensures { result ≡ spec.is_phased frozen.now }
{
    frozen.phase <= 3 && goes_on_where(frozen)
}

/// The same of a phase that there is.
fn goes_on_where(frozen: &Frozen) -> bool
    ensures { result ≡ own.goes_on_where frozen.now }
{
    if frozen.ending.is_none() && 0 < frozen.phase {
        goes_on(frozen)
    } else {
        !goes_on(frozen)
    }
}

/// Whether the last of some frames is a method of the kernel.
fn is_on_kernel(frames: &[FrozenFrame]) -> bool
    ensures { result ≡ spec.is_on_kernel frames.now }
{
    match frames {
        [.., frame] => is_kernel(frame.kind),
        [] => false,
    }
}

/// Whether a frame is a method of the kernel.
fn is_kernel(kind: FrameKind) -> bool
    ensures { result ≡ spec.is_kernel kind }
{
    match kind {
        FrameKind::Kernel { .. } => true,
        _ => false,
    }
}
