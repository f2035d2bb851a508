//! The states of a run that are kept on the way.

ghost use Rattle.std.specs.Prelude.{IfSome};
ghost use Rattle.ns_frozen.specs.Thawing.{thawed};
ghost use Rattle.ns_replay.specs.Replay.{AreKept, AreLeft, IsBefore, Replays};

use ns_base::no_memory::NoMemory;
use ns_frozen::frozen::Frozen;
use ns_frozen::laws::states_thaw_back;
use ns_machine::machine::Machine;
use slab::Slab;
use std::alloc::Global;

/// A state of a run, as plain data, with its step.
#[derive(Drop)]
pub struct Kept {
    pub step: u64,
    pub frozen: Frozen,
}

/// How many states are kept at most, beside the start.
pub const MOST_KEPT: usize = 7;

/// The key of the kept state with the greatest step up to this one, if there is one.
pub fn latest(kept: &Slab<Kept>, step: u64) -> Option<usize>
    ensures { IfSome result (λ key. IsBefore kept.now step key) }
{
    let mut found = None;
    let mut last: u64 = 0;
    'keys: for key in 0..MOST_KEPT {
        if let Some(one) = kept.get(key) {
            if last <= one.step && one.step <= step {
                found = Some(key);
                last = one.step;
            }
        }
    }
    found
}

/// Keeps where the run of a machine stands at a step, unless it has ended. A state that finds no memory isn't kept.
pub fn keep(alloc: Global, machine: &Machine, start: &Frozen, kept: &mut Slab<Kept>, step: u64)
    requires { Replays machine.now start.now kept.old step }
    ensures { AreKept machine.now.code machine.now.grants (thawed machine.now.code start.now) kept.new }
{
    states_thaw_back();
    let _start = start;
    // That its state is valid is said by this call.
    let _idle = machine.idle();
    match machine.ending() {
        Some(_) => {}
        None => {
            if let Ok(frozen) = machine.freeze(alloc) {
                make_room(kept, step);
                let _key = kept.insert(Kept { step, frozen });
            }
        }
    }
}

/// Drops the state without which the others are spread most evenly up to this step, where as many are kept as may be.
fn make_room(kept: &mut Slab<Kept>, step: u64)
    ensures { AreLeft kept.old kept.new }
{
    if kept.len() < MOST_KEPT {
        return;
    }
    if let Some(key) = least_missed(kept, step) {
        let _dropped = kept.try_remove(key);
    }
}

/// The key of that state.
fn least_missed(kept: &Slab<Kept>, end: u64) -> Option<usize> {
    let mut found = None;
    let mut least = u64::MAX;
    'keys: for key in 0..MOST_KEPT {
        if let Some(one) = kept.get(key) {
            let gap = gap_around(kept, one.step, end);
            if gap < least {
                found = Some(key);
                least = gap;
            }
        }
    }
    found
}

/// How far the kept states around a step are apart, or the start and the end where there is none.
fn gap_around(kept: &Slab<Kept>, step: u64, end: u64) -> u64 {
    let mut below: u64 = 0;
    let mut above = end;
    'keys: for key in 0..MOST_KEPT {
        if let Some(one) = kept.get(key) {
            if one.step < step {
                below = below.max(one.step);
            }
            if step < one.step {
                above = above.min(one.step);
            }
        }
    }
    above.saturating_sub(below)
}
