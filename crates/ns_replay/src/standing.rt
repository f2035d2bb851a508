//! A machine that is put back to a state of its run.

ghost use Rattle.std.specs.Prelude.{◌≡◌, ◌≤◌};
ghost use Rattle.ns_frozen.specs.Thawing.{thawed};
ghost use Rattle.ns_moves.specs.State.{world_of};
ghost use Rattle.ns_replay.specs.Replay.{IsKept, Replays, StandsFor};

use crate::kept::{Kept, latest};
use ns_frozen::frozen::Frozen;
use ns_frozen::laws::valid_states_freeze;
use ns_machine::machine::Machine;
use ns_moves::move_laws::moves_go_onward;
use slab::Slab;

/// Puts a machine back where it stood last at this step or before it, and answers the step of that; it stays where it is, if that
/// is the nearest.
pub fn stand_before(
    machine: &mut Machine,
    start: &Frozen,
    kept: &Slab<Kept>,
    asked: u64,
    step: u64,
) -> u64
    requires { Replays machine.old start.now kept.now asked }
    ensures here { Replays machine.new start.now kept.now result }
    ensures same { machine.new ≡ record machine.old { state = machine.new.state } }
    ensures before { result ≤ step }
{
    match latest(kept, step) {
        Some(key) => stand_at(machine, start, kept, &kept[key], asked, step),
        None => stand_at_start(machine, start, kept, asked, step),
    }
}

/// The same, where this state was kept before that step.
fn stand_at(
    machine: &mut Machine,
    start: &Frozen,
    kept: &Slab<Kept>,
    one: &Kept,
    asked: u64,
    step: u64,
) -> u64
    requires here { Replays machine.old start.now kept.now asked }
    requires kept { IsKept machine.old.code machine.old.grants (thawed machine.old.code start.now) one.now }
    requires before { one.now.step ≤ step }
    ensures here { Replays machine.new start.now kept.now result }
    ensures same { machine.new ≡ record machine.old { state = machine.new.state } }
    ensures before { result ≤ step }
{
    moves_go_onward();
    let _kept = kept;
    let _start = start;
    if one.step <= asked && asked <= step {
        return asked;
    }
    put_back(machine, &one.frozen);
    one.step
}

/// The same, where none was kept before that step.
fn stand_at_start(
    machine: &mut Machine,
    start: &Frozen,
    kept: &Slab<Kept>,
    asked: u64,
    step: u64,
) -> u64
    requires { Replays machine.old start.now kept.now asked }
    ensures here { Replays machine.new start.now kept.now result }
    ensures same { machine.new ≡ record machine.old { state = machine.new.state } }
    ensures before { result ≤ step }
{
    moves_go_onward();
    let _kept = kept;
    if asked <= step {
        return asked;
    }
    put_back(machine, start);
    let _turn = machine.turn(0);
    0
}

/// Puts a machine back where plain data of its run stands.
fn put_back(machine: &mut Machine, frozen: &Frozen)
    requires stands { StandsFor machine.old.code machine.old.grants frozen.now }
    requires limits { frozen.now.limits ≡ (world_of machine.old.state).limits }
    ensures { machine.new ≡ record machine.old { state = thawed machine.old.code frozen.now } }
{
    valid_states_freeze();
    machine.restore_valid(frozen);
}
