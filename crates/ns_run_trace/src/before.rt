//! A machine before the move that ends its run.
//!
//! No machine keeps what it was, so the run is made again: once to count the moves from near its end on, and once more to make all
//! of these but one. Each machine reserves the memory of a whole run, so there is only one at a time.

ghost use Rattle.std.specs.Prelude.{◌≡◌, IfOk};
ghost use Rattle.ns_base.specs.Limits.{InRange};
ghost use Rattle.ns_moves.specs.Move.{moves};
ghost use Rattle.ns_moves.specs.State.{world_of};
ghost use Rattle.ns_moves.specs.Turn as turns;
ghost use Rattle.ns_moves.specs.Valid.{Valid};
ghost use Rattle.ns_run_code.specs.Machine.{begins_with, rested};
ghost use Rattle.ns_run_code.specs.Run.{granted};
ghost use Rattle.ns_run_trace.specs.Before.{before_end};
ghost use Rattle.ns_run_trace.specs.Nearing.{IsNear, MovesAreLeft};

use ns_base::limits::Limits;
use ns_base::no_memory::NoMemory;
use ns_base::text::Text;
use ns_machine::machine::Machine;
use ns_moves::falling::{left_is_below_a_power, moves_lower};
use ns_moves::move_laws::{ended_runs_stay, moves_add, moves_charge_as_told, turns_add};
use ns_moves::valid_frames::moves_keep_valid;
use ns_moves::valid_world::{new_machines_are_valid, opening_sends_are_valid};
use ns_run_code::code::GRANTED;
use ns_run_code::laws::valid_runs_come_to_rest;
use ns_verify::verify::Verified;
use std::alloc::Global;

/// A machine of code before the move that ends its run, which uses so many steps; where it moves not at all, as it begins.
pub fn machine_before(
    alloc: Global,
    code: &Verified,
    limits: Limits,
    arguments: &[Text],
    steps: u64,
) -> Result<Machine, NoMemory>
    requires range { InRange limits }
    requires steps { steps ≡ (world_of (rested code.now (begins_with code.now limits arguments.now))).steps }
    ensures { IfOk result (λ machine. machine ≡ record {
      code = code.now;
      grants = granted;
      state = before_end code.now (begins_with code.now limits arguments.now);
    }) }
{
    moves_add();
    ended_runs_stay();
    moves_keep_valid();
    moves_charge_as_told();
    turns_add();
    valid_runs_come_to_rest();
    left_is_below_a_power();
    new_machines_are_valid();
    opening_sends_are_valid();
    let _admitted = code.code();
    let near = near_end(alloc, code, limits, arguments, steps)?;
    let count = moves_left(near)?;
    let machine = near_end(alloc, code, limits, arguments, steps)?;
    Ok(moved(machine, count.saturating_sub(1)))
}

/// A machine of code near the end of its run, which uses so many steps.
#[tactic(auto, using(crate::proofs::Near::near_begun, crate::proofs::Near::near_turned))]
fn near_end(
    alloc: Global,
    code: &Verified,
    limits: Limits,
    arguments: &[Text],
    steps: u64,
) -> Result<Machine, NoMemory>
    requires { InRange limits }
    ensures machine { IfOk result (λ machine. machine ≡ record { code = code.now; grants = granted; state = machine.state }) }
    ensures near { IfOk result (λ machine. IsNear code.now steps (begins_with code.now limits arguments.now) machine.state) }
{
    let own = code.copy(alloc)?;
    let mut machine = Machine::new(alloc, own, limits, GRANTED, arguments)?;
    machine.start();
    if steps == 0 {
        return Ok(machine);
    }
    machine.turn(steps - 1);
    Ok(machine)
}

/// How many moves are left to a run. It fails for want of memory where no counter holds them, which no run lives to see.
#[tactic(auto, using(crate::proofs::Counting::moved_none, crate::proofs::Counting::moved_one, crate::proofs::Counting::moved_all))]
fn moves_left(machine: Machine) -> Result<u64, NoMemory>
    ensures { IfOk result (λ count. MovesAreLeft machine.code machine.state count) }
{
    moves_add();
    moves_lower();
    let mut machine = machine;
    let mut count: u64 = 0;
    'moves: loop {
        if is_still(&machine) {
            return Ok(count);
        }
        machine.advance();
        match count.checked_add(1) {
            Some(more) => count = more,
            None => return Err(NoMemory),
        }
    }
}

/// Whether a run moves no more. Whether it does or not, its state is a valid one.
#[tactic(auto, using(crate::proofs::Counting::idle_still, crate::proofs::Counting::other_still))]
fn is_still(machine: &Machine) -> bool
    ensures still { result ≡ turns.is_still machine.now.state }
    ensures valid { Valid machine.now.code machine.now.grants machine.now.state }
{
    if machine.idle() {
        return true;
    }
    machine.ending().is_some()
}

/// The machine after so many moves.
fn moved(machine: Machine, count: u64) -> Machine
    ensures { result ≡ record machine { state = moves machine.code count machine.state } }
{
    moves_add();
    let mut machine = machine;
    'moves: for _made in 0..count {
        machine.advance();
    }
    machine
}
