//! A replay: states that are kept on the way, from which a run goes on when it is to go back.

ghost use Rattle.std.specs.Prelude.{◌≡◌, ◌<◌, ◌≤◌, IfOk, IfSome};
ghost use Rattle.ns_replay.specs.At.{position_in};
ghost use Rattle.ns_replay.specs.Laws.{IsLeast};
ghost use Rattle.ns_replay.specs.Replay.{CanBegin, gone_to, reached, replay_of};

use crate::kept::{Kept, MOST_KEPT, keep, latest};
use crate::laws::positions_are_least;
use crate::places::{Way, is_due, place_behind};
use crate::standing::stand_before;
use ns_base::no_memory::NoMemory;
use ns_frozen::frozen::Frozen;
use ns_frozen::laws::states_thaw_back;
use ns_machine::machine::Machine;
use ns_moves::move_laws::turns_add;
use ns_session::robin_laws::turns_are_a_function;
use slab::Slab;
use std::alloc::Global;
use std::marker::Model;

/// A run, the step that was asked for last, and up to eight of its states, of which the first is the start. A clause sees
/// the code, what the run is granted, the start, that step, and where the run stands.
#[derive(Drop)]
pub struct Replay {
    alloc: Global,
    machine: Machine,
    start: Frozen,
    kept: Slab<Kept>,
    every: u64,
    asked: u64,
}

impl Model for Replay {
    ghost use Rattle.std.specs.Prelude.{◌≤◌};
    ghost use Rattle.ns_replay.specs.Replay.{ReplayView, Replays, view_of};

    ghost Value = { ReplayView };

    ghost view = { λ r. view_of r.machine r.start r.asked };

    ghost invariant = { λ r. Replays r.machine r.start r.kept r.asked × (1 ≤ r.every) };
}

impl Replay {
    /// A replay of the run of this machine, which was started and has used no step, or was ended by its start. States are kept
    /// at multiples of this number of steps.
    pub fn new(alloc: Global, machine: Machine, every: u64) -> Result<Replay, NoMemory>
        requires begins { CanBegin machine.state }
        requires every { 0 < every }
        ensures { IfOk result (λ replay. replay ≡ replay_of machine) }
    {
        states_thaw_back();
        turns_are_a_function();
        let mut machine = machine;
        let _idle = machine.idle();
        let Ok(start) = machine.freeze(alloc) else {
            drop(machine);
            return Err(NoMemory);
        };
        let Ok(kept) = Slab::with_capacity(alloc, MOST_KEPT) else {
            drop(start);
            drop(machine);
            return Err(NoMemory);
        };
        let _turn = machine.turn(0);
        Ok(Replay {
            alloc,
            machine,
            start,
            kept,
            every,
            asked: 0,
        })
    }

    /// Goes to a step, or to the end of the run where that comes first, and answers the steps that are used there. It can't be
    /// refused: a state that finds no memory isn't kept.
    pub fn to(&mut self, step: u64) -> u64
        ensures replay { self.new ≡ gone_to self.old step }
        ensures answer { result ≡ reached self.old step }
        ensures least { IsLeast self.old.code self.old.start step self.new.state }
    {
        self.back(step);
        'places: for _ in 0..MOST_KEPT {
            if let Some(place) = self.next_place(step) {
                self.forth(place);
                self.keep();
            }
        }
        self.forth(step);
        self.position()
    }

    /// The steps that are used where the run stands.
    pub fn position(&self) -> u64
        ensures position { result ≡ position_in self.now.state }
        ensures few { result ≤ 1000000000000 }
        ensures least { IsLeast self.now.code self.now.start self.now.asked self.now.state }
    {
        positions_are_least();
        // That its state is valid, and so within its limits, is said by this call.
        let _idle = self.machine.idle();
        self.machine.counters().steps
    }

    /// The machine where the run stands.
    pub fn machine(&self) -> &Machine
        ensures { result.now ≡ record { code = self.now.code; grants = self.now.grants; state = self.now.state } }
    {
        &self.machine
    }

    /// Goes to the nearest step up to this one at which it stands or a state is kept.
    fn back(&mut self, step: u64)
        ensures replay { self.new ≡ gone_to self.old self.new.asked }
        ensures before { self.new.asked ≤ step }
    {
        turns_are_a_function();
        self.asked = stand_before(&mut self.machine, &self.start, &self.kept, self.asked, step);
    }

    /// Goes forward to a step.
    fn forth(&mut self, step: u64)
        requires { self.old.asked ≤ step }
        ensures { self.new ≡ gone_to self.old step }
    {
        turns_add();
        turns_are_a_function();
        let _turn = self.machine.turn(step - self.asked);
        self.asked = step;
    }

    /// Keeps where the run stands, unless it has ended, or its cells are too many for so few steps behind the last state.
    fn keep(&mut self)
        ensures { self.new ≡ self.old }
    {
        if is_due(self.last_kept(), self.asked, self.cells()) {
            keep(
                self.alloc,
                &self.machine,
                &self.start,
                &mut self.kept,
                self.asked,
            );
        }
    }

    /// The step at which the next state is kept on the way to this one, if there is one and the run goes on.
    fn next_place(&self, step: u64) -> Option<u64>
        ensures { IfSome result (λ place. (self.now.asked ≤ place) × (place ≤ step)) }
    {
        match self.machine.ending() {
            Some(_) => None,
            None => {
                let end = step.min(self.machine.world().limits().steps);
                let way = Way {
                    last: self.last_kept(),
                    from: self.asked,
                    end,
                };
                place_behind(way, self.every, self.cells())
            }
        }
    }

    /// How many cells are used where the run stands: so many are copied where it is kept.
    fn cells(&self) -> u64 {
        self.machine.counters().cells
    }

    /// The step of the state that was kept last on the way to where the run stands.
    fn last_kept(&self) -> u64 {
        match latest(&self.kept, self.asked) {
            Some(key) => self.kept[key].step,
            None => 0,
        }
    }
}
