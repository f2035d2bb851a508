//! One application of a session: its machine, and what is kept beside it.

ghost use Rattle.std.specs.Prelude.{◌≡◌, ◌≤◌, ◌<◌, None, IfOk, option_map};
ghost use Rattle.std.specs.Option.{option_copied};
ghost use Rattle.ns_base.specs.Limits.{InRange};
ghost use Rattle.ns_moves.specs.State.{ending_of};
ghost use Rattle.ns_machine.specs.Turned.{turn_at};
ghost use Rattle.ns_session.specs.Kept.{machine_of};
ghost use Rattle.ns_session.specs.Member.{starting, transcript_of, report_of, line_of, TurnOf, LentTurn, OwnTurn, StandsAlone};
ghost use Rattle.ns_session.specs.Reached.{left_for};

use crate::laws::{
    applications_start_alone, applications_stay_in_reach, turns_stay_alone, turns_use_steps_up,
};
use ns_base::limits::Limits;
use ns_base::no_memory::NoMemory;
use ns_base::text::Text;
use ns_facets::board::Board;
use ns_facets::row::Grants;
use ns_machine::machine::Machine;
use ns_machine::stage::Turn;
use ns_verify::verify::Verified;
use ns_world::ending::Ending;
use std::alloc::Global;
use std::marker::Model;

/// An application in a session. A clause sees its code, grants and limits, and the state of its run.
#[derive(Drop)]
pub struct Member {
    machine: Machine,
    grants: Grants,
    limits: Limits,
    ending: Option<Ending>,
}

impl Model for Member {
    ghost use Rattle.ns_session.specs.Member.{MemberView};
    ghost use Rattle.ns_session.specs.Kept.{member_shown, IsMember};

    ghost Value = { MemberView };

    ghost view = { λ m. member_shown m.machine m.grants m.limits };

    ghost invariant = { λ m. IsMember m.machine m.grants m.limits m.ending };
}

impl Member {
    /// An application that has started, without arguments.
    pub fn new(
        alloc: Global,
        code: Verified,
        grants: Grants,
        limits: Limits,
    ) -> Result<Member, NoMemory>
        requires { InRange limits }
        ensures { IfOk result (λ member. member ≡ starting (record { code = code; grants = grants; limits = limits })) }
    {
        applications_start_alone();
        applications_stay_in_reach();
        let _code = code.code();
        let mut machine = Machine::new(alloc, code, limits, grants, &[])?;
        machine.start();
        let ending = machine.ending();
        Ok(Member {
            machine,
            grants,
            limits,
            ending,
        })
    }

    /// A turn of so many steps, with the board lent to it where it is granted.
    pub fn turn(&mut self, steps: u64, board: &mut Board) -> Turn
        ensures turn { TurnOf self.old.application.grants.board self.old.application.code steps self.old.state
            board.old self.new.state board.new }
        ensures rest { self.new ≡ record self.old { state = self.new.state } }
        ensures answer { result ≡ turn_at self.new.state }
        ensures less { 1 ≤ steps → ending_of self.old.state ≡ None → left_for self.new < left_for self.old }
    {
        turns_stay_alone();
        applications_stay_in_reach();
        turns_use_steps_up();
        let turn = turn_of(&mut self.machine, self.grants.board, steps, board);
        self.ending = self.machine.ending();
        turn
    }

    /// How its run has ended, if it has.
    pub fn ending(&self) -> Option<&Ending>
        ensures { option_copied result ≡ ending_of self.now.state }
    {
        self.ending.as_ref()
    }

    /// The machine in which it runs.
    pub fn machine(&self) -> &Machine
        ensures { result.now ≡ machine_of self.now }
    {
        &self.machine
    }

    /// What it has printed.
    pub fn transcript(&self) -> &[u8]
        ensures { result.now ≡ transcript_of self.now }
    {
        self.machine.output()
    }

    /// The line that reports how its run has ended, if it has.
    pub fn report(&self, alloc: Global, files: &[Text]) -> Result<Option<Vec<u8>>, NoMemory>
        ensures { IfOk result (λ line. option_map (λ bytes. bytes.items) line ≡ report_of files.now self.now) }
    {
        match self.machine.ending() {
            None => Ok(None),
            Some(ending) => {
                let line = self.machine.report(alloc, &ending, files)?;
                Ok(Some(line))
            }
        }
    }

    /// That line, with the names that its code has for its files.
    pub fn line(&self, alloc: Global) -> Result<Option<Vec<u8>>, NoMemory>
        ensures { IfOk result (λ line. option_map (λ bytes. bytes.items) line ≡ line_of self.now) }
    {
        self.report(alloc, self.machine.code().files.as_slice())
    }

    /// Without the board it stands where its run on its own stands.
    pub fn stands_alone(&self)
        ensures { StandsAlone self.now }
    {
        let _machine = &self.machine;
    }
}

/// A turn of a machine, with the board lent where it is granted.
fn turn_of(machine: &mut Machine, granted: bool, steps: u64, board: &mut Board) -> Turn
    ensures turn { TurnOf granted machine.old.code steps machine.old.state board.old machine.new.state board.new }
    ensures rest { machine.new ≡ record machine.old { state = machine.new.state } }
    ensures answer { result ≡ turn_at machine.new.state }
{
    if granted {
        lent_turn(machine, steps, board)
    } else {
        own_turn(machine, steps, board)
    }
}

/// A turn with the board: the machine has it in place of its own, which it has again afterwards.
#[tactic(auto, using(crate::proofs::Swapped::swapped_turn))]
fn lent_turn(machine: &mut Machine, steps: u64, board: &mut Board) -> Turn
    ensures turn { LentTurn machine.old.code steps machine.old.state board.old machine.new.state board.new }
    ensures rest { machine.new ≡ record machine.old { state = machine.new.state } }
    ensures answer { result ≡ turn_at machine.new.state }
{
    machine.swap_board(board);
    let turn = machine.turn(steps);
    machine.swap_board(board);
    turn
}

/// A turn without it.
fn own_turn(machine: &mut Machine, steps: u64, board: &mut Board) -> Turn
    ensures turn { OwnTurn machine.old.code steps machine.old.state board.old machine.new.state board.new }
    ensures rest { machine.new ≡ record machine.old { state = machine.new.state } }
    ensures answer { result ≡ turn_at machine.new.state }
{
    let _board = board;
    machine.turn(steps)
}
