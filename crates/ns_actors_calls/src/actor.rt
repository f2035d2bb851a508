//! One actor: its machine, and what is kept beside it.

ghost use Rattle.std.specs.Prelude.{◌≡◌, ◌<◌, ◌++◌, ℕ, Some, true, false, length, slice_get, option_map, IsSome, IsNone, IfSome, IfOk, OnOk, OnErr};
ghost use Rattle.ns_base.specs.Limits.{InRange};
ghost use Rattle.ns_code.specs.Selector.{has_name};
ghost use Rattle.ns_facets.specs.Board.{value_of};
ghost use Rattle.ns_moves.specs.Report.{report_line};
ghost use Rattle.ns_moves.specs.State.{ending_of, world_of};
ghost use Rattle.ns_session.specs.Turned.{turned};
ghost use Rattle.ns_world.specs.declared.ending.Ending.TheVariants.{Done};
ghost use Rattle.ns_actors.specs.Actor.{Between, report_of, starting};
ghost use Rattle.ns_actors.specs.Stated.{HasAnswered, IsActor};
ghost use Rattle.ns_actors.specs.Turn.{answering, done_in, next_taken, ran, run_on, stopping, turn_taken, with_outbox};
ghost use Rattle.ns_actors_calls.specs.Shown.{rests, shown, stop_of};
ghost use Rattle.ns_actors_calls.specs.Steps.{HoldsNone, HoldsOutbox, IsRunning, MayBeSent, MayTake, TakesNext, begun_with, handled, outbox_at};
ghost use Rattle.ns_actors_calls.specs.declared.stage.Standing.TheVariants as standing_is;

use crate::letters::Letters;
use crate::outbox::{read_outbox, size_of_outbox};
use crate::stage::{Held, Standing};
use ns_actors::letter::Letter;
use ns_actors::turn::{ActorTurn, Stop};
use ns_base::limits::Limits;
use ns_base::no_memory::NoMemory;
use ns_base::text::Text;
use ns_facets::board::Plain;
use ns_facets::row::Grants;
use ns_machine::machine::Machine;
use ns_session::robin_laws::turns_are_a_function;
use ns_verify::verify::Verified;
use ns_world::ending::Ending;
use ns_world::value::Value;
use std::alloc::Global;

/// An actor: its machine, its limits, where it stands between its letters, its box, all that it posted, and how many letters of its
/// box it has taken.
#[derive(Drop)]
pub struct Actor {
    pub machine: Machine,
    pub limits: Limits,
    pub standing: Standing,
    pub letters: Letters,
    pub posted: Letters,
    pub taken: u64,
}

impl Actor {
    /// An actor that has started, without arguments.
    pub fn new(
        alloc: Global,
        code: Verified,
        grants: Grants,
        limits: Limits,
    ) -> Result<Actor, NoMemory>
        requires { InRange limits }
        ensures { IfOk result (λ actor. shown actor ≡ starting (record { code = code; grants = grants; limits = limits })) }
    {
        let mut machine = Machine::new(alloc, code, limits, grants, &[])?;
        machine.start();
        Ok(Actor {
            machine,
            limits,
            standing: Standing::Opening,
            letters: Letters::new(alloc),
            posted: Letters::new(alloc),
            taken: 0,
        })
    }

    /// A turn of so many steps of the actor of that number among so many, up to the posting of an outbox.
    pub fn turn(&mut self, k: u32, steps: u64, count: u32) -> ActorTurn
        requires { IsActor k count (shown self.old) }
        ensures { answering result (shown self.new) ≡ turn_taken k steps count (shown self.old) }
    {
        match self.standing {
            Standing::Opening => self.run_on(k, steps, count),
            Standing::Between(behaviour) => self.next_taken(behaviour, k, steps, count),
            Standing::Sending(_) => self.run_on(k, steps, count),
            Standing::Holding(_) => self.handled(count),
            Standing::Stopped(why) => ActorTurn::Stopped(why),
        }
    }

    /// Its run, which opens or is in a send, has a turn of so many steps.
    fn run_on(&mut self, k: u32, steps: u64, count: u32) -> ActorTurn
        requires { IsRunning self.old.standing }
        ensures { answering result (shown self.new) ≡ run_on k steps count (shown self.old) }
    {
        run(&mut self.machine, steps);
        self.ran(k, count)
    }

    /// What its run has come to in a turn.
    fn ran(&mut self, k: u32, count: u32) -> ActorTurn
        requires { IsRunning self.old.standing }
        ensures { answering result (shown self.new) ≡ ran k count (shown self.old) }
    {
        match self.machine.ending() {
            None => ActorTurn::Going,
            Some(Ending::Done(value)) => self.done(k, count, value),
            Some(Ending::Error(error)) => self.stop(Stop::Ended(Ending::Error(error))),
            Some(Ending::Limit(limit)) => self.stop(Stop::Ended(Ending::Limit(limit))),
        }
    }

    /// Its run has ended with a value: an opening gives the behaviour, and a send an outbox.
    fn done(&mut self, k: u32, count: u32, value: Value) -> ActorTurn
        requires running { IsRunning self.old.standing }
        requires ended { ending_of self.old.machine.state ≡ Some (Done value) }
        ensures { answering result (shown self.new) ≡ done_in (shown self.old).stage k count value (shown self.old) }
    {
        match self.standing {
            Standing::Opening => {
                self.standing = Standing::Between(value);
                ActorTurn::Opened
            }
            Standing::Sending(behaviour) => self.hold(behaviour, k, count, value),
            Standing::Between(_) => unreachable!(),
            Standing::Holding(_) => unreachable!(),
            Standing::Stopped(_) => unreachable!(),
        }
    }

    /// A send has ended with a value, whose letters it holds from now on, if it is an outbox.
    fn hold(&mut self, behaviour: Value, k: u32, count: u32, value: Value) -> ActorTurn
        requires { ending_of self.old.machine.state ≡ Some (Done value) }
        ensures { answering result (shown self.new) ≡ with_outbox behaviour (shown self.old) (outbox_at k count (shown self.old)) }
    {
        match size_of_outbox(self.machine.world(), self.machine.code(), value, count) {
            Some(size) => {
                self.standing = Standing::Holding(Held {
                    behaviour,
                    from: k,
                    count,
                });
                ActorTurn::Handled(size)
            }
            None => self.stop(Stop::BadOutbox),
        }
    }

    /// It stops.
    fn stop(&mut self, why: Stop) -> ActorTurn
        ensures { answering result (shown self.new) ≡ stopping why (shown self.old) }
    {
        self.standing = Standing::Stopped(why);
        ActorTurn::Stopped(why)
    }

    /// How many letters it holds among so many.
    fn handled(&self, count: u32) -> ActorTurn
        requires { (k : ℕ) × IsSome (outbox_at k count (shown self.now)) }
        ensures { (k : ℕ) → handled (outbox_at k count (shown self.now)) ≡ Some result }
    {
        let value = self.answer();
        match size_of_outbox(self.machine.world(), self.machine.code(), value, count) {
            Some(size) => ActorTurn::Handled(size),
            None => unreachable!(),
        }
    }

    /// The value with which its run has ended.
    fn answer(&self) -> Value
        requires { HasAnswered (shown self.now) }
        ensures { ending_of self.now.machine.state ≡ Some (Done result) }
    {
        match self.machine.ending() {
            Some(Ending::Done(value)) => value,
            Some(Ending::Error(_)) => unreachable!(),
            Some(Ending::Limit(_)) => unreachable!(),
            None => unreachable!(),
        }
    }

    /// Between two letters it takes the next one, if there is one.
    fn next_taken(&mut self, behaviour: Value, k: u32, steps: u64, count: u32) -> ActorTurn
        requires is { IsActor k count (shown self.old) }
        requires between { self.old.standing ≡ standing_is.Between behaviour }
        ensures { answering result (shown self.new)
            ≡ next_taken (slice_get self.old.letters.all self.old.taken) behaviour k steps count (shown self.old) }
    {
        if self.letters.len() as u64 <= self.taken {
            return ActorTurn::Waiting;
        }
        if self.begin_next(behaviour) {
            self.run_on(k, steps, count)
        } else {
            ActorTurn::Unknown
        }
    }

    /// Takes the next letter, and begins its send where the code names its selector; and whether it does.
    fn begin_next(&mut self, behaviour: Value) -> bool
        requires there { self.old.taken < length self.old.letters.all }
        requires between { self.old.standing ≡ standing_is.Between behaviour }
        requires may { MayTake behaviour (shown self.old) }
        ensures takes { TakesNext behaviour result (shown self.old) (shown self.new) }
        ensures running { result ≡ true → IsRunning self.new.standing }
    {
        let letter = &self.letters.as_slice()[self.taken as usize];
        let begins = begin(&mut self.machine, behaviour, letter);
        self.taken += 1;
        if begins {
            self.standing = Standing::Sending(behaviour);
            return true;
        }
        false
    }

    /// The behaviour of one that holds an outbox.
    pub fn holding(&self) -> Option<Value>
        ensures some { IfSome result (λ behaviour. (k count : ℕ) → IsActor k count (shown self.now) → HoldsOutbox k count behaviour (shown self.now)) }
        ensures none { IsNone result → HoldsNone (shown self.now).stage }
    {
        match self.standing {
            Standing::Opening => None,
            Standing::Between(_) => None,
            Standing::Sending(_) => None,
            Standing::Holding(held) => Some(held.behaviour),
            Standing::Stopped(_) => None,
        }
    }

    /// The letters that it holds, as the actor of that number among so many.
    pub fn held_letters(&self, alloc: Global, k: u32, count: u32) -> Result<Vec<Letter>, NoMemory>
        requires { IsSome (outbox_at k count (shown self.now)) }
        ensures { IfOk result (λ letters. outbox_at k count (shown self.now) ≡ Some letters.items) }
    {
        let value = self.answer();
        read_outbox(
            alloc,
            self.machine.world(),
            self.machine.code(),
            value,
            k,
            count,
        )
    }

    /// These letters are posted, and it is between two letters. After a refusal all is as it was.
    pub fn post(&mut self, behaviour: Value, letters: Vec<Letter>) -> Result<(), NoMemory>
        ensures posted { OnOk result (shown self.new
            ≡ record (shown self.old) { stage = Between behaviour; posted = self.old.posted.all ++ letters.items }) }
        ensures unchanged { OnErr result (shown self.new ≡ shown self.old) }
        ensures letters { self.new.letters ≡ self.old.letters }
    {
        self.posted.put(letters)?;
        self.standing = Standing::Between(behaviour);
        Ok(())
    }

    /// Whether it rests: it has stopped, or is between two letters and has taken all of its box.
    pub fn rests(&self) -> bool
        ensures { result ≡ rests (shown self.now) }
    {
        match self.standing {
            Standing::Opening => false,
            Standing::Between(_) => self.taken == self.letters.len() as u64,
            Standing::Sending(_) => false,
            Standing::Holding(_) => false,
            Standing::Stopped(_) => true,
        }
    }

    /// Why it stopped, if it did.
    pub fn stop_reason(&self) -> Option<Stop>
        ensures { result ≡ stop_of (shown self.now) }
    {
        match self.standing {
            Standing::Opening => None,
            Standing::Between(_) => None,
            Standing::Sending(_) => None,
            Standing::Holding(_) => None,
            Standing::Stopped(why) => Some(why),
        }
    }

    /// The line that reports the error or the limit with which it stopped, if it did so.
    pub fn report(&self, alloc: Global, files: &[Text]) -> Result<Option<Vec<u8>>, NoMemory>
        requires { (k : ℕ) × (count : ℕ) × IsActor k count (shown self.now) }
        ensures { IfOk result (λ line. option_map (λ bytes. bytes.items) line ≡ report_of files.now (shown self.now)) }
    {
        match self.standing {
            Standing::Stopped(Stop::Ended(_)) => self.report_ending(alloc, files),
            Standing::Stopped(Stop::BadOutbox) => Ok(None),
            Standing::Opening => Ok(None),
            Standing::Between(_) => Ok(None),
            Standing::Sending(_) => Ok(None),
            Standing::Holding(_) => Ok(None),
        }
    }

    /// The line that reports how its run has ended.
    fn report_ending(&self, alloc: Global, files: &[Text]) -> Result<Option<Vec<u8>>, NoMemory>
        ensures { IfOk result (λ line. option_map (λ bytes. bytes.items) line ≡
            option_map (report_line (world_of self.now.machine.state).cells self.now.machine.code files.now)
            (ending_of self.now.machine.state)) }
    {
        match self.machine.ending() {
            Some(ending) => {
                let line = self.machine.report(alloc, &ending, files)?;
                Ok(Some(line))
            }
            None => Ok(None),
        }
    }
}

/// A turn of so many steps of a run.
fn run(machine: &mut Machine, steps: u64)
    ensures { machine.new ≡ record machine.old { state = turned machine.old.code steps machine.old.state } }
{
    turns_are_a_function();
    let _valid = machine.idle();
    let _turn = machine.turn(steps);
}

/// Begins the send of a letter to a behaviour where the code names its selector; and whether it does.
fn begin(machine: &mut Machine, behaviour: Value, letter: &Letter) -> bool
    requires { MayBeSent behaviour letter.now machine.old.code machine.old.state }
    ensures named { result ≡ has_name machine.old.code letter.now.sel }
    ensures begun { result ≡ true → machine.new ≡ begun_with behaviour letter.now machine.old }
    ensures unchanged { result ≡ false → machine.new ≡ machine.old }
{
    let argument = value_of(letter.arg);
    match machine.may_ask(behaviour, letter.sel.bytes(), &[argument]) {
        Some(sel) => {
            machine.begin(behaviour, sel, &[argument]);
            true
        }
        None => false,
    }
}

/// The value of an argument.
fn value_of(argument: Plain) -> Value
    ensures { result ≡ value_of argument }
{
    match argument {
        Plain::Nil => Value::Nil,
        Plain::True => Value::True,
        Plain::False => Value::False,
        Plain::Int(number) => Value::Int(number),
    }
}
