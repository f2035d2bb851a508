//! Actors: machines that share nothing, and the letters between them.

ghost use Rattle.std.specs.Prelude.{◌≡◌, ◌≤◌, ◌<◌, ◌↔◌, Some, true, false, length, slice_get};
ghost use Rattle.std.specs.Prelude.{option_map, option_and_then, IfOk, OnOk, OnErr, IsErrOf};
ghost use Rattle.ns_base.specs.Limits.{InRange};
ghost use Rattle.ns_actors.specs.Actor.{report_of, transcript_of};
ghost use Rattle.ns_actors.specs.Rounds.{at_rest};
ghost use Rattle.ns_actors_calls.specs.Shown.{stop_of};
ghost use Rattle.ns_actors_calls.specs.Seen.{box_in, machine_of, posted_in};
ghost use Rattle.ns_actors_calls.specs.Posting.{HasTurned};
ghost use Rattle.ns_actors.specs.Stated.{AreActors, OthersReceive};
ghost use Rattle.ns_actors.specs.Turn.{added, held_after, host_number, posted, turn_of};
ghost use Rattle.ns_actors_calls.specs.Letters.{takes_one};
ghost use Rattle.ns_actors.specs.Laws.{nobody};
ghost use Rattle.ns_actors.specs.declared.fault.AddFault.TheVariants as add_fault;
ghost use Rattle.ns_actors.specs.declared.fault.PostFault.TheVariants as post_fault;
ghost use Rattle.ns_actors.specs.declared.fault.TurnFault.TheVariants as turn_fault;

use crate::actor::Actor;
use crate::letter::takes_one;
use crate::letters::Letters;
use crate::posting::deliver;
use crate::turns::{all_rest, turn_of};
use ns_actors::fault::{AddFault, PostFault, TurnFault};
use ns_actors::laws::{actors_stay_actors, turns_keep_others};
use ns_actors::letter::{HOST, Letter};
use ns_actors::turn::{ActorTurn, Stop};
use ns_base::limits::Limits;
use ns_base::no_memory::NoMemory;
use ns_base::text::Text;
use ns_facets::board::Plain;
use ns_facets::row::Grants;
use ns_machine::machine::Machine;
use ns_verify::verify::Verified;
use std::alloc::Global;
use std::marker::Model;

/// How many actors there are at most.
pub const MOST_ACTORS: usize = 16;

/// Actors, in the order in which they were added, and all that the host posted. A clause sees of each its application, the
/// state of its run, its stage, its box, what it posted, and how many letters it has taken.
#[derive(Drop)]
pub struct Actors {
    alloc: Global,
    actors: Vec<Actor>,
    host: Letters,
}

impl Model for Actors {
    ghost use Rattle.ns_actors.specs.Stated.{AreActors};
    ghost use Rattle.ns_actors.specs.Turn.{ActorsView};
    ghost use Rattle.ns_actors_calls.specs.Seen.{seen};

    ghost Value = { ActorsView };

    ghost view = { λ a. seen a.host.all a.actors.items };

    ghost invariant = { λ a. AreActors (seen a.host.all a.actors.items) };
}

impl Actors {
    /// No actors.
    pub fn new(alloc: Global) -> Actors
        ensures { result ≡ nobody }
    {
        actors_stay_actors();
        Actors {
            alloc,
            actors: Vec::new(alloc),
            host: Letters::new(alloc),
        }
    }

    /// How many actors there are.
    pub fn count(&self) -> u32
        ensures count { result ≡ length self.now.actors }
        ensures few { result ≤ 16 }
    {
        self.actors.len() as u32
    }

    /// Adds an actor, which has started without arguments. It gets the next number, from 0. `Full` comes exactly where 16 are there.
    /// After a refusal all is as it was.
    pub fn add(&mut self, app: Verified, grants: Grants, limits: Limits) -> Result<u32, AddFault>
        requires range { InRange limits }
        requires boardless { grants.board ≡ false }
        ensures number { IfOk result (λ number. number ≡ length self.old.actors) }
        ensures added { OnOk result (self.new ≡ added (record { code = app; grants = grants; limits = limits }) self.old) }
        ensures full { IsErrOf result add_fault.Full ↔ (length self.old.actors ≡ 16) }
        ensures unchanged { OnErr result (self.new ≡ self.old) }
    {
        let number = self.actors.len();
        if number >= MOST_ACTORS {
            return Err(AddFault::Full);
        }
        match self.put(app, grants, limits) {
            Ok(()) => Ok(number as u32),
            Err(_) => Err(AddFault::Memory),
        }
    }

    /// Posts a letter of the host. `NoSuch` comes exactly where no actor has that number, and else `BadSelector` exactly where
    /// the text isn't a selector of one argument. After a refusal all is as it was.
    pub fn post(&mut self, to: u32, sel: &[u8], arg: Plain) -> Result<(), PostFault>
        ensures posted { OnOk result (self.new ≡ posted (record { from = host_number; to = to; sel = sel.now; arg = arg }) self.old) }
        ensures none { IsErrOf result post_fault.NoSuch ↔ (length self.old.actors ≤ to) }
        ensures selector { IsErrOf result post_fault.BadSelector ↔ ((to < length self.old.actors) × (takes_one sel.now ≡ false)) }
        ensures unchanged { OnErr result (self.new ≡ self.old) }
    {
        if to as usize >= self.actors.len() {
            return Err(PostFault::NoSuch);
        }
        if !takes_one(sel) {
            return Err(PostFault::BadSelector);
        }
        match self.post_there(to, sel, arg) {
            Ok(()) => Ok(()),
            Err(_) => Err(PostFault::Memory),
        }
    }

    /// A turn of an actor, of so many steps. `NoSuch` comes exactly where none has that number. Without memory to post an outbox
    /// it is held, and nothing of it is posted. No other actor changes but for letters behind its box.
    pub fn turn(&mut self, k: u32, steps: u64) -> Result<ActorTurn, TurnFault>
        ensures none { IsErrOf result turn_fault.NoSuch ↔ (length self.old.actors ≤ k) }
        ensures unchanged { IsErrOf result turn_fault.NoSuch → self.new ≡ self.old }
        ensures turn { IfOk result (λ answer. (self.new ≡ (turn_of k steps self.old).view)
            × (Some answer ≡ (turn_of k steps self.old).answer)) }
        ensures held { IsErrOf result turn_fault.Memory → self.new ≡ held_after k steps self.old }
        ensures others { OthersReceive k self.old self.new }
    {
        if k as usize >= self.actors.len() {
            return Err(TurnFault::NoSuch);
        }
        match self.turn_there(k, steps) {
            Ok(answer) => Ok(answer),
            Err(_) => Err(TurnFault::Memory),
        }
    }

    /// All letters of an actor's box, if it is there.
    pub fn letters(&self, k: u32) -> Option<&[Letter]>
        ensures { option_map (λ letters. letters.now) result ≡ box_in self.now k }
    {
        match self.actors.get(k as usize) {
            Some(actor) => Some(actor.letters.as_slice()),
            None => None,
        }
    }

    /// All letters that an actor has posted, or that the host has, by its number.
    pub fn posted(&self, k: u32) -> Option<&[Letter]>
        ensures { option_map (λ letters. letters.now) result ≡ posted_in self.now k }
    {
        if k == HOST {
            return Some(self.host.as_slice());
        }
        match self.actors.get(k as usize) {
            Some(actor) => Some(actor.posted.as_slice()),
            None => None,
        }
    }

    /// How many letters of its box an actor has taken, if it is there.
    pub fn taken(&self, k: u32) -> Option<u64>
        ensures { result ≡ option_map (λ actor. actor.taken) (slice_get self.now.actors k) }
    {
        match self.actors.get(k as usize) {
            Some(actor) => Some(actor.taken),
            None => None,
        }
    }

    /// The machine in which an actor runs, if it is there: it tells the actor's code, its ending, and what it has printed.
    pub fn machine(&self, k: u32) -> Option<&Machine>
        ensures { option_map (λ machine. machine.now) result ≡ option_map machine_of (slice_get self.now.actors k) }
    {
        match self.actors.get(k as usize) {
            Some(actor) => Some(&actor.machine),
            None => None,
        }
    }

    /// What an actor has printed, if it is there.
    pub fn transcript(&self, k: u32) -> Option<&[u8]>
        ensures { option_map (λ bytes. bytes.now) result ≡ option_map transcript_of (slice_get self.now.actors k) }
    {
        match self.actors.get(k as usize) {
            Some(actor) => Some(actor.machine.output()),
            None => None,
        }
    }

    /// Why an actor stopped, if it is there and did so.
    pub fn stopped(&self, k: u32) -> Option<Stop>
        ensures { result ≡ option_and_then stop_of (slice_get self.now.actors k) }
    {
        match self.actors.get(k as usize) {
            Some(actor) => actor.stop_reason(),
            None => None,
        }
    }

    /// Whether all rest: each has stopped, or is between two letters and has taken all of its box. Then no turn changes anything.
    pub fn at_rest(&self) -> bool
        ensures { result ≡ at_rest self.now }
    {
        all_rest(&self.actors)
    }

    /// The line that reports the error or the limit with which an actor stopped, if it is there and did so.
    pub fn report(&self, alloc: Global, k: u32, files: &[Text]) -> Result<Option<Vec<u8>>, NoMemory>
        ensures { IfOk result (λ line. option_map (λ bytes. bytes.items) line
            ≡ option_and_then (report_of files.now) (slice_get self.now.actors k)) }
    {
        match self.actors.get(k as usize) {
            Some(actor) => actor.report(alloc, files),
            None => Ok(None),
        }
    }

    /// After every list of calls: each box has what was posted to it, in order and once; what was taken is a beginning of it; and
    /// each actor stands, and has posted, as it would alone with the letters that it has taken.
    pub fn keeps_to_letters(&self)
        ensures { AreActors self.now }
    {
        let _actors = &self.actors;
    }

    /// An actor that has started comes behind the others, of which there are fewer than 16.
    fn put(&mut self, app: Verified, grants: Grants, limits: Limits) -> Result<(), NoMemory>
        requires range { InRange limits }
        requires boardless { grants.board ≡ false }
        requires room { length self.old.actors < 16 }
        ensures added { OnOk result (self.new ≡ added (record { code = app; grants = grants; limits = limits }) self.old) }
        ensures unchanged { OnErr result (self.new ≡ self.old) }
    {
        actors_stay_actors();
        let _code = app.code();
        let actor = Actor::new(self.alloc, app, grants, limits)?;
        self.actors.push(actor)?;
        Ok(())
    }

    /// A letter of the host goes behind the box of an actor that is there.
    fn post_there(&mut self, to: u32, sel: &[u8], arg: Plain) -> Result<(), NoMemory>
        requires there { to < length self.old.actors }
        requires selector { takes_one sel.now ≡ true }
        ensures posted { OnOk result (self.new ≡ posted (record { from = host_number; to = to; sel = sel.now; arg = arg }) self.old) }
        ensures unchanged { OnErr result (self.new ≡ self.old) }
    {
        actors_stay_actors();
        deliver(&mut self.actors, &mut self.host, self.alloc, to, sel, arg)
    }

    /// A turn of an actor that is there.
    fn turn_there(&mut self, k: u32, steps: u64) -> Result<ActorTurn, NoMemory>
        requires { k < length self.old.actors }
        ensures turn { IfOk result (λ answer. HasTurned k steps answer self.old self.new) }
        ensures held { OnErr result (self.new ≡ held_after k steps self.old) }
        ensures others { OthersReceive k self.old self.new }
    {
        actors_stay_actors();
        turns_keep_others();
        turn_of(&mut self.actors, self.alloc, k, steps)
    }
}
