//! Several applications that take turns.

ghost use Rattle.std.specs.Prelude.{◌≡◌, ◌≤◌, ◌<◌, ◌↔◌, [], length, slice_get, option_map, IfOk, OnOk, OnErr, IsErr, IsErrOf};
ghost use Rattle.std.specs.Option.{option_copied};
ghost use Rattle.ns_base.specs.Limits.{InRange};
ghost use Rattle.ns_session.specs.Kept.{machine_of};
ghost use Rattle.ns_session.specs.Member.{transcript_of};
ghost use Rattle.ns_session.specs.Session.{added, Plays, OthersStay, BoardStays, ending_in, report_in, line_in, AnswersTurn, IsAloneAt};
ghost use Rattle.ns_session.specs.Reached.{left_of};
ghost use Rattle.ns_session.specs.Rounds.{CanGoOn};
ghost use Rattle.ns_session.specs.Play.{opened};
ghost use Rattle.ns_session.specs.declared.fault.AddFault.TheVariants.{Full};

use crate::fault::{AddFault, NoSuch};
use crate::member::Member;
use ns_base::limits::Limits;
use ns_base::no_memory::NoMemory;
use ns_base::text::Text;
use ns_facets::board::Board;
use ns_facets::row::Grants;
use ns_machine::machine::Machine;
use ns_machine::stage::Turn;
use ns_verify::verify::Verified;
use ns_world::ending::Ending;
use std::alloc::Global;
use std::marker::Model;

/// How many applications a session has at most.
pub const MOST_APPLICATIONS: usize = 16;

/// Applications in the order in which they were added, and the board that some of them share. A clause sees what each
/// application is and the state of its run, and the board.
#[derive(Drop)]
pub struct Session {
    alloc: Global,
    members: Vec<Member>,
    board: Board,
}

impl Model for Session {
    ghost use Rattle.std.specs.Prelude.{◌≤◌, length};
    ghost use Rattle.ns_session.specs.Session.{SessionView};

    ghost Value = { SessionView };

    ghost view = { λ s. record { members = s.members.items; board = s.board } };

    ghost invariant = { λ s. length s.members.items ≤ 16 };
}

impl Session {
    /// No applications, and a board of nils.
    pub fn new(alloc: Global) -> Session
        ensures { result ≡ opened [] }
    {
        Session {
            alloc,
            members: Vec::new(alloc),
            board: Board::new(),
        }
    }

    /// How many applications there are.
    pub fn count(&self) -> u32
        ensures count { result ≡ length self.now.members }
        ensures few { result ≤ 16 }
    {
        self.members.len() as u32
    }

    /// Adds an application and starts it. It gets the next number, from 0. `Full` comes exactly where 16 are there. After a
    /// refusal the application is dropped, and all is as it was.
    pub fn add(
        &mut self,
        application: Verified,
        grants: Grants,
        limits: Limits,
    ) -> Result<u32, AddFault>
        requires { InRange limits }
        ensures number { IfOk result (λ number. number ≡ length self.old.members) }
        ensures added { OnOk result (self.new ≡ added (record { code = application; grants = grants; limits = limits }) self.old) }
        ensures room { OnOk result (length self.old.members < 16) }
        ensures full { IsErrOf result Full → length self.old.members ≡ 16 }
        ensures unchanged { OnErr result (self.new ≡ self.old) }
    {
        let number = self.members.len();
        if number >= MOST_APPLICATIONS {
            return Err(AddFault::Full);
        }
        let member = Member::new(self.alloc, application, grants, limits)?;
        match self.members.push(member) {
            Ok(()) => Ok(number as u32),
            Err(refused) => {
                drop(refused);
                Err(AddFault::Memory)
            }
        }
    }

    /// A turn of an application, of so many steps. `NoSuch` comes exactly where none has that number. It takes no memory.
    pub fn turn(&mut self, k: u32, steps: u64) -> Result<Turn, NoSuch>
        ensures none { IsErr result ↔ (length self.old.members ≤ k) }
        ensures pair { Plays (record { number = k; steps = steps }) self.old self.new }
        ensures answer { IfOk result (λ turn. AnswersTurn turn (slice_get self.new.members k)) }
        ensures others { OthersStay k self.old self.new }
        ensures board { BoardStays k self.old self.new }
        ensures less { 1 ≤ steps → CanGoOn k self.old → left_of self.new.members < left_of self.old.members }
    {
        if k as usize >= self.members.len() {
            return Err(NoSuch);
        }
        let member = &mut self.members[k as usize];
        Ok(member.turn(steps, &mut self.board))
    }

    /// How an application has ended, if it is there and has. Without the board it has the ending of its run on its own.
    pub fn ending(&self, k: u32) -> Option<&Ending>
        ensures ending { option_copied result ≡ ending_in (slice_get self.now.members k) }
        ensures alone { IsAloneAt k self.now }
    {
        match self.members.get(k as usize) {
            Some(member) => {
                member.stands_alone();
                member.ending()
            }
            None => None,
        }
    }

    /// The machine in which an application runs, if it is there: it tells the application's code, its ending, what it has
    /// printed and what it has used.
    pub fn machine(&self, k: u32) -> Option<&Machine>
        ensures { option_map (λ machine. machine.now) result ≡ option_map machine_of (slice_get self.now.members k) }
    {
        match self.members.get(k as usize) {
            Some(member) => Some(member.machine()),
            None => None,
        }
    }

    /// What an application has printed, if it is there.
    pub fn transcript(&self, k: u32) -> Option<&[u8]>
        ensures { option_map (λ bytes. bytes.now) result ≡ option_map transcript_of (slice_get self.now.members k) }
    {
        match self.members.get(k as usize) {
            Some(member) => Some(member.transcript()),
            None => None,
        }
    }

    /// The line that reports how an application has ended, if it is there and has.
    pub fn report(&self, alloc: Global, k: u32, files: &[Text]) -> Result<Option<Vec<u8>>, NoMemory>
        ensures { IfOk result (λ line. option_map (λ bytes. bytes.items) line ≡ report_in files.now (slice_get self.now.members k)) }
    {
        match self.members.get(k as usize) {
            Some(member) => member.report(alloc, files),
            None => Ok(None),
        }
    }

    /// That line, with the names that the application's code has for its files.
    pub fn line(&self, alloc: Global, k: u32) -> Result<Option<Vec<u8>>, NoMemory>
        ensures { IfOk result (λ line. option_map (λ bytes. bytes.items) line ≡ line_in (slice_get self.now.members k)) }
    {
        match self.members.get(k as usize) {
            Some(member) => member.line(alloc),
            None => Ok(None),
        }
    }
}
