//! The round robin: each application that hasn't ended has the quantum, again and again, until all have ended.

ghost use Rattle.std.specs.Prelude.{◌≡◌, ◌≤◌, ◌<◌, length, slice_get, false, IsTrue, IsSome};
ghost use Rattle.ns_session.specs.Session.{ending_in};
ghost use Rattle.ns_session.specs.Reached.{left_of};
ghost use Rattle.ns_session.specs.Rounds.{GivenTo, RoundFrom, RoundRobin, HaveEnded};

use crate::session::Session;

/// Rounds of turns until all runs have ended. Each turn uses up steps or ends a run, so this comes to an end.
pub fn run_round_robin(session: &mut Session, quantum: u64)
    requires { 1 ≤ quantum }
    ensures { RoundRobin quantum session.old session.new }
{
    'rounds: while round(session, quantum) {}
}

/// One round, and whether it found a run that hadn't ended.
fn round(session: &mut Session, quantum: u64) -> bool
    requires { 1 ≤ quantum }
    ensures round { RoundFrom quantum (length session.old.members) 0 session.old session.new }
    ensures less { IsTrue result → left_of session.new.members < left_of session.old.members }
    ensures ended { result ≡ false → HaveEnded session.new }
{
    let mut some = false;
    'members: for number in 0..session.count() {
        some |= give(session, number, quantum);
    }
    some
}

/// Gives an application its turn, unless it has ended; and whether it had one.
fn give(session: &mut Session, number: u32, quantum: u64) -> bool
    requires quantum { 1 ≤ quantum }
    requires there { number < length session.old.members }
    ensures given { GivenTo (ending_in (slice_get session.old.members number))
        (record { number = number; steps = quantum }) session.old session.new }
    ensures less { IsTrue result → left_of session.new.members < left_of session.old.members }
    ensures same { result ≡ false → session.new ≡ session.old }
    ensures ended { result ≡ false → IsSome (ending_in (slice_get session.old.members number)) }
    ensures count { length session.new.members ≡ length session.old.members }
{
    match session.ending(number) {
        Some(_) => false,
        None => {
            let _turn = session.turn(number, quantum);
            true
        }
    }
}
