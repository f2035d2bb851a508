//! Rounds: all actors have a turn, in order, again and again until all rest.

ghost use Rattle.std.specs.Prelude.{◌≡◌, OnOk};
ghost use Rattle.ns_actors.specs.Rounds.{round_of};
ghost use Rattle.ns_actors_rounds.specs.Stated.{RestsAfter};

use crate::laws::{actors_come_to_rest, rounds_leave_less};
use ns_actors::fault::TurnFault;
use ns_actors::laws::rounds_come_to_rest;
use ns_actors_calls::actors::Actors;
use ns_base::no_memory::NoMemory;

/// How many steps the turn of an actor has in a round.
const ROUND_STEPS: u64 = 1000;

/// Actors have rounds until all rest.
pub fn play(actors: &mut Actors) -> Result<(), NoMemory>
    ensures { OnOk result (RestsAfter actors.old actors.new) }
{
    rounds_leave_less();
    rounds_come_to_rest();
    actors_come_to_rest();
    actors.keeps_to_letters();
    'rounds: while !actors.at_rest() {
        actors.keeps_to_letters();
        round(actors)?;
    }
    Ok(())
}

/// Each actor has a turn, in the order of their numbers.
pub fn round(actors: &mut Actors) -> Result<(), NoMemory>
    ensures { OnOk result (actors.new ≡ round_of 1000 actors.old) }
{
    'actors: for k in 0..actors.count() {
        match actors.turn(k, ROUND_STEPS) {
            Ok(_) => {}
            Err(TurnFault::Memory) => return Err(NoMemory),
            Err(TurnFault::NoSuch) => unreachable!(),
        }
    }
    Ok(())
}
