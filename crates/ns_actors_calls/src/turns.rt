//! Turns of actors: what one of them holds after its turn is posted.

ghost use Rattle.std.specs.Prelude.{◌≡◌, ◌<◌, List, length, map, IfOk, OnErr};
ghost use Rattle.ns_actors.specs.declared.letter.Letter.{Letter as LetterValue};
ghost use Rattle.ns_actors.specs.Rounds.{all_rest};
ghost use Rattle.ns_actors.specs.Stated.{AreActors};
ghost use Rattle.ns_actors.specs.Turn.{held_after};
ghost use Rattle.ns_actors_calls.specs.Posting.{HasTurned};
ghost use Rattle.ns_actors_calls.specs.Shown.{shown};
ghost use Rattle.ns_actors_calls.specs.Seen.{seen};

use crate::actor::Actor;
use crate::posting::settle;
use ns_actors::laws::actors_stay_actors;
use ns_actors::turn::ActorTurn;
use ns_base::no_memory::NoMemory;
use std::alloc::Global;

/// A turn of one of these actors. Without memory to post an outbox it is held, and nothing of it is posted.
pub fn turn_of(
    actors: &mut [Actor],
    alloc: Global,
    k: u32,
    steps: u64,
) -> Result<ActorTurn, NoMemory>
    requires there { k < length actors.old }
    requires are { (host : List LetterValue) × AreActors (seen host actors.old) }
    ensures turn { IfOk result (λ answer. (host : List LetterValue) → HasTurned k steps answer (seen host actors.old) (seen host actors.new)) }
    ensures held { OnErr result ((host : List LetterValue) → seen host actors.new ≡ held_after k steps (seen host actors.old)) }
{
    actors_stay_actors();
    let count = actors.len() as u32;
    let answer = actors[k as usize].turn(k, steps, count);
    settle(actors, alloc, k)?;
    Ok(answer)
}

/// Whether each of these actors rests.
pub fn all_rest(actors: &[Actor]) -> bool
    ensures { result ≡ all_rest (map shown actors.now) }
{
    'actors: for actor in actors {
        if !actor.rests() {
            return false;
        }
    }
    true
}
