//! What is told in parts of actors that rest.

ghost use Rattle.std.specs.Prelude.{◌≡◌, ◌<◌, IfOk, Some, length, slice_get};
ghost use Rattle.ns_actors.specs.Actor.{ActorView};
ghost use Rattle.ns_actors_rounds.specs.Parts as spec;
ghost use Rattle.ns_actors_rounds.specs.Stops as stops;
ghost use Rattle.ns_moves.specs.State.{ending_of, world_of};
ghost use Rattle.ns_run_told.specs.Told.{told_end as told_end_lem};

use ns_actors::turn::Stop;
use ns_actors_calls::actors::Actors;
use ns_base::items::Items;
use ns_base::no_memory::NoMemory;
use ns_base::text::Text;
use ns_json::saying::{Actor, End, Stage};
use ns_machine::machine::Machine;
use ns_run_told::end::told_end;
use ns_world::ending::Ending;
use std::alloc::Global;

/// What all actors tell in parts, in the order of their numbers.
pub fn parts_of(alloc: Global, actors: &Actors) -> Result<Items<Actor>, NoMemory>
    ensures { IfOk result (λ parts. parts ≡ spec.parts_of actors.now) }
{
    let mut parts = Vec::new(alloc);
    'actors: for number in 0..actors.count() {
        parts.push(part_at(alloc, actors, number)?)?;
    }
    Ok(Items::from_vec(parts))
}

/// What the actor of that number tells so.
fn part_at(alloc: Global, actors: &Actors, number: u32) -> Result<Actor, NoMemory>
    requires { number < length actors.now.actors }
    ensures { (actor : ActorView) → slice_get actors.now.actors number ≡ Some actor → IfOk result (λ part. part ≡ spec.part_of actor) }
{
    actors.keeps_to_letters();
    let why = actors.stopped(number);
    let taken = actors.taken(number).unwrap_or(0);
    match actors.machine(number) {
        Some(machine) => part_in(alloc, machine, why, taken),
        None => unreachable!(),
    }
}

/// What an actor tells whose run stands in that machine, which stopped for that, if it did, and has taken so many letters.
fn part_in(
    alloc: Global,
    machine: &Machine,
    why: Option<Stop>,
    taken: u64,
) -> Result<Actor, NoMemory>
    requires { stops.StopsIn machine.now.state why }
    ensures { IfOk result (λ part. part ≡ stops.told_so machine.now.code machine.now.state why taken) }
{
    let stage = stage_in(alloc, machine, why)?;
    let output = Text::of(alloc, machine.output())?;
    Ok(Actor {
        stage,
        output,
        taken,
    })
}

/// Where such an actor is.
fn stage_in(alloc: Global, machine: &Machine, why: Option<Stop>) -> Result<Stage, NoMemory>
    requires { stops.StopsIn machine.now.state why }
    ensures { IfOk result (λ stage. stage ≡ stops.stage_for machine.now.code machine.now.state why) }
{
    match why {
        None => Ok(Stage::Rests),
        Some(Stop::Ended(ending)) => {
            let end = end_in(alloc, machine, ending)?;
            Ok(Stage::Stopped { end })
        }
        Some(Stop::BadOutbox) => Ok(Stage::BadOutbox),
    }
}

/// The end in which the run of a machine has ended.
fn end_in(alloc: Global, machine: &Machine, ending: Ending) -> Result<End, NoMemory>
    requires { ending_of machine.now.state ≡ Some ending }
    ensures { IfOk result (λ end. end ≡ told_end_lem (world_of machine.now.state).cells machine.now.code machine.now.code.files ending) }
{
    match machine.ending() {
        Some(found) => told_end(alloc, machine, found),
        None => unreachable!(),
    }
}
