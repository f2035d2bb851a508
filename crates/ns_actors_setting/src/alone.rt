//! An actor beside its application alone, which gets the same letters in whole sends.

use crate::started::{GRANTED, LIMITS, code};
use ns_actors::letter::Letter;
use ns_actors_calls::actors::Actors;
use ns_actors_calls::outbox::size_of_outbox;
use ns_facets::board::Plain;
use ns_machine::machine::Machine;
use ns_world::ending::Ending;
use ns_world::value::Value;
use std::alloc::Global;

/// Whether an actor whose run has ended stands where an application of this source stands alone after the letters that the actor
/// has taken, and has posted as many letters as that answers.
pub fn stands_alone(alloc: Global, actors: &Actors, number: u32, source: &str) -> bool {
    match actors.machine(number) {
        Some(machine) => machine.ending().is_none() || is_alone(alloc, actors, number, source),
        None => false,
    }
}

fn is_alone(alloc: Global, actors: &Actors, number: u32, source: &str) -> bool {
    match machine_of(alloc, source) {
        Some(mut alone) => {
            answers_as_many(&mut alone, actors, number) && is_like(&alone, actors, number)
        }
        None => false,
    }
}

/// A machine of an application.
fn machine_of(alloc: Global, source: &str) -> Option<Machine> {
    if !LIMITS.are_in_range() {
        return None;
    }
    let code = code(alloc, source)?;
    Machine::new(alloc, code, LIMITS, GRANTED, &[]).ok()
}

/// Whether an application that gets the letters that an actor has taken answers as many as that has posted.
fn answers_as_many(machine: &mut Machine, actors: &Actors, number: u32) -> bool {
    match (taken(actors, number), actors.posted(number)) {
        (Some(letters), Some(posted)) => {
            answers(machine, letters, actors.count()) == posted.len()
        }
        _ => false,
    }
}

/// The letters that an actor has taken.
fn taken(actors: &Actors, number: u32) -> Option<&[Letter]> {
    let count = actors.taken(number)?;
    actors.letters(number)?.get(..count as usize)
}

/// How many letters an application that is one of so many actors answers when it opens and gets these.
fn answers(machine: &mut Machine, letters: &[Letter], actors: u32) -> usize {
    let mut count: usize = 0;
    if let Ending::Done(behaviour) = machine.run() {
        for letter in letters {
            count = count.wrapping_add(answered(machine, behaviour, letter, actors));
        }
    }
    count
}

/// How many letters a behaviour answers to one; none where the code doesn't name its selector.
fn answered(machine: &mut Machine, behaviour: Value, letter: &Letter, actors: u32) -> usize {
    match machine.ask(behaviour, letter.sel.bytes(), &[argument(letter.arg)]) {
        Some(Ending::Done(value)) => {
            match size_of_outbox(machine.world(), machine.code(), value, actors) {
                Some(size) => size as usize,
                None => 0,
            }
        }
        _ => 0,
    }
}

fn argument(plain: Plain) -> Value {
    match plain {
        Plain::Nil => Value::Nil,
        Plain::True => Value::True,
        Plain::False => Value::False,
        Plain::Int(number) => Value::Int(number),
    }
}

/// Whether a machine and that of an actor are alike.
fn is_like(machine: &Machine, actors: &Actors, number: u32) -> bool {
    match actors.machine(number) {
        Some(other) => are_alike(machine, other),
        None => false,
    }
}

/// Whether two machines have ended in one way, printed the same bytes and used as much.
fn are_alike(one: &Machine, other: &Machine) -> bool {
    let (here, there) = (one.counters(), other.counters());
    one.output() == other.output()
        && here.steps == there.steps
        && here.cells == there.cells
        && here.depth == there.depth
        && here.out == there.out
        && end_alike(one.ending(), other.ending())
}

fn end_alike(one: Option<Ending>, other: Option<Ending>) -> bool {
    match (one, other) {
        (Some(Ending::Done(here)), Some(Ending::Done(there))) => here == there,
        (Some(Ending::Error(here)), Some(Ending::Error(there))) => here.kind == there.kind,
        (Some(Ending::Limit(here)), Some(Ending::Limit(there))) => here == there,
        (None, None) => true,
        _ => false,
    }
}
