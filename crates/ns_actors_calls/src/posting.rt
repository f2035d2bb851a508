//! The posting of letters: where memory is found for all of it, each goes behind the box of its receiver, and else nothing changes.

ghost use Rattle.std.specs.Prelude.{◌≡◌, ◌≤◌, ◌<◌, List, length, map, slice_get, OnOk, OnErr};
ghost use Rattle.std.specs.Option.{ForSome};
ghost use Rattle.ns_actors.specs.declared.letter.Letter.{Letter as LetterValue};
ghost use Rattle.ns_actors.specs.Stated.{IsActor};
ghost use Rattle.ns_actors.specs.Turn.{delivered, host_number, posted};
ghost use Rattle.ns_actors_calls.specs.Posting.{AreReady, posted_at, settled_at};
ghost use Rattle.ns_actors_calls.specs.Shown.{shown};
ghost use Rattle.ns_actors_calls.specs.Steps.{HoldsOutbox};
ghost use Rattle.ns_actors_calls.specs.Seen.{seen};

use crate::actor::Actor;
use crate::letter::{letter_of, letters_to};
use crate::letters::Letters;
use ns_actors::letter::{HOST, Letter};
use ns_base::no_memory::NoMemory;
use ns_facets::board::Plain;
use ns_world::value::Value;
use std::alloc::Global;

/// What an actor holds is posted, and it is between two letters; one that holds nothing stays as it is. After a refusal all is as it
/// was.
pub fn settle(actors: &mut [Actor], alloc: Global, k: u32) -> Result<(), NoMemory>
    requires there { k < length actors.old }
    requires few { length actors.old ≤ 16 }
    requires is { ForSome (slice_get actors.old k) (λ actor. IsActor k (length actors.old) (shown actor)) }
    ensures settled { OnOk result (map shown actors.new ≡ settled_at k (map shown actors.old)) }
    ensures held { OnErr result (map shown actors.new ≡ map shown actors.old) }
{
    match actors[k as usize].holding() {
        Some(behaviour) => settle_outbox(actors, alloc, k, behaviour),
        None => Ok(()),
    }
}

/// The outbox that an actor holds is posted, and it is between two letters.
fn settle_outbox(
    actors: &mut [Actor],
    alloc: Global,
    k: u32,
    behaviour: Value,
) -> Result<(), NoMemory>
    requires there { k < length actors.old }
    requires few { length actors.old ≤ 16 }
    requires holds { ForSome (slice_get actors.old k) (λ actor. HoldsOutbox k (length actors.old) behaviour (shown actor)) }
    ensures settled { OnOk result (map shown actors.new ≡ settled_at k (map shown actors.old)) }
    ensures held { OnErr result (map shown actors.new ≡ map shown actors.old) }
{
    let count = actors.len() as u32;
    let letters = actors[k as usize].held_letters(alloc, k, count)?;
    post_from(actors, alloc, k, behaviour, letters)
}

/// Letters of an actor are posted, and it is between two letters.
fn post_from(
    actors: &mut [Actor],
    alloc: Global,
    k: u32,
    behaviour: Value,
    letters: Vec<Letter>,
) -> Result<(), NoMemory>
    requires there { k < length actors.old }
    requires few { length actors.old ≤ 16 }
    ensures posted { OnOk result (map shown actors.new ≡ posted_at k behaviour letters.items (map shown actors.old)) }
    ensures unchanged { OnErr result (map shown actors.new ≡ map shown actors.old) }
{
    expect(actors, alloc, letters.as_slice())?;
    actors[k as usize].post(behaviour, letters)?;
    receive(actors);
    Ok(())
}

/// A letter of the host goes behind the box of the actor that it is to. After a refusal all is as it was.
pub fn deliver(
    actors: &mut [Actor],
    host: &mut Letters,
    alloc: Global,
    to: u32,
    sel: &[u8],
    arg: Plain,
) -> Result<(), NoMemory>
    requires { length actors.old ≤ 16 }
    ensures posted { OnOk result (seen host.new.all actors.new
        ≡ posted (record { from = host_number; to = to; sel = sel.now; arg = arg }) (seen host.old.all actors.old)) }
    ensures unchanged { OnErr result (seen host.new.all actors.new ≡ seen host.old.all actors.old) }
{
    let mut letters = Vec::with_capacity(alloc, 1)?;
    letters.push(letter_of(alloc, HOST, to, sel, arg)?)?;
    expect(actors, alloc, letters.as_slice())?;
    host.put(letters)?;
    receive(actors);
    Ok(())
}

/// Copies of letters come next to the boxes that they go to.
fn expect(actors: &mut [Actor], alloc: Global, letters: &[Letter]) -> Result<(), NoMemory>
    requires { length actors.old ≤ 16 }
    ensures same { map shown actors.new ≡ map shown actors.old }
    ensures ready { OnOk result (AreReady 0 letters.now actors.new) }
{
    'boxes: for number in 0..actors.len() {
        let copies = letters_to(alloc, number as u32, letters)?;
        actors[number].letters.expect_all(copies)?;
    }
    Ok(())
}

/// Letters that come next to all boxes are received there.
fn receive(actors: &mut [Actor])
    ensures { (letters : List LetterValue) → AreReady 0 letters actors.old
        → map shown actors.new ≡ delivered 0 letters (map shown actors.old) }
{
    'boxes: for number in 0..actors.len() {
        actors[number].letters.receive();
    }
}
