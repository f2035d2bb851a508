//! Random schedules of letters and turns: each letter comes once and in order, and each actor stands where it stands alone.

use crate::troupe::{COUNT, SOURCES};
use ns_actors::letter::{HOST, Letter};
use ns_actors_calls::actors::Actors;
use ns_actors_setting::alone::stands_alone;
use ns_actors_setting::started::with_actors;
use ns_facets::board::Plain;
use rand_pcg::Pcg32;
use rand_pcg::rand_core::Rng;
use std::alloc::Global;

#[test]
fn schedules_keep_to_letters(rt: HostRuntime) {
    assert!(rt; all_keep_to_letters(rt.alloc()));
}

/// Whether actors keep to their letters under each of 300 random schedules.
fn all_keep_to_letters(alloc: Global) -> bool {
    (0..300).all(|seed| keep_to_schedule(alloc, seed))
}

fn keep_to_schedule(alloc: Global, seed: u64) -> bool {
    with_actors(
        alloc,
        &SOURCES,
        |actors| keep_to_letters(alloc, actors, seed),
    )
}

/// Whether actors keep to their letters after a random schedule, and again when all have come to rest.
fn keep_to_letters(alloc: Global, actors: &mut Actors, seed: u64) -> bool {
    play(actors, seed);
    let midway = agree(alloc, actors);
    come_to_rest(actors);
    midway && actors.at_rest() && agree(alloc, actors)
}

/// Sixty random calls: a letter of the host to one of the actors, or a turn of one, of up to 63 steps.
fn play(actors: &mut Actors, seed: u64) {
    let mut random = Pcg32::new(seed, 0);
    for _ in 0..60 {
        let number = random.next_u32() % COUNT;
        match random.next_u32() % 16 {
            0 => post(actors, number, true),
            1..=3 => post(actors, number, false),
            _ => {
                let _turn = actors.turn(number, u64::from(random.next_u32() % 64));
            }
        }
    }
}

/// The host posts a letter, numbered as those of the actors are.
fn post(actors: &mut Actors, to: u32, bumps: bool) {
    let sel: &str = if bumps { "bump:" } else { "hit:" };
    let before = match actors.posted(HOST) {
        Some(letters) => letters.len() as i64,
        None => 0,
    };
    let _posted = actors.post(to, sel.as_bytes(), Plain::Int(before.wrapping_add(1)));
}

/// All have turns until they rest.
fn come_to_rest(actors: &mut Actors) {
    for _ in 0..400 {
        if actors.at_rest() {
            return;
        }
        for number in 0..COUNT {
            let _turn = actors.turn(number, 100);
        }
    }
}

/// Whether all letters have come as they were posted, and each actor stands where it stands alone.
fn agree(alloc: Global, actors: &Actors) -> bool {
    comes_to_all(alloc, actors, HOST)
        && (0..).zip(SOURCES).all(|(number, source)| {
            comes_to_all(alloc, actors, number) && stands_alone(alloc, actors, number, source)
        })
}

/// Whether the letters that one has posted are numbered from 1, and have come to each other in that order.
fn comes_to_all(alloc: Global, actors: &Actors, from: u32) -> bool {
    match actors.posted(from) {
        Some(posted) => {
            are_numbered(posted) && (0..COUNT).all(|to| has_come(alloc, actors, posted, from, to))
        }
        None => false,
    }
}

fn are_numbered(letters: &[Letter]) -> bool {
    (1..)
        .zip(letters)
        .all(|(number, letter)| letter.arg == Plain::Int(number))
}

/// Whether the letters from one to another are in its box as they were posted.
fn has_come(alloc: Global, actors: &Actors, posted: &[Letter], from: u32, to: u32) -> bool {
    match actors.letters(to) {
        Some(letters) => {
            let sent = told(alloc, posted, from, to);
            sent.is_some() && sent == told(alloc, letters, from, to)
        }
        None => false,
    }
}

/// The selectors and the numbers of the letters from one to another, one letter behind the other.
fn told(alloc: Global, letters: &[Letter], from: u32, to: u32) -> Option<Vec<u8>> {
    let mut told = Vec::new(alloc);
    for letter in letters {
        if letter.from == from && letter.to == to {
            told.extend_from_slice(letter.sel.bytes()).ok()?;
            told.push(number_of(letter.arg)).ok()?;
        }
    }
    Some(told)
}

fn number_of(argument: Plain) -> u8 {
    match argument {
        Plain::Int(number) => u8::try_from(number).unwrap_or(0),
        _ => 0,
    }
}
