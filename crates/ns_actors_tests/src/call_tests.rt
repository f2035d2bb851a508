//! What calls answer and refuse, and what they tell of one that isn't there.

use ns_actors::fault::{AddFault, PostFault, TurnFault};
use ns_actors::letter::HOST;
use ns_actors::turn::{ActorTurn, Stop};
use ns_actors_calls::actors::Actors;
use ns_actors_setting::started::{add, with_actors};
use ns_facets::board::Plain;
use ns_world::ending::Ending;
use std::alloc::Global;

const SOURCE: &str = "class T packageUsing: m = () (
public hit: n = (^{{0. #hit:. n - 1}. {0. #nope:. n}})
public bad: n = (^7)
public fail: n = (^n // 0)
public spin: n = ([true] whileTrue: [])
public main: p args: a = ()
)";

/// A turn of an actor: the selector of a letter that the host posts to it before, where there is one, the steps of the turn,
/// and its answer.
type Row = (Option<&'static str>, u64, &'static str);

/// Turns of one actor up to each way to stop.
const TURNS: &[&[Row]] = &[
    &[
        (Some("hit:"), 0, "going"),
        (Some("other:"), 100, "opened"),
        (Some("bad:"), 1, "going"),
        (None, 100, "handled"),
        (None, 100, "unknown"),
        (None, 100, "stopped by an outbox"),
        (Some("hit:"), 100, "stopped by an outbox"),
    ],
    &[
        (None, 100, "opened"),
        (None, 100, "waiting"),
        (Some("fail:"), 100, "stopped by an error"),
    ],
    &[
        (Some("spin:"), 100, "opened"),
        (None, 100, "going"),
        (None, 10_000, "stopped by a limit"),
    ],
];

#[test]
fn turns_answer_so(rt: HostRuntime) {
    assert!(rt; all_answer_so(rt.alloc()));
}

fn all_answer_so(alloc: Global) -> bool {
    for rows in TURNS {
        if !with_actors(alloc, &[SOURCE], |actors| answer_so(actors, rows)) {
            return false;
        }
    }
    true
}

/// Whether the turns of an actor have these answers.
fn answer_so(actors: &mut Actors, rows: &[Row]) -> bool {
    for row in rows {
        if !answers_so(actors, *row) {
            return false;
        }
    }
    true
}

fn answers_so(actors: &mut Actors, row: Row) -> bool {
    let (sel, steps, answer) = row;
    if let Some(sel) = sel {
        let _posted = actors.post(0, sel.as_bytes(), Plain::Int(3));
    }
    match actors.turn(0, steps) {
        Ok(turn) => told(turn) == answer,
        Err(_) => false,
    }
}

fn told(turn: ActorTurn) -> &'static str {
    match turn {
        ActorTurn::Going => "going",
        ActorTurn::Opened => "opened",
        ActorTurn::Handled(_) => "handled",
        ActorTurn::Unknown => "unknown",
        ActorTurn::Waiting => "waiting",
        ActorTurn::Stopped(Stop::BadOutbox) => "stopped by an outbox",
        ActorTurn::Stopped(Stop::Ended(Ending::Limit(_))) => "stopped by a limit",
        ActorTurn::Stopped(Stop::Ended(_)) => "stopped by an error",
    }
}

#[test]
fn the_seventeenth_actor_is_refused(rt: HostRuntime) {
    let alloc = rt.alloc();
    assert!(rt; with_actors(alloc, &[SOURCE; 16], |actors| takes_no_more(alloc, actors)));
}

fn takes_no_more(alloc: Global, actors: &mut Actors) -> bool {
    actors.count() == 16
        && matches!(add(alloc, actors, SOURCE), Some(Err(AddFault::Full)))
        && actors.count() == 16
}

#[test]
fn letters_need_a_receiver_and_one_argument(rt: HostRuntime) {
    assert!(rt; with_actors(rt.alloc(), &[SOURCE; 2], takes_one_letter));
}

fn takes_one_letter(actors: &mut Actors) -> bool {
    refuses(actors)
        && actors.post(1, b"+", Plain::True).is_ok()
        && has_letters(actors, 0, 0)
        && has_letters(actors, 1, 1)
}

fn refuses(actors: &mut Actors) -> bool {
    for sel in ["hit", "hit:to:", "a+", "", "7:"] {
        if !is_no_such(actors.post(2, sel.as_bytes(), Plain::Nil)) {
            return false;
        }
        if !is_bad_selector(actors.post(0, sel.as_bytes(), Plain::Nil)) {
            return false;
        }
    }
    is_no_such(actors.post(9, b"hit:", Plain::Nil))
}

fn is_no_such(posted: Result<(), PostFault>) -> bool {
    matches!(posted, Err(PostFault::NoSuch))
}

fn is_bad_selector(posted: Result<(), PostFault>) -> bool {
    matches!(posted, Err(PostFault::BadSelector))
}

fn has_letters(actors: &Actors, number: u32, count: usize) -> bool {
    match actors.letters(number) {
        Some(letters) => letters.len() == count,
        None => false,
    }
}

#[test]
fn nothing_is_told_of_nobody(rt: HostRuntime) {
    let alloc = rt.alloc();
    assert!(rt; with_actors(alloc, &[SOURCE; 2], |actors| tells_of_two(alloc, actors)));
}

fn tells_of_two(alloc: Global, actors: &mut Actors) -> bool {
    matches!(actors.turn(9, 1), Err(TurnFault::NoSuch))
        && is_unknown(alloc, actors, 2)
        && is_unknown(alloc, actors, HOST)
        && actors.posted(2).is_none()
        && actors.posted(HOST).is_some()
}

/// Whether there is no actor of that number.
fn is_unknown(alloc: Global, actors: &Actors, number: u32) -> bool {
    actors.letters(number).is_none()
        && actors.taken(number).is_none()
        && actors.transcript(number).is_none()
        && actors.stopped(number).is_none()
        && actors.report(alloc, number, &[]) == Ok(None)
}
