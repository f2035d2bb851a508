//! Two plug-ins that share nothing, as actors: they work together by letters alone.

use crate::plugin::{GRANTS, LIMITS, code};
use ns_actors_calls::actors::Actors;
use ns_facets::board::Plain;
use std::alloc::Global;
use std::io;
use std::io::Write;

/// Actor 0 asks the other for the price of each order, and adds up what it is told.
const DESK: &str = "class Plugin packageUsing: manifest = (| private total ::= 0. |) (
public order: n = (^{{1. #price:. n}})
public owes: n = (total:: total + n. ^{{1. #paid:. total}})
public main: platform args: args = ()
)
";

/// Actor 1 has the prices. It knows no other letter.
const STORE: &str = "class Plugin packageUsing: manifest = () (
public price: n = (^{{0. #owes:. n * 3}})
public main: platform args: args = ()
)
";

/// Lets the two deal with two orders, and tells what came to each.
pub fn trade(rt: &HostRuntime) -> Result<(), io::Error> {
    match traded(rt.alloc()) {
        Some(actors) => {
            tell_box(rt, &actors, 0)?;
            tell_box(rt, &actors, 1)
        }
        None => println!(rt; "no memory"),
    }
}

/// The two, after turns enough for two orders.
fn traded(alloc: Global) -> Option<Actors> {
    let mut actors = Actors::new(alloc);
    for source in [DESK, STORE] {
        let code = code(alloc, source)?;
        if LIMITS.are_in_range() {
            actors.add(code, GRANTS, LIMITS).ok()?;
        }
    }
    for number in [2, 5] {
        actors.post(0, b"order:", Plain::Int(number)).ok()?;
    }
    for _ in 0..9 {
        for number in 0..2 {
            let _turn = actors.turn(number, 100);
        }
    }
    Some(actors)
}

/// Tells the letters that came to an actor, and how many of them it has taken.
fn tell_box(rt: &HostRuntime, actors: &Actors, number: u32) -> Result<(), io::Error> {
    if let (Some(letters), Some(taken)) = (actors.letters(number), actors.taken(number)) {
        println!(rt; "actor {number} has taken {taken}")?;
        for letter in letters {
            rt.stdout().write_all(letter.sel.bytes())?;
            if let Plain::Int(number) = letter.arg {
                println!(rt; " {number}")?;
            }
        }
    }
    Ok(())
}
