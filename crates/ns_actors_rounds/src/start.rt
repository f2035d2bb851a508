//! The actors of a program, started, and the letter of the host to the first of them.

ghost use Rattle.std.specs.Prelude.{◌≡◌, ◌≤◌, true, length, IfOk, OnOk};
ghost use Rattle.ns_base.specs.Limits.{InRange};
ghost use Rattle.ns_actors_calls.specs.Letters.{takes_one};
ghost use Rattle.ns_actors.specs.Rounds as spec;
ghost use Rattle.ns_actors.specs.Turn.{posted};

use ns_actors::fault::{AddFault, PostFault};
use ns_actors_calls::actors::Actors;
use ns_base::limits::Limits;
use ns_base::no_memory::NoMemory;
use ns_facets::board::Plain;
use ns_facets::row::Grants;
use ns_verify::verify::Verified;
use std::alloc::Global;

/// What is granted to each actor, as to a run.
const GRANTED: Grants = Grants {
    console: true,
    kernel: true,
    mirrors: true,
    board: false,
};

/// So many actors of some code, each started, of which the first has the letter of the host.
pub fn opened(
    alloc: Global,
    code: &Verified,
    limits: Limits,
    count: u32,
    sel: &[u8],
    number: i64,
) -> Result<Actors, NoMemory>
    requires range { InRange limits }
    requires some { 1 ≤ count }
    requires few { count ≤ 16 }
    requires selector { takes_one sel.now ≡ true }
    ensures { IfOk result (λ actors. actors ≡ posted (spec.first_letter sel.now number) (spec.started code.now limits count)) }
{
    let mut actors = started(alloc, code, limits, count)?;
    post_first(&mut actors, sel, number)?;
    Ok(actors)
}

/// So many actors of some code, each started. Each has a copy of the code.
fn started(alloc: Global, code: &Verified, limits: Limits, count: u32) -> Result<Actors, NoMemory>
    requires range { InRange limits }
    requires few { count ≤ 16 }
    ensures { IfOk result (λ actors. actors ≡ spec.started code.now limits count) }
{
    let mut actors = Actors::new(alloc);
    'actors: for number in 0..count {
        let own = code.copy(alloc)?;
        match actors.add(own, GRANTED, limits) {
            Ok(_) => {}
            Err(AddFault::Memory) => return Err(NoMemory),
            Err(AddFault::Full) => unreachable!(),
        }
    }
    Ok(actors)
}

/// The host posts a letter to the first actor.
fn post_first(actors: &mut Actors, sel: &[u8], number: i64) -> Result<(), NoMemory>
    requires there { 1 ≤ length actors.old.actors }
    requires selector { takes_one sel.now ≡ true }
    ensures { OnOk result (actors.new ≡ posted (spec.first_letter sel.now number) actors.old) }
{
    match actors.post(0, sel, Plain::Int(number)) {
        Ok(()) => Ok(()),
        Err(PostFault::Memory) => Err(NoMemory),
        Err(PostFault::NoSuch) => unreachable!(),
        Err(PostFault::BadSelector) => unreachable!(),
    }
}
