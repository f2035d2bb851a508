//! The actors of a program, from its code or from its source.

ghost use Rattle.std.specs.Prelude.{◌≡◌, ◌≤◌, true, IfOk};
ghost use Rattle.ns_actors_rounds.specs.Source.{actors_told, source_acted, Tells};
ghost use Rattle.ns_base.specs.Limits.{InRange};
ghost use Rattle.ns_actors_calls.specs.Letters.{takes_one};
ghost use Rattle.ns_resolved.specs.Classes.{meant};

use crate::fault::PlayFault;
use crate::laws::programs_come_to_rest;
use crate::parts::parts_of;
use crate::rounds::play;
use crate::start::opened;
use crate::telling::told_of;
use crate::told::ToldActors;
use ns_base::limits::Limits;
use ns_base::no_memory::NoMemory;
use ns_link::compile::compile;
use ns_link::fault::LinkFault;
use ns_static::check::Checked;
use ns_verify::verify::Verified;
use std::alloc::Global;

/// What so many actors of a program come to, as `play_actors` has it, where none of the sizes of its code passes its limit. The code is
/// made once.
pub fn play_source(
    alloc: Global,
    checked: &Checked,
    limits: Limits,
    count: u32,
    sel: &[u8],
    number: i64,
) -> Result<ToldActors, PlayFault>
    requires range { InRange limits }
    requires some { 1 ≤ count }
    requires few { count ≤ 16 }
    requires selector { takes_one sel.now ≡ true }
    ensures { Tells (source_acted (meant checked.now) limits count sel.now number) result }
{
    match compile(alloc, checked) {
        Ok(code) => match play_actors(alloc, &code, limits, count, sel, number) {
            Ok(told) => Ok(told),
            Err(_) => Err(PlayFault::Memory),
        },
        Err(LinkFault::TooLarge(kind)) => Err(PlayFault::TooLarge(kind)),
        Err(LinkFault::Memory) => Err(PlayFault::Memory),
    }
}

/// What so many actors of some code come to, of which the first gets a letter of the host with that selector and that number: they
/// have rounds until all rest, and then that is told of them.
pub fn play_actors(
    alloc: Global,
    code: &Verified,
    limits: Limits,
    count: u32,
    sel: &[u8],
    number: i64,
) -> Result<ToldActors, NoMemory>
    requires range { InRange limits }
    requires some { 1 ≤ count }
    requires few { count ≤ 16 }
    requires selector { takes_one sel.now ≡ true }
    ensures { IfOk result (λ told. told ≡ actors_told code.now limits count sel.now number) }
{
    programs_come_to_rest();
    let mut actors = opened(alloc, code, limits, count, sel, number)?;
    play(&mut actors)?;
    let told = told_of(alloc, &actors, code.code().files.as_slice())?;
    let parts = parts_of(alloc, &actors)?;
    Ok(ToldActors { told, parts })
}
