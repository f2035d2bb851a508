//! The line that tells what a run used of each limit.

ghost use Rattle.std.specs.Prelude.{◌≡◌, ◌++◌, IfOk, OnOk};
ghost use Rattle.std.specs.Fmt.{decimal};
ghost use Rattle.ns_json.specs.Stats as spec;

use crate::put::{put, put_number};
use ns_base::limits::Limits;
use ns_base::no_memory::NoMemory;
use ns_base::text::Text;
use ns_world::ending::Counters;
use std::alloc::Global;

/// The line of the counters at the end of a run, and of the limits that were in force.
pub fn stats_line(alloc: Global, used: Counters, limits: Limits) -> Result<Text, NoMemory>
    ensures { IfOk result (λ line. line ≡ spec.stats_line used limits) }
{
    let mut line = Vec::new(alloc);
    put(&mut line, b"used".as_slice())?;
    put_used_of(&mut line, "steps", used.steps, limits.steps)?;
    put_used_of(&mut line, "cells", used.cells, limits.cells)?;
    put_used_of(&mut line, "depth", used.depth, limits.depth)?;
    put_used_of(&mut line, "out", used.out, limits.out)?;
    put(&mut line, b"\n".as_slice())?;
    Ok(Text::from_vec(line))
}

/// Puts how much of the limit of that name was used.
fn put_used_of(out: &mut Vec<u8>, name: &str, used: u64, limit: u64) -> Result<(), NoMemory>
    ensures { OnOk result (out.new.items ≡ out.old.items ++ spec.used_of name.now used limit) }
{
    put(out, b" ".as_slice())?;
    put(out, name.as_bytes())?;
    put(out, b" ".as_slice())?;
    put_decimal(out, used)?;
    put(out, b" of ".as_slice())?;
    put_decimal(out, limit)
}

/// Puts a number in decimal.
#[tactic(auto, using(crate::proofs::Numbers::decimal_is))]
fn put_decimal(out: &mut Vec<u8>, n: u64) -> Result<(), NoMemory>
    ensures { OnOk result (out.new.items ≡ out.old.items ++ decimal n) }
{
    put_number(out, n)
}
