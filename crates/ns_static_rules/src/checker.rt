//! What the walk over a file keeps.

ghost use Rattle.std.specs.Prelude.{◌≡◌, ◌∷◌, []};
ghost use Rattle.ns_static_rules.specs.Rules.{found_if, found_at};
ghost use Rattle.ns_static_rules.specs.Walk.{with_found};
ghost use Rattle.ns_static_rules.specs.declared.fault.StaticCause.TheVariants as c;

use crate::fault::{Many, Placed, StaticCause};
use crate::kept::Kept;
use crate::least::place_at;
use ns_base::place::Place;
use std::alloc::Global;

/// The places of the file's tokens, and what is kept of the faults so far.
#[derive(Drop)]
pub struct Checker<'a> {
    pub alloc: Global,
    pub marks: &'a [Place],
    pub kept: Kept,
}

/// A cause at a token.
pub fn found(checker: &mut Checker<'_>, at: u32, cause: StaticCause)
    ensures { checker.new ≡ with_found checker.old ((at, cause) ∷ []) }
{
    let place = place_at(checker.marks, at);
    checker.kept.keep(Placed { place, cause });
}

/// A cause at a token, where something is wrong.
pub fn found_if(checker: &mut Checker<'_>, wrong: bool, at: u32, cause: StaticCause)
    ensures { checker.new ≡ with_found checker.old (found_if wrong at cause) }
{
    if wrong {
        found(checker, at, cause);
    }
}

/// Too many, at the token that is one past what is allowed, if there is one.
pub fn found_past(checker: &mut Checker<'_>, past: Option<u32>, kind: Many)
    ensures { checker.new ≡ with_found checker.old (found_at past (c.TooMany kind)) }
{
    match past {
        None => {}
        Some(at) => found(checker, at, StaticCause::TooMany(kind)),
    }
}
