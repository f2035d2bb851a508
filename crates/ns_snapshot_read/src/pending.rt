//! What waits to be done, and how a run has ended.

ghost use Rattle.ns_image.specs.Reads.{ReadsBytes};
ghost use Rattle.ns_snapshot.specs.Reading as spec;

use crate::field::option;
use crate::value::{PlaceFormat, class_name, site, value, values};
use crate::variant::{error_kind, limit_kind};
use ns_frozen::pending::Pending;
use ns_image::fault::Fault;
use ns_image::read::format::Format;
use ns_image::read::input::Input;
use ns_world::ending::{Ending, RunError};
use std::alloc::Global;

/// How that which waits is read.
pub struct PendingFormat;

impl Format for PendingFormat {
    type Value = Pending;

    ghost reader = { λ _. spec.waiting };

    #[tactic(auto, unfolding(ns_snapshot::specs::Fields::one_of))]
    fn read(&self, alloc: Global, input: &mut Input<'_>) -> Result<Pending, Fault> {
        let left = input.rest.len();
        match input.byte()? {
            0 => pending_send(alloc, input),
            1 => pending_perform(alloc, input),
            2 => pending_evaluate(alloc, input),
            3..=255 => Err(Fault::Bad(left)),
        }
    }
}

#[tactic(auto, unfolding(ns_snapshot::specs::Reading::pending_send))]
fn pending_send(alloc: Global, input: &mut Input<'_>) -> Result<Pending, Fault>
    ensures { ReadsBytes (spec.pending_send input.old.rest.now) result input.new.rest.now }
{
    let receiver = value(input)?;
    let sel = input.sel()?;
    let args = values(alloc, input)?;
    let site = site(alloc, input)?;
    Ok(Pending::Send {
        receiver,
        sel,
        args,
        site,
    })
}

#[tactic(auto, unfolding(ns_snapshot::specs::Reading::pending_perform))]
fn pending_perform(alloc: Global, input: &mut Input<'_>) -> Result<Pending, Fault>
    ensures { ReadsBytes (spec.pending_perform input.old.rest.now) result input.new.rest.now }
{
    let receiver = value(input)?;
    let sel = input.sel()?;
    let args = input.word()?;
    let site = site(alloc, input)?;
    Ok(Pending::Perform {
        receiver,
        sel,
        args,
        site,
    })
}

#[tactic(auto, unfolding(ns_snapshot::specs::Reading::pending_evaluate))]
fn pending_evaluate(alloc: Global, input: &mut Input<'_>) -> Result<Pending, Fault>
    ensures { ReadsBytes (spec.pending_evaluate input.old.rest.now) result input.new.rest.now }
{
    let block = value(input)?;
    let args = values(alloc, input)?;
    let site = site(alloc, input)?;
    Ok(Pending::Evaluate { block, args, site })
}

/// How an ending is read.
pub struct EndingFormat;

impl Format for EndingFormat {
    type Value = Ending;

    ghost reader = { λ _. spec.ended };

    #[tactic(auto, unfolding(ns_snapshot::specs::Fields::one_of))]
    fn read(&self, alloc: Global, input: &mut Input<'_>) -> Result<Ending, Fault> {
        let left = input.rest.len();
        match input.byte()? {
            0 => Ok(Ending::Done(value(input)?)),
            1 => run_error(alloc, input),
            2 => Ok(Ending::Limit(limit_kind(input)?)),
            3..=255 => Err(Fault::Bad(left)),
        }
    }
}

#[tactic(auto, unfolding(ns_snapshot::specs::Reading::run_error))]
fn run_error(alloc: Global, input: &mut Input<'_>) -> Result<Ending, Fault>
    ensures { ReadsBytes (spec.run_error input.old.rest.now) result input.new.rest.now }
{
    let kind = error_kind(input)?;
    let place = option(alloc, input, &PlaceFormat)?;
    let class = class_name(input)?;
    let sel = input.sel()?;
    Ok(Ending::Error(RunError {
        kind,
        place,
        class,
        sel,
    }))
}
