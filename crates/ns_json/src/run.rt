//! Runs, and how they ended.

ghost use Rattle.std.specs.Prelude.{◌≡◌, ◌++◌, OnOk, Some};
ghost use Rattle.ns_json.specs.Json.{behind, object_text};
ghost use Rattle.ns_json.specs.Report as spec;

use crate::object::Object;
use crate::put::{
    close_object, open_numbered, open_object, open_status, put, put_listed, put_name, put_numbered,
    put_texted,
};
use crate::saying::{End, FilePlace, Run, Site, Trace};
use ns_base::limits::Limits;
use ns_base::no_memory::NoMemory;
use ns_world::ending::Counters;

impl Object for Run {
    ghost use Rattle.ns_json.specs.Report.{run_members};

    ghost members = { run_members };

    fn put_object(&self, out: &mut Vec<u8>) -> Result<(), NoMemory> {
        open_status(out, end_status(&self.end))?;
        put_end(out, &self.end)?;
        put_texted(out, "output", self.output.bytes())?;
        put_used(out, &self.used)?;
        put_asked(out, &self.trace, &self.limits)?;
        close_object(out)
    }
}

impl Object for Site {
    ghost use Rattle.ns_json.specs.Report.{site_members};

    ghost members = { site_members };

    fn put_object(&self, out: &mut Vec<u8>) -> Result<(), NoMemory> {
        open_object(out, "class", self.class.bytes())?;
        put_behind_class(out, self)?;
        close_object(out)
    }
}

/// Puts what stands behind the class of a send: its selector and its place.
fn put_behind_class(out: &mut Vec<u8>, site: &Site) -> Result<(), NoMemory>
    ensures { OnOk result (out.new.items ≡ out.old.items ++ behind (spec.behind_class site.now)) }
{
    put_texted(out, "selector", site.selector.bytes())?;
    put_place_of(out, &site.place)
}

/// How a run ended, in a word.
pub fn end_status(end: &End) -> &'static str
    ensures { result.now ≡ spec.end_status end.now }
{
    match end {
        End::Done { .. } => "done",
        End::Error { .. } => "error",
        End::Limit { .. } => "limit",
    }
}

/// Puts the rest of how a run ended.
pub fn put_end(out: &mut Vec<u8>, end: &End) -> Result<(), NoMemory>
    ensures { OnOk result (out.new.items ≡ out.old.items ++ behind (spec.end_members end.now)) }
{
    match end {
        End::Done { answer } => put_texted(out, "answer", answer.bytes()),
        End::Error { kind, site } => put_error(out, kind.bytes(), site),
        End::Limit { limit } => put_texted(out, "limit", limit.bytes()),
    }
}

/// Puts the kind of an error, and its send.
fn put_error(out: &mut Vec<u8>, kind: &[u8], site: &Site) -> Result<(), NoMemory>
    ensures { OnOk result (out.new.items ≡ out.old.items ++ behind (spec.error_members kind.now site.now)) }
{
    put_texted(out, "kind", kind)?;
    put_place_of(out, &site.place)?;
    put_send(out, site)
}

/// Puts the class and the selector of a send.
fn put_send(out: &mut Vec<u8>, site: &Site) -> Result<(), NoMemory>
    ensures { OnOk result (out.new.items ≡ out.old.items ++ behind (spec.send_members site.now)) }
{
    put_texted(out, "class", site.class.bytes())?;
    put_texted(out, "selector", site.selector.bytes())
}

/// Puts a place, where there is one.
fn put_place_of(out: &mut Vec<u8>, place: &Option<FilePlace>) -> Result<(), NoMemory>
    ensures { OnOk result (out.new.items ≡ out.old.items ++ behind (spec.place_members_of place.now)) }
{
    match place {
        Some(place) => put_place(out, place),
        None => Ok(()),
    }
}

/// Puts a place.
pub fn put_place(out: &mut Vec<u8>, place: &FilePlace) -> Result<(), NoMemory>
    ensures { OnOk result (out.new.items ≡ out.old.items ++ behind (spec.place_members place.now)) }
{
    put_texted(out, "file", place.file.bytes())?;
    put_numbered(out, "line", u64::from(place.line))?;
    put_numbered(out, "col", u64::from(place.col))
}

/// Puts how much was used of each limit.
fn put_used(out: &mut Vec<u8>, used: &Counters) -> Result<(), NoMemory>
    ensures { OnOk result (out.new.items ≡ out.old.items ++ behind (spec.used_members used.now)) }
{
    put_numbered(out, "steps", used.steps)?;
    put_numbered(out, "cells", used.cells)?;
    put_numbered(out, "depth", used.depth)?;
    put_numbered(out, "out", used.out)
}

/// Puts the trace and the limits, where they are asked for.
#[tactic(auto, using(crate::proofs::Parts::behind_append))]
fn put_asked(
    out: &mut Vec<u8>,
    trace: &Option<Trace>,
    limits: &Option<Limits>,
) -> Result<(), NoMemory>
    ensures { OnOk result (out.new.items ≡ out.old.items ++ behind (spec.asked_members trace.now limits.now)) }
{
    put_trace_of(out, trace)?;
    put_limits_of(out, limits)
}

/// Puts the trace, where it is asked for.
fn put_trace_of(out: &mut Vec<u8>, trace: &Option<Trace>) -> Result<(), NoMemory>
    ensures { OnOk result (out.new.items ≡ out.old.items ++ behind (spec.trace_members trace.now)) }
{
    match trace {
        Some(trace) => put_trace(out, trace),
        None => Ok(()),
    }
}

fn put_trace(out: &mut Vec<u8>, trace: &Trace) -> Result<(), NoMemory>
    ensures { OnOk result (out.new.items ≡ out.old.items ++ behind (spec.trace_members (Some trace.now))) }
{
    put_listed(out, "trace", trace.sites.as_slice())?;
    put_left_out(out, trace.left_out)
}

/// Puts how many sends are left out, where some are.
#[tactic(auto, using(crate::proofs::Parts::more_where_some))]
fn put_left_out(out: &mut Vec<u8>, left_out: u64) -> Result<(), NoMemory>
    ensures { OnOk result (out.new.items ≡ out.old.items ++ behind (spec.more_members_of left_out)) }
{
    if left_out == 0 {
        return Ok(());
    }
    put_numbered(out, "more", left_out)
}

/// Puts the limits, where they are asked for.
fn put_limits_of(out: &mut Vec<u8>, limits: &Option<Limits>) -> Result<(), NoMemory>
    ensures { OnOk result (out.new.items ≡ out.old.items ++ behind (spec.limits_members limits.now)) }
{
    match limits {
        Some(limits) => put_limits(out, limits),
        None => Ok(()),
    }
}

#[tactic(auto, unfolding(crate::specs::Json::behind_comma, crate::specs::Json::object_text))]
fn put_limits(out: &mut Vec<u8>, limits: &Limits) -> Result<(), NoMemory>
    ensures { OnOk result (out.new.items ≡ out.old.items ++ behind (spec.limits_members (Some limits.now))) }
{
    put(out, b",".as_slice())?;
    put_name(out, "limits")?;
    put_four_limits(out, limits)
}

/// Puts the four limits, as an object.
fn put_four_limits(out: &mut Vec<u8>, limits: &Limits) -> Result<(), NoMemory>
    ensures { OnOk result (out.new.items ≡ out.old.items ++ object_text (spec.four_limits limits.now)) }
{
    open_numbered(out, "steps", limits.steps)?;
    put_numbered(out, "cells", limits.cells)?;
    put_numbered(out, "depth", limits.depth)?;
    put_numbered(out, "out", limits.out)?;
    close_object(out)
}
