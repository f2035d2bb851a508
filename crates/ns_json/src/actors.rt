//! Actors that have come to rest.

ghost use Rattle.std.specs.Prelude.{◌≡◌, ◌++◌, OnOk};
ghost use Rattle.ns_json.specs.Json.{behind};
ghost use Rattle.ns_json.specs.Report as spec;

use crate::object::Object;
use crate::put::{close_object, open_status, put_numbered, put_texted};
use crate::run::{end_status, put_end};
use crate::saying::{Actor, Stage};
use ns_base::no_memory::NoMemory;

impl Object for Actor {
    ghost use Rattle.ns_json.specs.Report.{actor_members};

    ghost members = { actor_members };

    fn put_object(&self, out: &mut Vec<u8>) -> Result<(), NoMemory> {
        open_status(out, stage_status(&self.stage))?;
        put_stage(out, &self.stage)?;
        put_texted(out, "output", self.output.bytes())?;
        put_numbered(out, "taken", self.taken)?;
        close_object(out)
    }
}

/// Where an actor is, in a word.
fn stage_status(stage: &Stage) -> &'static str
    ensures { result.now ≡ spec.stage_status stage.now }
{
    match stage {
        Stage::Rests => "rests",
        Stage::Stopped { end } => end_status(end),
        Stage::BadOutbox => "outbox",
    }
}

/// Puts the end of its run, where an actor stopped in it.
fn put_stage(out: &mut Vec<u8>, stage: &Stage) -> Result<(), NoMemory>
    ensures { OnOk result (out.new.items ≡ out.old.items ++ behind (spec.stage_members stage.now)) }
{
    match stage {
        Stage::Rests => Ok(()),
        Stage::Stopped { end } => put_end(out, end),
        Stage::BadOutbox => Ok(()),
    }
}
