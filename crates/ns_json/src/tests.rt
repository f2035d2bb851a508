//! Tests, and how they went.

ghost use Rattle.std.specs.Prelude.{◌≡◌, ◌++◌, OnOk};
ghost use Rattle.ns_json.specs.Json.{behind};
ghost use Rattle.ns_json.specs.Report as spec;
ghost use Rattle.ns_json.specs.declared.saying.Outcome.TheVariants.{Erred};

use crate::object::Object;
use crate::put::{close_object, open_object, open_status, put_listed, put_numbered, put_texted};
use crate::run::{end_status, put_end};
use crate::saying::{End, Outcome, Test, Tests};
use ns_base::no_memory::NoMemory;

impl Object for Tests {
    ghost use Rattle.ns_json.specs.Report.{tests_members};

    ghost members = { tests_members };

    fn put_object(&self, out: &mut Vec<u8>) -> Result<(), NoMemory> {
        open_status(out, "tested")?;
        put_listed(out, "tests", self.tests.as_slice())?;
        put_counts(out, self)?;
        close_object(out)
    }
}

/// Puts how many tests passed, failed and are in error.
fn put_counts(out: &mut Vec<u8>, tests: &Tests) -> Result<(), NoMemory>
    ensures { OnOk result (out.new.items ≡ out.old.items ++ behind (spec.count_members tests.now)) }
{
    put_numbered(out, "passed", tests.passed)?;
    put_numbered(out, "failed", tests.failed)?;
    put_numbered(out, "errors", tests.errors)
}

impl Object for Test {
    ghost use Rattle.ns_json.specs.Report.{test_members};

    ghost members = { test_members };

    fn put_object(&self, out: &mut Vec<u8>) -> Result<(), NoMemory> {
        open_object(out, "test", self.name.bytes())?;
        put_outcome(out, &self.outcome)?;
        close_object(out)
    }
}

/// Puts how a test went.
fn put_outcome(out: &mut Vec<u8>, outcome: &Outcome) -> Result<(), NoMemory>
    ensures { OnOk result (out.new.items ≡ out.old.items ++ behind (spec.outcome_members outcome.now)) }
{
    match outcome {
        Outcome::Passed => put_texted(out, "status", b"passed".as_slice()),
        Outcome::Failed => put_texted(out, "status", b"failed".as_slice()),
        Outcome::Erred { end } => put_erred(out, end),
    }
}

/// Puts the end of a run, as what came of its test.
fn put_erred(out: &mut Vec<u8>, end: &End) -> Result<(), NoMemory>
    ensures { OnOk result (out.new.items ≡ out.old.items ++ behind (spec.outcome_members (Erred end.now))) }
{
    put_texted(out, "status", end_status(end).as_bytes())?;
    put_end(out, end)
}
