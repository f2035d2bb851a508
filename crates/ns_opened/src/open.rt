//! Opening a program.

ghost use Rattle.std.specs.Prelude.{◌≡◌, IfOk};
ghost use Rattle.ns_base.specs.Limits.{InRange};
ghost use Rattle.ns_opened.specs.Opened as spec;
ghost use Rattle.ns_run_code.specs.Exec.{admitted};

use crate::program::go_on;
use ns_base::limits::Limits;
use ns_base::no_memory::NoMemory;
use ns_base::text::Text;
use ns_facets::row::Grants;
use ns_machine::machine::Machine;
use ns_reply::reply::{Refusal, Reply, refused, reply_of};
use ns_run_code::exec::{ExecFault, image_code};
use ns_verify::verify::Verified;
use std::alloc::Global;

/// The most bytes of an image.
const IMAGE_BYTES: usize = 134_217_728;

/// What a program is opened with: the name that its host gives it, its limits, what it is granted, and the steps of a first turn.
#[derive(Clone, Copy)]
pub struct Terms {
    pub name: u64,
    pub limits: Limits,
    pub grants: Grants,
    pub steps: u64,
}

/// Opens the program of an image on these terms, with arguments: it is started and has a turn.
pub fn open(
    alloc: Global,
    terms: Terms,
    arguments: &[Text],
    image: &[u8],
) -> Result<Reply, NoMemory>
    ensures { IfOk result (λ reply. spec.Opens terms arguments.now image.now reply) }
{
    if !terms.limits.are_in_range() {
        return refused(alloc, Refusal::BadLimits);
    }
    open_image(alloc, terms, arguments, image)
}

/// The same with limits that are in their ranges.
fn open_image(
    alloc: Global,
    terms: Terms,
    arguments: &[Text],
    image: &[u8],
) -> Result<Reply, NoMemory>
    requires { InRange terms.limits }
    ensures { IfOk result (λ reply. reply ≡ spec.open_image terms arguments.now image.now) }
{
    if IMAGE_BYTES < image.len() {
        return refused(alloc, Refusal::NotAnImage);
    }
    match image_code(alloc, image) {
        Ok(code) => open_code(alloc, terms, arguments, code),
        Err(ExecFault::Image(_)) => refused(alloc, Refusal::NotAnImage),
        Err(ExecFault::Unsound { .. }) => refused(alloc, Refusal::NotAnImage),
        Err(ExecFault::Memory) => Err(NoMemory),
    }
}

/// The same of code.
fn open_code(
    alloc: Global,
    terms: Terms,
    arguments: &[Text],
    code: Verified,
) -> Result<Reply, NoMemory>
    requires { InRange terms.limits }
    ensures { IfOk result (λ reply. reply ≡ spec.open_code terms arguments.now (admitted code)) }
{
    let mut machine = Machine::new(alloc, code, terms.limits, terms.grants, arguments)?;
    go_on(&mut machine, terms.steps);
    reply_of(alloc, terms.name, 0, &machine)
}
