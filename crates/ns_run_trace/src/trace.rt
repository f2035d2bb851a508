//! The trace of a run that has ended.

ghost use Rattle.std.specs.Prelude.{◌≡◌, IfOk};
ghost use Rattle.ns_base.specs.Limits.{InRange};
ghost use Rattle.ns_moves.specs.State.{world_of};
ghost use Rattle.ns_run_code.specs.Machine.{begins_with, rested};
ghost use Rattle.ns_run_told.specs.Told.{code_told};
ghost use Rattle.ns_run_trace.specs.Trace as spec;

use crate::before::machine_before;
use crate::lines::put_site;
use crate::once::traced;
use ns_base::items::Items;
use ns_base::limits::Limits;
use ns_base::no_memory::NoMemory;
use ns_base::text::Text;
use ns_json::saying::{End, Run, Trace};
use ns_verify::verify::Verified;
use std::alloc::Global;

/// The trace of the run of code within these limits with these arguments, of which this was told. The run is made again; call it
/// where the machine of that run is gone.
pub fn trace(
    alloc: Global,
    code: &Verified,
    limits: Limits,
    arguments: &[Text],
    run: &Run,
) -> Result<Trace, NoMemory>
    requires range { InRange limits }
    requires told { run.now ≡ code_told code.now limits arguments.now }
    ensures { IfOk result (λ trace. trace ≡ spec.code_trace code.now limits arguments.now) }
{
    trace_of(alloc, code, limits, arguments, &run.end, run.used.steps)
}

/// The trace of a run that ended so, with so many steps.
pub fn trace_of(
    alloc: Global,
    code: &Verified,
    limits: Limits,
    arguments: &[Text],
    end: &End,
    steps: u64,
) -> Result<Trace, NoMemory>
    requires range { InRange limits }
    requires steps { steps ≡ (world_of (rested code.now (begins_with code.now limits arguments.now))).steps }
    ensures { IfOk result (λ trace. trace ≡ spec.run_trace code.now end.now (begins_with code.now limits arguments.now)) }
{
    let mut line = Vec::new(alloc);
    match end {
        End::Done { .. } => Ok(Trace {
            sites: Items::from_vec(Vec::new(alloc)),
            left_out: 0,
        }),
        End::Error { site, .. } => {
            put_site(&mut line, site)?;
            trace_behind(alloc, code, limits, arguments, line, steps)
        }
        End::Limit { .. } => trace_behind(alloc, code, limits, arguments, line, steps),
    }
}

/// The trace of a run that uses so many steps, behind that line.
fn trace_behind(
    alloc: Global,
    code: &Verified,
    limits: Limits,
    arguments: &[Text],
    line: Vec<u8>,
    steps: u64,
) -> Result<Trace, NoMemory>
    requires range { InRange limits }
    requires steps { steps ≡ (world_of (rested code.now (begins_with code.now limits arguments.now))).steps }
    ensures { IfOk result (λ trace. trace ≡ spec.trimmed (spec.told_once line.items
        (spec.sends_before code.now (begins_with code.now limits arguments.now)))) }
{
    let machine = machine_before(alloc, code, limits, arguments, steps)?;
    let sites = machine.sites(alloc)?;
    drop(machine);
    let trace = traced(alloc, code.code(), line, sites.as_slice())?;
    Ok(trace)
}
