//! A run that has ended, in parts.

ghost use Rattle.std.specs.Prelude.{◌≡◌, IfOk};
ghost use Rattle.ns_base.specs.Limits.{InRange};
ghost use Rattle.ns_machine_report.specs.Ending.{IsLiveEnding};
ghost use Rattle.ns_moves.specs.State.{world_of};
ghost use Rattle.ns_run_code.specs.Machine.{machine_run};
ghost use Rattle.ns_run_code.specs.Running.{HasAnEnd};
ghost use Rattle.ns_run_told.specs.Told as spec;

use crate::end::told_end;
use ns_base::limits::Limits;
use ns_base::no_memory::NoMemory;
use ns_base::text::Text;
use ns_json::saying::Run;
use ns_machine::machine::Machine;
use ns_run_code::code::{finished, rested_machine};
use ns_run_code::run::Ran;
use ns_verify::verify::Verified;
use ns_world::ending::Ending;
use std::alloc::Global;

/// A run as it is told in lines, and in parts.
#[derive(Drop)]
pub struct ToldRun {
    pub ran: Ran,
    pub parts: Run,
}

/// The run of code with the console, the kernel and mirrors, within these limits and with these arguments.
pub fn run_code(
    alloc: Global,
    code: Verified,
    limits: Limits,
    arguments: &[Text],
) -> Result<ToldRun, NoMemory>
    requires { InRange limits }
    ensures ran { IfOk result (λ told. told.ran ≡ machine_run code limits arguments.now) }
    ensures parts { IfOk result (λ told. told.parts ≡ spec.code_told code limits arguments.now) }
{
    let machine = rested_machine(alloc, code, limits, arguments)?;
    let ran = finished(alloc, &machine)?;
    let parts = told_run(alloc, &machine)?;
    Ok(ToldRun { ran, parts })
}

/// What is told of a machine whose run has ended, without its trace and its limits.
pub fn told_run(alloc: Global, machine: &Machine) -> Result<Run, NoMemory>
    requires { HasAnEnd machine.now.state }
    ensures { IfOk result (λ run. run ≡ spec.run_told machine.now.code machine.now.state) }
{
    match machine.ending() {
        Some(ending) => told_with(alloc, machine, ending),
        None => unreachable!(),
    }
}

/// What is told of a machine whose run ended so.
fn told_with(alloc: Global, machine: &Machine, ending: Ending) -> Result<Run, NoMemory>
    requires { IsLiveEnding (world_of machine.now.state).cells machine.now.code ending }
    ensures { IfOk result (λ run. run ≡ spec.told_with machine.now.code machine.now.state ending) }
{
    let output = Text::of(alloc, machine.output())?;
    let end = told_end(alloc, machine, ending)?;
    Ok(Run {
        end,
        output,
        used: machine.counters(),
        trace: None,
        limits: None,
    })
}
