//! The run of admitted code: a machine from its start to its end, and what is told of it.

ghost use Rattle.std.specs.Prelude.{◌≡◌, IfOk};
ghost use Rattle.ns_base.specs.Limits.{InRange};
ghost use Rattle.ns_run_code.specs.Machine.{begins_with, rested, told_at, machine_run};
ghost use Rattle.ns_run_code.specs.Run.{granted};
ghost use Rattle.ns_run_code.specs.Running.{HasAnEnd, IsRunStatus, told_of};
ghost use Rattle.ns_model.specs.Whole as whole;
ghost use Rattle.ns_moves.specs.State.{world_of};
ghost use Rattle.ns_machine_report.specs.Ending.{IsLiveEnding};

use crate::laws::runs_end_at_rest;
use crate::run::Ran;
use ns_base::limits::Limits;
use ns_base::no_memory::NoMemory;
use ns_base::status::Status;
use ns_base::text::Text;
use ns_facets::row::Grants;
use ns_machine::machine::Machine;
use ns_verify::verify::Verified;
use ns_world::ending::Ending;
use std::alloc::Global;

/// What a command grants to a run: the console, the kernel and mirrors.
pub const GRANTED: Grants = Grants {
    console: true,
    kernel: true,
    mirrors: true,
    board: false,
};

/// The run of code with the console, the kernel and mirrors, within these limits and with these
/// arguments.
pub fn run_code(
    alloc: Global,
    code: Verified,
    limits: Limits,
    arguments: &[Text],
) -> Result<Ran, NoMemory>
    requires { InRange limits }
    ensures { IfOk result (λ ran. ran ≡ machine_run code limits arguments.now) }
{
    let machine = rested_machine(alloc, code, limits, arguments)?;
    let ran = finished(alloc, &machine)?;
    Ok(ran)
}

/// A machine of code with the console, the kernel and mirrors, within these limits and with these arguments, where its run
/// has ended.
pub fn rested_machine(
    alloc: Global,
    code: Verified,
    limits: Limits,
    arguments: &[Text],
) -> Result<Machine, NoMemory>
    requires { InRange limits }
    ensures machine { IfOk result (λ machine. machine ≡ record {
      code = code;
      grants = granted;
      state = rested code (begins_with code limits arguments.now);
    }) }
    ensures ended { IfOk result (λ machine. HasAnEnd machine.state) }
{
    runs_end_at_rest();
    let _admitted = code.code();
    let mut machine = Machine::new(alloc, code, limits, GRANTED, arguments)?;
    machine.run();
    Ok(machine)
}

/// What is told of a machine whose run has ended.
pub fn finished(alloc: Global, machine: &Machine) -> Result<Ran, NoMemory>
    requires { HasAnEnd machine.now.state }
    ensures { IfOk result (λ ran. ran ≡ told_at machine.now.code machine.now.state) }
{
    match machine.ending() {
        Some(ending) => told(alloc, machine, ending),
        None => unreachable!(),
    }
}

/// What a machine tells of its run, which ended so.
fn told(alloc: Global, machine: &Machine, ending: Ending) -> Result<Ran, NoMemory>
    requires { IsLiveEnding (world_of machine.now.state).cells machine.now.code ending }
    ensures { IfOk result (λ ran. ran ≡ told_of machine.now.code machine.now.state ending) }
{
    let line = machine.report(alloc, &ending, machine.code().files.as_slice())?;
    let output = Text::of(alloc, machine.output())?;
    Ok(Ran {
        output,
        line: Text::from_vec(line),
        status: status_of(ending),
        counters: machine.counters(),
    })
}

/// The status of an ending.
pub fn status_of(ending: Ending) -> Status
    ensures is { result ≡ whole.status_of ending }
    ensures run { IsRunStatus result }
{
    match ending {
        Ending::Done(_) => Status::Done,
        Ending::Error(_) => Status::ProgramError,
        Ending::Limit(_) => Status::Limit,
    }
}
