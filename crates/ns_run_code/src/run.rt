//! The code of a program without static faults, and what a run of it tells.

ghost use Rattle.std.specs.Prelude.{◌≡◌, None, Some, IfOk, IsErrOf, OnOk};
ghost use Rattle.ns_gen_code.specs.Code.{code_of};
ghost use Rattle.ns_gen_code.specs.Sizes.{size_fault};
ghost use Rattle.ns_gen_code.specs.declared.size.SizeKind.{SizeKind};
ghost use Rattle.ns_run_code.specs.Laws.{RunsAsSourceMeans};
ghost use Rattle.ns_run_code.specs.declared.run.RunFault.TheVariants.{TooLarge};
ghost use Rattle.ns_resolved.specs.Classes.{meant};

use crate::laws::code_runs_as_meant;
use ns_base::no_memory::NoMemory;
use ns_base::status::Status;
use ns_base::text::Text;
use ns_gen_code::size::SizeKind;
use ns_link::compile::compile;
use ns_link::fault::LinkFault;
use ns_link::laws::whole_programs_begin;
use ns_static::check::Checked;
use ns_verify::verify::Verified;
use ns_world::ending::Counters;
use std::alloc::Global;

/// What a run printed, its report line, its status, and what it used.
#[derive(Drop)]
pub struct Ran {
    pub output: Text,
    pub line: Text,
    pub status: Status,
    pub counters: Counters,
}

/// Why a program was not run: a size passes its limit, or no memory was found.
#[derive(Clone, Copy)]
pub enum RunFault {
    TooLarge(SizeKind),
    Memory,
}

impl From<NoMemory> for RunFault {
    ghost use Rattle.ns_run_code.specs.declared.run.RunFault.TheVariants.{Memory};

    ghost from_gives = { λ _ e. e ≡ Memory };

    fn from(_error: NoMemory) -> RunFault {
        RunFault::Memory
    }
}

/// The code of a program, admitted, whose runs are those that the source means; or the first size of it that passes its limit.
/// The program's tree is given back with its code made.
pub fn source_code(alloc: Global, checked: Checked) -> Result<Verified, RunFault>
    ensures code { IfOk result (λ code. code ≡ code_of (meant checked)) }
    ensures runs { IfOk result (RunsAsSourceMeans (meant checked)) }
    ensures fits { OnOk result (size_fault (code_of (meant checked)) ≡ None) }
    ensures large { (kind : SizeKind) → IsErrOf result (TooLarge kind) → size_fault (code_of (meant checked)) ≡ Some kind }
{
    whole_programs_begin();
    code_runs_as_meant();
    let _program = checked.program();
    match compile(alloc, &checked) {
        Ok(code) => Ok(code),
        Err(LinkFault::TooLarge(kind)) => Err(RunFault::TooLarge(kind)),
        Err(LinkFault::Memory) => Err(RunFault::Memory),
    }
}
