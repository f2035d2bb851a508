//! The command `nspk`: the answer to the system's command line, over the real files and the standard streams.
//! `crates/ns_run/specs/Meaning.antt` says what it answers.
//! Stands on run and ns_system; nothing stands on it.
#![tactic(auto)]

mod answer;
mod process;

use ns_system::files::Disk;
use ns_system::host::{Awaited, System};
use ns_system::stream::Stream;
use process::ended;
use std::process::ExitCode;

fn main(rt: HostRuntime) -> ExitCode {
    let alloc = rt.alloc();
    let system = System::new(rt);
    let mut disk = Disk::new(alloc, system);
    let mut out = Stream::new(Awaited::new(rt, rt.stdout()));
    let mut err = Stream::new(Awaited::new(rt, rt.stderr()));
    ended(alloc, &system, &mut disk, &mut out, &mut err)
}
