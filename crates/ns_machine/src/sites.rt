//! The sends that frames answer, read where the frames stand.

ghost use Rattle.std.specs.Prelude.{◌≡◌, map, IfOk};
ghost use Rattle.ns_machine_core.specs.Shown.{shown};
ghost use Rattle.ns_machine.specs.KeptSites as kept;
ghost use Rattle.ns_machine.specs.Sites.{sites_of};

use ns_base::no_memory::NoMemory;
use ns_code::program::CodeProgram;
use ns_machine_core::state::{Core, Next};
use ns_machine_frames::frame::{Frame, KeptSite};
use ns_machine_freeze::frame::site_of;
use ns_moves::site::Site;
use std::alloc::Global;

/// The sends that the frames of a run answer, the innermost first, by where the run goes next. One that has ended has none.
pub fn open_sites(
    alloc: Global,
    code: &CodeProgram,
    core: &Core,
    next: Next,
) -> Result<Vec<Site>, NoMemory>
    ensures { IfOk result (λ sites. sites.items ≡ sites_of (shown code.now core.now next)) }
{
    let _code = code;
    match next {
        Next::On(_) => kept_sites(alloc, core),
        Next::Waits(_) => kept_sites(alloc, core),
        Next::Ended => Ok(Vec::new(alloc)),
    }
}

/// The sends that all frames answer, that of the topmost first.
fn kept_sites(alloc: Global, core: &Core) -> Result<Vec<Site>, NoMemory>
    ensures { IfOk result (λ sites. sites.items ≡ map (kept.kept_site core.now.places) core.now.stack.frames.items) }
{
    let count = core.stack.count();
    let mut sites = Vec::with_capacity(alloc, count as usize)?;
    'frames: for number in 0..count {
        let site = site_in(core.stack.frame(number));
        sites.push(site_of(&core.places, site))?;
    }
    Ok(sites)
}

/// The send that a frame answers, as the machine keeps it.
fn site_in(frame: &Frame) -> KeptSite
    ensures { result ≡ kept.site_in frame.now }
{
    match *frame {
        Frame::Running(running) => running.activation.site,
        Frame::Looping(looping) => looping.site,
    }
}
