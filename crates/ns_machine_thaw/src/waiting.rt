//! What is pending, which waits again.

ghost use Rattle.std.specs.Prelude.{◌≡◌, ◌≤◌, length};
ghost use Rattle.ns_code.specs.declared.program.CodeProgram.{CodeProgram as Code};
ghost use Rattle.ns_machine_thaw.specs.Frames.{SiteIsPlaced, StandLow};
ghost use Rattle.ns_machine_thaw.specs.Waiting as spec;
ghost use Rattle.ns_machine_thaw.specs.Waiting.{arguments_of, PendingWaits, WaitsAlone};

use crate::places::kept_site;
use crate::values::set_arguments;
use ns_frozen::pending::Pending;
use ns_machine_core::state::{Core, Next};
use ns_machine_frames::frame::Pending as KeptPending;
use ns_machine_frames::registers::Registers;
use ns_moves::site::Site;

/// Lets it wait above the frames that stand. The place of its site has a number, and its arguments are kept apart.
#[tactic(auto, using(crate::proofs::Waited::send_waits, crate::proofs::Waited::perform_waits, crate::proofs::Waited::block_waits))]
pub fn wait(core: &mut Core, at: Registers, number: u32, pending: &Pending) -> Next
    requires placed { SiteIsPlaced core.old.places number (spec.site_of pending.now) }
    requires few { length (arguments_of pending.now) ≤ core.old.arguments.room }
    ensures waits { (code : Code) → StandLow code core.old.stack at → PendingWaits code core.old at pending.now core.new result }
    ensures alone { WaitsAlone core.old core.new }
{
    let floor = at.top;
    let site = kept_site(site_of(pending), number);
    match pending {
        Pending::Send {
            receiver,
            sel,
            args,
            ..
        } => {
            set_arguments(&mut core.arguments, args.as_slice());
            core.waiting = KeptPending::Sending {
                receiver: *receiver,
                sel: *sel,
                site,
                floor,
            };
            Next::Waits(at)
        }
        Pending::Perform {
            receiver,
            sel,
            args,
            ..
        } => {
            core.waiting = KeptPending::Performing {
                receiver: *receiver,
                sel: *sel,
                array: *args,
                site,
                floor,
            };
            Next::Waits(at)
        }
        Pending::Evaluate { block, args, .. } => {
            set_arguments(&mut core.arguments, args.as_slice());
            core.waiting = KeptPending::EvaluatingKept {
                block: *block,
                site,
                floor,
            };
            Next::Waits(at)
        }
    }
}

/// The site of what is pending.
pub fn site_of(pending: &Pending) -> Site
    ensures { result ≡ spec.site_of pending.now }
{
    match pending {
        Pending::Send { site, .. } => *site,
        Pending::Perform { site, .. } => *site,
        Pending::Evaluate { site, .. } => *site,
    }
}
