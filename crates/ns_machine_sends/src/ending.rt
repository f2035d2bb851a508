//! What ends a run at a site.

ghost use Rattle.ns_moves.specs.declared.control.Reached.TheVariants as reached;
ghost use Rattle.ns_machine_core.specs.Arriving.{Arrives};
ghost use Rattle.ns_machine_sends.specs.Going.{control_at};

use crate::sent::Sent;
use ns_base::selector::Sel;
use ns_code::program::CodeProgram;
use ns_machine_core::settling::ending_at;
use ns_machine_core::state::{Core, Next};
use ns_machine_frames::frame::KeptSite;
use ns_machine_frames::registers::Registers;
use ns_world::ending::{Fault, Kind};

/// Ends the run by a fault.
#[inline(never)]
#[tactic(auto, using(crate::proofs::Ended::fault_ends))]
pub fn fail(code: &CodeProgram, core: &mut Core, at: Registers, sent: Sent, fault: Fault) -> Next
    ensures { Arrives code.now core.old at sent.floor (control_at code.now core.old at sent (reached.Fails fault)) core.new result }
{
    let _code = code;
    let _at = at;
    core.ending = ending_at(&mut core.places, sent.site, fault);
    Next::Ended
}

/// Ends the run by the refusal of a Message of that selector.
#[inline(never)]
#[tactic(auto, using(crate::proofs::Ended::refusal_ends))]
pub fn refuse(code: &CodeProgram, core: &mut Core, at: Registers, sent: Sent, sel: Sel) -> Next
    ensures { Arrives code.now core.old at sent.floor (control_at code.now core.old at sent (reached.Refused sel)) core.new result }
{
    let _code = code;
    let _at = at;
    let site = KeptSite { sel, ..sent.site };
    core.ending = ending_at(&mut core.places, site, Fault::Kind(Kind::NotUnderstood));
    Next::Ended
}
