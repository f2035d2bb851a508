//! What waits, as plain data.

ghost use Rattle.std.specs.Prelude.{◌≡◌, ◌≤◌, drop, IfOk};
ghost use Rattle.ns_moves.specs.State as state;
ghost use Rattle.ns_machine_frames.specs.Stack.{in_use, IsLaid};
ghost use Rattle.ns_machine_frames.specs.View.{site_shown};
ghost use Rattle.ns_frozen.specs.Freezing.{pending_frozen};

use crate::frame::site_of;
use ns_base::no_memory::NoMemory;
use ns_base::selector::Sel;
use ns_frozen::pending::Pending;
use ns_frozen::plain::plain_values;
use ns_machine_core::state::Core;
use ns_machine_frames::frame::KeptSite;
use ns_machine_frames::registers::Registers;
use ns_world::value::Value;
use std::alloc::Global;

/// A send with the arguments that are kept.
pub fn sending(
    alloc: Global,
    core: &Core,
    receiver: Value,
    sel: Sel,
    site: KeptSite,
) -> Result<Pending, NoMemory>
    ensures { IfOk result (λ pending. pending ≡
        pending_frozen (state.Sending receiver sel core.now.arguments.items (site_shown core.now.places site))) }
{
    Ok(Pending::Send {
        receiver,
        sel,
        args: plain_values(alloc, core.arguments.as_slice())?,
        site: site_of(&core.places, site),
    })
}

/// A send with the elements of an array.
pub fn performing(core: &Core, receiver: Value, sel: Sel, array: u32, site: KeptSite) -> Pending
    ensures { result ≡ pending_frozen (state.Performing receiver sel array (site_shown core.now.places site)) }
{
    Pending::Perform {
        receiver,
        sel,
        args: array,
        site: site_of(&core.places, site),
    }
}

/// The evaluation of a block with operands, from a place on.
pub fn evaluating(
    alloc: Global,
    core: &Core,
    at: Registers,
    block: Value,
    site: KeptSite,
    first: u32,
) -> Result<Pending, NoMemory>
    requires laid { IsLaid core.now.stack at }
    requires order { first ≤ at.top }
    ensures { IfOk result (λ pending. pending ≡
        pending_frozen (state.Evaluating block (drop first (in_use core.now.stack at)) (site_shown core.now.places site))) }
{
    Ok(Pending::Evaluate {
        block,
        args: plain_values(alloc, core.stack.from(at, first))?,
        site: site_of(&core.places, site),
    })
}

/// The evaluation of a block with the arguments that are kept.
pub fn evaluating_kept(
    alloc: Global,
    core: &Core,
    block: Value,
    site: KeptSite,
) -> Result<Pending, NoMemory>
    ensures { IfOk result (λ pending. pending ≡
        pending_frozen (state.Evaluating block core.now.arguments.items (site_shown core.now.places site))) }
{
    Ok(Pending::Evaluate {
        block,
        args: plain_values(alloc, core.arguments.as_slice())?,
        site: site_of(&core.places, site),
    })
}
