//! Values that come to the body that runs, which goes on.

ghost use Rattle.std.specs.Prelude.{◌<◌, Ok, length};
ghost use Rattle.ns_machine_frames.specs.declared.frame.KeptSite.{KeptSite};
ghost use Rattle.ns_machine_core.specs.declared.state.Next.TheVariants as next;
ghost use Rattle.ns_machine_core.specs.Doing.{IsRunning, IsSettled};
ghost use Rattle.ns_machine_core.specs.Standing.{AreStanding};

use crate::settling::push;
use crate::state::Core;
use ns_code::program::CodeProgram;
use ns_machine_frames::registers::Registers;
use ns_world::value::Value;

/// Brings a value to the body that runs, as what an action has given at any site.
#[inline(always)]
#[tactic(auto, using(crate::proofs::Settled::given))]
pub fn give(code: &CodeProgram, core: &mut Core, at: Registers, value: Value) -> Registers
    requires stands { AreStanding code.now core.old.stack at }
    requires running { IsRunning core.old.stack.frames.items }
    requires place { at.top < length core.old.stack.values.items }
    ensures { (site : KeptSite) → IsSettled code.now core.old at site (Ok value) core.new (next.On result) }
{
    push(code, core, at, value)
}
