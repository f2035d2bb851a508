//! Values that come to what stands on top after frames were taken off: to the operands of a body, to a method of the kernel
//! whose block has answered, or to what comes after the last frame.

ghost use Rattle.std.specs.Prelude.{◌≡◌, []};
ghost use Rattle.ns_world.specs.Lawful.{IsLiveValue};
ghost use Rattle.ns_machine_core.specs.declared.state.Phase.TheVariants as phase;
ghost use Rattle.ns_machine_core.specs.Doing.{IsSettled};
ghost use Rattle.ns_machine_core.specs.Own.{AreOwn};
ghost use Rattle.ns_machine_returns.specs.Handing.{CanTake, GivesLive, IsHanded};

use ns_code::program::CodeProgram;
use ns_machine_core::own::OwnSends;
use ns_machine_core::settling::ending_at;
use ns_machine_core::state::{Core, Next, Phase};
use ns_machine_frames::frame::{KeptSite, Pending};
use ns_machine_frames::laws::values_are_delivered;
use ns_machine_frames::registers::Registers;
use ns_moves::control::Answer;
use ns_moves::targets::class_of;
use ns_world::ending::Ending;
use ns_world::value::Value;

/// The Platform, which the second opening send gets.
const PLATFORM: Value = Value::Ref(1);

/// Brings what an action has given to what stands on top, or ends the run by its fault at a site.
#[inline(always)]
#[tactic(auto, using(crate::proofs::Handed::given, crate::proofs::Handed::ended))]
pub fn bring(
    code: &CodeProgram,
    core: &mut Core,
    at: Registers,
    own: OwnSends,
    site: KeptSite,
    answer: Answer,
) -> Next
    requires can { CanTake code.now core.old at }
    requires own { AreOwn code.now core.old.places own }
    requires live { GivesLive core.old.run.world.world.cells code.now answer }
    ensures { IsSettled code.now core.old at site answer core.new result }
{
    match answer {
        Ok(value) => hand(code, core, at, own, value),
        Err(fault) => {
            core.ending = ending_at(&core.places, site, fault);
            Next::Ended
        }
    }
}

/// Brings a value to what stands on top.
#[inline(always)]
#[tactic(auto, using(crate::proofs::Handed::none_left, crate::proofs::Handed::some_left, crate::proofs::Handed::has_place))]
pub fn hand(code: &CodeProgram, core: &mut Core, at: Registers, own: OwnSends, value: Value) -> Next
    requires can { CanTake code.now core.old at }
    requires own { AreOwn code.now core.old.places own }
    requires live { IsLiveValue core.old.run.world.world.cells code.now value }
    ensures { IsHanded code.now core.old at value core.new result }
{
    values_are_delivered();
    if core.stack.count() == 0 {
        return conclude(code, core, at, own, value);
    }
    Next::On(core.stack.deliver(at, value))
}

/// Goes on after the last frame: the value of the first opening send is sent the second, and any other ends the run.
#[tactic(auto, using(crate::proofs::Concluded::start_ends, crate::proofs::Concluded::second_ends, crate::proofs::Concluded::hosted_ends))]
fn conclude(code: &CodeProgram, core: &mut Core, at: Registers, own: OwnSends, value: Value) -> Next
    requires can { CanTake code.now core.old at }
    requires own { AreOwn code.now core.old.places own }
    requires live { IsLiveValue core.old.run.world.world.cells code.now value }
    requires none { core.old.stack.frames.items ≡ [] }
    ensures { IsHanded code.now core.old at value core.new result }
{
    match core.phase {
        Phase::First { arguments } => open_second(code, core, at, own, value, arguments),
        Phase::Start | Phase::Second | Phase::Hosted => {
            core.ending = Ending::Done(value);
            Next::Ended
        }
    }
}

/// Lets the second opening send wait, with the Platform and the array of arguments.
fn open_second(
    code: &CodeProgram,
    core: &mut Core,
    at: Registers,
    own: OwnSends,
    receiver: Value,
    arguments: u32,
) -> Next
    requires can { CanTake code.now core.old at }
    requires own { AreOwn code.now core.old.places own }
    requires live { IsLiveValue core.old.run.world.world.cells code.now receiver }
    requires none { core.old.stack.frames.items ≡ [] }
    requires phase { core.old.phase ≡ phase.First arguments }
    ensures { IsHanded code.now core.old at receiver core.new result }
{
    let site = KeptSite {
        place: own.opening,
        class: class_of(&core.run.world, code, receiver),
        sel: own.main_args,
    };
    core.phase = Phase::Second;
    let bare = core.stack.clear(at);
    core.arguments.set(&[PLATFORM, Value::Ref(arguments)]);
    core.waiting = Pending::Sending {
        receiver,
        sel: own.main_args,
        site,
        floor: 0,
    };
    Next::Waits(bare)
}
