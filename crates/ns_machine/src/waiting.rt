//! Sends that no code makes: those that open a run, and those of a host.

ghost use Rattle.std.specs.Prelude.{◌≡◌, ◌≤◌, ◌∷◌, [], length, slice_get, IsTrue};
ghost use Rattle.ns_code.specs.declared.own.Own.TheVariants.{PackageUsing};
ghost use Rattle.ns_world.specs.Starts.{is_receiver, has_class, start_of, class_name_of};
ghost use Rattle.ns_world.specs.Lawful.{IsLawful, IsLiveValue};
ghost use Rattle.ns_moves.specs.Start as spec;
ghost use Rattle.ns_moves.specs.Start.{manifest};
ghost use Rattle.ns_moves.specs.Sends.{own_sel};
ghost use Rattle.ns_moves.specs.Steps.{opening_place};
ghost use Rattle.ns_machine_core.specs.Standing.{HasRooms};
ghost use Rattle.ns_machine_core.specs.Own.{AreOwn};
ghost use Rattle.ns_machine.specs.Waiting.{HostSendWaits};

use ns_base::selector::Sel;
use ns_code::program::CodeProgram;
use ns_machine_core::own::OwnSends;
use ns_machine_core::state::{Core, Next};
use ns_machine_frames::frame::{KeptSite, Pending};
use ns_world::value::Value;
use ns_world::world::World;

/// The Manifest, which is the first cell of each run.
const MANIFEST: Value = Value::Ref(0);

/// Lets the first opening send wait.
pub fn wait_for_first(code: &CodeProgram, core: &mut Core, own: OwnSends) -> Next
    requires rooms { HasRooms code.now core.old }
    requires lawful { IsLawful core.old.run.world.world code.now }
    requires live { IsLiveValue core.old.run.world.world.cells code.now (spec.first_class core.old.run.world.world.cells) }
    requires own { AreOwn code.now core.old.places own }
    ensures { HostSendWaits code.now core.old (spec.first_class core.old.run.world.world.cells) (own_sel code.now PackageUsing)
        (opening_place code.now) (manifest ∷ []) core.new result }
{
    let receiver = first_class(&mut core.run.world);
    wait_for_send(
        code,
        core,
        receiver,
        own.package_using,
        own.opening,
        &[MANIFEST],
    )
}

/// The class of the first file.
fn first_class(world: &World) -> Value
    ensures { result ≡ spec.first_class world.now.world.cells }
{
    match world.top(0) {
        Some(class) => Value::Ref(class),
        None => Value::Nil,
    }
}

/// Lets a send wait with arguments, which are kept, and with no frame below it.
pub fn wait_for_send(
    code: &CodeProgram,
    core: &mut Core,
    receiver: Value,
    sel: Sel,
    place: u32,
    arguments: &[Value],
) -> Next
    requires rooms { HasRooms code.now core.old }
    requires lawful { IsLawful core.old.run.world.world code.now }
    requires live { IsLiveValue core.old.run.world.world.cells code.now receiver }
    requires few { length arguments.now ≤ 255 }
    ensures { HostSendWaits code.now core.old receiver sel (slice_get core.old.places place) arguments.now core.new result }
{
    let _code = code;
    let site = site_of(&mut core.run.world, receiver, sel, place);
    core.arguments.set(arguments);
    core.waiting = Pending::Sending {
        receiver,
        sel,
        site,
        floor: 0,
    };
    Next::Waits(core.stack.reset())
}

/// The site of a send to a receiver.
fn site_of(world: &World, receiver: Value, sel: Sel, place: u32) -> KeptSite
    requires receiver { IsTrue (is_receiver world.now.world.cells receiver) }
    requires class { IsTrue (has_class world.now.world.cells (start_of world.now.world.cells receiver)) }
    ensures { result ≡ record { place = place; class = class_name_of world.now.world.cells receiver; sel = sel } }
{
    KeptSite {
        place,
        class: world.class_name(world.start(receiver)),
        sel,
    }
}
