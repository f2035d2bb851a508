//! What a machine sends by itself, found once.

ghost use Rattle.std.specs.Prelude.{◌≡◌, ◌<◌, length, slice_get};
ghost use Rattle.ns_moves.specs.Steps.{steps_of, opening_place};
ghost use Rattle.ns_moves.specs.Steps as moves;
ghost use Rattle.ns_machine_plan.specs.Plan.{IsPlanOf};
ghost use Rattle.ns_machine_core.specs.Own.{AreOwn};
ghost use Rattle.ns_machine.specs.Opening as spec;
ghost use Rattle.ns_machine.specs.Places.{BeginsWithPlaces};

use ns_code::own::Own;
use ns_code::program::CodeProgram;
use ns_machine_core::own::OwnSends;
use ns_machine_core::places::Places;
use ns_machine_plan::plan::Plan;
use ns_machine_plan::step::{NO_PLACE, Step};
use ns_moves::running::initialiser;

/// The numbers of what a machine of this code, with these places, sends by itself.
pub fn own_sends(code: &CodeProgram, plan: &Plan, places: &Places) -> OwnSends
    requires plan { IsPlanOf code.now plan.now }
    requires places { BeginsWithPlaces code.now places.now }
    ensures { AreOwn code.now places.now result }
{
    OwnSends {
        package_using: plan.own(Own::PackageUsing),
        main_args: plan.own(Own::MainArgs),
        does_not_understand: plan.own(Own::DoesNotUnderstand),
        opening: opening(code, plan, places),
    }
}

/// The number of the place of the opening sends.
fn opening(code: &CodeProgram, plan: &Plan, places: &Places) -> u32
    requires plan { IsPlanOf code.now plan.now }
    requires places { BeginsWithPlaces code.now places.now }
    ensures { slice_get places.now result ≡ opening_place code.now }
{
    let body = initialiser(code, 0);
    let bodies = code.bodies.as_slice();
    if bodies.len() <= body as usize {
        return NO_PLACE;
    }
    super_place(
        code,
        plan,
        places,
        body,
        bodies[body as usize].instrs.len() as u32,
    )
}

/// The number of the place of the superclass message of a body with so many instructions.
fn super_place(code: &CodeProgram, plan: &Plan, places: &Places, body: u32, count: u32) -> u32
    requires plan { IsPlanOf code.now plan.now }
    requires places { BeginsWithPlaces code.now places.now }
    requires there { body < length code.now.bodies }
    requires count { count ≡ length (steps_of code.now body) }
    ensures { slice_get places.now result ≡ moves.super_place (steps_of code.now body) }
{
    let _places = places;
    'steps: for next in 0..count {
        match super_number(plan.step(code, body, next)) {
            Some(place) => return place,
            None => {}
        }
    }
    NO_PLACE
}

/// The number of the place of a step, where it is the superclass message.
fn super_number(step: Step) -> Option<u32>
    ensures { result ≡ spec.super_number step }
{
    match step {
        Step::InitSuper { place, .. } => Some(place),
        _ => None,
    }
}
