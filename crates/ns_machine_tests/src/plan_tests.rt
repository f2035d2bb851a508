//! A small image that is prepared: its steps, rows and selectors, and how many places it has.

ghost use Rattle.ns_machine_plan.specs.Plan.{IsPlanOf};

use ns_base::selector::Sel;
use ns_code::own::Own;
use ns_code::program::CodeProgram;
use ns_image::read::read;
use ns_machine_plan::kept_step::{kept_at, step_in};
use ns_machine_plan::plan::Plan;
use ns_machine_plan::step::Step;
use ns_verify::verify::verify;
use std::alloc::Global;

/// The class `A` in `A.ns`, with a private mutable slot `x`, `main:args:`, and a private method `foo`. Its initialiser
/// stores 3 in the slot. Body 1 is `main:args:`, and sends `foo` and `x`; body 2 is `foo`, and sends `x: 5` and `foo`
/// to self.
const IMAGE: [u8; 372] = [
    78, 83, 80, 75, 0, 2, 0, 0, 0, 1, 0, 0, 0, 4, 65, 46, 110, 115, 0, 0, 0, 7, 0, 0, 0, 1, 65, 0,
    0, 0, 13, 112, 97, 99, 107, 97, 103, 101, 85, 115, 105, 110, 103, 58, 0, 0, 0, 3, 110, 101,
    119, 0, 0, 0, 10, 109, 97, 105, 110, 58, 97, 114, 103, 115, 58, 0, 0, 0, 1, 120, 0, 0, 0, 3,
    102, 111, 111, 0, 0, 0, 2, 120, 58, 0, 0, 0, 0, 0, 0, 0, 1, 0, 0, 0, 0, 0, 0, 0, 0, 0, 0, 0, 1,
    1, 0, 0, 0, 0, 0, 0, 0, 0, 0, 0, 0, 2, 0, 1, 0, 0, 0, 4, 2, 1, 0, 0, 0, 2, 0, 0, 0, 3, 0, 0, 0,
    0, 1, 0, 0, 0, 5, 2, 0, 0, 0, 2, 0, 0, 0, 0, 0, 3, 2, 0, 0, 0, 0, 0, 0, 0, 0, 0, 1, 1, 0, 0, 1,
    0, 0, 0, 4, 19, 0, 4, 0, 0, 0, 0, 0, 0, 0, 3, 20, 0, 0, 22, 0, 0, 0, 1, 109, 0, 0, 0, 1, 0, 0,
    0, 0, 0, 0, 0, 0, 0, 0, 0, 1, 0, 0, 0, 1, 0, 0, 0, 0, 0, 0, 0, 0, 0, 0, 2, 2, 0, 0, 1, 0, 0, 0,
    4, 17, 0, 0, 0, 0, 5, 0, 13, 17, 0, 0, 0, 0, 4, 0, 21, 0, 0, 0, 1, 112, 0, 0, 0, 1, 97, 0, 0,
    0, 2, 0, 0, 0, 0, 0, 0, 0, 0, 0, 0, 0, 4, 0, 0, 0, 5, 0, 0, 0, 2, 0, 0, 0, 0, 0, 0, 0, 4, 0, 0,
    0, 9, 0, 0, 0, 0, 0, 0, 0, 0, 0, 0, 0, 0, 0, 0, 2, 0, 0, 0, 6, 7, 4, 0, 0, 0, 0, 0, 0, 0, 5,
    17, 0, 0, 0, 0, 6, 1, 13, 16, 0, 0, 0, 5, 0, 21, 0, 0, 0, 2, 0, 0, 0, 2, 0, 0, 0, 0, 0, 0, 0,
    6, 0, 0, 0, 7, 0, 0, 0, 4, 0, 0, 0, 0, 0, 0, 0, 7, 0, 0, 0, 3,
];

/// The number of the place of a step of a body, if it is a send.
fn place_at(plan: &Plan, code: &CodeProgram, body: u32, next: u32) -> Option<u32>
    requires { IsPlanOf code.now plan.now }
{
    if body as usize >= code.bodies.len() {
        return None;
    }
    let steps = plan.steps_of(code, body);
    if next as usize >= steps.packed.len() {
        return None;
    }
    match step_in(kept_at(steps, next)) {
        Step::Send { place, .. } => Some(place),
        Step::SendPrivate { place, .. } => Some(place),
        _ => None,
    }
}

/// Whether the sends of bodies 1 and 2 have the places behind that of body 0, in order.
fn has_places(plan: &Plan, code: &CodeProgram) -> bool
    requires { IsPlanOf code.now plan.now }
{
    plan.place_count() == 5
        && place_at(plan, code, 1, 0) == Some(1)
        && place_at(plan, code, 1, 2) == Some(2)
        && place_at(plan, code, 2, 2) == Some(3)
        && place_at(plan, code, 2, 4) == Some(4)
}

/// Whether a body has so many steps.
fn has_steps(plan: &Plan, code: &CodeProgram, body: u32, count: usize) -> bool
    requires { IsPlanOf code.now plan.now }
{
    if body as usize >= code.bodies.len() {
        return false;
    }
    plan.steps_of(code, body).packed.len() == count
}

/// Whether selectors have their arities and numbers.
fn has_selectors(plan: &Plan) -> bool {
    plan.arity(Sel(3)) == 2 && plan.own(Own::DoesNotUnderstand) == Sel(9)
}

/// Whether a body has such a row.
fn has_row(plan: &Plan, code: &CodeProgram, body: u32, height: u16) -> bool
    requires { IsPlanOf code.now plan.now }
{
    if body as usize >= code.bodies.len() {
        return false;
    }
    plan.row(code, body).height == height
}

fn is_prepared(alloc: Global) -> bool {
    let Ok(code) = read(alloc, &IMAGE) else {
        return false;
    };
    let Ok(verified) = verify(alloc, code) else {
        return false;
    };
    let Ok(plan) = Plan::new(alloc, &verified) else {
        return false;
    };
    let code = verified.code();
    has_places(&plan, code)
        && has_steps(&plan, code, 1, 4)
        && has_steps(&plan, code, 2, 6)
        && has_row(&plan, code, 1, 1)
        && has_row(&plan, code, 2, 2)
        && plan.greatest_frame() == 3
        && has_selectors(&plan)
}

#[test]
fn an_image_is_prepared(rt: HostRuntime) {
    assert!(rt; is_prepared(rt.alloc()));
}
