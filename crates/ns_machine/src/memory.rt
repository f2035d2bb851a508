//! The memory that a machine takes when it is made, after which its run takes none.

ghost use Rattle.std.specs.Prelude.{◌≡◌, ◌≤◌, ◌*◌, ◌+◌, ◌++◌, length, replicate, IfOk, OnOk};
ghost use Rattle.ns_base.specs.Limits.{InRange};
ghost use Rattle.ns_world.specs.World.{empty_world};
ghost use Rattle.ns_machine_plan.specs.Plan.{IsPlanOf};
ghost use Rattle.ns_machine_plan.specs.Steps.{all_places, places_in};
ghost use Rattle.ns_machine_core.specs.Standing.{most_arguments};
ghost use Rattle.ns_moves.specs.Bodies.{greatest_of};
ghost use Rattle.ns_machine.specs.Fresh.{IsFresh};
ghost use Rattle.ns_machine.specs.Places.{HasPlaces, spare_place};

use ns_base::limits::Limits;
use ns_base::no_memory::NoMemory;
use ns_base::place::Place;
use ns_base::text::Text;
use ns_code::body::BodyCode;
use ns_code::program::CodeProgram;
use ns_code::selector::text_arity;
use ns_facets::board::Board;
use ns_find::memo::Memo;
use ns_machine_core::places::Places;
use ns_machine_core::state::{Core, Phase};
use ns_machine_frames::arguments::Arguments;
use ns_machine_frames::frame::Pending;
use ns_machine_frames::stack::Stack;
use ns_machine_plan::plan::Plan;
use ns_moves::run::Run;
use ns_world::ending::{Ending, LimitKind};
use ns_world::world::World;
use std::alloc::Global;

/// The most arguments of an evaluation.
const ARGUMENTS: usize = 255;

/// The most arguments that a selector takes which the machine sends by itself.
const OWN_ARGUMENTS: usize = 2;

/// The most arguments, or places, that can be numbered.
const MOST: usize = 4_294_967_295;

/// What stands in the list of places where no site has its place yet.
const SPARE: Place = Place {
    file: 0,
    line: 0,
    col: 0,
};

/// The memory of a run in which nothing was done. Where it ends at once, its start has passed the limit on cells.
pub fn memory_for(
    alloc: Global,
    code: &CodeProgram,
    plan: &Plan,
    limits: Limits,
) -> Result<Core, NoMemory>
    requires limits { InRange limits }
    requires plan { IsPlanOf code.now plan.now }
    ensures { IfOk result (λ core. IsFresh code.now limits core) }
{
    let world = world_for(alloc, limits)?;
    let stack = stack_for(alloc, code, plan, limits.depth)?;
    let arguments = arguments_for(alloc, code.names.as_slice())?;
    let memo = Memo::new(alloc)?;
    let places = places_for(alloc, code, plan, limits.depth)?;
    Ok(Core {
        run: Run {
            world,
            board: Board::new(),
            memo,
            begun: 0,
        },
        stack,
        places,
        phase: Phase::Start,
        waiting: Pending::Nothing,
        arguments,
        ending: Ending::Limit(LimitKind::Cells),
    })
}

/// A world without cells, with memory for all cells and all output.
fn world_for(alloc: Global, limits: Limits) -> Result<World, NoMemory>
    requires { InRange limits }
    ensures empty { IfOk result (λ world. world.world ≡ empty_world limits) }
    ensures cells { IfOk result (λ world. limits.cells ≤ world.cell_room) }
    ensures out { IfOk result (λ world. limits.out ≤ world.out_room) }
{
    let mut world = World::new(alloc, limits);
    world.reserve(limits.cells)?;
    Ok(world)
}

/// No frames, with memory for as many as the limit on depth allows, for their values, and for one more.
fn stack_for(alloc: Global, code: &CodeProgram, plan: &Plan, depth: u64) -> Result<Stack, NoMemory>
    requires depth { depth ≤ 100000 }
    requires plan { IsPlanOf code.now plan.now }
    ensures frames { IfOk result (λ stack. depth ≤ stack.frames.room) }
    ensures values { IfOk result (λ stack. depth * greatest_of code.now.bodies + 1 ≤ stack.values.room) }
{
    let _code = code;
    let values = depth * u64::from(plan.greatest_frame()) + 1;
    let mut stack = Stack::new(alloc);
    stack.reserve(values, depth)?;
    Ok(stack)
}

/// No arguments, with memory for those of each evaluation and of each selector of these names.
fn arguments_for(alloc: Global, names: &[Text]) -> Result<Arguments, NoMemory>
    ensures evaluations { IfOk result (λ arguments. 255 ≤ arguments.room) }
    ensures sends { IfOk result (λ arguments. most_arguments names.now ≤ arguments.room) }
{
    let most = most_arguments(names).max(ARGUMENTS);
    if MOST < most {
        return Err(NoMemory);
    }
    Arguments::new(alloc, most as u32)
}

/// The most arguments that a selector takes of these names, or of those that the machine sends by itself.
fn most_arguments(names: &[Text]) -> usize
    ensures { result ≡ most_arguments names.now }
{
    let mut most = 0;
    'names: for name in names {
        most = most.max(text_arity(name.bytes()));
    }
    most.max(OWN_ARGUMENTS)
}

/// The places of the code, which sites name by their numbers, and behind them one for each frame and one for what waits.
fn places_for(
    alloc: Global,
    code: &CodeProgram,
    plan: &Plan,
    depth: u64,
) -> Result<Places, NoMemory>
    requires depth { depth ≤ 100000 }
    requires plan { IsPlanOf code.now plan.now }
    ensures { IfOk result (λ places. HasPlaces code.now depth places) }
{
    let of_code = plan.place_count() as usize;
    let more = depth as usize + 1;
    if MOST - more < of_code {
        return Err(NoMemory);
    }
    Ok(Places::from_vec(places_with(alloc, code.bodies.as_slice(), of_code, more)?))
}

/// The places of bodies, of which there are so many, and so many behind them that are of no site yet.
fn places_with(
    alloc: Global,
    bodies: &[BodyCode],
    count: usize,
    more: usize,
) -> Result<Vec<Place>, NoMemory>
    requires { count + more ≤ 4294967295 }
    ensures { IfOk result (λ all. all.items ≡ all_places bodies.now ++ replicate more spare_place) }
{
    let mut all = Vec::with_capacity(alloc, count + more)?;
    'bodies: for body in bodies {
        add_places(&mut all, body)?;
    }
    'spare: for _ in 0..more {
        all.push(SPARE)?;
    }
    Ok(all)
}

/// Adds the places of a body.
fn add_places(places: &mut Vec<Place>, body: &BodyCode) -> Result<(), NoMemory>
    ensures { OnOk result (places.new.items ≡ places.old.items ++ places_in body.now) }
{
    'places: for (_, place) in body.places.as_slice() {
        places.push(*place)?;
    }
    Ok(())
}
