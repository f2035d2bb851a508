//! How a body begins and ends.

ghost use Rattle.std.specs.Prelude.{◌≡◌, ◌<◌};
ghost use Rattle.ns_world.specs.declared.value.Value.{Value};
ghost use Rattle.ns_world.specs.Cell.{EnvironmentCell};
ghost use Rattle.ns_world.specs.World.{MakesCell, entered};
ghost use Rattle.ns_moves.specs.Bodies.{first_locals};
ghost use Rattle.ns_moves.specs.Control.{Progress, in_world, frame_left};
ghost use Rattle.ns_moves.specs.Shown.{given_values, passed};
ghost use Rattle.ns_moves.specs.Plain.{IsOwnGiven, IsPlain};
ghost use Rattle.ns_moves.specs.Room.{HasCellRoom, SameRest};
ghost use Rattle.ns_moves.specs.StatedAnswers.{ReachesGiven, PartReachesAs, body_opened, body_entered, part_opened, part_entered};

use crate::control::{Entered, Exit, Given, PartReached, Reached};
use crate::running::{Running, has_environment, own_locals};
use ns_code::program::CodeProgram;
use ns_world::cell::CellLimit;
use ns_world::ending::{Fault, LimitKind};
use ns_world::value::Value;
use ns_world::world::World;

/// Makes the environment of a body over the one around it, with these arguments and nils.
#[inline]
fn make_environment(
    world: &mut World,
    code: &CodeProgram,
    running: Running,
    arguments: &[Value],
) -> Result<u32, CellLimit>
    requires room { HasCellRoom world.old }
    ensures makes { MakesCell world.old (EnvironmentCell running.env (first_locals code.now running.body arguments.now)) result world.new }
    ensures rest { SameRest world.old world.new }
{
    let others = own_locals(code, running.body);
    world.make_environment(running.env, arguments, others)
}

/// The body as it is entered, with its environment.
#[inline(always)]
fn with_environment(running: Running, env: Value, given: Given) -> Entered
    ensures { result ≡
        record { me = running.me; holder = running.holder; body = running.body; home = running.home; env = env; given = given } }
{
    Entered {
        me: running.me,
        holder: running.holder,
        body: running.body,
        home: running.home,
        env,
        given,
    }
}

/// Enters a body whose frame is charged; the limit on cells exactly where its environment doesn't
/// fit.
#[inline(always)]
pub fn open_body(
    world: &mut World,
    code: &CodeProgram,
    exit: Exit,
    running: Running,
    given: Given,
    arguments: &[Value],
) -> Reached
    requires room { HasCellRoom world.old }
    ensures reached { ReachesGiven code.now (λ heap values. given_values heap (passed exit values) given) arguments.now
        result world.old world.new (body_opened code.now exit running arguments.now) }
    ensures rest { SameRest world.old world.new }
    ensures plain { IsOwnGiven given → IsPlain result }
{
    if has_environment(code, running.body) {
        return match make_environment(world, code, running, arguments) {
            Ok(own) => Reached::Enters {
                exit,
                entered: with_environment(running, Value::Ref(own), given),
            },
            Err(_) => Reached::Fails(Fault::Limit(LimitKind::Cells)),
        };
    }
    Reached::Enters {
        exit,
        entered: with_environment(running, running.env, given),
    }
}

/// Charges the frame of a body and enters it; the limit on depth exactly where the frame doesn't
/// fit, and that on cells where its environment doesn't.
#[inline(always)]
pub fn enter_body(
    world: &mut World,
    code: &CodeProgram,
    exit: Exit,
    running: Running,
    given: Given,
    arguments: &[Value],
) -> Reached
    requires room { HasCellRoom world.old }
    ensures reached { ReachesGiven code.now (λ heap values. given_values heap (passed exit values) given) arguments.now
        result world.old world.new (body_entered code.now exit running arguments.now) }
    ensures rest { SameRest world.old world.new }
    ensures plain { IsOwnGiven given → IsPlain result }
{
    match world.enter() {
        Ok(()) => open_body(world, code, exit, running, given, arguments),
        Err(limit) => Reached::Fails(Fault::Limit(limit)),
    }
}

/// Enters the initialiser of a superclass part whose frame is charged; the limit on cells exactly
/// where its environment doesn't fit.
#[inline]
pub fn open_part(
    world: &mut World,
    code: &CodeProgram,
    running: Running,
    arguments: &[Value],
) -> PartReached
    requires room { HasCellRoom world.old }
    ensures reached { PartReachesAs code.now arguments.now result world.old world.new (part_opened code.now running arguments.now) }
    ensures rest { SameRest world.old world.new }
{
    if has_environment(code, running.body) {
        return match make_environment(world, code, running, arguments) {
            Ok(own) => {
                PartReached::Enters(with_environment(running, Value::Ref(own), Given::Listed))
            }
            Err(_) => PartReached::Fails(Fault::Limit(LimitKind::Cells)),
        };
    }
    PartReached::Enters(with_environment(running, running.env, Given::Listed))
}

/// Charges the frame of a superclass part and enters its initialiser.
#[inline]
pub fn enter_part(
    world: &mut World,
    code: &CodeProgram,
    running: Running,
    arguments: &[Value],
) -> PartReached
    requires room { HasCellRoom world.old }
    ensures reached { PartReachesAs code.now arguments.now result world.old world.new (part_entered code.now running arguments.now) }
    ensures rest { SameRest world.old world.new }
{
    match world.enter() {
        Ok(()) => open_part(world, code, running, arguments),
        Err(limit) => PartReached::Fails(Fault::Limit(limit)),
    }
}

/// Gives the frame of a superclass part back, whose value is dropped.
#[inline]
pub fn part_ended(world: &mut World)
    requires { 0 < world.old.world.depth }
    ensures ended { (rest : Progress) → in_world rest world.new.world ≡ frame_left (in_world rest world.old.world) }
    ensures rest { SameRest world.old world.new }
{
    world.leave();
}
