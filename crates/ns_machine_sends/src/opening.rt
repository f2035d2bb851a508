//! Bodies that are opened where the limits have room for them: their frame is charged, and their environment is made.

ghost use Rattle.std.specs.Prelude.{◌≡◌, ◌<◌, length, true, Decides};
ghost use Rattle.ns_moves.specs.declared.control.Exit.TheVariants as exit;
ghost use Rattle.ns_moves.specs.declared.control.Given.TheVariants as given;
ghost use Rattle.ns_moves.specs.declared.control.Reached.TheVariants as reached;
ghost use Rattle.ns_moves.specs.Bodies.{no_home};
ghost use Rattle.ns_moves.specs.Sends.{Listed, method_entered};
ghost use Rattle.ns_moves.specs.Room.{HasCellRoom, SameRest};
ghost use Rattle.ns_moves.specs.StatedAnswers.{RunReachesAs};
ghost use Rattle.ns_machine_core.specs.Arriving.{shape_of};
ghost use Rattle.ns_machine_sends.specs.Opening.{CellsFit, ChargesAndOpens, HasRoomFor, OpensBody};
ghost use Rattle.ns_machine_sends.specs.Blocks.{OpensOrNot};

use ns_code::program::CodeProgram;
use ns_machine_frames::calls::BodyShape;
use ns_moves::control::{Entered, Given};
use ns_moves::run::Run;
use ns_moves::running::Running;
use ns_world::value::Value;
use ns_world::world::World;

/// Whether the limits leave room for the frame and the environment of a body of that shape with so many arguments.
#[inline(always)]
pub fn has_room(world: &World, shape: BodyShape, count: u32) -> bool
    ensures { Decides result (HasRoomFor world.now.world shape count) }
{
    if world.limits().depth <= world.counters().depth {
        return false;
    }
    if !shape.environment {
        return true;
    }
    cells_fit(world, shape, count)
}

/// Whether the limit on cells leaves room for the environment of a body of that shape with so many arguments.
#[inline(always)]
fn cells_fit(world: &World, shape: BodyShape, count: u32) -> bool
    ensures { Decides result (CellsFit world.now.world shape count) }
{
    let cells = 1 + u64::from(count) + u64::from(shape.locals.saturating_sub(shape.params));
    cells <= world.limits().cells.saturating_sub(world.counters().cells)
}

/// Opens a method for whose frame and environment there is room: it has begun then.
#[inline(always)]
pub fn open_method(
    run: &mut Run,
    code: &CodeProgram,
    body: u32,
    holder: u32,
    receiver: Value,
    arguments: &[Value],
    shape: BodyShape,
) -> Entered
    requires shape { shape ≡ shape_of code.now body }
    requires cells { HasCellRoom run.old.world }
    requires begun { run.old.begun < no_home }
    requires room { HasRoomFor run.old.world.world shape (length arguments.now) }
    ensures reached { RunReachesAs code.now arguments.now (reached.Enters exit.Method result) run.old run.new
        (method_entered code.now body holder receiver (Listed arguments.now)) }
    ensures body { result.body ≡ body }
    ensures given { result.given ≡ given.Listed }
    ensures rest { SameRest run.old.world run.new.world }
    ensures memo { run.new.memo ≡ run.old.memo }
{
    let _code = code;
    let env = open_body(&mut run.world, shape, Value::Nil, arguments);
    let home = run.begun;
    run.begun += 1;
    Entered {
        me: receiver,
        holder,
        body,
        home,
        env,
        given: Given::Listed,
    }
}

/// Opens the body of a block with as many arguments as it takes, where there is room for its frame and its environment: the block is
/// entered then, where a step is left, and else nothing is done.
#[inline(always)]
pub fn open_block(
    world: &mut World,
    code: &CodeProgram,
    running: Running,
    arguments: &[Value],
    shape: BodyShape,
) -> Option<Entered>
    requires shape { shape ≡ shape_of code.now running.body }
    requires many { length arguments.now ≡ shape.params }
    requires cells { HasCellRoom world.old }
    requires room { HasRoomFor world.old.world shape (length arguments.now) }
    ensures { OpensOrNot code.now running arguments.now world.old world.new result }
{
    let _code = code;
    match world.step() {
        Ok(()) => {
            let env = open_body(world, shape, running.env, arguments);
            Some(Entered {
                me: running.me,
                holder: running.holder,
                body: running.body,
                home: running.home,
                env,
                given: Given::Listed,
            })
        }
        Err(_) => None,
    }
}

/// Charges the frame of a body of that shape with these arguments, and gives the environment in which it runs: its own, if it has
/// one, else that around it. There is room for both.
#[inline(always)]
#[tactic(auto, using(crate::specs::laws::Opened::depth_fits))]
fn open_body(world: &mut World, shape: BodyShape, around: Value, arguments: &[Value]) -> Value
    requires cells { HasCellRoom world.old }
    requires room { HasRoomFor world.old.world shape (length arguments.now) }
    ensures opens { ChargesAndOpens shape around arguments.now world.old.world result world.new.world }
    ensures rest { SameRest world.old world.new }
{
    match world.enter() {
        Ok(()) => environment_for(world, shape, around, arguments),
        Err(_) => unreachable!(),
    }
}

/// The environment in which a body of that shape with these arguments runs. Its cells fit.
#[inline(always)]
#[tactic(auto, using(crate::specs::laws::Opened::opens_bare, crate::specs::laws::Opened::opens_own, crate::specs::laws::Opened::own_fits))]
fn environment_for(world: &mut World, shape: BodyShape, around: Value, arguments: &[Value]) -> Value
    requires cells { HasCellRoom world.old }
    requires room { shape.environment ≡ true → CellsFit world.old.world shape (length arguments.now) }
    ensures opens { OpensBody shape around arguments.now world.old.world result world.new.world }
    ensures rest { SameRest world.old world.new }
{
    if !shape.environment {
        return around;
    }
    let own_locals = shape.locals.saturating_sub(shape.params);
    match world.make_environment(anew(around), arguments, own_locals) {
        Ok(own) => Value::Ref(own),
        Err(_) => unreachable!(),
    }
}

/// The same value, written to memory where a call asks for it there: so it needn't stand there on a way that makes no such call.
#[inline(always)]
fn anew(value: Value) -> Value
    ensures { result ≡ value }
{
    match value {
        Value::Ref(at) => Value::Ref(at),
        other => other,
    }
}
