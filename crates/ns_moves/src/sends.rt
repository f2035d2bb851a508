//! What is done with what a send finds.

ghost use Rattle.std.specs.Prelude.{◌≡◌, ◌<◌, ◌≤◌, ℕ, length, IsTrue};
ghost use Rattle.ns_code.specs.declared.program.CodeProgram.{CodeProgram};
ghost use Rattle.ns_world.specs.declared.value.Value.{Value};
ghost use Rattle.ns_world.specs.declared.value.Value.TheVariants.{Nil, Ref};
ghost use Rattle.ns_moves.specs.declared.control.Reached.TheVariants as reached;
ghost use Rattle.ns_world.specs.Heap.{find_cell, is_class, words_at, open_words_at, word_of_object};
ghost use Rattle.ns_world.specs.Lawful.{IsLawful};
ghost use Rattle.ns_moves.specs.Bodies.{no_home};
ghost use Rattle.ns_moves.specs.Classes.{instance as made_instance};
ghost use Rattle.ns_moves.specs.Lawful.{FitsSelector, HasClass};
ghost use Rattle.ns_moves.specs.Sends as spec;
ghost use Rattle.ns_moves.specs.Counting as counting;
ghost use Rattle.ns_moves.specs.Plain.{IsPlain};
ghost use Rattle.ns_moves.specs.Room.{HasCellRoom, SameRest};
ghost use Rattle.ns_moves.specs.StatedAnswers.{ReachesAs, ReachesAnyhow, RunReachesAs, opened_with_message, entered_with_message};

use crate::bodies::{enter_body, open_body};
use crate::classes::{instance, nested_class};
use crate::control::{Exit, Given, Reached};
use crate::messages::make_message;
use crate::run::Run;
use crate::running::Running;
use ns_base::selector::Sel;
use ns_code::program::CodeProgram;
use ns_world::ending::{Fault, Kind};
use ns_world::lawful::charging_keeps_lawful;
use ns_world::value::Value;
use ns_world::world::World;

/// What a send comes to with what it finds; or the number of the row of the kernel that answers it,
/// which is still to do so, and nothing has changed.
#[derive(Clone, Copy)]
pub enum Answered {
    Comes(Reached),
    Row(u32),
}

/// How many methods begin by what an action comes to: one where a method is entered.
#[inline(always)]
fn begins(reached: Reached) -> u64
    ensures begins { result ≡ counting.begins reached }
    ensures one { result ≤ 1 }
{
    match reached {
        Reached::Enters {
            exit: Exit::Method,
            ..
        } => 1,
        _ => 0,
    }
}

/// Enters a method, which has begun then: its frame, and its environment where it has one.
#[inline(always)]
pub fn enter_method(
    run: &mut Run,
    code: &CodeProgram,
    body: u32,
    holder: u32,
    receiver: Value,
    values: &[Value],
) -> Reached
    requires room { HasCellRoom run.old.world }
    requires begun { run.old.begun < no_home }
    ensures reached { RunReachesAs code.now values.now result run.old run.new
        (spec.method_entered code.now body holder receiver (spec.Listed values.now)) }
    ensures rest { SameRest run.old.world run.new.world }
    ensures memo { run.new.memo ≡ run.old.memo }
    ensures plain { IsPlain result }
{
    let running = method_running(run.begun, body, holder, receiver);
    let reached = enter_body(
        &mut run.world,
        code,
        Exit::Method,
        running,
        Given::Listed,
        values,
    );
    run.begun += begins(reached);
    reached
}

/// Enters a method with the Message of a selector and these arguments, which is charged between its
/// frame and its environment.
#[inline(never)]
pub fn enter_method_with_message(
    run: &mut Run,
    code: &CodeProgram,
    body: u32,
    holder: u32,
    receiver: Value,
    sel: Sel,
    values: &[Value],
) -> Reached
    requires room { HasCellRoom run.old.world }
    requires begun { run.old.begun < no_home }
    ensures reached { RunReachesAs code.now values.now result run.old run.new
        (spec.method_entered code.now body holder receiver (spec.Wrapped sel values.now)) }
    ensures rest { SameRest run.old.world run.new.world }
    ensures memo { run.new.memo ≡ run.old.memo }
    ensures plain { IsPlain result }
{
    let running = method_running(run.begun, body, holder, receiver);
    let reached = enter_with_message(&mut run.world, code, running, sel, values);
    run.begun += begins(reached);
    reached
}

/// Charges the frame of a method, and then the Message and the environment.
fn enter_with_message(
    world: &mut World,
    code: &CodeProgram,
    running: Running,
    sel: Sel,
    values: &[Value],
) -> Reached
    requires room { HasCellRoom world.old }
    ensures reached { ReachesAnyhow code.now result world.old world.new (entered_with_message code.now running sel values.now) }
    ensures rest { SameRest world.old world.new }
    ensures plain { IsPlain result }
{
    match world.enter() {
        Ok(()) => open_with_message(world, code, running, sel, values),
        Err(limit) => Reached::Fails(Fault::Limit(limit)),
    }
}

/// Charges the Message and the environment of a method whose frame is charged.
fn open_with_message(
    world: &mut World,
    code: &CodeProgram,
    running: Running,
    sel: Sel,
    values: &[Value],
) -> Reached
    requires room { HasCellRoom world.old }
    ensures reached { ReachesAnyhow code.now result world.old world.new (opened_with_message code.now running sel values.now) }
    ensures rest { SameRest world.old world.new }
    ensures plain { IsPlain result }
{
    match make_message(world, sel, values) {
        Ok(at) => open_body(
            world,
            code,
            Exit::Method,
            running,
            Given::Message(at),
            &[Value::Ref(at)],
        ),
        Err(fault) => Reached::Fails(fault),
    }
}

/// A method's body as it begins: its home is its own activation, and nothing is around it.
#[inline(always)]
fn method_running(home: u64, body: u32, holder: u32, receiver: Value) -> Running
    ensures { result ≡ record { me = receiver; holder = holder; body = body; home = home; env = Nil } }
{
    Running {
        me: receiver,
        holder,
        body,
        home,
        env: Value::Nil,
    }
}

/// A factory: its frame, the object, and the environment of its initialiser.
#[inline(never)]
pub fn enter_factory(world: &mut World, code: &CodeProgram, class: u32, values: &[Value]) -> Reached
    requires lawful { IsLawful world.old.world code.now }
    requires room { HasCellRoom world.old }
    requires class { IsTrue (is_class (find_cell world.old.world.cells class)) }
    ensures reached { ReachesAs code.now values.now result world.old world.new (spec.factory_entered code.now class
        (spec.Listed values.now)) }
    ensures rest { SameRest world.old world.new }
    ensures plain { IsPlain result }
{
    charging_keeps_lawful();
    match world.enter() {
        Ok(()) => instance(world, code, class, Given::Listed, values),
        Err(limit) => Reached::Fails(Fault::Limit(limit)),
    }
}

/// A setter stores its argument, nil where there is none, and answers its receiver.
#[inline(always)]
pub fn set(world: &mut World, receiver: Value, word: u32, values: &[Value]) -> Reached
    requires { (at : ℕ) → receiver ≡ Ref at → word < length (open_words_at world.old.world.cells at) }
    ensures reached { (code : CodeProgram) → ReachesAs code values.now result world.old world.new
        (λ site. spec.set word receiver (spec.Listed values.now)) }
    ensures rest { SameRest world.old world.new }
    ensures plain { IsPlain result }
{
    world.store(receiver, word, first_of(values));
    Reached::Gives(receiver)
}

/// The first argument, nil where there is none.
#[inline(always)]
fn first_of(values: &[Value]) -> Value
    ensures { result ≡ spec.first_of values.now }
{
    match values {
        [first, ..] => *first,
        [] => Value::Nil,
    }
}

/// A getter answers a word of its receiver.
#[inline(always)]
pub fn get(world: &mut World, receiver: Value, word: u32) -> Reached
    requires { (at : ℕ) → receiver ≡ Ref at → word < length (words_at world.old.world.cells at) }
    ensures reached { result ≡ reached.Gives (word_of_object world.old.world.cells receiver word) }
    ensures world { world.new ≡ world.old }
    ensures plain { IsPlain result }
{
    Reached::Gives(world.word_of_object(receiver, word))
}

/// A nested class of an object; no other value has one.
#[inline(never)]
pub fn nested_in(
    world: &mut World,
    code: &CodeProgram,
    receiver: Value,
    holder: u32,
    class: u32,
) -> Reached
    requires lawful { IsLawful world.old.world code.now }
    requires room { HasCellRoom world.old }
    requires class { (object : ℕ) → receiver ≡ Ref object → HasClass world.old.world.cells code.now object holder class }
    ensures reached { ReachesAnyhow code.now result world.old world.new (spec.nested_in code.now receiver holder class) }
    ensures rest { SameRest world.old world.new }
    ensures plain { IsPlain result }
{
    match receiver {
        Value::Ref(object) => nested_class(world, code, object, holder, class),
        _ => Reached::Fails(Fault::Kind(Kind::NotUnderstood)),
    }
}

/// The same of a send that goes on with a Message, which is charged between the frame and the object.
pub fn enter_factory_with_message(
    world: &mut World,
    code: &CodeProgram,
    class: u32,
    sel: Sel,
    values: &[Value],
) -> Reached
    requires lawful { IsLawful world.old.world code.now }
    requires room { HasCellRoom world.old }
    requires class { IsTrue (is_class (find_cell world.old.world.cells class)) }
    requires selector { FitsSelector world.old.world.cells code.now sel values.now }
    ensures reached { ReachesAnyhow code.now result world.old world.new (spec.factory_entered code.now class
        (spec.Wrapped sel values.now)) }
    ensures rest { SameRest world.old world.new }
    ensures plain { IsPlain result }
{
    charging_keeps_lawful();
    match world.enter() {
        Ok(()) => instance_with_message(world, code, class, sel, values),
        Err(limit) => Reached::Fails(Fault::Limit(limit)),
    }
}

/// The Message, and the instance that is made with it.
fn instance_with_message(
    world: &mut World,
    code: &CodeProgram,
    class: u32,
    sel: Sel,
    values: &[Value],
) -> Reached
    requires lawful { IsLawful world.old.world code.now }
    requires room { HasCellRoom world.old }
    requires class { IsTrue (is_class (find_cell world.old.world.cells class)) }
    requires selector { FitsSelector world.old.world.cells code.now sel values.now }
    ensures reached { ReachesAnyhow code.now result world.old world.new (λ site progress.
        spec.given (spec.Wrapped sel values.now) progress (λ values progress. made_instance code.now class values site progress)) }
    ensures rest { SameRest world.old world.new }
    ensures plain { IsPlain result }
{
    match make_message(world, sel, values) {
        Ok(at) => instance(world, code, class, Given::Message(at), &[Value::Ref(at)]),
        Err(fault) => Reached::Fails(fault),
    }
}

/// A setter that is sent with a Message stores that.
pub fn set_with_message(
    world: &mut World,
    code: &CodeProgram,
    receiver: Value,
    word: u32,
    sel: Sel,
    values: &[Value],
) -> Reached
    requires lawful { IsLawful world.old.world code.now }
    requires room { HasCellRoom world.old }
    requires word { (at : ℕ) → receiver ≡ Ref at → word < length (open_words_at world.old.world.cells at) }
    requires selector { FitsSelector world.old.world.cells code.now sel values.now }
    ensures reached { ReachesAnyhow code.now result world.old world.new (λ site. spec.set word receiver (spec.Wrapped sel values.now)) }
    ensures rest { SameRest world.old world.new }
    ensures plain { IsPlain result }
{
    match make_message(world, sel, values) {
        Ok(at) => {
            world.store(receiver, word, Value::Ref(at));
            Reached::Gives(receiver)
        }
        Err(fault) => Reached::Fails(fault),
    }
}
