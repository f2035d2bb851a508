//! Instances, nested classes and superclass parts.

ghost use Rattle.std.specs.Prelude.{◌≡◌, ℕ, ◌<◌, Some, IsTrue, List};
ghost use Rattle.ns_classes.specs.Nested.{kept_class};
ghost use Rattle.ns_world.specs.declared.value.Value.{Value};
ghost use Rattle.ns_world.specs.declared.value.Value.TheVariants.{Ref};
ghost use Rattle.ns_world.specs.Heap.{find_cell, is_class, superclass_in};
ghost use Rattle.ns_world.specs.Lawful.{IsLawful, IsLive};
ghost use Rattle.ns_moves.specs.declared.site.Site.{Site};
ghost use Rattle.ns_moves.specs.Bodies.{clause_of};
ghost use Rattle.ns_moves.specs.Classes as spec;
ghost use Rattle.ns_moves.specs.Control.{Progress, Now};
ghost use Rattle.ns_moves.specs.Lawful.{HasClass, FitsExit};
ghost use Rattle.ns_moves.specs.Shown.{reached_shown, part_shown, answer_shown, exit_shown, given_values};
ghost use Rattle.ns_moves.specs.Plain.{IsOwnGiven, IsPlain};
ghost use Rattle.ns_moves.specs.Room.{HasCellRoom, SameRest};
ghost use Rattle.ns_moves.specs.Running.{activation_at};
ghost use Rattle.ns_moves.specs.StatedAnswers.{ReachesAnyhow, ReachesGiven, PartReachesAs, AnswersAs};
ghost use Rattle.ns_moves.specs.declared.running.Running.{Running};

use crate::bodies::{enter_body, enter_part, open_body};
use crate::control::{Answer, Exit, Given, PartReached, Reached};
use crate::finding::{nested_classes_can_be_kept, superclasses_are_there};
use crate::running::{NO_HOME, Running, clause, initialiser};
use crate::site::make_fault;
use ns_base::selector::Sel;
use ns_classes::apply::apply;
use ns_classes::layout::{layout, word};
use ns_classes::nested::{nested, nested_entry};
use ns_code::program::CodeProgram;
use ns_world::cell::NewCell;
use ns_world::ending::{Fault, Kind, LimitKind};
use ns_world::lawful::charging_keeps_lawful;
use ns_world::value::{KClass, Value, cell_number};
use ns_world::world::World;

/// A new object of a class, all of whose entries are nil, and then its initialiser with these
/// arguments; the limit on cells exactly where the object or the environment doesn't fit. The frame
/// is charged already.
#[inline]
pub fn instance(
    world: &mut World,
    code: &CodeProgram,
    class: u32,
    given: Given,
    arguments: &[Value],
) -> Reached
    requires lawful { IsLawful world.old.world code.now }
    requires room { HasCellRoom world.old }
    requires class { IsTrue (is_class (find_cell world.old.world.cells class)) }
    ensures reached { ReachesGiven code.now (λ heap values. given_values heap values given) arguments.now result world.old world.new
        (spec.instance code.now class arguments.now) }
    ensures rest { SameRest world.old world.new }
    ensures plain { IsOwnGiven given → IsPlain result }
{
    let body = initialiser(code, world.declaration(class));
    let words = layout(world, code, class);
    match world.make(NewCell::Object { class, words }) {
        Ok(number) => open_body(
            world,
            code,
            Exit::Body,
            Running {
                me: Value::Ref(number),
                holder: class,
                body,
                home: NO_HOME,
                env: Value::Nil,
            },
            given,
            arguments,
        ),
        Err(_) => Reached::Fails(Fault::Limit(LimitKind::Cells)),
    }
}

/// The nested class of an object and a holder: the one that is kept, or else its clause's head,
/// which is entered where it has one; without one its superclass is the kernel's Object.
#[inline]
pub fn nested_class(
    world: &mut World,
    code: &CodeProgram,
    object: u32,
    holder: u32,
    class: u32,
) -> Reached
    requires lawful { IsLawful world.old.world code.now }
    requires room { HasCellRoom world.old }
    requires class { HasClass world.old.world.cells code.now object holder class }
    ensures reached { ReachesAnyhow code.now result world.old world.new
        (spec.nested code.now object holder class (kept_class world.old.world.cells code.now object holder class)) }
    ensures rest { SameRest world.old world.new }
    ensures plain { IsPlain result }
{
    nested_classes_can_be_kept();
    match nested(world, code, object, holder, class) {
        Some(kept) => Reached::Gives(Value::Ref(kept)),
        None => head(world, code, object, holder, class),
    }
}

/// The head of the clause of a nested class, or the class over the kernel's Object.
fn head(world: &mut World, code: &CodeProgram, object: u32, holder: u32, class: u32) -> Reached
    requires lawful { IsLawful world.old.world code.now }
    requires room { HasCellRoom world.old }
    requires class { HasClass world.old.world.cells code.now object holder class }
    ensures reached { ReachesAnyhow code.now result world.old world.new (spec.head code.now object holder class
        (clause_of code.now class)) }
    ensures rest { SameRest world.old world.new }
    ensures plain { IsPlain result }
{
    match clause(code, class) {
        Some(body) => enter_clause(world, code, object, holder, class, body),
        None => reached_by(class_over(
            world,
            code,
            object,
            holder,
            class,
            Value::Kernel(KClass::Object),
        )),
    }
}

/// An answer as what a send comes to.
fn reached_by(answer: Answer) -> Reached
    ensures reached { (code : CodeProgram) (site : Site) (values : List Value) (progress : Progress) →
        reached_shown code site values result progress ≡ Now (answer_shown site answer progress) }
    ensures plain { IsPlain result }
{
    match answer {
        Ok(value) => Reached::Gives(value),
        Err(fault) => Reached::Fails(fault),
    }
}

/// Charges the frame of a clause's head, in which the enclosing object is self, and enters it.
fn enter_clause(
    world: &mut World,
    code: &CodeProgram,
    object: u32,
    holder: u32,
    class: u32,
    body: u32,
) -> Reached
    requires room { HasCellRoom world.old }
    ensures reached { ReachesAnyhow code.now result world.old world.new (spec.head code.now object holder class (Some body)) }
    ensures rest { SameRest world.old world.new }
    ensures plain { IsPlain result }
{
    enter_body(
        world,
        code,
        Exit::Clause { class },
        Running {
            me: Value::Ref(object),
            holder,
            body,
            home: NO_HOME,
            env: Value::Nil,
        },
        Given::Listed,
        &[],
    )
}

/// What becomes of a nested class when its superclass is known: the one that is kept by then, or a
/// new one, which the object keeps from then on; or the fault of a class that can't be made.
pub fn class_over(
    world: &mut World,
    code: &CodeProgram,
    object: u32,
    holder: u32,
    class: u32,
    over: Value,
) -> Answer
    requires lawful { IsLawful world.old.world code.now }
    requires room { HasCellRoom world.old }
    requires class { HasClass world.old.world.cells code.now object holder class }
    requires over { IsLive world.old.world.cells code.now over }
    ensures answer { AnswersAs result world.old world.new (spec.class_over code.now object holder class over) }
    ensures rest { SameRest world.old world.new }
{
    nested_classes_can_be_kept();
    match nested(world, code, object, holder, class) {
        Some(kept) => Ok(Value::Ref(kept)),
        None => newly_kept(world, code, object, holder, class, over),
    }
}

/// A new nested class, which its object keeps.
fn newly_kept(
    world: &mut World,
    code: &CodeProgram,
    object: u32,
    holder: u32,
    class: u32,
    over: Value,
) -> Answer
    requires lawful { IsLawful world.old.world code.now }
    requires room { HasCellRoom world.old }
    requires class { HasClass world.old.world.cells code.now object holder class }
    requires over { IsLive world.old.world.cells code.now over }
    ensures answer { AnswersAs result world.old world.new (spec.newly_kept code.now object holder class over) }
    ensures rest { SameRest world.old world.new }
{
    nested_classes_can_be_kept();
    match apply(
        world,
        code,
        class,
        Value::Ref(object),
        Value::Ref(holder),
        over,
    ) {
        Ok(number) => {
            keep(world, code, object, holder, class, number);
            Ok(Value::Ref(number))
        }
        Err(fault) => Err(make_fault(fault)),
    }
}

/// Keeps a nested class in its object.
fn keep(world: &mut World, code: &CodeProgram, object: u32, holder: u32, class: u32, number: u32)
    requires lawful { IsLawful world.old.world code.now }
    requires class { HasClass world.old.world.cells code.now object holder class }
    ensures { world.new ≡ record world.old { world = spec.keeping code.now object holder class number world.old.world } }
{
    nested_classes_can_be_kept();
    let entry = nested_entry(code, world.declaration(holder), class);
    let at = word(world, code, holder, entry);
    world.write(object, at, Value::Ref(number));
}

/// The superclass part of the class whose initialiser runs, with the arguments of its superclass
/// message: past it for the kernel's Object, else into the initialiser of the superclass, whose
/// frame is charged. InitMismatch where that message isn't its factory's; the limit on depth or
/// cells exactly where the frame or the environment doesn't fit.
pub fn super_part(
    world: &mut World,
    code: &CodeProgram,
    running: Running,
    arguments: &[Value],
) -> PartReached
    requires lawful { IsLawful world.old.world code.now }
    requires room { HasCellRoom world.old }
    requires holder { IsTrue (is_class (find_cell world.old.world.cells running.holder)) }
    ensures reached { PartReachesAs code.now arguments.now result world.old world.new
        (λ site. spec.super_part code.now (activation_at site running) arguments.now) }
    ensures rest { SameRest world.old world.new }
{
    superclasses_are_there();
    let sel = super_selector(code, world.declaration(running.holder));
    let over = superclass(world, running.holder);
    part_of(world, code, running, over, sel, arguments)
}

/// The part of a superclass.
fn part_of(
    world: &mut World,
    code: &CodeProgram,
    running: Running,
    over: Value,
    sel: u32,
    arguments: &[Value],
) -> PartReached
    requires room { HasCellRoom world.old }
    requires over { (class : ℕ) → over ≡ Ref class → IsTrue (is_class (find_cell world.old.world.cells class)) }
    ensures reached { PartReachesAs code.now arguments.now result world.old world.new
        (λ site. spec.part_of code.now (activation_at site running) over sel arguments.now) }
    ensures rest { SameRest world.old world.new }
{
    match over {
        Value::Ref(over) => declared_part(world, code, running, over, sel, arguments),
        _ => object_part(code, sel),
    }
}

/// The superclass of a class.
fn superclass(world: &World, class: u32) -> Value
    requires { IsTrue (is_class (find_cell world.now.world.cells class)) }
    ensures { result ≡ superclass_in (find_cell world.now.world.cells class) }
{
    match world.cell(class) {
        NewCell::Class { over, .. } => over,
        _ => Value::Nil,
    }
}

/// The part of a declared superclass.
fn declared_part(
    world: &mut World,
    code: &CodeProgram,
    running: Running,
    over: u32,
    sel: u32,
    arguments: &[Value],
) -> PartReached
    requires room { HasCellRoom world.old }
    requires over { IsTrue (is_class (find_cell world.old.world.cells over)) }
    ensures reached { PartReachesAs code.now arguments.now result world.old world.new
        (λ site. spec.declared_part code.now (activation_at site running) over sel arguments.now) }
    ensures rest { SameRest world.old world.new }
{
    let decl = world.declaration(over);
    if sel != factory_selector(code, decl) {
        return PartReached::Fails(Fault::Kind(Kind::InitMismatch));
    }
    enter_part(
        world,
        code,
        Running {
            me: running.me,
            holder: over,
            body: initialiser(code, decl),
            home: NO_HOME,
            env: Value::Nil,
        },
        arguments,
    )
}

/// The part of the kernel's Object, whose factory is `new`.
fn object_part(code: &CodeProgram, sel: u32) -> PartReached
    ensures { (site : Site) (values : List Value) (running : Running) (progress : Progress) →
        part_shown code.now site values result progress ≡ spec.object_part code.now (activation_at site running) sel progress }
{
    if code.selector_text(Sel(sel)) == b"new".as_slice() {
        return PartReached::Skips;
    }
    PartReached::Fails(Fault::Kind(Kind::InitMismatch))
}

/// The number of the selector of a declaration's superclass message.
fn super_selector(code: &CodeProgram, decl: u32) -> u32
    ensures { result ≡ spec.super_selector code.now decl }
{
    match code.classes.as_slice().get(decl as usize) {
        Some(class) => class.super_sel.0,
        None => 0,
    }
}

/// The number of the selector of a declaration's factory.
fn factory_selector(code: &CodeProgram, decl: u32) -> u32
    ensures { result ≡ spec.factory_selector code.now decl }
{
    match code.classes.as_slice().get(decl as usize) {
        Some(class) => class.factory.0,
        None => 0,
    }
}

/// What the value of a body comes to when its frame is given back: the value itself, or in a clause
/// the nested class over it, of the self and the holder that ran it.
pub fn body_ended(
    world: &mut World,
    code: &CodeProgram,
    exit: Exit,
    running: Running,
    value: Value,
) -> Answer
    requires lawful { IsLawful world.old.world code.now }
    requires room { HasCellRoom world.old }
    requires depth { 0 < world.old.world.depth }
    requires exit { FitsExit world.old.world.cells code.now (exit_shown exit running.me running.holder) }
    requires value { IsLive world.old.world.cells code.now value }
    ensures answer { AnswersAs result world.old world.new
        (λ site. spec.body_ended code.now (exit_shown exit running.me running.holder) (activation_at site running) value) }
    ensures rest { SameRest world.old world.new }
{
    charging_keeps_lawful();
    world.leave();
    match exit {
        Exit::Clause { class } => class_over(
            world,
            code,
            cell_number(running.me),
            running.holder,
            class,
            value,
        ),
        _ => Ok(value),
    }
}
