//! Private sends that find a method or a slot, by the quick way: registers alone come back, and whether the body that runs goes
//! straight on.

ghost use Rattle.std.specs.Prelude.{◌≡◌, slice_get, IsSome, IsTrue};
ghost use Rattle.ns_code.specs.declared.instruction.Instr.TheVariants as instr;
ghost use Rattle.ns_world.specs.Heap.{find_cell, is_class};
ghost use Rattle.ns_world.specs.Lawful.{IsLawful};
ghost use Rattle.ns_world.specs.Layout.{declaration_of, entries_of};
ghost use Rattle.ns_find.specs.declared.found.Found.TheVariants as found;
ghost use Rattle.ns_moves.specs.Bodies as bodies;
ghost use Rattle.ns_moves.specs.Lawful.{FitsActivation, declaration_at};
ghost use Rattle.ns_moves.specs.Sends.{ToPrivate, found_at, receiver_of};
ghost use Rattle.ns_moves.specs.Enclosing.{place_of};
ghost use Rattle.ns_moves.specs.Running.{code_of};
ghost use Rattle.ns_machine_plan.specs.Privates.{SlotIsAmong, found_in};
ghost use Rattle.ns_machine_core.specs.Doing.{CanDo};
ghost use Rattle.ns_machine_core.specs.Tried.{LeadsOrChangesNothing};
ghost use Rattle.ns_machine_sends.specs.Sending.{CanSend};
ghost use Rattle.ns_machine_quick.specs.Opening.{FindsAround, AroundOrNot, AroundCharges, AroundLeads, IsMemberAbove, IsMemberAt};

use crate::opening::begin;
use crate::receiving::named;
use crate::slots::{get, set};
use ns_base::selector::Sel;
use ns_classes::layout::word;
use ns_code::program::CodeProgram;
use ns_find::found::Found;
use ns_machine_core::arriving::shape_of;
use ns_machine_core::led::{Led, led_charged, led_on};
use ns_machine_core::settling::{running, running_code};
use ns_machine_core::state::Core;
use ns_machine_frames::frame::KeptSite;
use ns_machine_frames::laws::operands_are_taken;
use ns_machine_frames::registers::Registers;
use ns_machine_plan::laws::members_are_found;
use ns_machine_plan::step::Member;
use ns_machine_sends::opening::has_room;
use ns_machine_sends::sent::Sent;
use ns_moves::answer_laws::a_send_is_its_step_and_its_answer;
use ns_moves::enclosing::{Surrounding, enclosing};
use ns_moves::finding::{enclosing_objects_are_there, what_is_found_suits};
use ns_moves::laws::{
    actions_spend_exactly, sends_keep_lawful, sites_stay, what_is_handed_on_fits,
};
use ns_moves::running::Running;
use ns_moves::targets::class_of;
use ns_world::lawful::charging_keeps_lawful;
use ns_world::value::Value;
use ns_world::world::World;

/// Sends to the private member of the declaration so many levels out.
pub fn send_private(
    code: &CodeProgram,
    core: &mut Core,
    at: Registers,
    level: u8,
    sel: Sel,
    argc: u8,
    place: u32,
    member: Member,
) -> Led
    requires can { CanDo code.now core.old at (instr.SendPrivate level sel argc) }
    requires member { IsMemberAbove code.now core.old.stack.frames.items level sel member }
    ensures { LeadsOrChangesNothing code.now (instr.SendPrivate level sel argc) (slice_get core.old.places place)
        core.old at core.new result }
{
    operands_are_taken();
    enclosing_objects_are_there();
    let code_here = running_code(running(&core.stack).activation);
    let first = at.top - u32::from(argc);
    let around = enclosing(&core.run.world, code, code_here, level);
    let class = class_of(&core.run.world, code, around.object);
    let sent = Sent {
        site: KeptSite { place, class, sel },
        floor: first,
        first,
    };
    send_around(code, core, at, sent, code_here, level, around, member)
}

/// Looks the selector up among the private members, and does what was found, where that is a method or a slot.
#[inline(always)]
fn send_around(
    code: &CodeProgram,
    core: &mut Core,
    at: Registers,
    sent: Sent,
    running: Running,
    level: u8,
    around: Surrounding,
    member: Member,
) -> Led
    requires can { CanSend code.now core.old at sent around.object }
    requires around { place_of around ≡ bodies.enclosing core.old.run.world.world.cells (code_of running) level }
    requires runs { FitsActivation core.old.run.world.world.cells code.now (code_of running) }
    requires level { IsSome (declaration_at code.now running.body level) }
    requires member { IsMemberAt code.now running.body level sent.site.sel member }
    ensures { AroundLeads code.now core.old at sent running level core.new result }
{
    let receiver = around.object;
    match found_around(
        &core.run.world,
        code,
        running,
        level,
        sent.site.sel,
        around.holder,
        member,
    ) {
        Found::Method { body, holder } => led_on(enter_around(
            code, core, at, sent, running, level, receiver, body, holder,
        )),
        Found::Getter { holder, word } => led_charged(get_around(
            code, core, at, sent, running, level, receiver, holder, word,
        )),
        Found::Setter { holder, word } => led_charged(set_around(
            code, core, at, sent, running, level, receiver, holder, word,
        )),
        _ => Led::Nowhere,
    }
}

/// What a selector finds among the private members of a declaration around running code, where that is this member.
#[inline(always)]
fn found_around(
    world: &World,
    code: &CodeProgram,
    running: Running,
    level: u8,
    sel: Sel,
    holder: u32,
    member: Member,
) -> Found
    requires lawful { IsLawful world.now.world code.now }
    requires runs { FitsActivation world.now.world.cells code.now (code_of running) }
    requires level { IsSome (declaration_at code.now running.body level) }
    requires holder { holder ≡ (bodies.enclosing world.now.world.cells (code_of running) level).holder }
    requires member { IsMemberAt code.now running.body level sel member }
    ensures { result ≡ found_at world.now.world.cells code.now (code_of running) (ToPrivate level) sel.0 }
{
    enclosing_objects_are_there();
    members_are_found();
    let _running = running;
    let _level = level;
    let _sel = sel;
    found_with(world, code, holder, member)
}

/// What is found with a member and its holder.
#[inline(always)]
fn found_with(world: &World, code: &CodeProgram, holder: u32, member: Member) -> Found
    requires lawful { IsLawful world.now.world code.now }
    requires holder { IsTrue (is_class (find_cell world.now.world.cells holder)) }
    requires among { SlotIsAmong (entries_of code.now (declaration_of world.now.world.cells holder)) member }
    ensures { result ≡ found_in world.now.world.cells code.now holder member }
{
    match member {
        Member::Method { body } => Found::Method { body, holder },
        Member::Getter { entry } => Found::Getter {
            holder,
            word: word(world, code, holder, entry),
        },
        Member::Setter { entry } => Found::Setter {
            holder,
            word: word(world, code, holder, entry),
        },
        Member::Nested { class } => Found::Nested { class, holder },
        Member::Absent => Found::Absent,
    }
}

/// Begins the method that a private send has found, with the receiver's class named for its frame.
#[inline(always)]
fn enter_around(
    code: &CodeProgram,
    core: &mut Core,
    at: Registers,
    sent: Sent,
    running: Running,
    level: u8,
    receiver: Value,
    body: u32,
    holder: u32,
) -> Option<Registers>
    requires can { CanSend code.now core.old at sent receiver }
    requires receiver { receiver ≡ receiver_of core.old.run.world.world.cells (code_of running) (ToPrivate level) }
    requires runs { FitsActivation core.old.run.world.world.cells code.now (code_of running) }
    requires level { IsSome (declaration_at code.now running.body level) }
    requires finds { FindsAround code.now core.old running level sent (found.Method body holder) }
    ensures { AroundOrNot code.now core.old at sent running level core.new result }
{
    let anew = named(&core.run.world, code, sent, receiver);
    begin_around(code, core, at, anew, running, level, receiver, body, holder)
}

/// The same, where its site is made: where a step is left and the limits leave room for its body.
#[inline(always)]
fn begin_around(
    code: &CodeProgram,
    core: &mut Core,
    at: Registers,
    sent: Sent,
    running: Running,
    level: u8,
    receiver: Value,
    body: u32,
    holder: u32,
) -> Option<Registers>
    requires can { CanSend code.now core.old at sent receiver }
    requires receiver { receiver ≡ receiver_of core.old.run.world.world.cells (code_of running) (ToPrivate level) }
    requires runs { FitsActivation core.old.run.world.world.cells code.now (code_of running) }
    requires level { IsSome (declaration_at code.now running.body level) }
    requires finds { FindsAround code.now core.old running level sent (found.Method body holder) }
    ensures { AroundOrNot code.now core.old at sent running level core.new result }
{
    a_send_is_its_step_and_its_answer();
    charging_keeps_lawful();
    sends_keep_lawful();
    what_is_handed_on_fits();
    actions_spend_exactly();
    sites_stay();
    let _running = running;
    let _level = level;
    let shape = shape_of(code, body);
    if !has_room(&core.run.world, shape, at.top - sent.first) {
        return None;
    }
    match core.run.world.step() {
        Ok(()) => Some(begin(code, core, at, sent, receiver, body, holder, shape)),
        Err(_) => None,
    }
}

/// Brings the word of the slot that a private send has found, where a step is left.
#[inline(always)]
fn get_around(
    code: &CodeProgram,
    core: &mut Core,
    at: Registers,
    sent: Sent,
    running: Running,
    level: u8,
    receiver: Value,
    holder: u32,
    word: u32,
) -> Option<Registers>
    requires can { CanSend code.now core.old at sent receiver }
    requires receiver { receiver ≡ receiver_of core.old.run.world.world.cells (code_of running) (ToPrivate level) }
    requires runs { FitsActivation core.old.run.world.world.cells code.now (code_of running) }
    requires level { IsSome (declaration_at code.now running.body level) }
    requires finds { FindsAround code.now core.old running level sent (found.Getter holder word) }
    ensures { AroundCharges code.now core.old at sent running level core.new result }
{
    a_send_is_its_step_and_its_answer();
    charging_keeps_lawful();
    what_is_found_suits();
    let _running = running;
    let _level = level;
    match core.run.world.step() {
        Ok(()) => Some(get(code, core, at, sent, receiver, holder, word)),
        Err(_) => None,
    }
}

/// Stores the argument in the slot that a private send has found, where a step is left.
#[inline(always)]
fn set_around(
    code: &CodeProgram,
    core: &mut Core,
    at: Registers,
    sent: Sent,
    running: Running,
    level: u8,
    receiver: Value,
    holder: u32,
    word: u32,
) -> Option<Registers>
    requires can { CanSend code.now core.old at sent receiver }
    requires receiver { receiver ≡ receiver_of core.old.run.world.world.cells (code_of running) (ToPrivate level) }
    requires runs { FitsActivation core.old.run.world.world.cells code.now (code_of running) }
    requires level { IsSome (declaration_at code.now running.body level) }
    requires finds { FindsAround code.now core.old running level sent (found.Setter holder word) }
    ensures { AroundCharges code.now core.old at sent running level core.new result }
{
    a_send_is_its_step_and_its_answer();
    charging_keeps_lawful();
    what_is_found_suits();
    let _running = running;
    let _level = level;
    match core.run.world.step() {
        Ok(()) => Some(set(code, core, at, sent, receiver, holder, word)),
        Err(_) => None,
    }
}
