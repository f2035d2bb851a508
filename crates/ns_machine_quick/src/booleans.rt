//! Sends to Booleans by the method that their step has, by the quick way: nothing is looked up, and a method that answers
//! without evaluating a block has no frame.

ghost use Rattle.std.specs.Prelude.{◌≡◌, ◌+◌, Some, IsTrue, slice_get};
ghost use Rattle.ns_world.specs.Booleans.{is_boolean};
ghost use Rattle.ns_world.specs.declared.kernel_row.Row.TheVariants.{Method};
ghost use Rattle.ns_moves.specs.Control.{Activation};
ghost use Rattle.ns_moves.specs.Sends.{To};
ghost use Rattle.ns_machine_plan.specs.Booleans.{method_of_send};
ghost use Rattle.ns_machine_plan.specs.Steps.{send_instr};
ghost use Rattle.ns_machine_core.specs.declared.state.Next.TheVariants as next;
ghost use Rattle.ns_machine_core.specs.Doing.{CanDo};
ghost use Rattle.ns_machine_sends.specs.Operands.{SendsOperands};
ghost use Rattle.ns_machine_sends.specs.Sending.{CanSend, looked_up};
ghost use Rattle.ns_machine_quick.specs.Booleans as spec;
ghost use Rattle.ns_machine_quick.specs.Booleans.{AnswersAt, SendLeadsOrNothing, ToTopLeadsOrNothing, LeadsOrNothing};
ghost use Rattle.ns_machine_quick.specs.Looping.{CanLoop};
ghost use Rattle.ns_machine_quick.specs.Rows.{FindsRow};

use crate::looping::{can_loop, send_method};
use ns_base::selector::Sel;
use ns_code::program::CodeProgram;
use ns_find::found::Sending;
use ns_machine_core::led::Led;
use ns_machine_core::state::Core;
use ns_machine_frames::frame::KeptSite;
use ns_machine_frames::laws::operands_are_taken;
use ns_machine_frames::registers::Registers;
use ns_machine_plan::laws::booleans_find_rows;
use ns_machine_sends::sent::Sent;
use ns_moves::answer_laws::a_send_is_its_step_and_its_answer;
use ns_world::kernel::ClassName;
use ns_world::kernel_class::KernelRow;
use ns_world::kernel_parts::KMethod;
use ns_world::lawful::charging_keeps_lawful;
use ns_world::value::Value;

/// Sends to a value, where its selector spells a method of Boolean, it is a Boolean, the method asks for such arguments, a
/// step is left, and the limit on depth leaves room for the method's frame; else nothing has changed. A method that
/// evaluates no block has answered then, which is its own move: it takes no frame, and the depth is as it was.
#[inline(always)]
#[tactic(auto, using(crate::proofs::Received::kind_operands))]
pub fn send_boolean(
    code: &CodeProgram,
    core: &mut Core,
    at: Registers,
    sel: Sel,
    argc: u8,
    kind: Sending,
    place: u32,
    method: KMethod,
) -> Led
    requires can { CanDo code.now core.old at (send_instr kind sel argc) }
    requires method { method_of_send code.now sel ≡ Some method }
    ensures { LeadsOrNothing code.now (send_instr kind sel argc) (slice_get core.old.places place) core.old at core.new result }
{
    operands_are_taken();
    match send_operands(code, core, at, sel, argc, place, kind, method) {
        Led::Straight(to) => Led::Straight(to),
        Led::Charged(to) => Led::Charged(to),
        Led::On(to) => Led::On(to),
        Led::Answered(to) => Led::Answered(to),
        Led::Nowhere => Led::Nowhere,
    }
}

/// Sends so many topmost operands to the value below them, where that is a Boolean.
#[inline(always)]
fn send_operands(
    code: &CodeProgram,
    core: &mut Core,
    at: Registers,
    sel: Sel,
    argc: u8,
    place: u32,
    kind: Sending,
    method: KMethod,
) -> Led
    requires operands { SendsOperands code.now core.old at sel argc (argc + 1) }
    requires method { method_of_send code.now sel ≡ Some method }
    ensures { ToTopLeadsOrNothing code.now core.old at sel argc place kind core.new result }
{
    let first = at.top - u32::from(argc);
    let above = Registers { top: first, ..at };
    let (receiver, below) = core.stack.pop(above);
    if !is_boolean(receiver) {
        return Led::Nowhere;
    }
    let class = ClassName::Kernel(KernelRow::Boolean);
    let sent = Sent {
        site: KeptSite { place, class, sel },
        floor: below.top,
        first,
    };
    match send_to(code, core, at, sent, receiver, kind, method) {
        Led::Straight(to) => Led::Straight(to),
        Led::Charged(to) => Led::Charged(to),
        Led::On(to) => Led::On(to),
        Led::Answered(to) => Led::Answered(to),
        Led::Nowhere => Led::Nowhere,
    }
}

/// Whether a value is a Boolean.
#[inline(always)]
fn is_boolean(value: Value) -> bool
    ensures { result ≡ is_boolean value }
{
    match value {
        Value::True | Value::False => true,
        _ => false,
    }
}

/// Sends to a Boolean: the method answers, or begins.
#[inline(always)]
fn send_to(
    code: &CodeProgram,
    core: &mut Core,
    at: Registers,
    sent: Sent,
    receiver: Value,
    kind: Sending,
    method: KMethod,
) -> Led
    requires can { CanSend code.now core.old at sent receiver }
    requires boolean { IsTrue (is_boolean receiver) }
    requires method { method_of_send code.now sent.site.sel ≡ Some method }
    ensures { SendLeadsOrNothing code.now core.old at sent receiver kind core.new result }
{
    booleans_find_rows();
    match answer_at_once(method, receiver) {
        Some(value) => charge(code, core, at, sent, receiver, kind, method, value),
        None => match send_method(code, core, at, sent, receiver, kind, method) {
            Some(to) => Led::On(to),
            None => Led::Nowhere,
        },
    }
}

/// What a method of Boolean answers without evaluating a block, where it does so.
#[inline(always)]
fn answer_at_once(method: KMethod, receiver: Value) -> Option<Value>
    ensures { result ≡ spec.answer_at_once method receiver }
{
    match method {
        KMethod::And => where_false(receiver, Value::False),
        KMethod::Or => where_true(receiver, Value::True),
        KMethod::IfTrue => where_false(receiver, Value::Nil),
        KMethod::IfFalse => where_true(receiver, Value::Nil),
        _ => None,
    }
}

/// A value, where the receiver is true.
#[inline(always)]
fn where_true(receiver: Value, value: Value) -> Option<Value>
    ensures { result ≡ spec.where_true receiver value }
{
    match receiver {
        Value::True => Some(value),
        _ => None,
    }
}

/// A value, where the receiver is false.
#[inline(always)]
fn where_false(receiver: Value, value: Value) -> Option<Value>
    ensures { result ≡ spec.where_false receiver value }
{
    match receiver {
        Value::False => Some(value),
        _ => None,
    }
}

/// Charges the step of a send and brings what its method answers to the body that runs, where the method could begin.
#[inline(always)]
fn charge(
    code: &CodeProgram,
    core: &mut Core,
    at: Registers,
    sent: Sent,
    receiver: Value,
    kind: Sending,
    method: KMethod,
    value: Value,
) -> Led
    requires can { CanSend code.now core.old at sent receiver }
    requires finds { FindsRow code.now core.old sent receiver kind (Method method) }
    requires answers { spec.answer_at_once method receiver ≡ Some value }
    ensures { SendLeadsOrNothing code.now core.old at sent receiver kind core.new result }
{
    a_send_is_its_step_and_its_answer();
    charging_keeps_lawful();
    if !can_loop(code, core, at, sent, receiver, method) {
        return Led::Nowhere;
    }
    match core.run.world.step() {
        Ok(()) => Led::Answered(answer(code, core, at, sent, receiver, kind, method, value)),
        Err(_) => Led::Nowhere,
    }
}

/// Brings what a method answers at once to the body that runs: its frame would be given back in the move after its send.
#[inline(always)]
fn answer(
    code: &CodeProgram,
    core: &mut Core,
    at: Registers,
    sent: Sent,
    receiver: Value,
    kind: Sending,
    method: KMethod,
    value: Value,
) -> Registers
    requires can { CanSend code.now core.old at sent receiver }
    requires finds { FindsRow code.now core.old sent receiver kind (Method method) }
    requires loops { CanLoop core.old at sent method }
    requires answers { spec.answer_at_once method receiver ≡ Some value }
    ensures { (activation : Activation) → AnswersAt code.now core.old at sent.floor
        (looked_up code.now core.old at sent activation (To receiver kind)) core.new (next.On result) }
{
    let _receiver = receiver;
    let _kind = kind;
    let _method = method;
    let below = Registers {
        top: sent.floor,
        ..at
    };
    ns_machine_core::giving::give(code, core, below, value)
}
