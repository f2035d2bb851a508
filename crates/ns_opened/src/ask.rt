//! Asking a program.

ghost use Rattle.std.specs.Prelude.{◌≡◌, IfOk, Some, true};
ghost use Rattle.ns_moves.specs.Beginning.{MayBegin};
ghost use Rattle.ns_handed.specs.Hands.{hands_of as hands_of_lem};
ghost use Rattle.ns_opened.specs.Laid as places;
ghost use Rattle.ns_opened.specs.Opened as spec;
ghost use Rattle.ns_reply.specs.Reply.{reply_of as reply_of_lem};

use crate::lay::{has_room, lay_texts};
use crate::program::read;
use ns_base::no_memory::NoMemory;
use ns_base::selector::Sel;
use ns_handed::lay::values_from;
use ns_handed::value::{Hand, HostValue, are_of, hands_of};
use ns_machine::machine::Machine;
use ns_reply::reply::{Refusal, Reply, refused, reply_of};
use ns_session::robin_laws::turns_are_a_function;
use ns_world::value::Value;
use std::alloc::Global;

/// A question, apart from the program: the receiver and the arguments, the bytes of the texts among them, the name of a selector, and
/// the steps of a first turn.
#[derive(Clone, Copy)]
pub struct Question<'a> {
    pub name: u64,
    pub values: &'a [HostValue],
    pub texts: &'a [u8],
    pub selector: &'a [u8],
    pub steps: u64,
}

/// Asks the program of these bytes: sends it the question, gives it a turn, and tells it then. Where it may not be asked, nothing
/// is done.
pub fn ask(alloc: Global, question: Question<'_>, bytes: &[u8]) -> Result<Reply, NoMemory>
    ensures { IfOk result (λ reply. spec.Asks (spec.shown question.entry) bytes.now reply) }
{
    if !are_of(question.name, question.values) {
        return refused(alloc, Refusal::OtherProgram);
    }
    ask_own(alloc, question, bytes)
}

/// The same with values of that program.
fn ask_own(alloc: Global, question: Question<'_>, bytes: &[u8]) -> Result<Reply, NoMemory>
    ensures { IfOk result (λ reply. spec.AnswersOwn (spec.shown question.entry) bytes.now true reply) }
{
    match read(alloc, bytes)? {
        Some(machine) => {
            let mut machine = machine;
            ask_program(alloc, question, &mut machine)
        }
        None => refused(alloc, Refusal::NotAProgram),
    }
}

/// The same of a program.
fn ask_program(
    alloc: Global,
    question: Question<'_>,
    machine: &mut Machine,
) -> Result<Reply, NoMemory>
    ensures { IfOk result (λ reply. spec.AnswersOf (spec.shown question.entry) (Some machine.old) reply) }
{
    let hands = hands_of(alloc, question.values)?;
    if !has_room(&hands, machine) {
        return refused(alloc, Refusal::NoRoom);
    }
    ask_with(alloc, question, &hands, machine)
}

/// The same with room for the texts.
fn ask_with(
    alloc: Global,
    question: Question<'_>,
    hands: &[Hand],
    machine: &mut Machine,
) -> Result<Reply, NoMemory>
    requires hands { hands.now ≡ hands_of_lem question.values.now }
    requires room { places.has_room hands.now machine.old ≡ true }
    ensures { IfOk result (λ reply. spec.AnswersIn (spec.shown question.entry) machine.old true reply) }
{
    let (values, behind) = values_from(alloc, machine.counters().cells, hands)?;
    if !lay_texts(alloc, hands, question.texts, behind, machine)? {
        return refused(alloc, Refusal::NotAProgram);
    }
    ask_values(alloc, question, &values, machine)
}

/// The same of a program that has the texts: the first value is the receiver.
fn ask_values(
    alloc: Global,
    question: Question<'_>,
    values: &[Value],
    machine: &mut Machine,
) -> Result<Reply, NoMemory>
    ensures { IfOk result (λ reply. spec.Answers (spec.shown question.entry) values.now machine.old reply) }
{
    match values {
        [] => refused(alloc, Refusal::MayNotAsk),
        [receiver, arguments @ ..] => ask_machine(alloc, question, *receiver, arguments, machine),
    }
}

/// Asks a program where it may be asked.
fn ask_machine(
    alloc: Global,
    question: Question<'_>,
    receiver: Value,
    arguments: &[Value],
    machine: &mut Machine,
) -> Result<Reply, NoMemory>
    ensures { IfOk result (λ reply. spec.AnswersBy (spec.shown question.entry) receiver arguments.now machine.old reply) }
{
    match machine.may_ask(receiver, question.selector, arguments) {
        Some(sel) => ask_selector(alloc, question, receiver, sel, arguments, machine),
        None => refused(alloc, Refusal::MayNotAsk),
    }
}

/// Sends a selector that may be asked.
fn ask_selector(
    alloc: Global,
    question: Question<'_>,
    receiver: Value,
    sel: Sel,
    arguments: &[Value],
    machine: &mut Machine,
) -> Result<Reply, NoMemory>
    requires { MayBegin machine.old.code receiver sel arguments.now machine.old.state }
    ensures { IfOk result (λ reply. reply ≡ reply_of_lem question.entry.name (spec.printed_by machine.old)
        (spec.asked_on question.entry.steps receiver sel arguments.now machine.old)) }
{
    let before = machine.output().len();
    ask_on(receiver, sel, arguments, question.steps, machine);
    reply_of(alloc, question.name, before, machine)
}

/// Sends a selector to a value of a program, and gives it a turn of so many steps.
fn ask_on(receiver: Value, sel: Sel, arguments: &[Value], steps: u64, machine: &mut Machine)
    requires { MayBegin machine.old.code receiver sel arguments.now machine.old.state }
    ensures { machine.new ≡ spec.asked_on steps receiver sel arguments.now machine.old }
{
    turns_are_a_function();
    machine.begin(receiver, sel, arguments);
    // That its state is valid is said by this call.
    let _idle = machine.idle();
    let _turn = machine.turn(steps);
}
