//! The calls on a program that its host keeps as bytes.

ghost use Rattle.std.specs.Prelude.{◌≡◌, ◌==◌, not};
ghost use Rattle.std.specs.Bool.{OnFalse, OnTrue};
ghost use Rattle.ns_handed.specs.Hands.{is_question};
ghost use Rattle.ns_opened.specs.Host.{EndsAsking, EndsOpening, EndsTurn, IsNoFault, Numbered, arguments_of, is_opening};
ghost use Rattle.ns_reply.specs.Room.{IsUntouched};

use crate::MALFORMED;
use ns_handed::value::HostValue;
use ns_opened::ask::Question;
use ns_opened::host::{HostTerms, host_ask, host_open, host_turn};
use ns_opened::laws::calls_end_without_fault;
use ns_reply::room::Told;
use std::alloc::Global;

/// Opens the program of an image on these terms with these texts as arguments, and gives it and what is told of it.
#[unsafe(no_mangle)]
pub extern "C" fn nspk_open(
    alloc: Global,
    terms: &HostTerms,
    arguments: &[HostValue],
    texts: &[u8],
    image: &[u8],
    room: &mut [u8],
    told: &mut Told,
) -> u8
    ensures told { OnTrue (is_opening arguments.now texts.now)
        (Numbered (EndsOpening terms.now (arguments_of arguments.now texts.now) image.now) result room.old room.new told.new) }
    // The status is 7 exactly where the call isn't well formed, and then nothing is given.
    ensures malformed { (result == MALFORMED) ≡ not (is_opening arguments.now texts.now) }
    ensures nothing { OnFalse (is_opening arguments.now texts.now) (IsUntouched room.old room.new told.new) }
    // No file is outside, and no stream: no call ends as a file that couldn't be read or a stream that couldn't be written.
    ensures no_fault { IsNoFault result }
{
    calls_end_without_fault();
    match host_open(alloc, terms, arguments, texts, image, room, told) {
        Some(status) => status.exit_code(),
        None => MALFORMED,
    }
}

/// Asks the program of these bytes: sends a selector to the first of the values with the others as arguments, and gives it a turn of so
/// many steps.
#[unsafe(no_mangle)]
pub extern "C" fn nspk_ask(
    alloc: Global,
    name: u64,
    program: &[u8],
    values: &[HostValue],
    texts: &[u8],
    selector: &[u8],
    steps: u64,
    room: &mut [u8],
    told: &mut Told,
) -> u8
    ensures told { OnTrue (is_question values.now texts.now) (Numbered (EndsAsking
        (record { name = name; values = values.now; texts = texts.now; selector = selector.now; steps = steps }) program.now)
        result room.old room.new told.new) }
    // The status is 7 exactly where the call isn't well formed, and then nothing is given.
    ensures malformed { (result == MALFORMED) ≡ not (is_question values.now texts.now) }
    ensures nothing { OnFalse (is_question values.now texts.now) (IsUntouched room.old room.new told.new) }
    // No file is outside, and no stream: no call ends as a file that couldn't be read or a stream that couldn't be written.
    ensures no_fault { IsNoFault result }
{
    calls_end_without_fault();
    let question = Question {
        name,
        values,
        texts,
        selector,
        steps,
    };
    match host_ask(alloc, question, program, room, told) {
        Some(status) => status.exit_code(),
        None => MALFORMED,
    }
}

/// Gives the program of these bytes a turn of so many steps.
#[unsafe(no_mangle)]
pub extern "C" fn nspk_turn(
    alloc: Global,
    name: u64,
    program: &[u8],
    steps: u64,
    room: &mut [u8],
    told: &mut Told,
) -> u8
    ensures told { Numbered (EndsTurn name steps program.now) result room.old room.new told.new }
    ensures no_fault { IsNoFault result }
{
    calls_end_without_fault();
    host_turn(alloc, name, program, steps, room, told).exit_code()
}
