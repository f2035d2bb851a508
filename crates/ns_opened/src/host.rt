//! The calls of a host on a program that it keeps as bytes.

ghost use Rattle.std.specs.Prelude.{◌≡◌, IfOk, IsSomeAnd, None};
ghost use Rattle.std.specs.Bool.{OnFalse, OnTrue};
ghost use Rattle.std.specs.List.{list_all};
ghost use Rattle.ns_handed.specs.Hands.{is_question as is_question_lem};
ghost use Rattle.ns_opened.specs.Host as spec;
ghost use Rattle.ns_opened.specs.Opened.{Opens, shown};
ghost use Rattle.ns_reply.specs.Room.{IsUntouched};

use crate::ask::{Question, ask};
use crate::open::{Terms, open};
use crate::program::turn;
use ns_base::limits::Limits;
use ns_base::no_memory::NoMemory;
use ns_base::status::Status;
use ns_base::text::Text;
use ns_facets::row::Grants;
use ns_handed::lay::put_texts;
use ns_handed::value::{Hand, HostValue, hand_of, hands_of, is_question, texts_come_to};
use ns_reply::reply::Reply;
use ns_reply::room::{NOTHING_TOLD, Told, tell, without_memory};
use std::alloc::Global;

/// What a host opens a program with: the name that it gives to it, the limits, which facets are granted (where the number isn't 0),
/// and the steps of the first turn.
#[repr(C)]
#[derive(Clone, Copy)]
pub struct HostTerms {
    pub name: u64,
    pub steps: u64,
    pub cells: u64,
    pub depth: u64,
    pub out: u64,
    pub console: u64,
    pub kernel: u64,
    pub mirrors: u64,
    pub first: u64,
}

/// The terms that a host names.
fn terms_of(given: &HostTerms) -> Terms
    ensures { result ≡ spec.terms_of given.now }
{
    Terms {
        name: given.name,
        limits: Limits {
            steps: given.steps,
            cells: given.cells,
            depth: given.depth,
            out: given.out,
        },
        grants: Grants {
            console: given.console != 0,
            kernel: given.kernel != 0,
            mirrors: given.mirrors != 0,
            board: false,
        },
        steps: given.first,
    }
}

/// Whether what is handed over is a text.
fn is_text(hand: Hand) -> bool
    ensures { result ≡ spec.is_text hand }
{
    match hand {
        Hand::Text(_) => true,
        Hand::Given(_) => false,
        Hand::Nothing => false,
    }
}

/// Whether a value that is handed over is one.
fn is_text_given(given: HostValue) -> bool
    ensures { result ≡ spec.is_text_given given }
{
    is_text(hand_of(given))
}

/// Whether all are.
fn are_texts(values: &[HostValue]) -> bool
    ensures { result ≡ list_all spec.is_text_given values.now }
{
    values.iter().all(|value| is_text_given(*value))
}

/// Whether an opening is well formed: its arguments are texts, which come to all of the bytes.
fn is_opening(values: &[HostValue], texts: &[u8]) -> bool
    ensures { result ≡ spec.is_opening values.now texts.now }
{
    are_texts(values) && texts_come_to(values, texts.len() as u64)
}

/// The arguments of an opening.
fn arguments_of(alloc: Global, values: &[HostValue], texts: &[u8]) -> Result<Vec<Text>, NoMemory>
    ensures { IfOk result (λ arguments. arguments.items ≡ spec.arguments_of values.now texts.now) }
{
    let hands = hands_of(alloc, values)?;
    let mut arguments = Vec::new(alloc);
    put_texts(alloc, &mut arguments, texts, &hands)?;
    Ok(arguments)
}

/// Opens the program of an image, and gives what is told of it. There is no status where the call isn't well formed.
pub fn host_open(
    alloc: Global,
    given: &HostTerms,
    values: &[HostValue],
    texts: &[u8],
    image: &[u8],
    room: &mut [u8],
    told: &mut Told,
) -> Option<Status>
    ensures ends { OnTrue (spec.is_opening values.now texts.now) (IsSomeAnd result (λ status.
        spec.EndsOpening given.now (spec.arguments_of values.now texts.now) image.now status room.old room.new told.new)) }
    ensures malformed { OnFalse (spec.is_opening values.now texts.now) ((result ≡ None) × IsUntouched room.old room.new told.new) }
{
    *told = NOTHING_TOLD;
    if !is_opening(values, texts) {
        return None;
    }
    match opened(alloc, given, values, texts, image) {
        Ok(reply) => Some(tell(alloc, &reply, room, told)),
        Err(NoMemory) => Some(without_memory(told)),
    }
}

/// What opening answers.
fn opened(
    alloc: Global,
    given: &HostTerms,
    values: &[HostValue],
    texts: &[u8],
    image: &[u8],
) -> Result<Reply, NoMemory>
    ensures { IfOk result (λ reply. Opens (spec.terms_of given.now) (spec.arguments_of values.now texts.now) image.now reply) }
{
    let arguments = arguments_of(alloc, values, texts)?;
    open(alloc, terms_of(given), &arguments, image)
}

/// Asks a program, and gives what is told of it. There is no status where the question isn't well formed.
pub fn host_ask(
    alloc: Global,
    question: Question<'_>,
    bytes: &[u8],
    room: &mut [u8],
    told: &mut Told,
) -> Option<Status>
    ensures ends { OnTrue (is_question_lem question.entry.values.now question.entry.texts.now) (IsSomeAnd result (λ status.
        spec.EndsAsking (shown question.entry) bytes.now status room.old room.new told.new)) }
    ensures malformed { OnFalse (is_question_lem question.entry.values.now question.entry.texts.now)
        ((result ≡ None) × IsUntouched room.old room.new told.new) }
{
    *told = NOTHING_TOLD;
    if !is_question(question.values, question.texts) {
        return None;
    }
    match ask(alloc, question, bytes) {
        Ok(reply) => Some(tell(alloc, &reply, room, told)),
        Err(NoMemory) => Some(without_memory(told)),
    }
}

/// Gives a program a turn, and gives what is told of it.
pub fn host_turn(
    alloc: Global,
    name: u64,
    bytes: &[u8],
    steps: u64,
    room: &mut [u8],
    told: &mut Told,
) -> Status
    ensures { spec.EndsTurn name steps bytes.now result room.old room.new told.new }
{
    match turn(alloc, name, bytes, steps) {
        Ok(reply) => tell(alloc, &reply, room, told),
        Err(NoMemory) => without_memory(told),
    }
}
