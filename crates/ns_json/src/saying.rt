//! What a command says, in parts, before it is written as lines or as JSON.

use ns_base::items::Items;
use ns_base::limits::Limits;
use ns_base::text::Text;
use ns_world::ending::Counters;

/// A place in a file of that name: a line and a column, both counted from 1.
#[derive(Drop)]
pub struct FilePlace {
    pub file: Text,
    pub line: u32,
    pub col: u32,
}

/// A send: the class of its receiver, its selector, and its place where it has one.
#[derive(Drop)]
pub struct Site {
    pub class: Text,
    pub selector: Text,
    pub place: Option<FilePlace>,
}

/// How a run ended: with the text of its answer, in an error of that kind in a send, or at the limit of that name.
#[derive(Drop)]
pub enum End {
    Done { answer: Text },
    Error { kind: Text, site: Site },
    Limit { limit: Text },
}

/// The sends that were open at the end, the innermost first, and how many in the middle are left out.
#[derive(Drop)]
pub struct Trace {
    pub sites: Items<Site>,
    pub left_out: u64,
}

/// A run: how it ended, what it printed and used, and, where they are asked for, its trace and its limits.
#[derive(Drop)]
pub struct Run {
    pub end: End,
    pub output: Text,
    pub used: Counters,
    pub trace: Option<Trace>,
    pub limits: Option<Limits>,
}

/// What was refused: a size of the program; a file, or the image in it at the byte of that number, in the class of that
/// number, or in the body of that number at an instruction; or the text of a file at a place.
#[derive(Drop)]
pub enum Refused {
    Program,
    File { file: Text },
    Byte { file: Text, offset: u64 },
    Class { file: Text, class: u32 },
    Body { file: Text, body: u32, at: u32 },
    Source { place: FilePlace },
}

/// A cause, by its name, and what was refused for it.
#[derive(Drop)]
pub struct Refusal {
    pub cause: Text,
    pub refused: Refused,
}

/// A static fault: its cause, by its name, and its place.
#[derive(Drop)]
pub struct Fault {
    pub cause: Text,
    pub place: FilePlace,
}

/// A send that nothing can answer.
#[derive(Drop)]
pub struct Unanswered {
    pub selector: Text,
    pub place: FilePlace,
}

/// How a test went: it answered a value other than false, it answered false, or its run ended so.
#[derive(Drop)]
pub enum Outcome {
    Passed,
    Failed,
    Erred { end: End },
}

/// A test, and how it went.
#[derive(Drop)]
pub struct Test {
    pub name: Text,
    pub outcome: Outcome,
}

/// Tests, and how many passed, failed and are in error.
#[derive(Drop)]
pub struct Tests {
    pub tests: Items<Test>,
    pub passed: u64,
    pub failed: u64,
    pub errors: u64,
}

/// What an audit answers: no denied selector is sent; or the first instruction that sends one, or that performs any.
#[derive(Drop)]
pub enum Audit {
    Yes,
    Sends { selector: Text, body: u32, at: u32 },
    Performs { body: u32, at: u32 },
}

/// Where an actor is: it rests, it stopped in an end of its run, or it stopped at an outbox that is none.
#[derive(Drop)]
pub enum Stage {
    Rests,
    Stopped { end: End },
    BadOutbox,
}

/// An actor, what it printed, and how many letters it has taken.
#[derive(Drop)]
pub struct Actor {
    pub stage: Stage,
    pub output: Text,
    pub taken: u64,
}

/// What a command says.
#[derive(Drop)]
pub enum Saying {
    /// A program was run.
    Ran { run: Run },
    /// Applications were run in turns.
    Session { runs: Items<Run> },
    /// The files are a program.
    Checked,
    /// The files are a program, in which nothing can answer these sends.
    Searched { unanswered: Items<Unanswered> },
    /// The files have these static faults.
    Faulty { faults: Items<Fault> },
    /// So many bytes were stored as an image.
    Stored { image: Text, bytes: u64 },
    /// A file or a size is refused.
    Refused { refusal: Refusal },
    /// Tests were run.
    Tested { tests: Tests },
    /// A module was audited.
    Audited { audit: Audit },
    /// Actors have come to rest.
    Acted { actors: Items<Actor> },
}
