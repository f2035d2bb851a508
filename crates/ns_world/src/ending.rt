//! How a run ends, and what it has used.

use crate::kernel::ClassName;
use crate::value::Value;
use ns_base::place::Place;
use ns_base::selector::Sel;

/// How much was used of each limit.
#[derive(Clone, Copy)]
pub struct Counters {
    pub steps: u64,
    pub cells: u64,
    pub depth: u64,
    pub out: u64,
}

/// The kinds of errors of a run.
#[derive(Clone, Copy, PartialEq, Eq)]
pub enum Kind {
    NotUnderstood,
    NotPublic,
    Overflow,
    ZeroDivide,
    WrongKind,
    OutOfRange,
    MustBeBoolean,
    DeadReturn,
    WrongArity,
    NotAClass,
    KernelSuper,
    InitMismatch,
    FixedSlot,
    ChainLimit,
}

/// The limits of a run.
#[derive(Clone, Copy, PartialEq, Eq)]
pub enum LimitKind {
    Steps,
    Cells,
    Depth,
    Out,
}

/// Why a kernel row gives no answer.
#[derive(Clone, Copy, PartialEq, Eq)]
pub enum Fault {
    Kind(Kind),
    Limit(LimitKind),
}

/// An error of a run, with the send that was being answered: its place, the class of its
/// receiver and its selector.
#[derive(Clone, Copy)]
pub struct RunError {
    pub kind: Kind,
    pub place: Option<Place>,
    pub class: ClassName,
    pub sel: Sel,
}

/// How a run ended.
#[derive(Clone, Copy)]
pub enum Ending {
    Done(Value),
    Error(RunError),
    Limit(LimitKind),
}
