//! Which of two faults is answered.

ghost use Rattle.std.specs.Prelude.{◌≡◌, ◌≤◌, Some};
ghost use Rattle.ns_static_rules.specs.Least.{kind_number, cause_number, order_of, in_file, in_line, comes_before, earlier, place_at};

use crate::fault::{Many, Placed, StaticCause};
use ns_base::place::Place;

/// The one that comes before the other.
pub fn earlier(least: Option<Placed>, fault: Placed) -> Placed
    ensures { Some result ≡ earlier least fault }
{
    match least {
        None => fault,
        Some(least) => {
            if comes_before(fault, least) {
                fault
            } else {
                least
            }
        }
    }
}

/// By file, line, column, and the cause's number.
pub fn comes_before(fault: Placed, other: Placed) -> bool
    ensures { result ≡ comes_before (order_of fault) (order_of other) }
{
    if fault.place.file < other.place.file {
        return true;
    }
    if fault.place.file != other.place.file {
        return false;
    }
    comes_before_in_file(fault, other)
}

fn comes_before_in_file(fault: Placed, other: Placed) -> bool
    ensures { result ≡ comes_before (in_file fault) (in_file other) }
{
    if fault.place.line < other.place.line {
        return true;
    }
    if fault.place.line != other.place.line {
        return false;
    }
    comes_before_in_line(fault, other)
}

fn comes_before_in_line(fault: Placed, other: Placed) -> bool
    ensures { result ≡ comes_before (in_line fault) (in_line other) }
{
    if fault.place.col < other.place.col {
        return true;
    }
    if fault.place.col != other.place.col {
        return false;
    }
    cause_number(fault.cause) < cause_number(other.cause)
}

fn cause_number(cause: StaticCause) -> u32
    ensures { result ≡ cause_number cause }
{
    match cause {
        StaticCause::DuplicateMember => 0,
        StaticCause::DuplicateLocal => 1,
        StaticCause::FixedLocal => 2,
        StaticCause::BadReturn => 3,
        StaticCause::BareReceiver => 4,
        StaticCause::NoSuchOuter => 5,
        StaticCause::BadCascade => 6,
        StaticCause::PlainTooLarge => 7,
        StaticCause::TooMany(kind) => 8 + kind_number(kind),
        StaticCause::TopSuper => 13,
        StaticCause::DuplicateTop => 14,
    }
}

fn kind_number(kind: Many) -> u32
    ensures number { result ≡ kind_number kind }
    ensures most { result ≤ 4 }
{
    match kind {
        Many::Parameters => 0,
        Many::Locals => 1,
        Many::Elements => 2,
        Many::Members => 3,
        Many::Classes => 4,
    }
}

/// The place of a token.
pub fn place_at(marks: &[Place], at: u32) -> Place
    ensures { result ≡ place_at marks.now at }
{
    match marks.get(at as usize) {
        None => Place {
            file: 0,
            line: 0,
            col: 0,
        },
        Some(place) => *place,
    }
}
