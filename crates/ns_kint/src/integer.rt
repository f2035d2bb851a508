//! What the rows of Integer answer. Faults come in the order WrongKind, ZeroDivide, Overflow.

ghost use Rattle.std.specs.Prelude.{◌≡◌, ℤ, SomeIff, FitsSigned, Ok};
ghost use Rattle.std.specs.Int.{w64};
ghost use Rattle.ns_kint.specs.Integer.{integer, integer_of, divisor_of, fitting, same_integer};

use crate::division::{floored_quotient, floored_remainder};
use ns_world::ending::{Fault, Kind};
use ns_world::kernel_parts::IntRow;
use ns_world::value::{Value, truth};

/// The answer of a row of Integer, or its first fault. `negated` doesn't look at `right`, and `=`
/// has no fault.
#[inline(always)]
pub fn integer(row: IntRow, left: i64, right: Value) -> Result<Value, Fault>
    ensures { result ≡ integer row left right }
{
    match row {
        IntRow::Add => fitting(left.checked_add(integer_of(right)?)),
        IntRow::Subtract => fitting(left.checked_sub(integer_of(right)?)),
        IntRow::Multiply => fitting(left.checked_mul(integer_of(right)?)),
        IntRow::Quotient => fitting(floored_quotient(left, divisor_of(right)?)),
        IntRow::Remainder => Ok(Value::Int(floored_remainder(left, divisor_of(right)?))),
        IntRow::Less => Ok(truth(left < integer_of(right)?)),
        IntRow::LessEqual => Ok(truth(left <= integer_of(right)?)),
        IntRow::Greater => Ok(truth(left > integer_of(right)?)),
        IntRow::GreaterEqual => Ok(truth(left >= integer_of(right)?)),
        IntRow::Equal => Ok(truth(same_integer(left, right))),
        IntRow::BitAnd => Ok(Value::Int(left & integer_of(right)?)),
        IntRow::BitOr => Ok(Value::Int(left | integer_of(right)?)),
        IntRow::BitXor => Ok(Value::Int(left ^ integer_of(right)?)),
        IntRow::Negated => fitting(left.checked_neg()),
    }
}

/// The Integer that an argument is; WrongKind where it is none.
#[inline(always)]
fn integer_of(value: Value) -> Result<i64, Fault>
    ensures { result ≡ integer_of value }
{
    match value {
        Value::Int(number) => Ok(number),
        _ => Err(Fault::Kind(Kind::WrongKind)),
    }
}

/// The divisor that an argument is; WrongKind where it is no Integer, ZeroDivide at 0.
#[inline(always)]
fn divisor_of(value: Value) -> Result<i64, Fault>
    ensures { result ≡ divisor_of value }
{
    match value {
        Value::Int(0) => Err(Fault::Kind(Kind::ZeroDivide)),
        Value::Int(number) => Ok(number),
        _ => Err(Fault::Kind(Kind::WrongKind)),
    }
}

/// The answer of an operation that is none where its number is no Integer.
#[inline(always)]
fn fitting(number: Option<i64>) -> Result<Value, Fault>
    ensures { (z : ℤ) → SomeIff number (FitsSigned w64 z) z → result ≡ fitting z }
{
    match number {
        Some(number) => Ok(Value::Int(number)),
        None => Err(Fault::Kind(Kind::Overflow)),
    }
}

/// Whether the argument is the same Integer.
#[inline(always)]
fn same_integer(left: i64, right: Value) -> bool
    ensures { result ≡ same_integer left right }
{
    match right {
        Value::Int(right) => left == right,
        _ => false,
    }
}
