//! Rows of Integer: what they answer at ordinary numbers and at the ends of 64 bits, and their faults.

use ns_base::selector::Sel;
use ns_kint::integer::integer;
use ns_world::ending::{Fault, Kind};
use ns_world::kernel_parts::IntRow;
use ns_world::value::Value::Int;
use ns_world::value::{KClass, Value};

/// A row, its receiver, its argument, and what it answers.
type Row = (IntRow, i64, Value, Result<Value, Fault>);

const YES: Result<Value, Fault> = Ok(Value::True);

const NO: Result<Value, Fault> = Ok(Value::False);

const OVERFLOW: Result<Value, Fault> = Err(Fault::Kind(Kind::Overflow));

const ZERO_DIVIDE: Result<Value, Fault> = Err(Fault::Kind(Kind::ZeroDivide));

const WRONG_KIND: Result<Value, Fault> = Err(Fault::Kind(Kind::WrongKind));

/// Quotients are rounded down, and a remainder has the sign of the divisor.
const ARITHMETIC: &[Row] = &[
    (IntRow::Add, 3, Int(4), Ok(Int(7))),
    (IntRow::Add, i64::MAX, Int(1), OVERFLOW),
    (IntRow::Add, i64::MIN, Int(-1), OVERFLOW),
    (IntRow::Add, i64::MAX, Int(i64::MIN), Ok(Int(-1))),
    (IntRow::Subtract, 3, Int(4), Ok(Int(-1))),
    (IntRow::Subtract, i64::MIN, Int(1), OVERFLOW),
    (IntRow::Subtract, 0, Int(i64::MIN), OVERFLOW),
    (IntRow::Subtract, -1, Int(i64::MIN), Ok(Int(i64::MAX))),
    (IntRow::Multiply, -3, Int(4), Ok(Int(-12))),
    (IntRow::Multiply, i64::MIN, Int(-1), OVERFLOW),
    (
        IntRow::Multiply,
        3_037_000_500,
        Int(3_037_000_500),
        OVERFLOW,
    ),
    (
        IntRow::Multiply,
        3_037_000_499,
        Int(3_037_000_499),
        Ok(Int(9_223_372_030_926_249_001)),
    ),
    (IntRow::Quotient, 7, Int(2), Ok(Int(3))),
    (IntRow::Quotient, -7, Int(2), Ok(Int(-4))),
    (IntRow::Quotient, 7, Int(-2), Ok(Int(-4))),
    (IntRow::Quotient, -7, Int(-2), Ok(Int(3))),
    (IntRow::Quotient, -8, Int(2), Ok(Int(-4))),
    (IntRow::Quotient, i64::MIN, Int(1), Ok(Int(i64::MIN))),
    (IntRow::Quotient, i64::MIN, Int(-1), OVERFLOW),
    (IntRow::Quotient, 1, Int(0), ZERO_DIVIDE),
    (IntRow::Quotient, i64::MIN, Int(0), ZERO_DIVIDE),
    (IntRow::Remainder, 7, Int(2), Ok(Int(1))),
    (IntRow::Remainder, -7, Int(2), Ok(Int(1))),
    (IntRow::Remainder, 7, Int(-2), Ok(Int(-1))),
    (IntRow::Remainder, -7, Int(-2), Ok(Int(-1))),
    (IntRow::Remainder, -8, Int(2), Ok(Int(0))),
    (IntRow::Remainder, i64::MIN, Int(-1), Ok(Int(0))),
    (IntRow::Remainder, 1, Int(0), ZERO_DIVIDE),
    (IntRow::Negated, 4, Int(9), Ok(Int(-4))),
    (
        IntRow::Negated,
        i64::MAX,
        Int(9),
        Ok(Int(-9_223_372_036_854_775_807)),
    ),
    (IntRow::Negated, i64::MIN, Int(0), OVERFLOW),
];

const BITS: &[Row] = &[
    (IntRow::BitAnd, -1, Int(12), Ok(Int(12))),
    (IntRow::BitAnd, i64::MIN, Int(i64::MAX), Ok(Int(0))),
    (IntRow::BitOr, -4, Int(1), Ok(Int(-3))),
    (IntRow::BitOr, i64::MIN, Int(i64::MAX), Ok(Int(-1))),
    (IntRow::BitXor, -1, Int(5), Ok(Int(-6))),
    (IntRow::BitXor, i64::MIN, Int(-1), Ok(Int(i64::MAX))),
];

const COMPARISONS: &[Row] = &[
    (IntRow::Less, 4, Int(5), YES),
    (IntRow::Less, 4, Int(4), NO),
    (IntRow::Less, 4, Int(-5), NO),
    (IntRow::LessEqual, 4, Int(5), YES),
    (IntRow::LessEqual, 4, Int(4), YES),
    (IntRow::LessEqual, 4, Int(-5), NO),
    (IntRow::Greater, 4, Int(5), NO),
    (IntRow::Greater, 4, Int(4), NO),
    (IntRow::Greater, 4, Int(-5), YES),
    (IntRow::GreaterEqual, 4, Int(5), NO),
    (IntRow::GreaterEqual, 4, Int(4), YES),
    (IntRow::GreaterEqual, 4, Int(-5), YES),
    (IntRow::Equal, 4, Int(5), NO),
    (IntRow::Equal, 4, Int(4), YES),
    (IntRow::Equal, 4, Int(-5), NO),
];

/// `=` answers false, `negated` doesn't look, and all other rows ask for an Integer.
const NO_NUMBERS: &[Row] = &[
    (IntRow::Equal, 7, Value::Nil, NO),
    (IntRow::Equal, 7, Value::Ref(7), NO),
    (IntRow::Equal, 7, Value::Sym(Sel(7)), NO),
    (IntRow::Negated, 7, Value::Nil, Ok(Int(-7))),
    (IntRow::Add, 7, Value::Nil, WRONG_KIND),
    (IntRow::Subtract, 7, Value::True, WRONG_KIND),
    (IntRow::Multiply, 7, Value::False, WRONG_KIND),
    (IntRow::Quotient, 7, Value::Sym(Sel(0)), WRONG_KIND),
    (IntRow::Remainder, 7, Value::Ref(0), WRONG_KIND),
    (IntRow::Less, 7, Value::Ref(7), WRONG_KIND),
    (IntRow::LessEqual, 7, Value::Nil, WRONG_KIND),
    (IntRow::Greater, 7, Value::Nil, WRONG_KIND),
    (
        IntRow::GreaterEqual,
        7,
        Value::Kernel(KClass::Object),
        WRONG_KIND,
    ),
    (IntRow::BitAnd, 7, Value::Nil, WRONG_KIND),
    (IntRow::BitOr, 7, Value::Kernel(KClass::Array), WRONG_KIND),
    (IntRow::BitXor, 7, Value::Nil, WRONG_KIND),
];

#[test]
fn integers_answer_exactly_or_overflow(rt: HostRuntime) {
    for table in [ARITHMETIC, BITS, COMPARISONS, NO_NUMBERS] {
        assert!(rt; are_answered(table));
    }
}

fn are_answered(table: &[Row]) -> bool {
    'rows: for (row, left, right, want) in table {
        if integer(*row, *left, *right) != *want {
            return false;
        }
    }
    true
}
