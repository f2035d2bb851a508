//! Rows of data that make no cell: their answers and their faults.

use ns_base::selector::Sel;
use ns_world::ending::{Fault, Kind};
use ns_world::kernel_parts::DataRow;
use ns_world::value::Value::{Int, Sym};
use ns_world::value::{KClass, Value};
use ns_world_setting::asking::ask_datum;
use ns_world_setting::setting::{
    ANN, ANN_AGAIN, ANNA, BASE, BASE_OBJECT, BLOCK, BOB, EMPTY, HELLO, MESSAGE, NINE_BYTES,
    NO_ITEMS, OTHER_BASE, PAIR, PLAIN_OBJECT, SUB_OBJECT, USED, set_up,
};
use std::alloc::Global;

/// A row, its receiver, its arguments, and what it answers.
type Row = (DataRow, Value, &'static [Value], Result<Value, Fault>);

const NIL: Value = Value::Nil;

const YES: Result<Value, Fault> = Ok(Value::True);

const NO: Result<Value, Fault> = Ok(Value::False);

const WRONG_KIND: Result<Value, Fault> = Err(Fault::Kind(Kind::WrongKind));

const OUT_OF_RANGE: Result<Value, Fault> = Err(Fault::Kind(Kind::OutOfRange));

const OBJECT: Value = Value::Kernel(KClass::Object);

const ARRAY: Value = Value::Kernel(KClass::Array);

const PLUS: Value = Sym(Sel(13));

const AT_PUT: Value = Sym(Sel(14));

/// The machine's own `packageUsing:` and `doesNotUnderstand:`, which the program doesn't name.
const PACKAGE_USING: Value = Sym(Sel(42));

const NOT_UNDERSTOOD: Value = Sym(Sel(44));

const ROWS_OF_ALL_VALUES: &[Row] = &[
    (DataRow::Identical, NIL, &[NIL], YES),
    (DataRow::Identical, NIL, &[Value::False], NO),
    (DataRow::Identical, Value::True, &[Value::True], YES),
    (DataRow::Identical, Value::True, &[Value::False], NO),
    (DataRow::Identical, Int(3), &[Int(3)], YES),
    (DataRow::Identical, Int(3), &[Int(4)], NO),
    (DataRow::Identical, AT_PUT, &[AT_PUT], YES),
    (DataRow::Identical, AT_PUT, &[PLUS], NO),
    (DataRow::Identical, AT_PUT, &[Int(14)], NO),
    (DataRow::Identical, OBJECT, &[OBJECT], YES),
    (DataRow::Identical, OBJECT, &[ARRAY], NO),
    (DataRow::Identical, ARRAY, &[ARRAY], YES),
    (DataRow::Identical, ANN, &[ANN], YES),
    (DataRow::Identical, ANN, &[ANN_AGAIN], NO),
    (DataRow::Equal, BASE_OBJECT, &[BASE_OBJECT], YES),
    (DataRow::Equal, BASE_OBJECT, &[SUB_OBJECT], NO),
    (DataRow::Equal, BASE, &[BASE], YES),
    (DataRow::Equal, BASE, &[OTHER_BASE], NO),
    (DataRow::Equal, PAIR, &[PAIR], YES),
    (DataRow::Equal, AT_PUT, &[AT_PUT], YES),
    (DataRow::Equal, PACKAGE_USING, &[NOT_UNDERSTOOD], NO),
    (DataRow::Equal, NIL, &[Int(0)], NO),
    (DataRow::IsNil, NIL, &[], YES),
    (DataRow::IsNil, Value::False, &[], NO),
    (DataRow::IsNil, PLAIN_OBJECT, &[], NO),
    (DataRow::NotNil, NIL, &[], NO),
    (DataRow::NotNil, Int(0), &[], YES),
    (DataRow::NotNil, ANN, &[], YES),
    (DataRow::KernelObject, Int(7), &[], Ok(OBJECT)),
    (DataRow::KernelObject, ANN, &[], Ok(OBJECT)),
];

const ROWS_OF_MESSAGES: &[Row] = &[
    (
        DataRow::DoesNotUnderstand,
        Int(7),
        &[MESSAGE],
        Err(Fault::Kind(Kind::NotUnderstood)),
    ),
    (
        DataRow::DoesNotUnderstand,
        MESSAGE,
        &[MESSAGE],
        Err(Fault::Kind(Kind::NotUnderstood)),
    ),
    (DataRow::DoesNotUnderstand, NIL, &[NIL], WRONG_KIND),
    (DataRow::DoesNotUnderstand, NIL, &[AT_PUT], WRONG_KIND),
    (DataRow::DoesNotUnderstand, NIL, &[PAIR], WRONG_KIND),
    (DataRow::DoesNotUnderstand, NIL, &[ANN], WRONG_KIND),
    (DataRow::DoesNotUnderstand, MESSAGE, &[BLOCK], WRONG_KIND),
    (DataRow::MessageSelector, MESSAGE, &[], Ok(AT_PUT)),
    (DataRow::MessageArguments, MESSAGE, &[], Ok(PAIR)),
];

const ROWS_OF_BOOLEANS: &[Row] = &[
    (DataRow::Not, Value::True, &[], NO),
    (DataRow::Not, Value::False, &[], YES),
    (DataRow::And, Value::True, &[Value::True], YES),
    (DataRow::And, Value::True, &[Value::False], NO),
    (DataRow::And, Value::False, &[Value::True], NO),
    (DataRow::And, Value::False, &[Value::False], NO),
    (DataRow::And, Value::True, &[NIL], WRONG_KIND),
    (DataRow::And, Value::False, &[Int(1)], WRONG_KIND),
    (DataRow::And, Value::False, &[ANN], WRONG_KIND),
    (DataRow::Or, Value::True, &[Value::True], YES),
    (DataRow::Or, Value::True, &[Value::False], YES),
    (DataRow::Or, Value::False, &[Value::True], YES),
    (DataRow::Or, Value::False, &[Value::False], NO),
    (DataRow::Or, Value::False, &[NIL], WRONG_KIND),
    (DataRow::Or, Value::True, &[Int(1)], WRONG_KIND),
    (DataRow::Or, Value::True, &[BLOCK], WRONG_KIND),
];

const ROWS_OF_TEXTS: &[Row] = &[
    (DataRow::TextSize, ANN, &[], Ok(Int(3))),
    (DataRow::TextSize, EMPTY, &[], Ok(Int(0))),
    (DataRow::TextSize, NINE_BYTES, &[], Ok(Int(9))),
    (DataRow::TextAt, NINE_BYTES, &[Int(1)], Ok(Int(65))),
    (DataRow::TextAt, NINE_BYTES, &[Int(8)], Ok(Int(52))),
    (DataRow::TextAt, NINE_BYTES, &[Int(9)], Ok(Int(255))),
    (DataRow::TextAt, NINE_BYTES, &[Int(0)], OUT_OF_RANGE),
    (DataRow::TextAt, NINE_BYTES, &[Int(10)], OUT_OF_RANGE),
    (DataRow::TextAt, NINE_BYTES, &[Int(-1)], OUT_OF_RANGE),
    (DataRow::TextAt, NINE_BYTES, &[Int(i64::MIN)], OUT_OF_RANGE),
    (DataRow::TextAt, NINE_BYTES, &[Int(i64::MAX)], OUT_OF_RANGE),
    (DataRow::TextAt, EMPTY, &[Int(1)], OUT_OF_RANGE),
    (DataRow::TextAt, NINE_BYTES, &[NIL], WRONG_KIND),
    (DataRow::TextAt, NINE_BYTES, &[ANN], WRONG_KIND),
    (DataRow::TextCopy, HELLO, &[Int(0), Int(3)], OUT_OF_RANGE),
    (DataRow::TextCopy, HELLO, &[Int(2), Int(6)], OUT_OF_RANGE),
    (DataRow::TextCopy, HELLO, &[Int(3), Int(1)], OUT_OF_RANGE),
    (DataRow::TextCopy, HELLO, &[Int(7), Int(6)], OUT_OF_RANGE),
    (DataRow::TextCopy, HELLO, &[Int(7), Int(5)], OUT_OF_RANGE),
    (
        DataRow::TextCopy,
        HELLO,
        &[Int(i64::MIN), Int(i64::MAX)],
        OUT_OF_RANGE,
    ),
    (
        DataRow::TextCopy,
        HELLO,
        &[Int(i64::MAX), Int(i64::MIN)],
        OUT_OF_RANGE,
    ),
    (DataRow::TextCopy, HELLO, &[NIL, Int(1)], WRONG_KIND),
    (DataRow::TextCopy, HELLO, &[Int(0), ANN], WRONG_KIND),
    (DataRow::TextJoin, ANN, &[AT_PUT], WRONG_KIND),
    (DataRow::TextJoin, ANN, &[NIL], WRONG_KIND),
    (DataRow::TextJoin, ANN, &[PAIR], WRONG_KIND),
];

const COMPARISONS_OF_TEXTS: &[Row] = &[
    (DataRow::TextEqual, ANN, &[ANN], YES),
    (DataRow::TextEqual, ANN, &[ANN_AGAIN], YES),
    (DataRow::TextEqual, ANN, &[ANNA], NO),
    (DataRow::TextEqual, ANNA, &[ANN], NO),
    (DataRow::TextEqual, ANN, &[BOB], NO),
    (DataRow::TextEqual, EMPTY, &[EMPTY], YES),
    (DataRow::TextEqual, ANN, &[AT_PUT], NO),
    (DataRow::TextEqual, EMPTY, &[NO_ITEMS], NO),
    (DataRow::TextEqual, EMPTY, &[NIL], NO),
    (DataRow::TextLess, ANN, &[ANNA], YES),
    (DataRow::TextLess, ANNA, &[ANN], NO),
    (DataRow::TextLess, ANN, &[ANN_AGAIN], NO),
    (DataRow::TextLess, ANNA, &[BOB], YES),
    (DataRow::TextLess, BOB, &[ANN], NO),
    (DataRow::TextLess, EMPTY, &[ANN], YES),
    (DataRow::TextLess, EMPTY, &[EMPTY], NO),
    (DataRow::TextLess, ANN, &[NINE_BYTES], YES),
    (DataRow::TextLess, ANN, &[AT_PUT], WRONG_KIND),
    (DataRow::TextLess, ANN, &[Int(1)], WRONG_KIND),
];

const ROWS_OF_SYMBOLS: &[Row] = &[
    (DataRow::SymbolSize, PLUS, &[], Ok(Int(1))),
    (DataRow::SymbolSize, AT_PUT, &[], Ok(Int(7))),
    (DataRow::SymbolSize, PACKAGE_USING, &[], Ok(Int(13))),
    (DataRow::SymbolSize, NOT_UNDERSTOOD, &[], Ok(Int(18))),
    (DataRow::SymbolLess, PLUS, &[AT_PUT], YES),
    (DataRow::SymbolLess, AT_PUT, &[PLUS], NO),
    (DataRow::SymbolLess, AT_PUT, &[AT_PUT], NO),
    (DataRow::SymbolLess, AT_PUT, &[NOT_UNDERSTOOD], YES),
    (DataRow::SymbolLess, PACKAGE_USING, &[NOT_UNDERSTOOD], NO),
    (DataRow::SymbolLess, AT_PUT, &[ANN], WRONG_KIND),
    (DataRow::SymbolLess, AT_PUT, &[Int(1)], WRONG_KIND),
];

const ROWS_OF_ARRAYS: &[Row] = &[
    (DataRow::ArraySize, PAIR, &[], Ok(Int(2))),
    (DataRow::ArraySize, NO_ITEMS, &[], Ok(Int(0))),
    (DataRow::ArrayAt, PAIR, &[Int(1)], Ok(Int(7))),
    (DataRow::ArrayAt, PAIR, &[Int(2)], Ok(ANN)),
    (DataRow::ArrayAt, PAIR, &[Int(0)], OUT_OF_RANGE),
    (DataRow::ArrayAt, PAIR, &[Int(3)], OUT_OF_RANGE),
    (DataRow::ArrayAt, PAIR, &[Int(i64::MIN)], OUT_OF_RANGE),
    (DataRow::ArrayAt, NO_ITEMS, &[Int(1)], OUT_OF_RANGE),
    (DataRow::ArrayAt, PAIR, &[NIL], WRONG_KIND),
    (DataRow::ArrayAt, PAIR, &[AT_PUT], WRONG_KIND),
    (DataRow::NewArray, ARRAY, &[NIL], WRONG_KIND),
    (DataRow::NewArray, ARRAY, &[ANN], WRONG_KIND),
    (DataRow::NewArray, ARRAY, &[Int(-1)], OUT_OF_RANGE),
    (DataRow::NewArray, ARRAY, &[Int(i64::MIN)], OUT_OF_RANGE),
    (DataRow::NewArray, ARRAY, &[Int(64_000_001)], OUT_OF_RANGE),
    (DataRow::NewArray, ARRAY, &[Int(i64::MAX)], OUT_OF_RANGE),
];

/// Each row answers so, and the cells used stay as they were.
#[test]
fn rows_of_data_answer_and_make_no_cell(rt: HostRuntime) {
    for table in [
        ROWS_OF_ALL_VALUES,
        ROWS_OF_MESSAGES,
        ROWS_OF_BOOLEANS,
        ROWS_OF_TEXTS,
        COMPARISONS_OF_TEXTS,
        ROWS_OF_SYMBOLS,
        ROWS_OF_ARRAYS,
    ] {
        assert!(rt; are_answered(rt.alloc(), table));
    }
}

fn are_answered(alloc: Global, table: &[Row]) -> bool {
    'rows: for row in table {
        if !is_answered(alloc, row) {
            return false;
        }
    }
    true
}

fn is_answered(alloc: Global, row: &Row) -> bool {
    let (row, receiver, args, want) = *row;
    let Some(mut w) = set_up(alloc) else {
        return false;
    };
    ask_datum(&mut w, row, receiver, args) == Some(want) && w.world.counters().cells == USED
}
