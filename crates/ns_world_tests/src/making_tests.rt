//! Rows of data that make a cell or write one: what they make, and what they do where it doesn't
//! fit.

ghost use Rattle.std.specs.Prelude.{◌≡◌};
ghost use Rattle.ns_world_setting.specs.Program.{program_code as the_code};
ghost use Rattle.ns_world_setting.specs.Ready.{WorldIsReady};

use ns_base::selector::Sel;
use ns_world::cell::NewCell;
use ns_world::ending::{Fault, Kind, LimitKind};
use ns_world::kernel::NO_CLASS;
use ns_world::kernel_parts::DataRow;
use ns_world::value::Value::{Int, Sym};
use ns_world::value::{KClass, Value};
use ns_world_setting::asking::ask_datum;
use ns_world_setting::looking::{item, says, shape};
use ns_world_setting::setting::{
    ANN, ANNA, ELEVEN_BYTES, EMPTY, HELLO, ITS, MESSAGE, NO_ITEMS, PAIR, QUOTES, Setting,
    TWELVE_BYTES, USED, set_up, with_room,
};
use std::alloc::Global;

const NIL: Value = Value::Nil;

const ARRAY: Value = Value::Kernel(KClass::Array);

const WRONG_KIND: Result<Value, Fault> = Err(Fault::Kind(Kind::WrongKind));

const OUT_OF_RANGE: Result<Value, Fault> = Err(Fault::Kind(Kind::OutOfRange));

const NO_CELL: Result<Value, Fault> = Err(Fault::Limit(LimitKind::Cells));

/// A row, its receiver, its arguments, and the text that it answers.
type NewText = (DataRow, Value, &'static [Value], &'static str);

const NEW_TEXTS: &[NewText] = &[
    (DataRow::NilPrint, NIL, &[], "nil"),
    (DataRow::BooleanPrint, Value::True, &[], "true"),
    (DataRow::BooleanPrint, Value::False, &[], "false"),
    (DataRow::IntegerPrint, Int(0), &[], "0"),
    (DataRow::IntegerPrint, Int(-7), &[], "-7"),
    (DataRow::IntegerPrint, Int(120), &[], "120"),
    (DataRow::IntegerPrint, Int(12_345_678), &[], "12345678"),
    (
        DataRow::IntegerPrint,
        Int(i64::MAX),
        &[],
        "9223372036854775807",
    ),
    (
        DataRow::IntegerPrint,
        Int(i64::MIN),
        &[],
        "-9223372036854775808",
    ),
    (DataRow::TextCopy, HELLO, &[Int(1), Int(5)], "Hello"),
    (DataRow::TextCopy, HELLO, &[Int(2), Int(4)], "ell"),
    (DataRow::TextCopy, HELLO, &[Int(3), Int(3)], "l"),
    (DataRow::TextCopy, HELLO, &[Int(1), Int(0)], ""),
    (DataRow::TextCopy, HELLO, &[Int(6), Int(5)], ""),
    (DataRow::TextCopy, EMPTY, &[Int(1), Int(0)], ""),
    (
        DataRow::TextCopy,
        TWELVE_BYTES,
        &[Int(1), Int(8)],
        "twelve b",
    ),
    (
        DataRow::TextCopy,
        TWELVE_BYTES,
        &[Int(4), Int(12)],
        "lve bytes",
    ),
    (DataRow::TextJoin, ANN, &[ITS], "Annit's"),
    (DataRow::TextJoin, ANN, &[ANN], "AnnAnn"),
    (DataRow::TextJoin, EMPTY, &[EMPTY], ""),
    (
        DataRow::TextJoin,
        TWELVE_BYTES,
        &[ELEVEN_BYTES],
        "twelve byteseleven byte",
    ),
    (DataRow::TextPrint, EMPTY, &[], "''"),
    (DataRow::TextPrint, ANN, &[], "'Ann'"),
    (DataRow::TextPrint, ITS, &[], "'it''s'"),
    (DataRow::TextPrint, QUOTES, &[], "''''''"),
    (DataRow::SymbolText, Sym(Sel(13)), &[], "+"),
    (DataRow::SymbolText, Sym(Sel(14)), &[], "at:put:"),
    (DataRow::SymbolText, Sym(Sel(44)), &[], "doesNotUnderstand:"),
    (DataRow::SymbolPrint, Sym(Sel(13)), &[], "#+"),
    (DataRow::SymbolPrint, Sym(Sel(14)), &[], "#at:put:"),
    (DataRow::SymbolPrint, Sym(Sel(43)), &[], "#main:args:"),
];

/// Where a text fits exactly it is made, and where one cell is missing nothing is.
#[test]
fn new_texts_fit_exactly_or_not_at_all(rt: HostRuntime) {
    assert!(rt; texts_fit(rt.alloc()));
}

fn texts_fit(alloc: Global) -> bool {
    'rows: for row in NEW_TEXTS {
        if !is_made(alloc, row) || !is_too_large(alloc, row) {
            return false;
        }
    }
    true
}

fn is_made(alloc: Global, row: &NewText) -> bool {
    let (row, receiver, args, want) = *row;
    let Some(mut w) = with_room(alloc, cost_of(want)) else {
        return false;
    };
    let text = answer(ask_datum(&mut w, row, receiver, args));
    says(&w.world, text, want.as_bytes()) && w.world.counters().cells == 200
}

fn is_too_large(alloc: Global, row: &NewText) -> bool {
    let (row, receiver, args, want) = *row;
    let Some(mut w) = with_room(alloc, cost_of(want).saturating_sub(1)) else {
        return false;
    };
    is_refused(&mut w, row, receiver, args)
}

/// Whether a row has no room, and takes none.
fn is_refused(w: &mut Setting, row: DataRow, receiver: Value, args: &[Value]) -> bool
    requires code { w.old.code ≡ the_code }
    requires ready { WorldIsReady w.old.world }
{
    let used = w.world.counters().cells;
    ask_datum(w, row, receiver, args) == Some(NO_CELL) && w.world.counters().cells == used
}

/// How many cells a text takes: one, and one for each eight bytes that it begins.
fn cost_of(text: &str) -> u64 {
    1 + (text.len() as u64).div_ceil(8)
}

/// The value that was answered, nil where there is none.
fn answer(found: Option<Result<Value, Fault>>) -> Value {
    match found {
        Some(Ok(value)) => value,
        _ => NIL,
    }
}

/// A row, its receiver, its arguments, what it makes, and how many cells that takes.
type NewShape = (DataRow, KClass, &'static [Value], NewCell, u64);

const NEW_SHAPES: &[NewShape] = &[
    (
        DataRow::NewObject,
        KClass::Object,
        &[],
        NewCell::Object {
            class: NO_CLASS,
            words: 0,
        },
        1,
    ),
    (
        DataRow::NewArray,
        KClass::Array,
        &[Int(0)],
        NewCell::Array { size: 0 },
        1,
    ),
    (
        DataRow::NewArray,
        KClass::Array,
        &[Int(3)],
        NewCell::Array { size: 3 },
        4,
    ),
    (
        DataRow::NewArray,
        KClass::Array,
        &[Int(100)],
        NewCell::Array { size: 100 },
        101,
    ),
];

/// An object has the number of cells that were used before. `new:` with a size that no world holds
/// is out of range, and one that this world doesn't hold is a limit.
#[test]
fn new_objects_and_arrays_fit_exactly_or_not_at_all(rt: HostRuntime) {
    assert!(rt; shapes_fit(rt.alloc()));
}

fn shapes_fit(alloc: Global) -> bool {
    'rows: for row in NEW_SHAPES {
        if !is_shaped(alloc, row) || !is_too_wide(alloc, row) {
            return false;
        }
    }
    true
}

fn is_shaped(alloc: Global, row: &NewShape) -> bool {
    let (row, class, args, made, cost) = *row;
    let Some(mut w) = with_room(alloc, cost) else {
        return false;
    };
    let place = Value::Ref(200_u64.saturating_sub(cost) as u32);
    ask_datum(&mut w, row, Value::Kernel(class), args) == Some(Ok(place))
        && shape(&w.world, place) == Some(made)
        && w.world.counters().cells == 200
}

fn is_too_wide(alloc: Global, row: &NewShape) -> bool {
    let (row, class, args, _, cost) = *row;
    let Some(mut w) = with_room(alloc, cost.saturating_sub(1)) else {
        return false;
    };
    is_refused(&mut w, row, Value::Kernel(class), args)
}

#[test]
fn new_arrays_hold_nils(rt: HostRuntime) {
    assert!(rt; holds_two_nils(rt.alloc()));
}

fn holds_two_nils(alloc: Global) -> bool {
    let Some(mut w) = set_up(alloc) else {
        return false;
    };
    let array = Value::Ref(USED as u32);
    ask_datum(&mut w, DataRow::NewArray, ARRAY, &[Int(2)]) == Some(Ok(array))
        && item(&w.world, array, 0) == Some(NIL)
        && item(&w.world, array, 1) == Some(NIL)
        && item(&w.world, array, 2).is_none()
}

/// An array, a place, a value, what `at:put:` answers, and the two elements of `PAIR` after it.
type Store = (Value, Value, Value, Result<Value, Fault>, [Value; 2]);

const STORES: [Store; 10] = [
    (PAIR, Int(1), Int(8), Ok(Int(8)), [Int(8), ANN]),
    (PAIR, Int(2), ANNA, Ok(ANNA), [Int(7), ANNA]),
    (PAIR, Int(2), NIL, Ok(NIL), [Int(7), NIL]),
    (PAIR, Int(1), PAIR, Ok(PAIR), [PAIR, ANN]),
    (PAIR, Int(0), Int(8), OUT_OF_RANGE, [Int(7), ANN]),
    (PAIR, Int(3), Int(8), OUT_OF_RANGE, [Int(7), ANN]),
    (PAIR, Int(i64::MAX), Int(8), OUT_OF_RANGE, [Int(7), ANN]),
    (PAIR, NIL, Int(8), WRONG_KIND, [Int(7), ANN]),
    (PAIR, ANN, Int(8), WRONG_KIND, [Int(7), ANN]),
    (NO_ITEMS, Int(1), Int(8), OUT_OF_RANGE, [Int(7), ANN]),
];

#[test]
fn elements_are_stored_alone(rt: HostRuntime) {
    assert!(rt; are_stored(rt.alloc()));
}

fn are_stored(alloc: Global) -> bool {
    'rows: for row in &STORES {
        if !is_stored(alloc, *row) {
            return false;
        }
    }
    true
}

fn is_stored(alloc: Global, row: Store) -> bool {
    let (array, place, value, want, after) = row;
    let Some(mut w) = set_up(alloc) else {
        return false;
    };
    ask_datum(&mut w, DataRow::ArrayPut, array, &[place, value]) == Some(want)
        && item(&w.world, PAIR, 0) == Some(after[0])
        && item(&w.world, PAIR, 1) == Some(after[1])
        && w.world.counters().cells == USED
}

/// A row, its receiver, its arguments, and what it answers where no cell is left.
type Full = (DataRow, Value, &'static [Value], Result<Value, Fault>);

const FULL: &[Full] = &[
    (DataRow::NewArray, ARRAY, &[ANN], WRONG_KIND),
    (DataRow::NewArray, ARRAY, &[Int(-1)], OUT_OF_RANGE),
    (DataRow::NewArray, ARRAY, &[Int(64_000_001)], OUT_OF_RANGE),
    (DataRow::NewArray, ARRAY, &[Int(64_000_000)], NO_CELL),
    (DataRow::NewArray, ARRAY, &[Int(0)], NO_CELL),
    (DataRow::TextCopy, HELLO, &[Int(3), Int(1)], OUT_OF_RANGE),
    (DataRow::TextCopy, HELLO, &[Int(3), NIL], WRONG_KIND),
    (DataRow::TextCopy, HELLO, &[Int(1), Int(0)], NO_CELL),
    (DataRow::TextJoin, HELLO, &[MESSAGE], WRONG_KIND),
    (DataRow::TextJoin, HELLO, &[EMPTY], NO_CELL),
];

/// A fault comes before the charge.
#[test]
fn faults_come_before_charges(rt: HostRuntime) {
    assert!(rt; are_faulted(rt.alloc()));
}

fn are_faulted(alloc: Global) -> bool {
    'rows: for row in FULL {
        if !is_faulted(alloc, row) {
            return false;
        }
    }
    true
}

fn is_faulted(alloc: Global, row: &Full) -> bool {
    let (row, receiver, args, want) = *row;
    let Some(mut w) = with_room(alloc, 0) else {
        return false;
    };
    ask_datum(&mut w, row, receiver, args) == Some(want) && w.world.counters().cells == 200
}
