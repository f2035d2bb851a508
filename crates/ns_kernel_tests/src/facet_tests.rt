//! Rows of the platform's objects: classes, facets, prints, and the board.

ghost use Rattle.std.specs.Prelude.{◌≡◌, IfSome};
ghost use Rattle.ns_world_setting.specs.Program.{program_code as the_code};
ghost use Rattle.ns_world_setting.specs.Ready.{WorldIsReady};

use ns_base::selector::Sel;
use ns_facets::board::{Board, Plain};
use ns_world::ending::{Fault, Kind, LimitKind};
use ns_world::kernel_parts::FacetRow;
use ns_world::value::Value::{Int, Sym};
use ns_world::value::{KClass, Value};
use ns_world_setting::asking::ask_facet;
use ns_world_setting::setting::{
    ANN, BASE, BASE_OBJECT, BLOCK, ELEVEN_BYTES, EMPTY, HELLO, MESSAGE, PAIR, SUB, Setting,
    TWELVE_BYTES, USED, print, set_up, set_up_bare,
};
use std::alloc::Global;

const NIL: Value = Value::Nil;

const AT_PUT: Value = Sym(Sel(14));

const OBJECT: Value = Value::Kernel(KClass::Object);

const ARRAY: Value = Value::Kernel(KClass::Array);

const DONE: Result<Value, Fault> = Ok(NIL);

const WRONG_KIND: Result<Value, Fault> = Err(Fault::Kind(Kind::WrongKind));

const OUT_OF_RANGE: Result<Value, Fault> = Err(Fault::Kind(Kind::OutOfRange));

const OUT_LIMIT: Result<Value, Fault> = Err(Fault::Limit(LimitKind::Out));

/// A row without arguments, its receiver, and what it answers in the world that has all facets, and
/// in one that has no cells. Two classes are named Base, and the first is found.
const FACETS: [(FacetRow, u32, Value, Value); 8] = [
    (FacetRow::Top(Sel(0)), 0, BASE, NIL),
    (FacetRow::Top(Sel(2)), 0, SUB, NIL),
    (FacetRow::PlatformConsole, 1, Value::Ref(2), NIL),
    (FacetRow::PlatformMirrors, 1, Value::Ref(3), NIL),
    (FacetRow::PlatformKernel, 1, Value::Ref(4), NIL),
    (FacetRow::PlatformBoard, 1, Value::Ref(5), NIL),
    (FacetRow::KernelObject, 4, OBJECT, OBJECT),
    (FacetRow::KernelArray, 4, ARRAY, ARRAY),
];

#[test]
fn classes_and_facets_are_answered_where_they_are(rt: HostRuntime) {
    assert!(rt; are_given(rt.alloc()));
}

fn are_given(alloc: Global) -> bool {
    'rows: for (row, receiver, want, bare) in FACETS {
        if !gives(set_up(alloc), row, receiver, want)
            || !gives(set_up_bare(alloc), row, receiver, bare)
        {
            return false;
        }
    }
    true
}

/// Whether a row answers that, and makes no cell.
fn gives(w: Option<Setting>, row: FacetRow, receiver: u32, want: Value) -> bool
    requires code { IfSome w (λ w. w.code ≡ the_code) }
    requires ready { IfSome w (λ w. WorldIsReady w.world) }
{
    let Some(mut w) = w else {
        return false;
    };
    let used = w.world.counters().cells;
    let mut board = Board::new();
    ask_facet(&mut w, row, receiver, &[], &mut board) == Some(Ok(want))
        && w.world.counters().cells == used
}

/// What was printed before, a row, what it prints, what it answers, and all the output after it. The
/// limit is 12 bytes.
type Print = (
    &'static str,
    FacetRow,
    Value,
    Result<Value, Fault>,
    &'static str,
);

const PRINTS: &[Print] = &[
    ("", FacetRow::ConsolePrint, HELLO, DONE, "Hello"),
    ("", FacetRow::ConsolePrintLine, HELLO, DONE, "Hello\n"),
    ("", FacetRow::ConsolePrint, EMPTY, DONE, ""),
    ("", FacetRow::ConsolePrintLine, EMPTY, DONE, "\n"),
    ("", FacetRow::ConsolePrint, Int(-120), DONE, "-120"),
    ("", FacetRow::ConsolePrintLine, Int(0), DONE, "0\n"),
    ("", FacetRow::ConsolePrint, AT_PUT, DONE, "at:put:"),
    ("", FacetRow::ConsolePrintLine, AT_PUT, DONE, "at:put:\n"),
    ("Ann", FacetRow::ConsolePrintLine, HELLO, DONE, "AnnHello\n"),
    (
        "",
        FacetRow::ConsolePrint,
        TWELVE_BYTES,
        DONE,
        "twelve bytes",
    ),
    ("", FacetRow::ConsolePrintLine, TWELVE_BYTES, OUT_LIMIT, ""),
    (
        "",
        FacetRow::ConsolePrintLine,
        ELEVEN_BYTES,
        DONE,
        "eleven byte\n",
    ),
    (
        "1",
        FacetRow::ConsolePrint,
        ELEVEN_BYTES,
        DONE,
        "1eleven byte",
    ),
    ("1", FacetRow::ConsolePrint, TWELVE_BYTES, OUT_LIMIT, "1"),
    (
        "1",
        FacetRow::ConsolePrintLine,
        ELEVEN_BYTES,
        OUT_LIMIT,
        "1",
    ),
    (
        "",
        FacetRow::ConsolePrint,
        Int(123_456_789_012),
        DONE,
        "123456789012",
    ),
    (
        "",
        FacetRow::ConsolePrint,
        Int(1_234_567_890_123),
        OUT_LIMIT,
        "",
    ),
    (
        "",
        FacetRow::ConsolePrintLine,
        Int(12_345_678_901),
        DONE,
        "12345678901\n",
    ),
    (
        "",
        FacetRow::ConsolePrintLine,
        Int(123_456_789_012),
        OUT_LIMIT,
        "",
    ),
    (
        "12345",
        FacetRow::ConsolePrint,
        AT_PUT,
        DONE,
        "12345at:put:",
    ),
    (
        "12345",
        FacetRow::ConsolePrintLine,
        AT_PUT,
        OUT_LIMIT,
        "12345",
    ),
    (
        "123456789012",
        FacetRow::ConsolePrint,
        EMPTY,
        DONE,
        "123456789012",
    ),
    (
        "123456789012",
        FacetRow::ConsolePrintLine,
        EMPTY,
        OUT_LIMIT,
        "123456789012",
    ),
    ("", FacetRow::ConsolePrint, NIL, WRONG_KIND, ""),
    ("", FacetRow::ConsolePrintLine, NIL, WRONG_KIND, ""),
    ("", FacetRow::ConsolePrint, Value::True, WRONG_KIND, ""),
    ("", FacetRow::ConsolePrint, PAIR, WRONG_KIND, ""),
    ("", FacetRow::ConsolePrintLine, BASE, WRONG_KIND, ""),
    ("", FacetRow::ConsolePrintLine, BASE_OBJECT, WRONG_KIND, ""),
    ("", FacetRow::ConsolePrintLine, MESSAGE, WRONG_KIND, ""),
    ("", FacetRow::ConsolePrintLine, BLOCK, WRONG_KIND, ""),
    (
        "",
        FacetRow::ConsolePrint,
        Value::Kernel(KClass::Array),
        WRONG_KIND,
        "",
    ),
    (
        "123456789012",
        FacetRow::ConsolePrintLine,
        NIL,
        WRONG_KIND,
        "123456789012",
    ),
];

#[test]
fn prints_fit_whole_or_not_at_all(rt: HostRuntime) {
    assert!(rt; are_printed(rt.alloc()));
}

fn are_printed(alloc: Global) -> bool {
    'rows: for row in PRINTS {
        if !is_printed(alloc, row) {
            return false;
        }
    }
    true
}

fn is_printed(alloc: Global, row: &Print) -> bool {
    let (before, row, value, want, out) = *row;
    let Some(mut w) = with_output(alloc, before) else {
        return false;
    };
    let mut board = Board::new();
    ask_facet(&mut w, row, 2, &[value], &mut board) == Some(want)
        && w.world.output() == out.as_bytes()
        && w.world.counters().out == out.len() as u64
        && w.world.counters().cells == USED
}

/// The program and its world, in which that was printed.
fn with_output(alloc: Global, before: &str) -> Option<Setting>
    ensures code { IfSome result (λ w. w.code ≡ the_code) }
    ensures ready { IfSome result (λ w. WorldIsReady w.world) }
{
    let mut w = set_up(alloc)?;
    match print(&mut w.world, before.as_bytes()) {
        Ok(()) => Some(w),
        Err(_) => None,
    }
}

/// A place, a value, what `at:put:` answers, and the place from 0 that holds it then. The place's kind
/// is tried first, then its range, then the value.
type Store = (Value, Value, Result<Value, Fault>, Option<(usize, Plain)>);

const STORES: &[Store] = &[
    (Int(1), Value::True, Ok(Value::True), Some((0, Plain::True))),
    (
        Int(2),
        Value::False,
        Ok(Value::False),
        Some((1, Plain::False)),
    ),
    (Int(64), Int(-3), Ok(Int(-3)), Some((63, Plain::Int(-3)))),
    (Int(7), NIL, Ok(NIL), Some((6, Plain::Nil))),
    (Int(0), Int(1), OUT_OF_RANGE, None),
    (Int(65), Int(1), OUT_OF_RANGE, None),
    (Int(-1), Int(1), OUT_OF_RANGE, None),
    (Int(i64::MAX), Int(1), OUT_OF_RANGE, None),
    (NIL, Int(1), WRONG_KIND, None),
    (ANN, Int(1), WRONG_KIND, None),
    (NIL, ANN, WRONG_KIND, None),
    (Int(0), ANN, OUT_OF_RANGE, None),
    (Int(65), AT_PUT, OUT_OF_RANGE, None),
    (Int(1), ANN, WRONG_KIND, None),
    (Int(64), AT_PUT, WRONG_KIND, None),
    (Int(1), PAIR, WRONG_KIND, None),
    (Int(1), BASE_OBJECT, WRONG_KIND, None),
    (Int(1), Value::Kernel(KClass::Object), WRONG_KIND, None),
];

/// Only the place that is named changes. After a fault none does.
#[test]
fn stores_on_the_board_change_one_place(rt: HostRuntime) {
    assert!(rt; are_stored(rt.alloc()));
}

fn are_stored(alloc: Global) -> bool {
    'rows: for row in STORES {
        if !is_stored(alloc, row) {
            return false;
        }
    }
    true
}

fn is_stored(alloc: Global, row: &Store) -> bool {
    let (place, value, want, after) = *row;
    let mut board = Board {
        places: [Plain::Int(9); 64],
    };
    let Some(mut w) = set_up(alloc) else {
        return false;
    };
    ask_facet(&mut w, FacetRow::BoardPut, 5, &[place, value], &mut board) == Some(want)
        && holds(&board, after)
}

/// Whether a board holds 9 in each place but one that may have changed.
fn holds(board: &Board, after: Option<(usize, Plain)>) -> bool {
    'places: for number in 0..64 {
        if board.places[number] != held(after, number) {
            return false;
        }
    }
    true
}

/// What a place holds that held 9 before.
fn held(after: Option<(usize, Plain)>, number: usize) -> Plain {
    match after {
        Some((changed, plain)) => {
            if changed == number {
                plain
            } else {
                Plain::Int(9)
            }
        }
        None => Plain::Int(9),
    }
}

/// A place, and what `at:` answers on a board with values in the places 1, 2, 3 and 64.
const READS: [(Value, Result<Value, Fault>); 11] = [
    (Int(1), Ok(Int(1))),
    (Int(2), Ok(Value::True)),
    (Int(3), Ok(Value::False)),
    (Int(4), Ok(NIL)),
    (Int(64), Ok(Int(64))),
    (Int(0), OUT_OF_RANGE),
    (Int(65), OUT_OF_RANGE),
    (Int(i64::MIN), OUT_OF_RANGE),
    (NIL, WRONG_KIND),
    (AT_PUT, WRONG_KIND),
    (ANN, WRONG_KIND),
];

#[test]
fn places_of_the_board_are_read(rt: HostRuntime) {
    assert!(rt; are_read(rt.alloc()));
}

fn are_read(alloc: Global) -> bool {
    'rows: for row in &READS {
        if !is_read(alloc, *row) {
            return false;
        }
    }
    true
}

fn is_read(alloc: Global, row: (Value, Result<Value, Fault>)) -> bool {
    let (place, want) = row;
    let mut board = Board::new();
    board.places[0] = Plain::Int(1);
    board.places[1] = Plain::True;
    board.places[2] = Plain::False;
    board.places[63] = Plain::Int(64);
    let Some(mut w) = set_up(alloc) else {
        return false;
    };
    ask_facet(&mut w, FacetRow::BoardAt, 5, &[place], &mut board) == Some(want)
}
