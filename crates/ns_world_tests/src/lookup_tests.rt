//! Lookups, by the rules of access: a private member hides none above, a protected one answers sends
//! from within alone.

ghost use Rattle.std.specs.Prelude.{◌≡◌};
ghost use Rattle.ns_world_setting.specs.Program.{program_code as the_code};
ghost use Rattle.ns_world_setting.specs.Ready.{WorldIsReady};

use ns_base::selector::Sel;
use ns_find::found::{Found, Sending};
use ns_find::memo::Memo;
use ns_world::kernel_class::KernelRow;
use ns_world::kernel_parts::{DataRow, FacetRow, IntRow, KMethod, MirrorRow};
use ns_world::kernel_row::Row;
use ns_world::kernel_table::row_of;
use ns_world::value::{KClass, Value};
use ns_world_setting::asking::{
    ask_kept_lookup, ask_kernel_lookup, ask_lookup, ask_private, ask_super_lookup,
};
use ns_world_setting::setting::{
    ANN, BASE, BASE_OBJECT, BLOCK, MESSAGE, MIRROR, PAIR, PART, PART_OBJECT, SUB, SUB_OBJECT,
    Setting, set_up, set_up_bare,
};
use std::alloc::Global;

const PLAIN: Sending = Sending::Plain;

const INNER: Sending = Sending::Inner;

const MANIFEST: Value = Value::Ref(0);

const PLATFORM: Value = Value::Ref(1);

const CONSOLE: Value = Value::Ref(2);

const MIRRORS: Value = Value::Ref(3);

const KERNEL: Value = Value::Ref(4);

const BOARD: Value = Value::Ref(5);

const AT_PUT: Value = Value::Sym(Sel(14));

/// The methods, by their bodies and holders. The `bar` of Sub has the body of `baz`.
const BAR: Found = Found::Method { body: 1, holder: 6 };

const HID: Found = Found::Method { body: 2, holder: 6 };

const SEC: Found = Found::Method { body: 3, holder: 6 };

const FOO: Found = Found::Method { body: 4, holder: 6 };

const MAKE: Found = Found::Method { body: 5, holder: 6 };

const HID_OF_SIDE: Found = Found::Method { body: 6, holder: 6 };

const BAZ: Found = Found::Method {
    body: 9,
    holder: 10,
};

/// The slots, by their words: those of Sub stand behind those of Base and its nested class.
const GET_X: Found = Found::Getter { holder: 6, word: 0 };

const GET_Y: Found = Found::Getter { holder: 6, word: 1 };

const SET_Y: Found = Found::Setter { holder: 6, word: 1 };

const GET_X_OF_SUB: Found = Found::Getter {
    holder: 10,
    word: 3,
};

const SET_X_OF_SUB: Found = Found::Setter {
    holder: 10,
    word: 3,
};

const GET_Z: Found = Found::Getter {
    holder: 10,
    word: 4,
};

const PART_OF_BASE: Found = Found::Nested {
    class: 1,
    holder: 6,
};

/// A receiver, a selector, the kind of the send, and what is found.
type Lookup = (Value, u32, Sending, Found);

const OF_OBJECTS: &[Lookup] = &[
    (BASE_OBJECT, 6, PLAIN, FOO),
    (SUB_OBJECT, 12, PLAIN, BAZ),
    (SUB_OBJECT, 6, PLAIN, FOO),
    // the nearest of two
    (BASE_OBJECT, 9, PLAIN, BAR),
    (SUB_OBJECT, 9, PLAIN, BAZ),
    (BASE_OBJECT, 12, INNER, Found::Absent),
    // protected
    (BASE_OBJECT, 7, PLAIN, Found::NotPublic),
    (BASE_OBJECT, 7, INNER, HID),
    (SUB_OBJECT, 7, PLAIN, Found::NotPublic),
    (SUB_OBJECT, 7, INNER, HID),
    // private
    (BASE_OBJECT, 8, PLAIN, Found::Absent),
    (BASE_OBJECT, 8, INNER, Found::Absent),
    // `x` is public in Base and private in Sub
    (BASE_OBJECT, 3, PLAIN, GET_X),
    (SUB_OBJECT, 3, PLAIN, GET_X),
    (SUB_OBJECT, 3, INNER, GET_X),
    // `y` is protected and mutable
    (BASE_OBJECT, 4, PLAIN, Found::NotPublic),
    (SUB_OBJECT, 4, INNER, GET_Y),
    (BASE_OBJECT, 16, PLAIN, Found::NotPublic),
    (SUB_OBJECT, 16, INNER, SET_Y),
    // `z` and the `x` of Base are immutable
    (SUB_OBJECT, 5, PLAIN, GET_Z),
    (SUB_OBJECT, 17, INNER, Found::Absent),
    (BASE_OBJECT, 15, INNER, Found::Absent),
    (BASE_OBJECT, 11, PLAIN, PART_OF_BASE),
    (SUB_OBJECT, 11, PLAIN, PART_OF_BASE),
    (PART_OBJECT, 6, INNER, Found::Absent),
];

const OF_CLASSES: &[Lookup] = &[
    (BASE, 1, PLAIN, Found::Factory { class: 6 }),
    (SUB, 1, PLAIN, Found::Factory { class: 10 }),
    (PART, 1, PLAIN, Found::Factory { class: 28 }),
    (BASE_OBJECT, 1, PLAIN, Found::Absent),
    (SUB, 10, PLAIN, MAKE),
    (SUB, 7, PLAIN, Found::NotPublic),
    (SUB, 7, INNER, HID_OF_SIDE),
    (SUB, 12, PLAIN, Found::Absent),
    (BASE_OBJECT, 10, PLAIN, Found::Absent),
    (MANIFEST, 0, PLAIN, Found::Kernel(60)),
    (MANIFEST, 11, PLAIN, Found::Absent),
    (Value::Int(3), 0, PLAIN, Found::Absent),
];

const OF_KERNEL_VALUES: &[Lookup] = &[
    (Value::Int(3), 13, PLAIN, Found::Kernel(20)),
    (Value::Int(3), 14, PLAIN, Found::Absent),
    (PAIR, 36, PLAIN, Found::Absent),
    (KERNEL, 18, PLAIN, Found::Absent),
    (Value::Int(3), 44, PLAIN, Found::NotPublic),
    (BASE_OBJECT, 44, INNER, Found::Kernel(5)),
];

/// Each lookup finds that, and also where it is kept.
#[test]
fn lookups_find_the_nearest_member_that_may_answer(rt: HostRuntime) {
    for table in [OF_OBJECTS, OF_CLASSES, OF_KERNEL_VALUES] {
        assert!(rt; are_found(rt.alloc(), table));
    }
}

fn are_found(alloc: Global, table: &[Lookup]) -> bool {
    'rows: for row in table {
        if !is_found(alloc, row) {
            return false;
        }
    }
    true
}

#[tactic(auto, using(crate::proofs::Empty::empty_is_right))]
fn is_found(alloc: Global, row: &Lookup) -> bool {
    let (receiver, sel, kind, want) = *row;
    let Some(w) = set_up(alloc) else {
        return false;
    };
    let Ok(mut memo) = Memo::new(alloc) else {
        return false;
    };
    ask_lookup(&w, receiver, sel, kind) == Some(want)
        && ask_kept_lookup(&w, &mut memo, receiver, sel, kind) == Some(want)
        && ask_kept_lookup(&w, &mut memo, receiver, sel, kind) == Some(want)
}

/// A holder, a selector, and the private member of that name.
const PRIVATE: &[(u32, u32, Found)] = &[
    (6, 8, SEC),
    (10, 3, GET_X_OF_SUB),
    (10, 15, SET_X_OF_SUB),
    (6, 6, Found::Absent),
    (6, 7, Found::Absent),
    (10, 8, Found::Absent),
];

#[test]
fn private_members_are_those_of_one_class(rt: HostRuntime) {
    assert!(rt; are_private(rt.alloc()));
}

fn are_private(alloc: Global) -> bool {
    let Some(w) = set_up(alloc) else {
        return false;
    };
    'rows: for (holder, sel, want) in PRIVATE {
        if ask_private(&w, *holder, *sel) != Some(*want) {
            return false;
        }
    }
    true
}

/// A holder, whether the code is of its class side, a selector, and what is found above.
const ABOVE: &[(u32, bool, u32, Found)] = &[
    (10, false, 9, BAR),
    (10, false, 7, HID),
    (10, false, 3, GET_X),
    (10, false, 12, Found::Absent),
    (6, false, 6, Found::Absent),
    (10, true, 10, MAKE),
    (10, true, 1, Found::Absent),
    (10, true, 19, Found::Kernel(8)),
];

#[test]
fn sends_to_super_start_above_and_find_no_factory(rt: HostRuntime) {
    assert!(rt; are_above(rt.alloc()));
}

fn are_above(alloc: Global) -> bool {
    let Some(w) = set_up(alloc) else {
        return false;
    };
    'rows: for (holder, side, sel, want) in ABOVE {
        if ask_super_lookup(&w, *holder, *side, *sel) != Some(*want) {
            return false;
        }
    }
    true
}

/// A receiver, a selector, and the row of the kernel that answers: the first and the last of each
/// class.
const ROWS: &[(Value, u32, Row)] = &[
    (Value::Int(3), 41, Row::Data(DataRow::Identical)),
    (BASE_OBJECT, 44, Row::Data(DataRow::DoesNotUnderstand)),
    (
        Value::Kernel(KClass::Object),
        1,
        Row::Data(DataRow::NewObject),
    ),
    (
        Value::Kernel(KClass::Array),
        20,
        Row::Data(DataRow::NewArray),
    ),
    (BASE, 19, Row::Apply),
    (Value::Nil, 21, Row::Data(DataRow::NilPrint)),
    (Value::True, 22, Row::Data(DataRow::Not)),
    (Value::False, 23, Row::Method(KMethod::IfFalseIfTrue)),
    (Value::Int(3), 13, Row::Integer(IntRow::Add)),
    (Value::Int(3), 24, Row::Integer(IntRow::Quotient)),
    (Value::Int(3), 25, Row::Method(KMethod::TimesRepeat)),
    (ANN, 26, Row::Data(DataRow::TextSize)),
    (ANN, 21, Row::Data(DataRow::TextPrint)),
    (AT_PUT, 26, Row::Data(DataRow::SymbolSize)),
    (AT_PUT, 27, Row::Data(DataRow::SymbolLess)),
    (PAIR, 26, Row::Data(DataRow::ArraySize)),
    (PAIR, 28, Row::Method(KMethod::Do)),
    (BLOCK, 29, Row::Value),
    (BLOCK, 30, Row::Method(KMethod::WhileFalse)),
    (MANIFEST, 0, Row::Top),
    (PLATFORM, 18, Row::Facet(FacetRow::PlatformConsole)),
    (KERNEL, 31, Row::Facet(FacetRow::KernelObject)),
    (KERNEL, 32, Row::Facet(FacetRow::KernelArray)),
    (CONSOLE, 33, Row::Facet(FacetRow::ConsolePrint)),
    (CONSOLE, 34, Row::Facet(FacetRow::ConsolePrintLine)),
    (BOARD, 35, Row::Facet(FacetRow::BoardAt)),
    (BOARD, 14, Row::Facet(FacetRow::BoardPut)),
    (MIRRORS, 36, Row::Mirror(MirrorRow::On)),
    (MIRROR, 37, Row::Mirror(MirrorRow::ClassName)),
    (MIRROR, 38, Row::Mirror(MirrorRow::Perform)),
    (MESSAGE, 39, Row::Data(DataRow::MessageSelector)),
    (MESSAGE, 40, Row::Data(DataRow::MessageArguments)),
];

#[test]
fn rows_of_the_kernel_are_found_by_their_names(rt: HostRuntime) {
    assert!(rt; are_rows(rt.alloc()));
}

fn are_rows(alloc: Global) -> bool {
    let Some(w) = set_up(alloc) else {
        return false;
    };
    'rows: for (receiver, sel, want) in ROWS {
        if row_asked(&w, *receiver, *sel) != Some(*want) {
            return false;
        }
    }
    true
}

fn row_asked(w: &Setting, receiver: Value, sel: u32) -> Option<Row>
    requires code { w.now.code ≡ the_code }
    requires ready { WorldIsReady w.now.world }
{
    match ask_lookup(w, receiver, sel, INNER) {
        Some(Found::Kernel(number)) => Some(row_of(number)),
        _ => None,
    }
}

/// Platform answers the facets that were granted, and Manifest the classes that were made.
#[test]
fn a_world_without_cells_grants_nothing(rt: HostRuntime) {
    assert!(rt; is_bare(rt.alloc()));
}

fn is_bare(alloc: Global) -> bool {
    let Some(w) = set_up_bare(alloc) else {
        return false;
    };
    ask_kernel_lookup(&w, KernelRow::Platform, 18) == Found::Absent
        && ask_kernel_lookup(&w, KernelRow::Manifest, 0) == Found::Absent
        && ask_kernel_lookup(&w, KernelRow::Integer, 13) == Found::Kernel(20)
}
