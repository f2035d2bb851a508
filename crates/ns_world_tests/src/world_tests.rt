//! The cells of a world, classes that are made over values, and how many arguments selectors take.

use ns_base::selector::Sel;
use ns_classes::apply::MakeFault;
use ns_code::selector::text_arity;
use ns_world::cell::{FacetKind, NewCell};
use ns_world::kernel::NO_CLASS;
use ns_world::value::{KClass, Value};
use ns_world_setting::asking::ask_class;
use ns_world_setting::looking::shape;
use ns_world_setting::setting::{
    ANN, BASE, BASE_OBJECT, OTHER_BASE, PART, SUB, USED, set_up, with_room,
};
use std::alloc::Global;

const OBJECT: Value = Value::Kernel(KClass::Object);

/// Cells in the order in which they were made. The number of each is what those before it cost.
const CELLS: &[(u32, NewCell)] = &[
    (0, NewCell::Facet(FacetKind::Manifest)),
    (1, NewCell::Facet(FacetKind::Platform)),
    (2, NewCell::Facet(FacetKind::Console)),
    (3, NewCell::Facet(FacetKind::Mirrors)),
    (4, NewCell::Facet(FacetKind::Kernel)),
    (5, NewCell::Facet(FacetKind::Board)),
    (
        6,
        NewCell::Class {
            decl: 0,
            base: 0,
            encl: Value::Nil,
            holder: Value::Nil,
            over: OBJECT,
        },
    ),
    (
        10,
        NewCell::Class {
            decl: 2,
            base: 3,
            encl: Value::Nil,
            holder: Value::Nil,
            over: BASE,
        },
    ),
    (
        14,
        NewCell::Class {
            decl: 3,
            base: 0,
            encl: Value::Nil,
            holder: Value::Nil,
            over: OBJECT,
        },
    ),
    (18, NewCell::Object { class: 6, words: 3 }),
    (
        22,
        NewCell::Object {
            class: 10,
            words: 5,
        },
    ),
    (
        28,
        NewCell::Class {
            decl: 1,
            base: 0,
            encl: BASE_OBJECT,
            holder: BASE,
            over: OBJECT,
        },
    ),
    (
        32,
        NewCell::Object {
            class: 28,
            words: 0,
        },
    ),
    (
        33,
        NewCell::Object {
            class: NO_CLASS,
            words: 0,
        },
    ),
    (34, NewCell::Array { size: 2 }),
    (
        37,
        NewCell::Message {
            sel: Sel(14),
            args: Value::Ref(34),
        },
    ),
    (
        40,
        NewCell::Block {
            body: 11,
            env: Value::Nil,
            home: 0,
            receiver: BASE_OBJECT,
            holder: 6,
        },
    ),
    (43, NewCell::Text { bytes: 3 }),
    (49, NewCell::Text { bytes: 3 }),
    (51, NewCell::Text { bytes: 0 }),
    (52, NewCell::Text { bytes: 4 }),
    (56, NewCell::Text { bytes: 9 }),
    (59, NewCell::Text { bytes: 2 }),
    (67, NewCell::Array { size: 0 }),
    (68, NewCell::Array { size: 1 }),
    (70, NewCell::Mirror(Value::Int(3))),
];

#[test]
fn cells_cost_what_their_kind_and_size_say(rt: HostRuntime) {
    assert!(rt; are_there(rt.alloc()));
}

fn are_there(alloc: Global) -> bool {
    let Some(w) = set_up(alloc) else {
        return false;
    };
    'cells: for (number, cell) in CELLS {
        if shape(&w.world, Value::Ref(*number)) != Some(*cell) {
            return false;
        }
    }
    w.world.counters().cells == USED
}

/// A value, and what a class over it is. The world has room for one class.
const OVER: &[(Value, Result<u32, MakeFault>)] = &[
    (OBJECT, Ok(196)),
    (BASE, Ok(196)),
    (SUB, Ok(196)),
    (OTHER_BASE, Ok(196)),
    (PART, Ok(196)),
    (Value::Kernel(KClass::Array), Err(MakeFault::KernelSuper)),
    (Value::Nil, Err(MakeFault::NotAClass)),
    (Value::Int(3), Err(MakeFault::NotAClass)),
    (BASE_OBJECT, Err(MakeFault::NotAClass)),
    (ANN, Err(MakeFault::NotAClass)),
    (Value::Ref(0), Err(MakeFault::NotAClass)),
];

/// With a cell less the faults are the same, and no class is made.
#[test]
fn classes_stand_over_object_and_declared_classes(rt: HostRuntime) {
    assert!(rt; are_made(rt.alloc()));
}

fn are_made(alloc: Global) -> bool {
    'values: for (over, want) in OVER {
        let less = match want {
            Ok(_) => Err(MakeFault::CellLimit),
            Err(_) => *want,
        };
        if !is_made(alloc, 4, *over, *want) || !is_made(alloc, 3, *over, less) {
            return false;
        }
    }
    true
}

fn is_made(alloc: Global, room: u64, over: Value, want: Result<u32, MakeFault>) -> bool {
    let Some(mut w) = with_room(alloc, room) else {
        return false;
    };
    ask_class(&mut w, over) == Some(want)
}

const ARITIES: &[(&str, usize)] = &[
    ("size", 0),
    ("_x", 0),
    ("+", 1),
    ("<:", 1),
    ("at:", 1),
    ("at:put:", 2),
    ("value:value:value:", 3),
];

#[test]
fn selectors_take_an_argument_for_each_colon(rt: HostRuntime) {
    assert!(rt; have_arities());
}

fn have_arities() -> bool {
    'texts: for (text, arity) in ARITIES {
        if text_arity(text.as_bytes()) != *arity {
            return false;
        }
    }
    true
}
