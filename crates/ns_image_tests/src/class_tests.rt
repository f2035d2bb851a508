//! Small programs whose classes are sound or have a first fault.

use crate::sample::{A, B, BAR, Class, FOO, METHOD, has_fault, with_instrs};
use ns_base::selector::Sel;
use ns_code::class::{MethodCode, NestedCode, SlotCode};
use ns_code::instruction::Instr::ReturnSelf;
use ns_verify::fault::VerifyCause::{BadLiteral, BadScope};
use ns_verify::fault::{Fault, VerifyCause, Where};
use std::alloc::Global;

const NO_BODY: MethodCode = MethodCode {
    sel: FOO,
    access: 0,
    body: 11,
};

const FOO_OF_A: MethodCode = MethodCode {
    sel: FOO,
    access: 0,
    body: 1,
};

const FOO_IN_AN_INITIALISER: MethodCode = MethodCode {
    sel: FOO,
    access: 0,
    body: 6,
};

const BAR_WITHOUT_PARAMETER: MethodCode = MethodCode {
    sel: BAR,
    access: 0,
    body: 7,
};

const FOO_OF_B: MethodCode = MethodCode {
    sel: FOO,
    access: 0,
    body: 7,
};

const SETTER: MethodCode = MethodCode {
    sel: Sel(9),
    access: 0,
    body: 2,
};

const FOO_OF_A_SIDE: MethodCode = MethodCode {
    sel: FOO,
    access: 0,
    body: 3,
};

const NO_NAME: MethodCode = MethodCode {
    sel: Sel(11),
    access: 0,
    body: 7,
};

const NO_NAME_OF_SIDE: MethodCode = MethodCode {
    sel: Sel(11),
    access: 0,
    body: 3,
};

/// Two classes, with the cause and the class of their first fault.
type Row = (Class, Class, Option<(VerifyCause, u32)>);

static CLASSES: [Row; 33] = [
    (A, B, None),
    (
        Class {
            outer: Some(1),
            ..A
        },
        B,
        Some((BadScope, 0)),
    ),
    (
        Class {
            clause: Some(5),
            ..A
        },
        B,
        Some((BadScope, 0)),
    ),
    (
        Class { nested: &[], ..A },
        Class {
            outer: Some(1),
            ..B
        },
        Some((BadScope, 1)),
    ),
    (
        Class { nested: &[], ..A },
        Class { outer: None, ..B },
        Some((BadScope, 1)),
    ),
    (Class { nested: &[], ..A }, B, None),
    (A, Class { init: 11, ..B }, Some((BadScope, 1))),
    (A, Class { init: 7, ..B }, Some((BadScope, 1))),
    (A, Class { init: 0, ..B }, Some((BadScope, 1))),
    (
        A,
        Class {
            params: 0,
            factory: 2,
            ..B
        },
        Some((BadScope, 1)),
    ),
    (A, Class { factory: 2, ..B }, Some((BadScope, 1))),
    (
        A,
        Class {
            clause: Some(11),
            ..B
        },
        Some((BadScope, 1)),
    ),
    (
        A,
        Class {
            clause: Some(6),
            ..B
        },
        Some((BadScope, 1)),
    ),
    (A, Class { clause: None, ..B }, None),
    (
        A,
        Class {
            methods: &[NO_BODY],
            ..B
        },
        Some((BadScope, 1)),
    ),
    (
        A,
        Class {
            methods: &[FOO_OF_A],
            ..B
        },
        Some((BadScope, 1)),
    ),
    (
        A,
        Class {
            methods: &[FOO_IN_AN_INITIALISER],
            ..B
        },
        Some((BadScope, 1)),
    ),
    (
        A,
        Class {
            methods: &[BAR_WITHOUT_PARAMETER],
            ..B
        },
        Some((BadScope, 1)),
    ),
    (
        Class {
            side_methods: &[FOO_OF_A],
            ..A
        },
        B,
        Some((BadScope, 0)),
    ),
    (
        Class {
            nested: &[NestedCode {
                class: 2,
                access: 0,
            }],
            ..A
        },
        B,
        Some((BadScope, 0)),
    ),
    (
        A,
        Class {
            nested: &[NestedCode {
                class: 1,
                access: 0,
            }],
            ..B
        },
        Some((BadScope, 1)),
    ),
    (
        A,
        Class {
            methods: &[FOO_OF_B, FOO_OF_B],
            ..B
        },
        Some((BadScope, 1)),
    ),
    (
        Class {
            slots: &[SlotCode {
                name: Sel(1),
                access: 0,
                mutable: false,
            }],
            ..A
        },
        B,
        Some((BadScope, 0)),
    ),
    (
        Class {
            methods: &[SETTER],
            ..A
        },
        B,
        Some((BadScope, 0)),
    ),
    (
        Class {
            side_methods: &[FOO_OF_A_SIDE, FOO_OF_A_SIDE],
            ..A
        },
        B,
        Some((BadScope, 0)),
    ),
    (A, Class { name: 11, ..B }, Some((BadLiteral, 1))),
    (A, Class { name: 7, ..B }, Some((BadLiteral, 1))),
    (A, Class { factory: 11, ..B }, Some((BadLiteral, 1))),
    (A, Class { super_sel: 11, ..B }, Some((BadLiteral, 1))),
    (
        A,
        Class {
            slots: &[SlotCode {
                name: Sel(11),
                access: 0,
                mutable: true,
            }],
            ..B
        },
        Some((BadLiteral, 1)),
    ),
    (
        A,
        Class {
            slots: &[SlotCode {
                name: Sel(8),
                access: 0,
                mutable: true,
            }],
            ..B
        },
        Some((BadLiteral, 1)),
    ),
    (
        A,
        Class {
            methods: &[NO_NAME],
            ..B
        },
        Some((BadLiteral, 1)),
    ),
    (
        Class {
            side_methods: &[NO_NAME_OF_SIDE],
            ..A
        },
        B,
        Some((BadLiteral, 0)),
    ),
];

#[test]
fn classes_name_what_is_there_and_of_the_right_kind(rt: HostRuntime) {
    assert!(rt; have_faults(rt.alloc()));
}

fn have_faults(alloc: Global) -> bool {
    'rows: for row in &CLASSES {
        if !is_fault(alloc, row) {
            return false;
        }
    }
    true
}

fn is_fault(alloc: Global, row: &Row) -> bool {
    let (first, second, wanted) = *row;
    let body = with_instrs(0, &[ReturnSelf]);
    has_fault(alloc, &[first, second], 0, body, at_class(wanted))
}

fn at_class(wanted: Option<(VerifyCause, u32)>) -> Option<Fault> {
    match wanted {
        Some((cause, class)) => Some(Fault {
            cause,
            at: Where::Class(class),
        }),
        None => None,
    }
}

#[test]
fn code_has_a_class(rt: HostRuntime) {
    assert!(rt; has_fault(rt.alloc(), &[], 0, METHOD, at_class(Some((BadScope, 0)))));
}
