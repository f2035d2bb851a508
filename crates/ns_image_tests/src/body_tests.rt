//! Small programs whose bodies are sound or have a first fault.

use crate::sample::{A, B, BAR, BLOCK, Body, FOO, METHOD, has_fault, with_instrs};
use ns_base::selector::Sel;
use ns_code::instruction::Instr;
use ns_code::instruction::Instr::{
    InitSuper, Jump, JumpFalse, JumpTrue, MakeArray, Pick, Pop, PushBlock, PushFalse, PushInt,
    PushLocal, PushNil, PushOuter, PushSelf, PushSym, PushText, PushTrue, Return, ReturnHome,
    ReturnSelf, Send, SendInner, SendPrivate, SendSuper, StoreLocal, StoreSlot,
};
use ns_verify::fault::VerifyCause::{BadHeight, BadJump, BadLiteral, BadScope, BadSlot, NoReturn};
use ns_verify::fault::{Fault, VerifyCause, Where};
use std::alloc::Global;

const LOCAL_0: Instr = PushLocal { hops: 0, index: 0 };

const LOCAL_1: Instr = PushLocal { hops: 0, index: 1 };

const LOCAL_2: Instr = PushLocal { hops: 0, index: 2 };

const OUTER_0: Instr = PushLocal { hops: 1, index: 0 };

const OUTER_1: Instr = PushLocal { hops: 1, index: 1 };

const OUTER_2: Instr = PushLocal { hops: 1, index: 2 };

const FAR_0: Instr = PushLocal { hops: 2, index: 0 };

const FAR_1: Instr = PushLocal { hops: 2, index: 1 };

const STORE_0: Instr = StoreLocal { hops: 0, index: 0 };

const STORE_2: Instr = StoreLocal { hops: 0, index: 2 };

const STORE_FAR_9: Instr = StoreLocal { hops: 2, index: 9 };

const INNER_FOO: Instr = SendInner { sel: FOO, argc: 0 };

const SUPER_FOO: Instr = SendSuper { sel: FOO, argc: 0 };

const SUPER_BAR: Instr = SendSuper { sel: BAR, argc: 0 };

const AT_PUT: Instr = Send {
    sel: Sel(7),
    argc: 2,
};

const BAR_OF_NONE: Instr = Send { sel: BAR, argc: 0 };

const BAR_OF_ONE: Instr = Send { sel: BAR, argc: 1 };

const PLUS_OF_NONE: Instr = SendInner {
    sel: Sel(8),
    argc: 0,
};

const NO_NAME: Instr = Send {
    sel: Sel(11),
    argc: 0,
};

/// A private send.
const OWN_FOO: Instr = SendPrivate {
    level: 0,
    sel: FOO,
    argc: 0,
};

const OWN_FOO_OF_ONE: Instr = SendPrivate {
    level: 0,
    sel: FOO,
    argc: 1,
};

const OWN_BAR: Instr = SendPrivate {
    level: 0,
    sel: BAR,
    argc: 1,
};

const OWN_X: Instr = SendPrivate {
    level: 0,
    sel: Sel(3),
    argc: 0,
};

const OWN_NO_NAME: Instr = SendPrivate {
    level: 0,
    sel: Sel(11),
    argc: 0,
};

const OUTER_FOO: Instr = SendPrivate {
    level: 1,
    sel: FOO,
    argc: 0,
};

const OUTER_X: Instr = SendPrivate {
    level: 1,
    sel: Sel(3),
    argc: 0,
};

const OUTER_SET_X: Instr = SendPrivate {
    level: 1,
    sel: Sel(9),
    argc: 1,
};

const OUTER_Y: Instr = SendPrivate {
    level: 1,
    sel: Sel(4),
    argc: 0,
};

const OUTER_B: Instr = SendPrivate {
    level: 1,
    sel: Sel(1),
    argc: 0,
};

/// The number of a body and its instructions.
static SOUND: [(u32, &[Instr]); 27] = [
    (1, &[PushNil, PushTrue, PushFalse, Pop, Pop, Return]),
    (1, &[PushInt(5), PushSym(Sel(0)), MakeArray(2), Return]),
    (1, &[PushText(0), Return]),
    (1, &[PushSelf, INNER_FOO, Return]),
    (1, &[PushOuter(0), PushNil, PushNil, AT_PUT, Return]),
    (1, &[LOCAL_1, STORE_0, Pick(0), Pop, Return]),
    (1, &[PushBlock(4), Return]),
    (7, &[PushOuter(1), Return]),
    (7, &[OUTER_X, Return]),
    (7, &[PushNil, OUTER_SET_X, Return]),
    (7, &[OUTER_B, Return]),
    (7, &[OUTER_FOO, Return]),
    (1, &[OWN_FOO, Return]),
    (3, &[OWN_FOO, Return]),
    (1, &[SUPER_FOO, Return]),
    (4, &[OUTER_1, ReturnHome]),
    (8, &[FAR_1, ReturnHome]),
    (0, &[InitSuper(0), PushNil, StoreSlot(1), ReturnSelf]),
    (0, &[ReturnSelf]),
    (1, &[PushTrue, JumpFalse(3), ReturnSelf, ReturnSelf]),
    (1, &[Jump(0)]),
    (1, &[PushTrue, JumpTrue(0), ReturnSelf]),
    (1, &[PushNil, Jump(3), ReturnSelf, Return]),
    (1, &[PushTrue, PushTrue, JumpTrue(4), Return, Return]),
    (5, &[PushSelf, PushOuter(0), Pop, Return]),
    (9, &[OUTER_0, Return]),
    (10, &[SUPER_FOO, Return]),
];

#[test]
fn sound_bodies_have_no_fault(rt: HostRuntime) {
    assert!(rt; are_sound(rt.alloc()));
}

fn are_sound(alloc: Global) -> bool {
    'rows: for (number, instrs) in &SOUND {
        if !has_fault(alloc, &[A, B], *number, with_instrs(*number, instrs), None) {
            return false;
        }
    }
    true
}

/// The number of a body, its instructions, the cause of its first fault and the instruction.
static FAULTY: [(u32, &[Instr], VerifyCause, u32); 58] = [
    (1, &[Jump(1)], BadJump, 0),
    (1, &[PushTrue, JumpFalse(9), ReturnSelf], BadJump, 1),
    (1, &[JumpTrue(9)], BadJump, 0),
    (1, &[Pop, ReturnSelf], BadHeight, 0),
    (1, &[STORE_0, Return], BadHeight, 0),
    (1, &[PushNil, Pick(1), Pop, Return], BadHeight, 1),
    (1, &[PushNil, BAR_OF_ONE, Return], BadHeight, 1),
    (1, &[PushNil, MakeArray(2), Return], BadHeight, 1),
    (
        1,
        &[PushNil, PushNil, PushNil, PushNil, Return],
        BadHeight,
        4,
    ),
    (1, &[Return], BadHeight, 0),
    (1, &[PushNil, ReturnSelf], BadHeight, 1),
    (1, &[PushNil, PushNil, Return], BadHeight, 2),
    (4, &[PushNil, PushNil, ReturnHome], BadHeight, 2),
    (1, &[PushNil, Jump(0)], BadHeight, 1),
    (1, &[PushTrue, JumpTrue(1)], BadHeight, 1),
    (1, &[PushTrue, JumpTrue(3), PushNil, Return], BadHeight, 3),
    (
        1,
        &[PushTrue, JumpTrue(4), PushNil, Jump(4), ReturnSelf],
        BadHeight,
        3,
    ),
    (1, &[PushNil, Return, Pop, ReturnSelf], BadHeight, 2),
    (0, &[PushNil, StoreSlot(2), ReturnSelf], BadSlot, 1),
    (1, &[PushNil, StoreSlot(2), ReturnSelf], BadSlot, 1),
    (1, &[LOCAL_2, Return], BadSlot, 0),
    (4, &[OUTER_2, Return], BadSlot, 0),
    (1, &[PushNil, STORE_2, Return], BadSlot, 1),
    (1, &[PushOuter(1), Return], BadScope, 0),
    (7, &[PushOuter(2), Return], BadScope, 0),
    (1, &[OUTER_FOO, Return], BadScope, 0),
    (7, &[OWN_FOO, Return], BadScope, 0),
    (7, &[OUTER_Y, Return], BadScope, 0),
    (3, &[OWN_X, Return], BadScope, 0),
    (1, &[PushNil, OWN_BAR, Return], BadScope, 1),
    (1, &[OUTER_0, Return], BadScope, 0),
    (4, &[FAR_0, Return], BadScope, 0),
    (4, &[PushNil, STORE_FAR_9, Return], BadScope, 1),
    (1, &[PushBlock(8), Return], BadScope, 0),
    (1, &[PushBlock(2), Return], BadScope, 0),
    (1, &[PushBlock(11), Return], BadScope, 0),
    (1, &[InitSuper(0), ReturnSelf], BadScope, 0),
    (1, &[PushNil, StoreSlot(0), ReturnSelf], BadScope, 1),
    (0, &[InitSuper(0), InitSuper(0), ReturnSelf], BadScope, 1),
    (1, &[PushNil, ReturnHome], BadScope, 1),
    (9, &[PushNil, ReturnHome], BadScope, 1),
    (0, &[PushNil, Return], BadScope, 1),
    (4, &[ReturnSelf], BadScope, 0),
    (5, &[ReturnSelf], BadScope, 0),
    (1, &[PushSym(Sel(11)), Return], BadLiteral, 0),
    (1, &[PushText(1), Return], BadLiteral, 0),
    (1, &[PushNil, NO_NAME, Return], BadLiteral, 1),
    (1, &[PushNil, BAR_OF_NONE, Return], BadLiteral, 1),
    (1, &[PushNil, PLUS_OF_NONE, Return], BadLiteral, 1),
    (1, &[SUPER_BAR, Return], BadLiteral, 0),
    (1, &[OWN_NO_NAME, Return], BadLiteral, 0),
    (1, &[PushNil, OWN_FOO_OF_ONE, Return], BadLiteral, 1),
    (0, &[PushNil, InitSuper(1), ReturnSelf], BadLiteral, 1),
    (1, &[], NoReturn, 0),
    (1, &[PushNil, Pop], NoReturn, 1),
    (1, &[PushTrue, JumpTrue(0)], NoReturn, 1),
    (1, &[PushNil], NoReturn, 0),
    (8, &[PushNil, Return, LOCAL_0], NoReturn, 2),
];

#[test]
fn faulty_bodies_have_their_first_fault(rt: HostRuntime) {
    assert!(rt; have_faults(rt.alloc()));
}

fn have_faults(alloc: Global) -> bool {
    'rows: for (number, instrs, cause, at) in &FAULTY {
        let wanted = Fault {
            cause: *cause,
            at: Where::Body(*number, *at),
        };
        if !has_fault(
            alloc,
            &[A, B],
            *number,
            with_instrs(*number, instrs),
            Some(wanted),
        ) {
            return false;
        }
    }
    true
}

/// Bodies as wholes, and whether they are sound.
static HEADS: [(u32, Body, bool); 13] = [
    (10, Body { class: 2, ..METHOD }, false),
    (
        10,
        Body {
            parent: Some(1),
            ..METHOD
        },
        false,
    ),
    (
        10,
        Body {
            params: 3,
            ..METHOD
        },
        false,
    ),
    (
        10,
        Body {
            params: 2,
            ..METHOD
        },
        true,
    ),
    (
        10,
        Body {
            height: 1_024,
            ..METHOD
        },
        false,
    ),
    (
        10,
        Body {
            height: 1_023,
            ..METHOD
        },
        true,
    ),
    (
        10,
        Body {
            class: 2,
            instrs: &[],
            ..METHOD
        },
        false,
    ),
    (
        8,
        Body {
            parent: None,
            ..BLOCK
        },
        false,
    ),
    (
        8,
        Body {
            parent: Some(8),
            ..BLOCK
        },
        false,
    ),
    (
        8,
        Body {
            parent: Some(9),
            ..BLOCK
        },
        false,
    ),
    (8, Body { class: 1, ..BLOCK }, false),
    (8, Body { side: 1, ..BLOCK }, false),
    (
        8,
        Body {
            parent: Some(2),
            ..BLOCK
        },
        false,
    ),
];

#[test]
fn bodies_stand_where_their_kind_may(rt: HostRuntime) {
    assert!(rt; have_heads(rt.alloc()));
}

fn have_heads(alloc: Global) -> bool {
    'rows: for (number, body, sound) in &HEADS {
        let bad = Fault {
            cause: BadScope,
            at: Where::Body(*number, 0),
        };
        let wanted = if *sound { None } else { Some(bad) };
        if !has_fault(alloc, &[A, B], *number, *body, wanted) {
            return false;
        }
    }
    true
}
