//! Methods of the kernel that evaluate blocks, one action at a time.

use ns_kcode::next::next;
use ns_kcode::state::{KAction, KState};
use ns_world::ending::Kind;
use ns_world::kernel_parts::KMethod;
use ns_world::value::Value;
use ns_world::value::Value::Int;

const BLOCK: Value = Value::Ref(7);

const OTHER: Value = Value::Ref(8);

/// A method of true with two blocks, as it begins.
const OF_TRUE: KState = KState {
    receiver: Value::True,
    first: BLOCK,
    second: OTHER,
    size: 0,
    count: 0,
    last: None,
};

const OF_FALSE: KState = KState {
    receiver: Value::False,
    ..OF_TRUE
};

/// The same when the block has answered 3.
const TRUE_AFTER: KState = KState {
    count: 1,
    last: Some(Int(3)),
    ..OF_TRUE
};

const FALSE_AFTER: KState = KState {
    receiver: Value::False,
    ..TRUE_AFTER
};

/// A while loop as it begins, and when its receiver has answered.
const LOOP: KState = KState {
    receiver: BLOCK,
    first: OTHER,
    second: Value::Nil,
    ..OF_TRUE
};

const LOOP_AT_TRUE: KState = KState {
    count: 1,
    last: Some(Value::True),
    ..LOOP
};

const LOOP_AT_FALSE: KState = KState {
    count: 1,
    last: Some(Value::False),
    ..LOOP
};

const LOOP_AT_NIL: KState = KState {
    count: 1,
    last: Some(Value::Nil),
    ..LOOP
};

/// The same when a turn has answered.
const LOOP_AGAIN: KState = KState {
    count: 0,
    ..LOOP_AT_FALSE
};

/// `1 to: 3 do:` as it begins.
const COUNTING: KState = KState {
    receiver: Int(1),
    first: Int(3),
    second: BLOCK,
    ..OF_TRUE
};

/// `2 timesRepeat:` as it begins.
const REPEATING: KState = KState {
    receiver: Int(2),
    second: Value::Nil,
    ..OF_TRUE
};

/// `do:` of an array of two elements.
const ELEMENTS: KState = KState {
    receiver: Value::Ref(3),
    second: Value::Nil,
    size: 2,
    ..OF_TRUE
};

const EVALUATE: KAction = KAction::Evaluate {
    block: BLOCK,
    arg: None,
    turn: false,
    count: 1,
};

const EVALUATE_OTHER: KAction = KAction::Evaluate {
    block: OTHER,
    arg: None,
    turn: false,
    count: 1,
};

const TURN_OF_LOOP: KAction = KAction::Evaluate {
    block: OTHER,
    arg: None,
    turn: true,
    count: 0,
};

const ANSWER_NIL: KAction = KAction::Answer(Value::Nil);

const ANSWER_3: KAction = KAction::Answer(Int(3));

const NO_BOOLEAN: KAction = KAction::Fail(Kind::MustBeBoolean);

/// A method, where it stands, and what it does next.
type Row = (KMethod, KState, KAction);

const CHOICES: &[Row] = &[
    (KMethod::And, OF_TRUE, EVALUATE),
    (KMethod::And, OF_FALSE, KAction::Answer(Value::False)),
    (KMethod::And, TRUE_AFTER, ANSWER_3),
    (KMethod::Or, OF_TRUE, KAction::Answer(Value::True)),
    (KMethod::Or, OF_FALSE, EVALUATE),
    (KMethod::Or, FALSE_AFTER, ANSWER_3),
    (KMethod::IfTrue, OF_TRUE, EVALUATE),
    (KMethod::IfTrue, OF_FALSE, ANSWER_NIL),
    (KMethod::IfTrue, TRUE_AFTER, ANSWER_3),
    (KMethod::IfFalse, OF_TRUE, ANSWER_NIL),
    (KMethod::IfFalse, OF_FALSE, EVALUATE),
    (KMethod::IfFalse, FALSE_AFTER, ANSWER_3),
    (KMethod::IfTrueIfFalse, OF_TRUE, EVALUATE),
    (KMethod::IfTrueIfFalse, OF_FALSE, EVALUATE_OTHER),
    (KMethod::IfTrueIfFalse, TRUE_AFTER, ANSWER_3),
    (KMethod::IfTrueIfFalse, FALSE_AFTER, ANSWER_3),
    (KMethod::IfFalseIfTrue, OF_TRUE, EVALUATE_OTHER),
    (KMethod::IfFalseIfTrue, OF_FALSE, EVALUATE),
    (KMethod::IfFalseIfTrue, TRUE_AFTER, ANSWER_3),
    (KMethod::IfFalseIfTrue, FALSE_AFTER, ANSWER_3),
];

const WHILE_LOOPS: &[Row] = &[
    (KMethod::WhileTrue, LOOP, EVALUATE),
    (KMethod::WhileTrue, LOOP_AT_TRUE, TURN_OF_LOOP),
    (KMethod::WhileTrue, LOOP_AT_FALSE, ANSWER_NIL),
    (KMethod::WhileTrue, LOOP_AT_NIL, NO_BOOLEAN),
    (KMethod::WhileTrue, LOOP_AGAIN, EVALUATE),
    (KMethod::WhileFalse, LOOP, EVALUATE),
    (KMethod::WhileFalse, LOOP_AT_TRUE, ANSWER_NIL),
    (KMethod::WhileFalse, LOOP_AT_FALSE, TURN_OF_LOOP),
    (KMethod::WhileFalse, LOOP_AT_NIL, NO_BOOLEAN),
    (KMethod::WhileFalse, LOOP_AGAIN, EVALUATE),
];

/// Loops that count, in numbers, in turns or in elements.
const TURNS: &[Row] = &[
    (
        KMethod::ToDo,
        COUNTING,
        KAction::Evaluate {
            block: BLOCK,
            arg: Some(Int(1)),
            turn: true,
            count: 1,
        },
    ),
    (
        KMethod::ToDo,
        KState {
            count: 2,
            ..COUNTING
        },
        KAction::Evaluate {
            block: BLOCK,
            arg: Some(Int(3)),
            turn: true,
            count: 3,
        },
    ),
    (
        KMethod::ToDo,
        KState {
            count: 3,
            ..COUNTING
        },
        KAction::Answer(Int(1)),
    ),
    (
        KMethod::ToDo,
        KState {
            receiver: Int(4),
            ..COUNTING
        },
        KAction::Answer(Int(4)),
    ),
    (
        KMethod::ToDo,
        KState {
            receiver: Int(i64::MAX),
            first: Int(i64::MAX),
            count: 1,
            ..COUNTING
        },
        KAction::Answer(Int(i64::MAX)),
    ),
    (
        KMethod::TimesRepeat,
        KState {
            count: 1,
            ..REPEATING
        },
        KAction::Evaluate {
            block: BLOCK,
            arg: None,
            turn: true,
            count: 2,
        },
    ),
    (
        KMethod::TimesRepeat,
        KState {
            count: 2,
            ..REPEATING
        },
        KAction::Answer(Int(2)),
    ),
    (
        KMethod::TimesRepeat,
        KState {
            receiver: Int(-1),
            ..REPEATING
        },
        KAction::Answer(Int(-1)),
    ),
    (
        KMethod::Do,
        ELEMENTS,
        KAction::EvaluateItem {
            block: BLOCK,
            item: 0,
            count: 1,
        },
    ),
    (
        KMethod::Do,
        KState {
            count: 1,
            ..ELEMENTS
        },
        KAction::EvaluateItem {
            block: BLOCK,
            item: 1,
            count: 2,
        },
    ),
    (
        KMethod::Do,
        KState {
            count: 2,
            ..ELEMENTS
        },
        KAction::Answer(Value::Ref(3)),
    ),
];

#[test]
fn blocks_are_chosen_tested_and_repeated(rt: HostRuntime) {
    for table in [CHOICES, WHILE_LOOPS, TURNS] {
        assert!(rt; are_next(table));
    }
}

fn are_next(table: &[Row]) -> bool {
    'rows: for (method, state, want) in table {
        if next(*method, *state) != *want {
            return false;
        }
    }
    true
}
