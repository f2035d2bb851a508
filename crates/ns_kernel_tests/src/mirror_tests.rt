//! Rows of mirrors of objects, classes and kernel values.

ghost use Rattle.std.specs.Prelude.{◌≡◌, IfSome};
ghost use Rattle.ns_world_setting.specs.Program.{program_code as the_code};
ghost use Rattle.ns_world_setting.specs.Ready.{WorldIsReady};

use ns_base::selector::Sel;
use ns_mirror::row::Mirrored;
use ns_world::cell::NewCell;
use ns_world::ending::{Fault, Kind, LimitKind};
use ns_world::kernel_parts::MirrorRow;
use ns_world::value::Value::{Int, Sym};
use ns_world::value::{KClass, Value};
use ns_world::world::World;
use ns_world_setting::asking::ask_mirror;
use ns_world_setting::looking::{lists, says, shape, word_of};
use ns_world_setting::setting::{
    ANN, BASE, BASE_OBJECT, BLOCK, MESSAGE, MIRROR, NO_ITEMS, ONE_ITEM, OTHER_BASE, PAIR, PART,
    PART_OBJECT, PLAIN_OBJECT, SUB, SUB_OBJECT, Setting, leave, make_mirror, set_up, with_room,
};
use std::alloc::Global;

const NIL: Value = Value::Nil;

const X: Value = Sym(Sel(3));

const Y: Value = Sym(Sel(4));

const Z: Value = Sym(Sel(5));

const FOO: Value = Sym(Sel(6));

const WRONG_KIND: Result<Value, Fault> = Err(Fault::Kind(Kind::WrongKind));

const OUT_OF_RANGE: Result<Value, Fault> = Err(Fault::Kind(Kind::OutOfRange));

const FIXED: Result<Value, Fault> = Err(Fault::Kind(Kind::FixedSlot));

const NO_CELL: Option<Result<Mirrored, Fault>> = Some(Err(Fault::Limit(LimitKind::Cells)));

/// A mirror of a value, in a world that has room for so many cells more.
#[derive(Drop)]
struct Mirroring {
    setting: Setting,
    mirror: u32,
    used: u64,
}

fn mirror_with_room(alloc: Global, value: Value, room: u64) -> Option<Mirroring>
    ensures code { IfSome result (λ m. m.setting.code ≡ the_code) }
    ensures ready { IfSome result (λ m. WorldIsReady m.setting.world) }
{
    let mut setting = set_up(alloc)?;
    let mirror = make_mirror(&mut setting.world, value)?;
    if !leave(&mut setting.world, room) {
        return None;
    }
    let used = setting.world.counters().cells;
    Some(Mirroring {
        setting,
        mirror,
        used,
    })
}

/// Whether a row has no room, and takes none.
fn is_refused(m: &mut Mirroring, row: MirrorRow) -> bool
    requires code { m.old.setting.code ≡ the_code }
    requires ready { WorldIsReady m.old.setting.world }
{
    ask_mirror(&mut m.setting, row, m.mirror, &[]) == NO_CELL
        && m.setting.world.counters().cells == m.used
}

/// Values, and the names of their classes.
const NAMES: &[(Value, &str)] = &[
    (NIL, "UndefinedObject"),
    (Value::True, "Boolean"),
    (Value::False, "Boolean"),
    (Int(3), "Integer"),
    (FOO, "Symbol"),
    (Sym(Sel(44)), "Symbol"),
    (Value::Kernel(KClass::Object), "Object class"),
    (Value::Kernel(KClass::Array), "Array class"),
    (ANN, "String"),
    (PAIR, "Array"),
    (BLOCK, "Block"),
    (MESSAGE, "Message"),
    (MIRROR, "Mirror"),
    (Value::Ref(0), "Manifest"),
    (Value::Ref(1), "Platform"),
    (Value::Ref(2), "Console"),
    (Value::Ref(3), "Mirrors"),
    (Value::Ref(4), "Kernel"),
    (Value::Ref(5), "Board"),
    (PLAIN_OBJECT, "Object"),
    (BASE_OBJECT, "Base"),
    (SUB_OBJECT, "Sub"),
    (PART_OBJECT, "Part"),
    (BASE, "Base class"),
    (SUB, "Sub class"),
    (OTHER_BASE, "Base class"),
    (PART, "Part class"),
];

/// Where a name fits exactly it is made, and where one cell is missing nothing is.
#[test]
fn names_of_classes_fit_exactly_or_not_at_all(rt: HostRuntime) {
    assert!(rt; are_named(rt.alloc()));
}

fn are_named(alloc: Global) -> bool {
    'rows: for row in NAMES {
        if !is_named(alloc, row) || !has_no_room_for_a_name(alloc, row) {
            return false;
        }
    }
    true
}

fn is_named(alloc: Global, row: &(Value, &str)) -> bool {
    let (value, want) = *row;
    let Some(mut m) = mirror_with_room(alloc, value, cost_of(want)) else {
        return false;
    };
    let name = answer(ask_mirror(&mut m.setting, MirrorRow::ClassName, m.mirror, &[]));
    says(&m.setting.world, name, want.as_bytes()) && m.setting.world.counters().cells == 200
}

fn has_no_room_for_a_name(alloc: Global, row: &(Value, &str)) -> bool {
    let (value, want) = *row;
    match mirror_with_room(alloc, value, cost_of(want).saturating_sub(1)) {
        Some(mut m) => is_refused(&mut m, MirrorRow::ClassName),
        None => false,
    }
}

/// How many cells a text takes: one, and one for each eight bytes that it begins.
fn cost_of(text: &str) -> u64 {
    1 + (text.len() as u64).div_ceil(8)
}

/// The value that was answered, nil where there is none.
fn answer(found: Option<Result<Mirrored, Fault>>) -> Value {
    match found {
        Some(Ok(Mirrored::Answer(value))) => value,
        _ => NIL,
    }
}

/// A row, what is mirrored, and the symbols that it lists. The slots of Base stand before those of
/// Sub, and each has an `x`.
type Listing = (MirrorRow, Value, &'static [u32]);

const LISTS: &[Listing] = &[
    (MirrorRow::SlotNames, SUB_OBJECT, &[3, 4, 3, 5]),
    (MirrorRow::SlotNames, BASE_OBJECT, &[3, 4]),
    (MirrorRow::SlotNames, PART_OBJECT, &[]),
    (MirrorRow::SlotNames, PLAIN_OBJECT, &[]),
    (MirrorRow::SlotNames, BASE, &[]),
    (MirrorRow::SlotNames, SUB, &[]),
    (MirrorRow::SlotNames, Int(3), &[]),
    (MirrorRow::SlotNames, PAIR, &[]),
    (MirrorRow::Selectors, BASE_OBJECT, &[9, 6]),
    (MirrorRow::Selectors, SUB_OBJECT, &[12, 9]),
    (MirrorRow::Selectors, PART_OBJECT, &[]),
    (MirrorRow::Selectors, BASE, &[10]),
    (MirrorRow::Selectors, SUB, &[]),
    (MirrorRow::Selectors, PLAIN_OBJECT, &[]),
    (MirrorRow::Selectors, NIL, &[]),
    (MirrorRow::Selectors, ANN, &[]),
    (MirrorRow::Selectors, Value::Kernel(KClass::Object), &[]),
];

/// Where an array fits exactly it is made, and where one cell is missing nothing is.
#[test]
fn lists_of_names_fit_exactly_or_not_at_all(rt: HostRuntime) {
    assert!(rt; are_listed(rt.alloc()));
}

fn are_listed(alloc: Global) -> bool {
    'rows: for row in LISTS {
        if !is_listed(alloc, row) || !has_no_room_for_a_list(alloc, row) {
            return false;
        }
    }
    true
}

fn is_listed(alloc: Global, row: &Listing) -> bool {
    let (row, value, want) = *row;
    let Some(mut m) = mirror_with_room(alloc, value, 1 + want.len() as u64) else {
        return false;
    };
    let list = answer(ask_mirror(&mut m.setting, row, m.mirror, &[]));
    lists(&m.setting.world, list, want) && m.setting.world.counters().cells == 200
}

fn has_no_room_for_a_list(alloc: Global, row: &Listing) -> bool {
    let (row, value, want) = *row;
    match mirror_with_room(alloc, value, want.len() as u64) {
        Some(mut m) => is_refused(&mut m, row),
        None => false,
    }
}

/// Rows that make no cell, what is mirrored, their arguments, and what they answer.
type Read = (MirrorRow, Value, &'static [Value], Result<Value, Fault>);

const READS: &[Read] = &[
    (MirrorRow::Slot, SUB_OBJECT, &[X], Ok(Int(3))),
    (MirrorRow::Slot, SUB_OBJECT, &[Y], Ok(Int(2))),
    (MirrorRow::Slot, SUB_OBJECT, &[Z], Ok(Int(4))),
    (MirrorRow::Slot, BASE_OBJECT, &[X], Ok(NIL)),
    (MirrorRow::Slot, BASE_OBJECT, &[Z], OUT_OF_RANGE),
    (MirrorRow::Slot, SUB_OBJECT, &[FOO], OUT_OF_RANGE),
    (MirrorRow::Slot, PART_OBJECT, &[X], OUT_OF_RANGE),
    (MirrorRow::Slot, PLAIN_OBJECT, &[X], OUT_OF_RANGE),
    (MirrorRow::Slot, BASE, &[X], OUT_OF_RANGE),
    (MirrorRow::Slot, Int(3), &[X], OUT_OF_RANGE),
    (MirrorRow::Slot, PAIR, &[X], OUT_OF_RANGE),
    (MirrorRow::Slot, SUB_OBJECT, &[NIL], WRONG_KIND),
    (MirrorRow::Slot, SUB_OBJECT, &[ANN], WRONG_KIND),
    (MirrorRow::Slot, Int(3), &[Int(3)], WRONG_KIND),
    (MirrorRow::Enclosing, PART_OBJECT, &[], Ok(BASE_OBJECT)),
    (MirrorRow::Enclosing, PART, &[], Ok(BASE_OBJECT)),
    (MirrorRow::Enclosing, BASE_OBJECT, &[], Ok(NIL)),
    (MirrorRow::Enclosing, SUB, &[], Ok(NIL)),
    (MirrorRow::Enclosing, PLAIN_OBJECT, &[], Ok(NIL)),
    (MirrorRow::Enclosing, Int(3), &[], Ok(NIL)),
    (MirrorRow::Enclosing, ANN, &[], Ok(NIL)),
    (
        MirrorRow::Enclosing,
        Value::Kernel(KClass::Object),
        &[],
        Ok(NIL),
    ),
];

#[test]
fn slots_and_enclosing_objects_are_read(rt: HostRuntime) {
    assert!(rt; are_read(rt.alloc()));
}

fn are_read(alloc: Global) -> bool {
    'rows: for row in READS {
        if !is_read(alloc, row) {
            return false;
        }
    }
    true
}

fn is_read(alloc: Global, row: &Read) -> bool {
    let (row, value, args, want) = *row;
    let Some(mut m) = mirror_with_room(alloc, value, 0) else {
        return false;
    };
    ask_mirror(&mut m.setting, row, m.mirror, args) == reflected(want)
        && m.setting.world.counters().cells == m.used
}

/// An answer or a fault as that of a mirror.
fn reflected(want: Result<Value, Fault>) -> Option<Result<Mirrored, Fault>> {
    match want {
        Ok(value) => Some(Ok(Mirrored::Answer(value))),
        Err(fault) => Some(Err(fault)),
    }
}

/// The words of the object of Sub as they are made: `x` and `y` of Base, a nested class that isn't
/// kept, `x` and `z` of Sub.
const WORDS: [Value; 5] = [Int(1), Int(2), NIL, Int(3), Int(4)];

/// What is mirrored, a name, what `slot:put:` of 9 answers, and the words of the object of Sub after
/// it. The lowest `x` is mutable in Sub, and the one in Base isn't.
type Store = (Value, Value, Result<Value, Fault>, [Value; 5]);

const STORES: [Store; 13] = [
    (
        SUB_OBJECT,
        X,
        Ok(Int(9)),
        [Int(1), Int(2), NIL, Int(9), Int(4)],
    ),
    (
        SUB_OBJECT,
        Y,
        Ok(Int(9)),
        [Int(1), Int(9), NIL, Int(3), Int(4)],
    ),
    (SUB_OBJECT, Z, FIXED, WORDS),
    (BASE_OBJECT, X, FIXED, WORDS),
    (BASE_OBJECT, Y, Ok(Int(9)), WORDS),
    (SUB_OBJECT, FOO, OUT_OF_RANGE, WORDS),
    (BASE_OBJECT, Z, OUT_OF_RANGE, WORDS),
    (BASE, Y, OUT_OF_RANGE, WORDS),
    (Int(3), Y, OUT_OF_RANGE, WORDS),
    (PAIR, Y, OUT_OF_RANGE, WORDS),
    (SUB_OBJECT, ANN, WRONG_KIND, WORDS),
    (SUB_OBJECT, NIL, WRONG_KIND, WORDS),
    (Int(3), Int(3), WRONG_KIND, WORDS),
];

#[test]
fn mutable_slots_are_stored_alone(rt: HostRuntime) {
    assert!(rt; are_stored(rt.alloc()));
}

fn are_stored(alloc: Global) -> bool {
    'rows: for row in &STORES {
        if !is_stored(alloc, *row) {
            return false;
        }
    }
    true
}

fn is_stored(alloc: Global, row: Store) -> bool {
    let (value, name, want, after) = row;
    let Some(mut m) = mirror_with_room(alloc, value, 0) else {
        return false;
    };
    ask_mirror(
        &mut m.setting,
        MirrorRow::SlotPut,
        m.mirror,
        &[name, Int(9)],
    ) == reflected(want)
        && has_words(&m.setting.world, after)
}

/// Whether the object of Sub has these words.
fn has_words(world: &World, want: [Value; 5]) -> bool {
    'words: for word in 0..5 {
        if word_of(world, 22, word) != Some(want[word as usize]) {
            return false;
        }
    }
    true
}

/// A selector, an array of arguments, and the fault of `perform:with:`, none where the send is to be
/// made. The symbol is looked at first, then the array, then how many arguments it has.
type Performed = (Value, Value, Option<Kind>);

const PERFORMED: &[Performed] = &[
    (Sym(Sel(13)), ONE_ITEM, None),
    (Sym(Sel(14)), PAIR, None),
    (Sym(Sel(43)), PAIR, None),
    (FOO, NO_ITEMS, None),
    (Sym(Sel(13)), NO_ITEMS, Some(Kind::WrongArity)),
    (Sym(Sel(13)), PAIR, Some(Kind::WrongArity)),
    (Sym(Sel(14)), ONE_ITEM, Some(Kind::WrongArity)),
    (FOO, ONE_ITEM, Some(Kind::WrongArity)),
    (Sym(Sel(42)), NO_ITEMS, Some(Kind::WrongArity)),
    (Sym(Sel(14)), NIL, Some(Kind::WrongKind)),
    (Sym(Sel(14)), ANN, Some(Kind::WrongKind)),
    (Sym(Sel(14)), MESSAGE, Some(Kind::WrongKind)),
    (FOO, Int(0), Some(Kind::WrongKind)),
    (NIL, PAIR, Some(Kind::WrongKind)),
    (ANN, NO_ITEMS, Some(Kind::WrongKind)),
    (NIL, NIL, Some(Kind::WrongKind)),
];

#[test]
fn messages_are_performed_with_as_many_arguments(rt: HostRuntime) {
    for receiver in [Int(3), BASE_OBJECT, SUB] {
        assert!(rt; are_performed(rt.alloc(), receiver));
    }
}

fn are_performed(alloc: Global, receiver: Value) -> bool {
    'rows: for row in PERFORMED {
        if !is_performed(alloc, receiver, row) {
            return false;
        }
    }
    true
}

fn is_performed(alloc: Global, receiver: Value, row: &Performed) -> bool {
    let (name, args, want) = *row;
    let Some(mut m) = mirror_with_room(alloc, receiver, 0) else {
        return false;
    };
    let found = ask_mirror(&mut m.setting, MirrorRow::Perform, m.mirror, &[name, args]);
    match want {
        Some(kind) => found == Some(Err(Fault::Kind(kind))),
        None => found == send(receiver, name, args),
    }
}

/// The send of a symbol with the elements of an array.
fn send(receiver: Value, name: Value, args: Value) -> Option<Result<Mirrored, Fault>> {
    match (name, args) {
        (Sym(sel), Value::Ref(args)) => Some(Ok(Mirrored::Perform {
            receiver,
            sel,
            args,
        })),
        _ => None,
    }
}

/// `on:` makes a mirror of any value, which takes 2 cells.
#[test]
fn any_value_has_mirrors(rt: HostRuntime) {
    assert!(rt; are_mirrored(rt.alloc()));
}

fn are_mirrored(alloc: Global) -> bool {
    'values: for value in [NIL, Int(3), FOO, ANN, BASE, SUB_OBJECT, Value::Ref(3)] {
        if !is_mirrored(alloc, value) || !has_no_room_for_a_mirror(alloc, value) {
            return false;
        }
    }
    true
}

fn is_mirrored(alloc: Global, value: Value) -> bool {
    let Some(mut w) = with_room(alloc, 2) else {
        return false;
    };
    let mirror = Value::Ref(198);
    ask_mirror(&mut w, MirrorRow::On, 3, &[value]) == reflected(Ok(mirror))
        && shape(&w.world, mirror) == Some(NewCell::Mirror(value))
}

fn has_no_room_for_a_mirror(alloc: Global, value: Value) -> bool {
    let Some(mut w) = with_room(alloc, 1) else {
        return false;
    };
    ask_mirror(&mut w, MirrorRow::On, 3, &[value]) == NO_CELL && w.world.counters().cells == 199
}
