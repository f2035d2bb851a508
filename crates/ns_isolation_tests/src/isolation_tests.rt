//! Two machines of one code, of which one has made other objects and blocks and printed before: a send comes to the same in
//! both, up to the numbers of what was made.

use crate::sources::{HEAD, MODULES, TAIL};
use ns_base::limits::Limits;
use ns_facets::row::Grants;
use ns_machine::machine::Machine;
use ns_session_files::text::code_of_text;
use ns_verify::verify::Verified;
use ns_world::ending::{Counters, Ending};
use ns_world::value::Value;
use std::alloc::Global;

const GRANTED: Grants = Grants {
    console: true,
    kernel: true,
    mirrors: true,
    board: false,
};

/// Little of each, so that some sends end at each of the limits.
const LIMITS: Limits = Limits {
    steps: 4_000,
    cells: 6_000,
    depth: 60,
    out: 3_000,
};

/// How many sends each module gets.
const SENDS: i64 = 20;

/// How often the second machine makes what nothing reaches.
const WASTE: i64 = 30;

/// Two machines with equal budgets left, once the second has made other things.
#[derive(Drop)]
struct Twins {
    near: Machine,
    far: Machine,
}

/// What both machines have alike when their runs have ended with their module: that, and the cells that were there then.
#[derive(Clone, Copy)]
struct Common {
    module: Value,
    cells: u64,
}

#[test]
fn what_is_not_reached_does_not_matter(rt: HostRuntime) {
    assert!(rt; MODULES.iter().all(|module| sends_agree(rt.alloc(), module)));
}

/// Whether each send of a module comes to the same in both machines. Where a run has ended with an error or a limit, two
/// others are made for the next.
fn sends_agree(alloc: Global, module: &str) -> bool {
    let mut next = Some(0);
    for _ in 0..SENDS {
        next = match next {
            Some(k) if k < SENDS => agreeing_from(alloc, module, k),
            other => other,
        };
    }
    next == Some(SENDS)
}

/// The send behind those from a number on that come to the same in two new machines; None if one doesn't.
fn agreeing_from(alloc: Global, module: &str, from: i64) -> Option<i64> {
    let mut twins = twins_of(alloc, module)?;
    let agreeing = match begin(&mut twins) {
        Some(common) => agreeing(&mut twins, common, from),
        None => None,
    };
    drop(twins);
    agreeing
}

fn agreeing(twins: &mut Twins, common: Common, from: i64) -> Option<i64> {
    for k in from..SENDS {
        if !agrees(twins, common, k) {
            return None;
        }
        if !twins.near.idle() {
            return Some(k.wrapping_add(1));
        }
    }
    Some(SENDS)
}

/// Two machines that haven't begun, of which the second has as much more as the module's waste takes.
fn twins_of(alloc: Global, module: &str) -> Option<Twins> {
    let limits = limits_with_waste(alloc, module)?;
    match (
        machine(alloc, module, LIMITS),
        machine(alloc, module, limits),
    ) {
        (Some(near), Some(far)) => Some(Twins { near, far }),
        _ => None,
    }
}

/// The limits with as much more as the module's waste takes.
fn limits_with_waste(alloc: Global, module: &str) -> Option<Limits> {
    let mut machine = machine(alloc, module, LIMITS)?;
    let limits = match answer(&mut machine) {
        Some(module) => with_waste(&mut machine, module),
        None => None,
    };
    drop(machine);
    limits
}

fn with_waste(machine: &mut Machine, module: Value) -> Option<Limits> {
    let before = machine.counters();
    waste(machine, module)?;
    Some(with_more(before, machine.counters()))
}

/// Runs both machines to their module, and lets the second make what nothing reaches.
fn begin(twins: &mut Twins) -> Option<Common> {
    let module = answer(&mut twins.near)?;
    answer(&mut twins.far)?;
    let cells = twins.near.counters().cells;
    waste(&mut twins.far, module)?;
    Some(Common { module, cells })
}

fn waste(machine: &mut Machine, module: Value) -> Option<()> {
    match machine.ask(module, b"waste:", &[Value::Int(WASTE)]) {
        Some(Ending::Done(_)) => Some(()),
        _ => None,
    }
}

/// What a machine's run ends with, where that is a value.
fn answer(machine: &mut Machine) -> Option<Value> {
    match machine.run() {
        Ending::Done(value) => Some(value),
        _ => None,
    }
}

/// The limits with as much more as was used between two moments.
fn with_more(before: Counters, after: Counters) -> Limits {
    Limits {
        steps: more(LIMITS.steps, before.steps, after.steps),
        cells: more(LIMITS.cells, before.cells, after.cells),
        depth: LIMITS.depth,
        out: more(LIMITS.out, before.out, after.out),
    }
}

fn more(limit: u64, before: u64, after: u64) -> u64 {
    limit.wrapping_add(after.wrapping_sub(before))
}

/// Whether `turn:` comes to the same in both.
fn agrees(twins: &mut Twins, common: Common, k: i64) -> bool {
    let (near, far) = (twins.near.counters(), twins.far.counters());
    let one = twins.near.ask(common.module, b"turn:", &[Value::Int(k)]);
    let two = twins.far.ask(common.module, b"turn:", &[Value::Int(k)]);
    ends_agree(one, two, common.cells, far.cells.wrapping_sub(near.cells))
        && since(&twins.near, near) == since(&twins.far, far)
        && twins.near.output().get(near.out as usize..)
            == twins.far.output().get(far.out as usize..)
}

/// Whether two runs have the same ending, where cells from a number on are so much further in the second.
fn ends_agree(one: Option<Ending>, two: Option<Ending>, common: u64, offset: u64) -> bool {
    match (one, two) {
        (Some(Ending::Done(value)), Some(Ending::Done(other))) => {
            renamed(value, common, offset) == other
        }
        (Some(Ending::Error(error)), Some(Ending::Error(other))) => {
            error.kind == other.kind && error.sel == other.sel
        }
        (Some(Ending::Limit(limit)), Some(Ending::Limit(other))) => limit == other,
        _ => false,
    }
}

fn renamed(value: Value, common: u64, offset: u64) -> Value {
    match (value, u32::try_from(offset)) {
        (Value::Ref(at), Ok(offset)) if u64::from(at) >= common => {
            Value::Ref(at.wrapping_add(offset))
        }
        _ => value,
    }
}

/// How many steps, cells and frames a machine has used since.
fn since(machine: &Machine, before: Counters) -> (u64, u64, u64) {
    let now = machine.counters();
    (
        now.steps.wrapping_sub(before.steps),
        now.cells.wrapping_sub(before.cells),
        now.depth,
    )
}

/// A machine of the code of a module.
fn machine(alloc: Global, module: &str, limits: Limits) -> Option<Machine> {
    let code = code(alloc, module)?;
    if !limits.are_in_range() {
        return None;
    }
    Machine::new(alloc, code, limits, GRANTED, &[]).ok()
}

fn code(alloc: Global, module: &str) -> Option<Verified> {
    let mut source = String::from_str(alloc, HEAD).ok()?;
    source.push_str(module).ok()?;
    source.push_str(TAIL).ok()?;
    code_of_text(alloc, "T.ns", source.as_str(), false).ok()
}
