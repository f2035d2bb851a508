//! Room for values and frames, and values that are pushed in it.

use ns_base::no_memory::NoMemory;
use ns_machine_frames::registers::Registers;
use ns_machine_frames::stack::Stack;
use ns_world::value::Value;
use std::alloc::Global;

const START: Registers = Registers {
    next: 0,
    top: 0,
    base: 0,
};

/// Whether there is room for values and frames, and three values that are pushed stand there in order.
fn holds_what_is_pushed(alloc: Global) -> Result<bool, NoMemory> {
    let mut stack = Stack::new(alloc);
    stack.reserve(1000, 10)?;
    stack.make_room(START, 3);
    let at = stack.push_all(START, &[Value::Int(7), Value::True]);
    let at = stack.push(at, Value::Nil);
    Ok(stack.from(at, 1) == [Value::True, Value::Nil].as_slice())
}

#[test]
fn values_that_are_pushed_stand_in_order(rt: HostRuntime) {
    assert!(rt; matches!(holds_what_is_pushed(rt.alloc()), Ok(true)));
}
