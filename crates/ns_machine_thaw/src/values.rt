//! Plain values, put back where the machine has values.

ghost use Rattle.std.specs.Prelude.{◌≡◌, ◌+◌, ◌++◌, ◌≤◌, length};
ghost use Rattle.ns_machine_frames.specs.Standing.{pushed_all};
ghost use Rattle.ns_machine_frames.specs.Stack.{in_use, stood, with_top, IsLaid, KeepsRoom};

use ns_frozen::plain::PlainValue;
use ns_machine_frames::arguments::Arguments;
use ns_machine_frames::registers::Registers;
use ns_machine_frames::stack::Stack;

/// Puts them on the operands of the topmost frame, the last of them on top.
pub fn push_values(stack: &mut Stack, at: Registers, values: &[PlainValue]) -> Registers
    requires laid { IsLaid stack.old at }
    requires room { at.top + length values.now ≤ length stack.old.values.items }
    ensures stood { stood stack.new result ≡ pushed_all values.now (stood stack.old at) }
    ensures used { in_use stack.new result ≡ in_use stack.old at ++ values.now }
    ensures laid { IsLaid stack.new result }
    ensures frames { stack.new.frames ≡ stack.old.frames }
    ensures room { KeepsRoom stack.old stack.new }
    ensures at { result ≡ with_top (at.top + length values.now) at }
{
    let mut above = at;
    'values: for value in values {
        above = stack.push(above, value.value());
    }
    above
}

/// Takes these arguments in place of those that were there.
pub fn set_arguments(arguments: &mut Arguments, values: &[PlainValue])
    requires { length values.now ≤ arguments.old.room }
    ensures { arguments.new ≡ record arguments.old { items = values.now } }
{
    arguments.clear();
    'arguments: for value in values {
        arguments.push(value.value());
    }
}
