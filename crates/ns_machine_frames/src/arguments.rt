//! Arguments that stand in a list of their own, and not among the operands.

ghost use Rattle.std.specs.Prelude.{◌≡◌, ◌+◌, ◌<◌, ◌≤◌, [], ◌∷◌, ◌++◌, length, IfOk, IsOk};

use ns_base::no_memory::NoMemory;
use ns_world::value::Value;
use smallvec::SmallVec;
use std::alloc::Global;
use std::marker::Model;

/// A list of arguments. Up to 255, which is as many as a body takes, stand in the list itself; room for more is taken when the
/// list is made, so that no other call takes memory.
#[derive(Drop)]
pub struct Arguments {
    values: SmallVec<Value, 255>,
    room: u32,
}

impl Model for Arguments {
    ghost use Rattle.ns_machine_frames.specs.Row.{ValueRow, HasRoom};

    ghost Value = { ValueRow };

    ghost view = { λ a. record { items = a.values.items; room = a.room } };

    ghost invariant = { λ a. HasRoom a.values.items a.values.capacity a.room };
}

impl Arguments {
    /// No arguments, with room for so many. It fails only for want of memory, of which up to 255 need none.
    pub fn new(alloc: Global, room: u32) -> Result<Arguments, NoMemory>
        ensures made { IfOk result (λ arguments. arguments ≡ record { items = []; room = room }) }
        ensures few { room ≤ 255 → IsOk result }
    {
        let values = SmallVec::with_capacity(alloc, room as usize)?;
        Ok(Arguments { values, room })
    }

    /// How many arguments there are. There is room for them, which 32 bits can number.
    #[inline(always)]
    pub fn count(&self) -> u32
        ensures count { result ≡ length self.now.items }
        ensures within { length self.now.items ≤ self.now.room }
    {
        self.values.len() as u32
    }

    /// The arguments.
    #[inline(always)]
    pub fn as_slice(&self) -> &[Value]
        ensures { result.now ≡ self.now.items }
    {
        self.values.as_slice()
    }

    /// Drops all arguments.
    pub fn clear(&mut self)
        ensures { self.new ≡ record self.old { items = [] } }
    {
        self.values.clear();
    }

    /// Puts an argument behind the others.
    pub fn push(&mut self, value: Value)
        requires { length self.old.items < self.old.room }
        ensures { self.new ≡ record self.old { items = self.old.items ++ value ∷ [] } }
    {
        self.values.push_reserved(value);
    }

    /// Takes these arguments in place of those that were there.
    pub fn set(&mut self, values: &[Value])
        requires { length values.now ≤ self.old.room }
        ensures { self.new ≡ record self.old { items = values.now } }
    {
        self.clear();
        'arguments: for value in values {
            self.push(*value);
        }
    }
}
