//! Which values are live, and which of them a cell stands behind.

ghost use Rattle.std.specs.Prelude.{◌≡◌, length, option_map};
ghost use Rattle.ns_world.specs.Heap as heap;
ghost use Rattle.ns_world.specs.Lawful.{environment_in};
ghost use Rattle.ns_world.specs.Starts as starts;
ghost use Rattle.ns_kdata.specs.Arguments as arguments;
ghost use Rattle.ns_moves.specs.Blocks as blocks;
ghost use Rattle.ns_frozen.specs.Live as live;
ghost use Rattle.ns_frozen.specs.Cells.{is_environment_or_nil, has_elements_for};
ghost use Rattle.ns_frozen_seen.specs.Seen.{IsSeen, heap_of};

use crate::seen::Seen;
use ns_base::selector::Sel;
use ns_frozen::plain::PlainValue;
use ns_frozen_tables::kinds::{
    environment_in, is_array, is_block, is_environment, is_receiver_cell, item_count,
};
use ns_world::value::Value;

impl Seen<'_> {
    /// Whether a value can be a receiver.
    #[tactic(auto, using(crate::proofs::Asked::receivers))]
    fn is_receiver(&self, at: u32) -> bool
        requires { IsSeen self.now }
        ensures { result ≡ starts.is_receiver_cell (heap.find_cell (heap_of self.now) at) }
    {
        is_receiver_cell(self.find(at))
    }

    /// Whether a value is live and no environment.
    pub fn is_live(&self, value: Value) -> bool
        requires { IsSeen self.now }
        ensures { result ≡ live.is_live self.now.code.now (heap_of self.now) value }
    {
        match value {
            Value::Ref(at) => self.is_receiver(at),
            Value::Sym(sel) => self.has_selector(sel),
            _ => true,
        }
    }

    /// The same of some values.
    pub fn are_live(&self, values: &[PlainValue]) -> bool
        requires { IsSeen self.now }
        ensures { result ≡ live.are_live self.now.code.now (heap_of self.now) values.now }
    {
        'values: for value in values {
            if !self.is_live(value.value()) {
                return false;
            }
        }
        true
    }

    /// Whether a value is nil or an environment.
    #[tactic(auto, using(crate::proofs::Asked::environments))]
    pub fn is_environment_or_nil(&self, value: Value) -> bool
        requires { IsSeen self.now }
        ensures { result ≡ is_environment_or_nil (heap_of self.now) value }
    {
        match value {
            Value::Nil => true,
            Value::Ref(at) => is_environment(self.find(at)),
            _ => false,
        }
    }

    /// The parent and the locals of the environment of that number, if it is one.
    #[tactic(auto, using(crate::proofs::Asked::environment_parts))]
    pub fn environment(&self, at: u32) -> Option<(Value, &[PlainValue])>
        requires { IsSeen self.now }
        ensures { option_map (λ parts. (parts.0, parts.1.now)) result ≡ environment_in (heap.find_cell (heap_of self.now) at) }
    {
        environment_in(self.find(at))
    }

    /// Whether a value is a Block.
    #[tactic(auto, using(crate::proofs::Asked::blocks))]
    pub fn is_block(&self, value: Value) -> bool
        requires { IsSeen self.now }
        ensures { result ≡ blocks.is_block (heap_of self.now) value }
    {
        match value {
            Value::Ref(at) => is_block(self.find(at)),
            _ => false,
        }
    }

    /// Whether a value is an Array.
    #[tactic(auto, using(crate::proofs::Asked::arrays))]
    pub fn is_array(&self, value: Value) -> bool
        requires { IsSeen self.now }
        ensures { result ≡ arguments.is_array (heap_of self.now) value }
    {
        match value {
            Value::Ref(at) => is_array(self.find(at)),
            _ => false,
        }
    }

    /// How many elements an Array has, none of any other value.
    #[tactic(auto, using(crate::proofs::Asked::counts))]
    pub fn item_count(&self, value: Value) -> usize
        requires { IsSeen self.now }
        ensures { result ≡ length (arguments.items_of (heap_of self.now) value) }
    {
        match value {
            Value::Ref(at) => item_count(self.find(at)),
            _ => 0,
        }
    }

    /// Whether an array has as many elements as a selector takes arguments.
    pub fn has_elements_for(&self, sel: Sel, array: Value) -> bool
        requires { IsSeen self.now }
        ensures { result ≡ has_elements_for self.now.code.now (heap_of self.now) sel array }
    {
        self.has_selector(sel) && self.is_array(array) && self.item_count(array) == self.arity(sel)
    }
}

/// Whether a value refers to that cell.
pub fn is_ref(number: u32, value: Value) -> bool
    ensures { result ≡ live.is_ref number value }
{
    match value {
        Value::Ref(at) => at == number,
        _ => false,
    }
}

/// The same of a cell whose number may be behind the last that a reference can name.
pub fn names(number: u128, value: Value) -> bool
    ensures { result ≡ live.is_ref number value }
{
    match value {
        Value::Ref(at) => u128::from(at) == number,
        _ => false,
    }
}
