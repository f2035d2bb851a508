//! The frames and their values: operands and locals of the topmost frame.

ghost use Rattle.std.specs.Prelude.{◌≡◌, ◌+◌, ◌-◌, ◌<◌, ◌≤◌, [], ◌∷◌, ◌++◌, length, drop, OnOk};
ghost use Rattle.std.specs.List.{slice_index_or};
ghost use Rattle.ns_world.specs.declared.value.Value.TheVariants.{Nil};
ghost use Rattle.ns_machine_frames.specs.Standing.{pushed, pushed_all, stored, locals_in, operands_in};
ghost use Rattle.ns_machine_frames.specs.Stack.{in_use, stood, with_top, IsLaid, put_at, StaysLaid};

use crate::frames::Frames;
use crate::registers::Registers;
use crate::values::Values;
use ns_base::no_memory::NoMemory;
use ns_world::value::Value;
use std::alloc::Global;

/// The frames of a machine and the values of all of them, in one row: what a caller pushed as arguments are the first
/// locals of the body that is entered, where they stand.
#[derive(Drop)]
pub struct Stack {
    pub(crate) values: Values,
    pub(crate) frames: Frames,
}

impl Stack {
    /// No frames and no values, without room.
    pub fn new(alloc: Global) -> Stack
        ensures values { result.values ≡ record { items = []; room = 0 } }
        ensures frames { result.frames ≡ record { items = []; room = 0 } }
        ensures laid { IsLaid result (record { next = 0; top = 0; base = 0 }) }
    {
        Stack {
            values: Values::new(alloc),
            frames: Frames::new(alloc),
        }
    }

    /// Takes room for so many values and so many frames, after which no call takes memory. After a refusal all stands as
    /// it was.
    pub fn reserve(&mut self, values: u64, frames: u64) -> Result<(), NoMemory>
        ensures values { self.new.values.items ≡ self.old.values.items }
        ensures frames { self.new.frames.items ≡ self.old.frames.items }
        ensures room { (self.old.values.room ≤ self.new.values.room) × (self.old.frames.room ≤ self.new.frames.room) }
        ensures laid { StaysLaid self.old self.new }
        ensures ok { OnOk result ((values ≤ self.new.values.room) × (frames ≤ self.new.frames.room)) }
    {
        self.values.reserve(values)?;
        self.frames.reserve(frames)?;
        Ok(())
    }

    /// Puts a value on the operands of the topmost frame.
    #[inline(always)]
    #[tactic(auto, using(crate::proofs::Pushing::pushed_stood, crate::proofs::Pushing::pushed_used, crate::proofs::Pushing::pushed_laid))]
    pub fn push(&mut self, at: Registers, value: Value) -> Registers
        requires laid { IsLaid self.old at }
        requires room { at.top < length self.old.values.items }
        ensures stood { stood self.new result ≡ pushed value (stood self.old at) }
        ensures used { in_use self.new result ≡ in_use self.old at ++ value ∷ [] }
        ensures laid { IsLaid self.new result }
        ensures write { self.new ≡ put_at at.top value self.old }
        ensures at { result ≡ with_top (at.top + 1) at }
    {
        self.values.set(at.top, value);
        Registers {
            top: at.top + 1,
            ..at
        }
    }

    /// The topmost operand, and the registers without it.
    #[inline(always)]
    #[tactic(auto, using(crate::proofs::Taking::popped_stood, crate::proofs::Taking::popped_laid, crate::specs::laws::Taking::operands_used))]
    pub fn pop(&self, at: Registers) -> (Value, Registers)
        requires laid { IsLaid self.now at }
        requires some { 1 ≤ length (operands_in (stood self.now at)) }
        ensures stood { stood self.now at ≡ pushed result.0 (stood self.now result.1) }
        ensures laid { IsLaid self.now result.1 }
        ensures at { result.1 ≡ with_top (at.top - 1) at }
    {
        let top = at.top - 1;
        (self.values.get(top), Registers { top, ..at })
    }

    /// So many topmost operands, as they stand; they are taken off by a top that is so much lower.
    #[inline(always)]
    #[tactic(auto, using(crate::specs::laws::Taking::taken_stood, crate::specs::laws::Taking::taken_laid, crate::specs::laws::Taking::operands_used, crate::specs::laws::Taking::taken_length))]
    pub fn operands(&self, at: Registers, count: u32) -> &[Value]
        requires laid { IsLaid self.now at }
        requires some { count ≤ length (operands_in (stood self.now at)) }
        ensures stood { stood self.now at ≡ pushed_all result.now (stood self.now (with_top (at.top - count) at)) }
        ensures length { length result.now ≡ count }
        ensures values { result.now ≡ drop (at.top - count) (in_use self.now at) }
        ensures laid { IsLaid self.now (with_top (at.top - count) at) }
    {
        self.values.between(at.top - count, at.top)
    }

    /// The values in use from a place on.
    #[inline(always)]
    pub fn from(&self, at: Registers, first: u32) -> &[Value]
        requires laid { IsLaid self.now at }
        requires order { first ≤ at.top }
        ensures { result.now ≡ drop first (in_use self.now at) }
    {
        self.values.between(first, at.top)
    }

    /// The operand so many below the topmost.
    #[inline(always)]
    #[tactic(auto, using(crate::proofs::Taking::picked_stood, crate::specs::laws::Taking::operands_used))]
    pub fn operand(&self, at: Registers, number: u32) -> Value
        requires laid { IsLaid self.now at }
        requires some { number < length (operands_in (stood self.now at)) }
        ensures { result ≡ slice_index_or (operands_in (stood self.now at)) number Nil }
    {
        self.values.get(at.top - 1 - number)
    }

    /// A local of the topmost frame.
    #[inline(always)]
    #[tactic(auto, using(crate::proofs::Locals::local_stood, crate::proofs::Locals::local_used))]
    pub fn local(&self, at: Registers, index: u32) -> Value
        requires laid { IsLaid self.now at }
        requires some { index < length (locals_in (stood self.now at)) }
        ensures { result ≡ slice_index_or (locals_in (stood self.now at)) index Nil }
    {
        self.values.get(at.base + index)
    }

    /// Stores a value in a local of the topmost frame.
    #[inline(always)]
    #[tactic(auto, using(crate::proofs::Locals::stored_stood, crate::proofs::Locals::stored_laid, crate::proofs::Locals::local_used))]
    pub fn set_local(&mut self, at: Registers, index: u32, value: Value)
        requires laid { IsLaid self.old at }
        requires some { index < length (locals_in (stood self.old at)) }
        ensures stood { stood self.new at ≡ stored index value (stood self.old at) }
        ensures laid { IsLaid self.new at }
        ensures write { self.new ≡ put_at (at.base + index) value self.old }
    {
        self.values.set(at.base + index, value);
    }
}
