//! How frames end: a value goes to the frame below, or down to a home.

ghost use Rattle.std.specs.Prelude.{◌≡◌, ◌<◌, ◌≤◌, [], ◌∷◌, length, drop};
ghost use Rattle.ns_machine_frames.specs.Standing.{below};
ghost use Rattle.ns_machine_frames.specs.Stack.{stood, with_top, IsLaid, KeepsRoom};
ghost use Rattle.ns_machine_frames.specs.Leaving.{floor_of, top_floor, resumed, delivered, HasPlace, with_answer, with_count, counted, frames_to};

use crate::frame::Frame;
use crate::registers::Registers;
use crate::stack::Stack;
use ns_world::value::Value;

impl Stack {
    /// How many frames there are.
    #[inline(always)]
    pub fn count(&self) -> u32
        ensures { result ≡ length self.now.frames.items }
    {
        self.frames.count()
    }

    /// The topmost frame.
    #[inline(always)]
    pub fn topmost(&self) -> &Frame
        requires { 0 < length self.now.frames.items }
        ensures { self.now.frames.items ≡ result.now ∷ below self.now.frames.items }
    {
        self.frames.top()
    }

    /// Takes the topmost frame off with its values. The one below goes on, if there is one.
    #[inline(always)]
    #[tactic(auto, using(crate::proofs::Ended::left_stood, crate::proofs::Ended::left_laid))]
    pub fn leave(&mut self, at: Registers) -> Registers
        requires laid { IsLaid self.old at }
        requires some { 0 < length self.old.frames.items }
        ensures stood { stood self.new result ≡ below (stood self.old at) }
        ensures laid { IsLaid self.new result }
        ensures values { self.new.values ≡ self.old.values }
        ensures frames { self.new.frames ≡ record self.old.frames { items = below self.old.frames.items } }
        ensures at { result ≡ resumed (below self.old.frames.items) (with_top (top_floor self.old.frames.items) at) }
    {
        let top = floor_of(self.frames.top());
        self.frames.pop();
        self.resumed(Registers { top, ..at })
    }

    /// The registers of the topmost frame, which goes on, if there is one.
    #[inline(always)]
    fn resumed(&self, at: Registers) -> Registers
        ensures { result ≡ resumed self.now.frames.items at }
    {
        if self.frames.count() == 0 {
            return at;
        }
        match *self.frames.top() {
            Frame::Running(running) => Registers {
                next: running.next,
                base: running.base,
                ..at
            },
            Frame::Looping(_) => at,
        }
    }

    /// Brings a value to the topmost frame: on its operands, or as what the block of a method of the kernel answered.
    #[inline(always)]
    #[tactic(auto, using(crate::proofs::Ended::pushed_delivered, crate::proofs::Ended::answered_delivered, crate::proofs::Ended::answered_laid))]
    pub fn deliver(&mut self, at: Registers, value: Value) -> Registers
        requires laid { IsLaid self.old at }
        requires some { 0 < length self.old.frames.items }
        requires place { HasPlace self.old.frames.items at.top (length self.old.values.items) }
        ensures stood { stood self.new result ≡ delivered value (stood self.old at) }
        ensures laid { IsLaid self.new result }
        ensures frames { self.new.frames ≡ record self.old.frames { items = with_answer value self.old.frames.items } }
        ensures room { KeepsRoom self.old self.new }
    {
        match *self.frames.top() {
            Frame::Running(_) => self.push(at, value),
            Frame::Looping(_) => {
                self.frames.set_answer(value);
                at
            }
        }
    }

    /// Lets a method of the kernel, which is topmost, wait for a block with a count.
    #[inline(always)]
    #[tactic(auto, using(crate::proofs::Ended::counted_stood, crate::proofs::Ended::counted_laid))]
    pub fn set_count(&mut self, at: Registers, count: i64)
        requires laid { IsLaid self.old at }
        requires some { 0 < length self.old.frames.items }
        ensures stood { stood self.new at ≡ counted count (stood self.old at) }
        ensures laid { IsLaid self.new at }
        ensures values { self.new.values ≡ self.old.values }
        ensures frames { self.new.frames ≡ record self.old.frames { items = with_count count self.old.frames.items } }
    {
        self.frames.set_count(count);
    }

    /// How many frames there are down to the method of that home, with it, where it is there.
    pub fn frames_to(&self, home: u64) -> Option<u32>
        ensures { result ≡ frames_to home self.now.frames.items }
    {
        self.frames.frames_to(home)
    }

    /// Takes so many frames off with their values. The one below goes on, if there is one.
    #[tactic(auto, using(crate::proofs::Ended::drop_below, crate::proofs::Ended::length_below))]
    pub fn unwind(&mut self, at: Registers, count: u32) -> Registers
        requires laid { IsLaid self.old at }
        requires some { count ≤ length self.old.frames.items }
        ensures stood { stood self.new result ≡ drop count (stood self.old at) }
        ensures laid { IsLaid self.new result }
        ensures values { self.new.values ≡ self.old.values }
        ensures frames { self.new.frames ≡ record self.old.frames { items = drop count self.old.frames.items } }
    {
        let mut here = at;
        'frames: for _ in 0..count {
            here = self.leave(here);
        }
        here
    }

    /// Drops all frames.
    pub fn clear(&mut self, at: Registers) -> Registers
        requires { IsLaid self.old at }
        ensures stood { stood self.new result ≡ [] }
        ensures laid { IsLaid self.new result }
        ensures values { self.new.values ≡ self.old.values }
        ensures frames { self.new.frames ≡ record self.old.frames { items = [] } }
        ensures at { result ≡ with_top 0 at }
    {
        self.frames.clear();
        Registers { top: 0, ..at }
    }

    /// Drops all frames, however they stand.
    pub fn reset(&mut self) -> Registers
        ensures laid { IsLaid self.new result }
        ensures values { self.new.values ≡ self.old.values }
        ensures frames { self.new.frames ≡ record self.old.frames { items = [] } }
        ensures at { result ≡ record { next = 0; top = 0; base = 0 } }
    {
        let _filled = self.values.count();
        self.frames.clear();
        Registers {
            next: 0,
            top: 0,
            base: 0,
        }
    }
}

/// Where the values of the frames below end.
#[inline(always)]
fn floor_of(frame: &Frame) -> u32
    ensures { result ≡ floor_of frame.now }
{
    match *frame {
        Frame::Running(running) => running.floor,
        Frame::Looping(looping) => looping.floor,
    }
}
