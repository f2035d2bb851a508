//! How frames begin: the body of a send or of a block, on the arguments where they stand, and a method of the kernel.

ghost use Rattle.std.specs.Prelude.{◌≡◌, ◌+◌, ◌<◌, ◌≤◌, ◌∷◌, ◌++◌, length};
ghost use Rattle.ns_machine_frames.specs.declared.frame.Frame.TheVariants.{Looping};
ghost use Rattle.ns_machine_frames.specs.Standing.{Loops, at_next, pushed_all};
ghost use Rattle.ns_machine_frames.specs.Stack.{in_use, stood, with_top, IsLaid, KeepsRoom, FramesCanBegin, FitsLayout, entered_frame, locals_at, IsEntered};

use crate::frame::{Activation, Frame, Layout, Leaving, LoopingFrame, RunningFrame};
use crate::registers::Registers;
use crate::stack::Stack;
use ns_world::value::Value;

impl Stack {
    /// Fills the row so far that so many values can be pushed.
    #[inline(always)]
    #[tactic(auto, using(crate::proofs::Filling::filled_use))]
    pub fn make_room(&mut self, at: Registers, count: u32)
        requires laid { IsLaid self.old at }
        requires room { at.top + count ≤ self.old.values.room }
        ensures used { in_use self.new at ≡ in_use self.old at }
        ensures frames { self.new.frames ≡ self.old.frames }
        ensures filled { at.top + count ≤ length self.new.values.items }
        ensures laid { IsLaid self.new at }
        ensures room { KeepsRoom self.old self.new }
    {
        self.values.fill_to(at.top + count);
    }

    /// Puts values on the operands of the topmost frame, the last of them on top.
    #[tactic(auto, using(crate::proofs::Filling::more_stood))]
    pub fn push_all(&mut self, at: Registers, values: &[Value]) -> Registers
        requires laid { IsLaid self.old at }
        requires room { at.top + length values.now ≤ length self.old.values.items }
        ensures stood { stood self.new result ≡ pushed_all values.now (stood self.old at) }
        ensures used { in_use self.new result ≡ in_use self.old at ++ values.now }
        ensures laid { IsLaid self.new result }
        ensures frames { self.new.frames ≡ self.old.frames }
        ensures room { KeepsRoom self.old self.new }
        ensures at { result ≡ with_top (at.top + length values.now) at }
    {
        self.values.set_all(at.top, values);
        Registers {
            top: at.top + values.len() as u32,
            ..at
        }
    }

    /// Enters a body whose locals stand beside it, or that has none: its arguments are the values in use from the base of
    /// its layout on, and are its first locals where they stand, with nils behind them. What stands above the floor of the
    /// layout is no longer the caller's, which waits at its next instruction.
    #[inline(always)]
    pub fn enter(
        &mut self,
        at: Registers,
        leaving: Leaving,
        activation: Activation,
        layout: Layout,
    ) -> Registers
        requires begins { FramesCanBegin self.old at layout.floor }
        requires fits { FitsLayout layout at.top self.old.values.room }
        ensures { IsEntered self.old at self.new result (entered_frame leaving activation layout)
            (locals_at self.old at layout) layout.height }
    {
        let operands = layout.base + layout.locals;
        self.values.fill_to(operands + layout.height);
        self.values.set_nils(at.top, operands - at.top);
        self.put_frame(
            at,
            Frame::Running(RunningFrame {
                leaving,
                activation,
                next: 0,
                floor: layout.floor,
                base: layout.base,
                operands,
            }),
        );
        Registers {
            next: 0,
            top: operands,
            base: layout.base,
        }
    }

    /// Begins a method of the kernel. What stands above its floor is no longer the caller's.
    #[inline(always)]
    pub fn begin(&mut self, at: Registers, looping: LoopingFrame) -> Registers
        requires { FramesCanBegin self.old at looping.floor }
        ensures stood { stood self.new result ≡ Loops looping ∷ stood self.old (with_top looping.floor at) }
        ensures laid { IsLaid self.new result }
        ensures frames { self.new.frames.items ≡ Looping looping ∷ at_next at.next self.old.frames.items }
        ensures values { self.new.values ≡ self.old.values }
        ensures room { self.new.frames.room ≡ self.old.frames.room }
        ensures at { result ≡ with_top looping.floor at }
    {
        self.put_frame(at, Frame::Looping(looping));
        Registers {
            top: looping.floor,
            ..at
        }
    }

    /// Puts a frame on the others, of which the topmost then waits at its next instruction.
    #[inline(always)]
    fn put_frame(&mut self, at: Registers, frame: Frame)
        requires { length self.old.frames.items < self.old.frames.room }
        ensures values { self.new.values ≡ self.old.values }
        ensures frames { self.new.frames ≡ record self.old.frames { items = frame ∷ at_next at.next self.old.frames.items } }
    {
        self.save(at);
        self.frames.push(frame);
    }

    /// Keeps the number of the next instruction in the topmost frame, if there is one.
    #[inline(always)]
    fn save(&mut self, at: Registers)
        ensures values { self.new.values ≡ self.old.values }
        ensures frames { self.new.frames ≡ record self.old.frames { items = at_next at.next self.old.frames.items } }
    {
        if 0 < self.frames.count() {
            self.frames.set_next(at.next);
        }
    }
}
