//! The frames, of which only the topmost is changed.

ghost use Rattle.std.specs.Prelude.{◌≡◌, ◌+◌, ◌<◌, ◌≤◌, [], ◌∷◌, length, drop, reverse, OnOk, OnErr};
ghost use Rattle.ns_machine_frames.specs.Standing.{at_next, below};
ghost use Rattle.ns_machine_frames.specs.Leaving.{is_home, frames_to, with_answer, with_count};

use crate::frame::{Frame, Leaving, LoopingFrame, RunningFrame};
use ns_base::no_memory::NoMemory;
use ns_world::value::Value;
use std::alloc::Global;
use std::marker::Model;

/// The most frames for which there can be room: each has its number in 32 bits.
const MOST: u64 = 4_294_967_295;

/// Frames, with room for so many that one more takes no memory. A clause sees the topmost first.
#[derive(Drop)]
pub struct Frames {
    items: Vec<Frame>,
    room: u64,
}

impl Model for Frames {
    ghost use Rattle.std.specs.Prelude.{reverse};
    ghost use Rattle.std.specs.Vec.{vec_capacity};
    ghost use Rattle.ns_machine_frames.specs.Row.{FrameRow, HasRoom};

    ghost Value = { FrameRow };

    ghost view = { λ f. record { items = reverse f.items.items; room = f.room } };

    ghost invariant = { λ f. HasRoom f.items.items (vec_capacity f.items) f.room };
}

impl Frames {
    /// No frames, and no room.
    pub fn new(alloc: Global) -> Frames
        ensures { result ≡ record { items = []; room = 0 } }
    {
        Frames {
            items: Vec::new(alloc),
            room: 0,
        }
    }

    /// Takes room for so many frames; more than 32 bits can number are refused like memory that is wanting. After a
    /// refusal nothing has changed.
    pub fn reserve(&mut self, room: u64) -> Result<(), NoMemory>
        ensures items { self.new.items ≡ self.old.items }
        ensures ok { OnOk result (room ≤ self.new.room) }
        ensures never_less { self.old.room ≤ self.new.room }
        ensures err { OnErr result (self.new ≡ self.old) }
    {
        if room <= self.room {
            return Ok(());
        }
        if MOST < room {
            return Err(NoMemory);
        }
        let more = (room as usize).saturating_sub(self.items.len());
        self.items.reserve_exact(more)?;
        self.room = room;
        Ok(())
    }

    /// How many there are.
    #[inline(always)]
    pub fn count(&self) -> u32
        ensures { result ≡ length self.now.items }
    {
        self.items.len() as u32
    }

    /// The topmost.
    #[inline(always)]
    pub fn top(&self) -> &Frame
        requires { 0 < length self.now.items }
        ensures { self.now.items ≡ result.now ∷ below self.now.items }
    {
        last(&self.items)
    }

    /// The one so many below the topmost.
    pub fn get(&self, number: u32) -> &Frame
        requires { number < length self.now.items }
        ensures { drop number self.now.items ≡ result.now ∷ drop (number + 1) self.now.items }
    {
        before_last(&self.items, number as usize)
    }

    /// Puts a frame on the others.
    #[inline(always)]
    pub fn push(&mut self, frame: Frame)
        requires { length self.old.items < self.old.room }
        ensures { self.new ≡ record self.old { items = frame ∷ self.old.items } }
    {
        self.items.push_reserved(frame);
    }

    /// Takes the topmost off, if there is one.
    #[inline(always)]
    pub fn pop(&mut self)
        ensures items { self.new.items ≡ below self.old.items }
        ensures room { self.new.room ≡ self.old.room }
    {
        let _ended = self.items.pop();
    }

    /// Keeps the number of the next instruction in the topmost, where that is a body's.
    #[inline(always)]
    pub fn set_next(&mut self, next: u32)
        requires { 0 < length self.old.items }
        ensures { self.new ≡ record self.old { items = at_next next self.old.items } }
    {
        set_last_next(&mut self.items, next);
    }

    /// Keeps what its block has answered in the topmost, where that is a method's of the kernel.
    #[inline(always)]
    pub fn set_answer(&mut self, value: Value)
        requires { 0 < length self.old.items }
        ensures { self.new ≡ record self.old { items = with_answer value self.old.items } }
    {
        set_last_answer(&mut self.items, value);
    }

    /// Lets the topmost wait for a block with that count, where it is a method's of the kernel.
    #[inline(always)]
    pub fn set_count(&mut self, count: i64)
        requires { 0 < length self.old.items }
        ensures { self.new ≡ record self.old { items = with_count count self.old.items } }
    {
        set_last_count(&mut self.items, count);
    }

    /// How many frames there are down to the method of that home, with it, where it is there.
    pub fn frames_to(&self, home: u64) -> Option<u32>
        ensures { result ≡ frames_to home self.now.items }
    {
        frames_to(&self.items, home)
    }

    /// Drops all frames.
    pub fn clear(&mut self)
        ensures { self.new ≡ record self.old { items = [] } }
    {
        self.items.clear();
    }
}

/// The last frame.
#[inline(always)]
#[tactic(auto, using(crate::proofs::Topmost::topmost_is))]
fn last(items: &[Frame]) -> &Frame
    requires { 0 < length items.now }
    ensures { reverse items.now ≡ result.now ∷ below (reverse items.now) }
{
    &items[items.len() - 1]
}

/// The frame so many before the last.
#[tactic(auto, using(crate::proofs::Homes::at_number))]
fn before_last(items: &[Frame], number: usize) -> &Frame
    requires { number < length items.now }
    ensures { drop number (reverse items.now) ≡ result.now ∷ drop (number + 1) (reverse items.now) }
{
    &items[items.len() - 1 - number]
}

/// Keeps the number of the next instruction in the last frame, where that is a body's.
#[inline(always)]
#[tactic(auto, using(crate::proofs::Topmost::next_written, crate::proofs::Topmost::next_spared))]
fn set_last_next(items: &mut [Frame], next: u32)
    requires { 0 < length items.old }
    ensures { reverse items.new ≡ at_next next (reverse items.old) }
{
    let last = items.len() - 1;
    match &mut items[last] {
        Frame::Running(running) => running.next = next,
        Frame::Looping(_) => {}
    }
}

/// Keeps what its block has answered in the last frame, where that is a method's of the kernel. Nothing else of it is written.
#[inline(always)]
#[tactic(auto, using(crate::proofs::Topmost::answer_written, crate::proofs::Topmost::answer_spared))]
fn set_last_answer(items: &mut [Frame], value: Value)
    requires { 0 < length items.old }
    ensures { reverse items.new ≡ with_answer value (reverse items.old) }
{
    let last = items.len() - 1;
    match &mut items[last] {
        Frame::Running(_) => {}
        Frame::Looping(looping) => looping.state.last = Some(value),
    }
}

/// Lets the last frame wait for a block with that count, where it is a method's of the kernel. Nothing else of it is written.
#[inline(always)]
#[tactic(auto, using(crate::proofs::Topmost::count_written, crate::proofs::Topmost::count_spared))]
fn set_last_count(items: &mut [Frame], count: i64)
    requires { 0 < length items.old }
    ensures { reverse items.new ≡ with_count count (reverse items.old) }
{
    let last = items.len() - 1;
    match &mut items[last] {
        Frame::Running(_) => {}
        Frame::Looping(looping) => {
            looping.state.count = count;
            looping.state.last = None;
        }
    }
}

/// How many frames there are from the last back to the method of that home, with it, where it is there.
#[tactic(auto, using(crate::proofs::Homes::none_behind, crate::proofs::Homes::is_absent))]
fn frames_to(items: &[Frame], home: u64) -> Option<u32>
    requires { length items.now ≤ 4294967295 }
    ensures { result ≡ frames_to home (reverse items.now) }
{
    'frames: for number in 0..items.len() {
        if is_home(&items[items.len() - 1 - number], home) {
            return Some(number as u32 + 1);
        }
    }
    None
}

/// Whether a frame is a method's with that home.
fn is_home(frame: &Frame, home: u64) -> bool
    ensures { result ≡ is_home home frame.now }
{
    match *frame {
        Frame::Running(running) => match running.leaving {
            Leaving::Method => running.activation.home == home,
            Leaving::Body | Leaving::Clause { .. } | Leaving::Part => false,
        },
        Frame::Looping(_) => false,
    }
}
