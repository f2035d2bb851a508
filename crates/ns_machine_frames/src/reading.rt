//! Frames and values that are read where they stand.

ghost use Rattle.std.specs.Prelude.{◌≡◌, ◌+◌, ◌<◌, ◌≤◌, ◌∷◌, length, take, drop};

use crate::frame::Frame;
use crate::stack::Stack;
use ns_world::value::Value;

impl Stack {
    /// The frame so many below the topmost.
    pub fn frame(&self, number: u32) -> &Frame
        requires { number < length self.now.frames.items }
        ensures { drop number self.now.frames.items ≡ result.now ∷ drop (number + 1) self.now.frames.items }
    {
        self.frames.get(number)
    }

    /// The values from a place to another, of whichever frames.
    pub fn between(&self, from: u32, to: u32) -> &[Value]
        requires order { from ≤ to }
        requires filled { to ≤ length self.now.values.items }
        ensures { result.now ≡ drop from (take to self.now.values.items) }
    {
        self.values.between(from, to)
    }
}
