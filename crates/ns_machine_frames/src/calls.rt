//! Entering the body that an action reached, by the shape that code gives it.

ghost use Rattle.std.specs.Prelude.{◌+◌, ◌≤◌, [], ◌∷◌, ◌≡◌};
ghost use Rattle.ns_machine_frames.specs.Stack.{FramesCanBegin, IsEntered};
ghost use Rattle.ns_machine_frames.specs.Calls.{leaving_of, activation_of, locals_of, nils, locals_for, bare_frame, frame_from, frame_for, FitsCall, FitsArguments, FitsOne};

use crate::frame::{Activation, KeptSite, Layout, Leaving};
use crate::registers::Registers;
use crate::stack::Stack;
use ns_moves::control::{Entered, Exit, Given};
use ns_world::value::Value;

/// What code says of a body: how many parameters it has, and how many parameters and locals; whether these stand in an
/// environment; and how many operands at most.
#[derive(Clone, Copy)]
pub struct BodyShape {
    pub params: u32,
    pub locals: u32,
    pub environment: bool,
    pub height: u32,
}

/// A call: what the end of its body does, the send that it answers, where the caller's values end, and where the
/// arguments begin.
#[derive(Clone, Copy)]
pub struct Call {
    pub leaving: Leaving,
    pub site: KeptSite,
    pub floor: u32,
    pub first: u32,
}

impl Stack {
    /// Enters a body that was reached. Its arguments stand from a place on up to the top, and the elements of an array
    /// were copied there; a Message comes in their place.
    #[inline(always)]
    pub fn enter_body(
        &mut self,
        at: Registers,
        call: Call,
        entered: Entered,
        shape: BodyShape,
    ) -> Registers
        requires begins { FramesCanBegin self.old at call.floor }
        requires fits { FitsCall shape call entered.given self.old at }
        ensures { IsEntered self.old at self.new result (frame_for shape call entered)
            (locals_for shape call entered.given self.old at) shape.height }
    {
        let activation = activation_of(entered, call.site);
        if shape.environment {
            return self.enter_bare(at, call, activation, shape.height);
        }
        match entered.given {
            Given::Listed | Given::Items(_) => self.enter_on_arguments(at, call, activation, shape),
            Given::Message(message) => self.enter_on(
                at,
                Value::Ref(message),
                call,
                activation,
                shape,
            ),
        }
    }

    /// Enters a body whose locals stand in its environment.
    #[inline(always)]
    #[tactic(auto, using(crate::proofs::Called::none_beside))]
    fn enter_bare(
        &mut self,
        at: Registers,
        call: Call,
        activation: Activation,
        height: u32,
    ) -> Registers
        requires begins { FramesCanBegin self.old at call.floor }
        requires enough { call.floor + height ≤ self.old.values.room }
        ensures { IsEntered self.old at self.new result (bare_frame call activation height) [] height }
    {
        let layout = Layout {
            floor: call.floor,
            base: call.floor,
            locals: 0,
            height,
        };
        let below = Registers {
            top: call.floor,
            ..at
        };
        self.enter(below, call.leaving, activation, layout)
    }

    /// Enters a body on its arguments where they stand.
    #[inline(always)]
    fn enter_on_arguments(
        &mut self,
        at: Registers,
        call: Call,
        activation: Activation,
        shape: BodyShape,
    ) -> Registers
        requires begins { FramesCanBegin self.old at call.floor }
        requires fits { FitsArguments shape call self.old at }
        ensures { IsEntered self.old at self.new result (frame_from call.first call activation shape)
            (locals_of call shape self.old at) shape.height }
    {
        let layout = Layout {
            floor: call.floor,
            base: call.first,
            locals: shape.locals,
            height: shape.height,
        };
        self.enter(at, call.leaving, activation, layout)
    }

    /// Enters a body on a value in place of its arguments.
    #[inline(always)]
    #[tactic(auto, using(crate::proofs::Called::put_stood, crate::proofs::Called::put_laid, crate::proofs::Called::one_beside))]
    fn enter_on(
        &mut self,
        at: Registers,
        value: Value,
        call: Call,
        activation: Activation,
        shape: BodyShape,
    ) -> Registers
        requires begins { FramesCanBegin self.old at call.floor }
        requires fits { FitsOne shape call self.old }
        ensures { IsEntered self.old at self.new result (frame_from call.floor call activation shape) (value ∷ nils shape) shape.height }
    {
        let below = Registers {
            top: call.floor,
            ..at
        };
        let above = self.push(below, value);
        let here = Call {
            first: call.floor,
            ..call
        };
        self.enter_on_arguments(above, here, activation, shape)
    }
}

/// What the end of a body does, by what its value is for.
#[inline(always)]
pub fn leaving_of(exit: Exit) -> Leaving
    ensures { result ≡ leaving_of exit }
{
    match exit {
        Exit::Method => Leaving::Method,
        Exit::Body => Leaving::Body,
        Exit::Clause { class } => Leaving::Clause { class },
    }
}

/// The activation of a body that begins.
#[inline(always)]
fn activation_of(entered: Entered, site: KeptSite) -> Activation
    ensures { result ≡ activation_of entered site }
{
    Activation {
        me: entered.me,
        holder: entered.holder,
        body: entered.body,
        home: entered.home,
        env: entered.env,
        site,
    }
}
