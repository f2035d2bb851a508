//! Frames as the machine keeps them.

ghost use Rattle.std.specs.Prelude.{◌≡◌, ◌+◌, ◌≤◌, length, List};
ghost use Rattle.ns_moves.specs.Bodies.{greatest_of};
ghost use Rattle.ns_base.specs.declared.place.Place.{Place as SourcePlace};
ghost use Rattle.ns_frozen.specs.Thawing as thawing;
ghost use Rattle.ns_frozen.specs.Thawing.{frame_thawed};
ghost use Rattle.ns_machine_frames.specs.declared.frame.Activation.{Activation as KeptActivation};
ghost use Rattle.ns_machine_frames.specs.declared.frame.Frame.TheVariants.{Running as RunningFrameOf};
ghost use Rattle.ns_machine_frames.specs.View.{leaving_shown, frame_shown};
ghost use Rattle.ns_machine_thaw.specs.Frames.{SiteIsPlaced, KindFits, KeepsFrame, next_of, kept_body, stood_of};

use crate::places::kept_site;
use ns_code::program::CodeProgram;
use ns_frozen::frame::{FrameKind, FrozenFrame};
use ns_machine_frames::frame::{Activation, Frame, KeptSite, Leaving, LoopingFrame, RunningFrame};

/// A frame, whose values begin at a top, by whether the one below waits at a superclass message, and whether it waits itself.
/// The place of its site has a number.
#[tactic(auto, using(crate::proofs::Shown::method_shown, crate::proofs::Shown::block_shown, crate::proofs::Shown::initialiser_shown, crate::proofs::Shown::clause_shown, crate::proofs::Shown::kernel_shown, crate::proofs::Shown::body_kept, crate::proofs::Shown::body_small))]
pub fn kept_frame(
    code: &CodeProgram,
    frame: &FrozenFrame,
    number: u32,
    part: bool,
    waits: bool,
    top: u32,
) -> Frame
    requires fits { KindFits code.now frame.now frame.now.kind }
    requires small { top + greatest_of code.now.bodies ≤ 4294967295 }
    ensures shown { (places : List SourcePlace) → SiteIsPlaced places number frame.now.site
        → frame_shown code.now places (stood_of result frame.now) ≡ frame_thawed code.now part waits frame.now.kind frame.now }
    ensures keeps { KeepsFrame code.now top frame.now result }
{
    let _code = code;
    let site = kept_site(frame.site, number);
    match frame.kind {
        FrameKind::Method(body) => running(frame, body, Leaving::Method, site, waits, top),
        FrameKind::Block(body) => running(frame, body, Leaving::Body, site, waits, top),
        FrameKind::Initialiser(body) => {
            running(frame, body, initialiser_leaves(part), site, waits, top)
        }
        FrameKind::Clause { body, class, .. } => {
            running(frame, body, Leaving::Clause { class }, site, waits, top)
        }
        FrameKind::Kernel { method, state } => Frame::Looping(LoopingFrame {
            method,
            state,
            site,
            floor: top,
        }),
    }
}

/// What the end of an initialiser does, by whether the frame below waits at a superclass message.
fn initialiser_leaves(part: bool) -> Leaving
    ensures { (activation : KeptActivation) → leaving_shown result activation ≡ thawing.initialiser_leaves part }
{
    if part { Leaving::Part } else { Leaving::Body }
}

/// The frame of a body.
fn running(
    frame: &FrozenFrame,
    body: u32,
    leaving: Leaving,
    site: KeptSite,
    waits: bool,
    top: u32,
) -> Frame
    requires instr { frame.now.instr + 1 ≤ 65536 }
    requires small { top + length frame.now.locals ≤ 4294967295 }
    ensures { result ≡ RunningFrameOf (kept_body frame.now body leaving site waits top) }
{
    Frame::Running(RunningFrame {
        leaving,
        activation: Activation {
            me: frame.receiver,
            holder: frame.holder,
            body,
            home: frame.home,
            env: frame.env,
            site,
        },
        next: next(frame.instr, waits),
        floor: top,
        base: top,
        operands: top + frame.locals.len() as u32,
    })
}

/// The next instruction: the one behind that which waits, where it waits.
fn next(instr: u32, waits: bool) -> u32
    requires { instr + 1 ≤ 65536 }
    ensures { result ≡ next_of waits instr }
{
    if waits { instr + 1 } else { instr }
}
