//! What a frame must be, and which is the first that isn't.

ghost use Rattle.std.specs.Prelude.{◌≡◌, ◌==◌, Some, option_map, slice_get};
ghost use Rattle.ns_frozen.specs.Frames as spec;
ghost use Rattle.ns_frozen_tables.specs.Above.{above_shown};
ghost use Rattle.ns_frozen_valid.specs.Frames as own;
ghost use Rattle.ns_frozen_seen.specs.Seen.{IsSeen, heap_of};

use crate::kernel::{is_looping, is_state};
use ns_code::body::BodyCode;
use ns_code::kinds::{BLOCK, CLAUSE, INITIALISER, METHOD};
use ns_code::program::CodeProgram;
use ns_frozen::frame::{FrameKind, FrozenFrame};
use ns_frozen::frozen::Frozen;
use ns_frozen_fitting::environments::fits_environment;
use ns_frozen_seen::seen::Seen;
use ns_frozen_seen::values::is_ref;
use ns_frozen_tables::above::{Above, above_all, above_of, is_under_block};
use ns_frozen_tables::bodies::NO_HOME;
use ns_kcode::state::KState;
use ns_world::kernel_parts::KMethod;

/// The place of the first bad frame.
pub fn bad_frame(seen: &Seen<'_>, frozen: &Frozen) -> Option<u64>
    requires { IsSeen seen.now }
    ensures { result ≡ spec.bad_frame seen.now.code.now (heap_of seen.now) frozen.now }
{
    bad_among_frames(
        seen,
        frozen.homes,
        above_all(&frozen.pending),
        frozen.frames.as_slice(),
    )
}

/// The same of these frames, the topmost of which has that above it.
fn bad_among_frames(seen: &Seen<'_>, homes: u64, top: Above, frames: &[FrozenFrame]) -> Option<u64>
    requires { IsSeen seen.now }
    ensures { result ≡ spec.bad_frame_from seen.now.code.now (heap_of seen.now) homes (above_shown top) 0 0 frames.now }
{
    let mut left = frames;
    let mut least: u128 = 0;
    let mut place: u64 = 0;
    'frames: while let Some((frame, above)) = left.split_first() {
        if !is_good_frame(seen, homes, least, above_of(top, above), frame) {
            return Some(place);
        }
        least = least_above(least, frame);
        place += 1;
        left = above;
    }
    None
}

/// Whether a frame is as it must be, by its kind.
fn is_good_frame(
    seen: &Seen<'_>,
    homes: u64,
    least: u128,
    above: Above,
    frame: &FrozenFrame,
) -> bool
    requires { IsSeen seen.now }
    ensures { result ≡ spec.is_good_frame seen.now.code.now (heap_of seen.now) homes least (above_shown above) frame.now frame.now.kind }
{
    match frame.kind {
        FrameKind::Method(body) => {
            is_running(seen, METHOD, body, above, frame) && ends_well(seen, homes, least, frame)
        }
        FrameKind::Block(body) => {
            is_running(seen, BLOCK, body, above, frame) && ends_well(seen, homes, least, frame)
        }
        FrameKind::Initialiser(body) => {
            is_running(seen, INITIALISER, body, above, frame)
                && ends_well(seen, homes, least, frame)
        }
        FrameKind::Clause { body, .. } => {
            is_running(seen, CLAUSE, body, above, frame) && ends_well(seen, homes, least, frame)
        }
        FrameKind::Kernel { method, state } => {
            is_good_looping(seen, method, state, above, frame)
        }
    }
}

/// Whether a frame of a method of the kernel is.
fn is_good_looping(
    seen: &Seen<'_>,
    method: KMethod,
    state: KState,
    above: Above,
    frame: &FrozenFrame,
) -> bool
    requires { IsSeen seen.now }
    ensures { result ≡ own.is_good_looping seen.now.code.now (heap_of seen.now) (above_shown above) frame.now method state }
{
    is_state(seen, method, state)
        && is_looping(frame, state)
        && is_under_block(above)
        && seen.is_site(frame.site)
}

/// Whether a frame runs a body of that kind.
fn is_running(seen: &Seen<'_>, kind: u8, number: u32, above: Above, frame: &FrozenFrame) -> bool
    requires { IsSeen seen.now }
    ensures { result ≡ own.is_running seen.now.code.now (heap_of seen.now) (above_shown above) frame.now kind number }
{
    match body_at(seen.code, number) {
        Some(body) => body.kind == kind && runs(seen, number, body, above, frame),
        None => false,
    }
}

/// Whether a frame of that body is as it must be.
fn runs(seen: &Seen<'_>, number: u32, body: &BodyCode, above: Above, frame: &FrozenFrame) -> bool
    requires seen { IsSeen seen.now }
    requires there { slice_get seen.now.code.now.bodies number ≡ Some body.now }
    ensures { result ≡ spec.is_running seen.now.code.now (heap_of seen.now) (above_shown above) frame.now number body.now }
{
    seen.fits_body(body, frame.receiver, frame.holder)
        && seen
            .bodies
            .stands_at(number, above, frame.instr, frame.operands.len())
        && has_locals(seen, number, body, frame)
        && has_live_parts(seen, frame)
}

/// Whether a frame has the environment and the locals of its body.
fn has_locals(seen: &Seen<'_>, number: u32, body: &BodyCode, frame: &FrozenFrame) -> bool
    requires seen { IsSeen seen.now }
    requires there { slice_get seen.now.code.now.bodies number ≡ Some body.now }
    ensures { result ≡ own.has_locals seen.now.code.now (heap_of seen.now) frame.now number }
{
    let depth = u64::from(number) + 1;
    if body.environment {
        return fits_environment(seen, seen.kept.as_slice(), depth, Some(number), frame.env)
            && frame.locals.len() == 0;
    }
    fits_environment(seen, seen.kept.as_slice(), depth, body.parent, frame.env)
        && frame.locals.len() == usize::from(body.locals)
}

/// Whether what a frame holds is live, and its site one of the code.
fn has_live_parts(seen: &Seen<'_>, frame: &FrozenFrame) -> bool
    requires { IsSeen seen.now }
    ensures { result ≡ own.has_live_parts seen.now.code.now (heap_of seen.now) frame.now }
{
    seen.are_live(frame.locals.as_slice())
        && seen.are_live(frame.operands.as_slice())
        && seen.is_site(frame.site)
}

/// Whether a frame can end as its kind says, where its homes of methods begin with that number.
fn ends_well(seen: &Seen<'_>, homes: u64, least: u128, frame: &FrozenFrame) -> bool
    requires { IsSeen seen.now }
    ensures { result ≡ spec.ends_well seen.now.code.now (heap_of seen.now) homes least frame.now frame.now.kind }
{
    match frame.kind {
        FrameKind::Method(_) => frame.home < homes && least <= u128::from(frame.home),
        FrameKind::Block(body) => seen.bodies.has_block_home(homes, body, frame.home),
        FrameKind::Initialiser(_) => {
            seen.has_holder(frame.holder, frame.receiver) && frame.home == NO_HOME
        }
        FrameKind::Clause {
            body,
            object,
            holder,
            class,
        } => {
            (is_ref(object, frame.receiver) && frame.holder == holder)
                && makes(seen, body, holder, class)
                && frame.home == NO_HOME
        }
        FrameKind::Kernel { .. } => false,
    }
}

/// Whether a clause is that of a class, which is a nested one of a holder's declaration.
fn makes(seen: &Seen<'_>, body: u32, holder: u32, class: u32) -> bool
    requires { IsSeen seen.now }
    ensures { result ≡ own.makes seen.now.code.now (heap_of seen.now) body holder class }
{
    has_clause(seen, body, class) && seen.has_nested(seen.declaration(holder), class)
}

/// Whether a class has that clause.
fn has_clause(seen: &Seen<'_>, body: u32, class: u32) -> bool
    ensures { result ≡ own.has_clause seen.now.code.now body class }
{
    match seen.code.classes.as_slice().get(class as usize) {
        Some(class) => is_number(body, class.clause),
        None => false,
    }
}

/// The body of that number.
fn body_at(code: &CodeProgram, number: u32) -> Option<&BodyCode>
    ensures { option_map (λ body. body.now) result ≡ slice_get code.now.bodies number }
{
    match code.bodies.as_slice().get(number as usize) {
        Some(body) => Some(body),
        None => None,
    }
}

/// The least home that a method above a frame can have.
fn least_above(least: u128, frame: &FrozenFrame) -> u128
    ensures { result ≡ spec.least_above least frame.now frame.now.kind }
{
    match frame.kind {
        FrameKind::Method(_) => u128::from(frame.home) + 1,
        _ => least,
    }
}

/// Whether a number is that one, where it is there.
fn is_number(number: u32, other: Option<u32>) -> bool
    ensures { result ≡ spec.is_number number other }
{
    match other {
        Some(other) => number == other,
        None => false,
    }
}
