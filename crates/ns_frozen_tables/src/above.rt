//! What stands above a frame.

ghost use Rattle.std.specs.Prelude.{◌≡◌};
ghost use Rattle.ns_frozen.specs.Frames as spec;
ghost use Rattle.ns_frozen_tables.specs.Above.{above_shown};

use ns_frozen::frame::{FrameKind, FrozenFrame};
use ns_frozen::pending::Pending;

/// Nothing at all; nothing but what is pending; or a frame of that kind.
#[derive(Clone, Copy)]
pub enum Above {
    Free,
    Waiting,
    Under(FrameKind),
}

/// What stands above the topmost frame.
pub fn above_all(pending: &Option<Pending>) -> Above
    ensures { above_shown result ≡ spec.above_all pending.now }
{
    match pending {
        Some(_) => Above::Waiting,
        None => Above::Free,
    }
}

/// What stands above the first of some frames that stand above another one.
pub fn above_of(top: Above, frames: &[FrozenFrame]) -> Above
    ensures { above_shown result ≡ spec.above_of (above_shown top) frames.now }
{
    match frames {
        [frame, ..] => Above::Under(frame.kind),
        [] => top,
    }
}

/// Whether an initialiser stands there.
pub fn is_under_initialiser(above: Above) -> bool
    ensures { result ≡ spec.is_under_initialiser (above_shown above) }
{
    match above {
        Above::Under(FrameKind::Initialiser(_)) => true,
        _ => false,
    }
}

/// Whether no frame stands there, or a block's.
pub fn is_under_block(above: Above) -> bool
    ensures { result ≡ spec.is_under_block (above_shown above) }
{
    match above {
        Above::Under(FrameKind::Block(_)) => true,
        Above::Under(_) => false,
        _ => true,
    }
}
