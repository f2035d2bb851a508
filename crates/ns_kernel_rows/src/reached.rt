//! What a row answers, as where control goes.

ghost use Rattle.std.specs.Prelude.{◌≡◌};
ghost use Rattle.ns_world.specs.Heap.{Heap};
ghost use Rattle.ns_kernel_rows.specs.Plain.{IsOfRow};
ghost use Rattle.ns_kernel_rows.specs.Reaching as spec;

use ns_moves::control::Reached;
use ns_world::ending::{Fault, Kind};
use ns_world::value::Value;

/// A value, or a fault at the site of the send.
#[inline(always)]
pub fn answered(answer: Result<Value, Fault>) -> Reached
    ensures reached { result ≡ spec.answered answer }
    ensures row { (heap : Heap) → IsOfRow heap result }
{
    match answer {
        Ok(value) => Reached::Gives(value),
        Err(fault) => Reached::Fails(fault),
    }
}

/// An error of that kind at the site of the send.
#[inline]
pub fn fails(kind: Kind) -> Reached
    ensures reached { result ≡ spec.fails kind }
    ensures row { (heap : Heap) → IsOfRow heap result }
{
    Reached::Fails(Fault::Kind(kind))
}
