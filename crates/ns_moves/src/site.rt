//! The send that an error is named by.

ghost use Rattle.std.specs.Prelude.{◌≡◌};
ghost use Rattle.ns_moves.specs.Site as spec;

use ns_base::place::Place;
use ns_base::selector::Sel;
use ns_classes::apply::MakeFault;
use ns_world::ending::{Fault, Kind, LimitKind};
use ns_world::kernel::ClassName;

/// The innermost send being answered: the place of its selector where it has one, the class of its
/// receiver and its selector. What runs without a send of its own keeps the site of the send that
/// it answers: superclass parts, heads of clauses, blocks and the kernel's loops.
#[derive(Clone, Copy)]
pub struct Site {
    pub place: Option<Place>,
    pub class: ClassName,
    pub sel: Sel,
}

/// The fault of a class that can't be made.
#[inline(never)]
pub fn make_fault(fault: MakeFault) -> Fault
    ensures { result ≡ spec.make_fault fault }
{
    match fault {
        MakeFault::NotAClass => Fault::Kind(Kind::NotAClass),
        MakeFault::KernelSuper => Fault::Kind(Kind::KernelSuper),
        MakeFault::ChainLimit => Fault::Kind(Kind::ChainLimit),
        MakeFault::CellLimit => Fault::Limit(LimitKind::Cells),
    }
}
