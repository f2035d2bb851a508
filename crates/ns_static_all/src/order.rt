//! The order of two faults.

ghost use Rattle.std.specs.Prelude.{◌≡◌};
ghost use Rattle.std.specs.Ordering.{is_lt};
ghost use Rattle.ns_static_rules.specs.Least.{comes_before, order_of};
ghost use Rattle.ns_static_all.specs.InOrder.{is_behind};

use ns_static_rules::fault::Placed;
use ns_static_rules::least::comes_before;
use std::cmp::Ordering;

/// By file, line, column, and the cause's number.
pub fn order(fault: Placed, other: Placed) -> Ordering
    ensures { is_lt result ≡ comes_before (order_of fault) (order_of other) }
{
    if comes_before(fault, other) {
        return Ordering::Less;
    }
    if comes_before(other, fault) {
        return Ordering::Greater;
    }
    Ordering::Equal
}

/// Whether the last fault that was told, if there is one, comes before this one.
pub fn is_behind(last: Option<Placed>, fault: Placed) -> bool
    ensures { result ≡ is_behind order_of last fault }
{
    match last {
        None => true,
        Some(last) => comes_before(last, fault),
    }
}
