//! Laws on faults, each as the contract of a function that does nothing.

ghost use Rattle.std.specs.Prelude.{◌≡◌, ℕ, ◌-◌, ◌^◌, ◌≤◌, [], List, None, length, min};
ghost use Rattle.ns_static_rules.specs.declared.fault.Placed.{Placed};
ghost use Rattle.ns_static_rules.specs.declared.kept.Kept.TheVariants as k;
ghost use Rattle.ns_static_rules.specs.Keeping.{count_kept, keep_all, least_kept, list_kept};
ghost use Rattle.ns_static_rules.specs.Least.{least};
ghost use Rattle.ns_static_rules.specs.LeastOf.{IsLeastOf};

/// The least of some faults is one of them, and none of them comes before it. There is none exactly
/// where there are no faults.
pub fn least_is_least()
    ensures { (faults : List Placed) → IsLeastOf faults (least faults) }
{}

/// A walk that is to keep the least of the faults keeps that, one that is to count them their number, as far as a
/// number of 64 bits can say, and one that has room for all of them each, in turn.
pub fn walks_keep_what_is_asked_for()
    ensures least { (faults : List Placed) → least_kept (keep_all (k.Least None) faults) ≡ least faults }
    ensures count { (faults : List Placed) → count_kept (keep_all (k.Counted 0) faults) ≡ min (length faults) (2 ^ 64 - 1) }
    ensures each { (left : ℕ) (faults : List Placed) → length faults ≤ left →
        list_kept (keep_all (k.Listed (record { faults = []; left = left })) faults) ≡ faults }
{}
