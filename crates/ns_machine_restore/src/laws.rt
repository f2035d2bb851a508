//! A law of what is read of a snapshot. The function does nothing, and its contract is the law.

ghost use Rattle.std.specs.Prelude.{ℕ, List};
ghost use Rattle.ns_machine_restore.specs.Laws.{LimitsAreRead};

/// The limits of a snapshot that is read are in their ranges.
pub fn read_limits_are_in_range()
    ensures { (bytes : List ℕ) → LimitsAreRead bytes }
{}
