//! A law of what is told. The function does nothing, and its contract is the law.

ghost use Rattle.ns_run_told.specs.Laws.{LinesTellEnds};

/// The report line of a run is made of its end as it is told in parts: so both tell the same.
pub fn lines_tell_ends()
    ensures { LinesTellEnds }
{}
