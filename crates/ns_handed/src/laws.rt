//! A law of values that are told and handed over. The function does nothing, and its contract is the law.

ghost use Rattle.std.specs.Prelude.{ℕ};
ghost use Rattle.ns_handed.specs.Laws.{HandsBack};

/// Each value that a program told is that value where its host hands it over again, and the program takes it as its own.
#[tactic(auto, using(crate::proofs::Telling::hands_back))]
pub fn told_values_are_handed_back()
    ensures { (program : ℕ) → HandsBack program }
{}
