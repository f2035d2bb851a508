//! A law of the calls on a program. The function does nothing, and its contract is the law.

ghost use Rattle.std.specs.Prelude.{ℕ, List};
ghost use Rattle.ns_opened.specs.Host.{EndsAsking, EndsOpening, EndsTurn, EndsWithoutFault};
ghost use Rattle.ns_opened.specs.Opened.{Asked};
ghost use Rattle.ns_opened.specs.declared.host.HostTerms.{HostTerms};

/// No call ends as one that couldn't read a file or write a stream.
pub fn calls_end_without_fault()
    ensures opening { (given : HostTerms) (arguments : List (List ℕ)) (image : List ℕ) → EndsWithoutFault (EndsOpening given arguments image) }
    ensures asking { (question : Asked) (bytes : List ℕ) → EndsWithoutFault (EndsAsking question bytes) }
    ensures turn { (name steps : ℕ) (bytes : List ℕ) → EndsWithoutFault (EndsTurn name steps bytes) }
{}
