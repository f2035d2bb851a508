//! Laws on sends that nothing answers, each as the contract of a function that does nothing.

ghost use Rattle.ns_code.specs.declared.program.CodeProgram.{CodeProgram};
ghost use Rattle.ns_static_all.specs.Ascending.{AreAllOf};
ghost use Rattle.ns_sends.specs.Never.{ToldAreNeverFound};
ghost use Rattle.ns_sends.specs.Unanswered.{lost_sends, sent_key, unanswered};

/// A selector that is told is found by no lookup, in whatever heap: in a run such a send ends in NotUnderstood, or it goes on
/// as `doesNotUnderstand:`.
pub fn told_are_never_found()
    ensures { (code : CodeProgram) → ToldAreNeverFound code }
{}

/// What is told ascends by file, line, column and selector; each is a send that nothing answers, and none is missing.
pub fn all_are_told()
    ensures { (code : CodeProgram) → AreAllOf sent_key (lost_sends code) (unanswered code) }
{}
