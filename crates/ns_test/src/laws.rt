//! Laws of the reports of tests. Each function does nothing, and its contract is the law.

ghost use Rattle.ns_base.specs.declared.limits.Limits.{Limits};
ghost use Rattle.ns_code.specs.declared.program.CodeProgram.{CodeProgram};
ghost use Rattle.ns_test.specs.Stated.{CountsAddUp, LinesAreEachOnes, LinesTellParts, OrderCountsNothing, PartsAreEachOnes, SentByItsSelector};

/// Each test has the line that it has alone, and is counted once: so neither the order of tests nor their company decides
/// anything of them.
#[tactic(auto, using(crate::proofs::Counts::add_up))]
pub fn tests_are_told_alone()
    ensures lines { (code : CodeProgram) (limits : Limits) → LinesAreEachOnes code limits }
    ensures counts { (code : CodeProgram) (limits : Limits) → CountsAddUp code limits }
    ensures order { (code : CodeProgram) (limits : Limits) → OrderCountsNothing code limits }
{}

/// Each test tells in parts what it tells so alone, and its line tells the same.
pub fn tests_are_told_in_parts()
    ensures parts { (code : CodeProgram) (limits : Limits) → PartsAreEachOnes code limits }
    ensures lines { (code : CodeProgram) (limits : Limits) → LinesTellParts code limits }
{
    ns_run_told::laws::lines_tell_ends();
}

/// A test is sent by its own selector: in code that fits its fields no other selector has that name.
#[tactic(auto, using(crate::proofs::Numbers::sent_by_its_selector))]
pub fn tests_are_sent_by_their_selectors()
    ensures { (code : CodeProgram) → SentByItsSelector code }
{}
