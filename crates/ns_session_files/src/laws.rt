//! Laws of sessions. Each function does nothing but name the laws that it rests on, and its contract is the law.

ghost use Rattle.std.specs.Prelude.{ℕ};
ghost use Rattle.ns_base.specs.declared.limits.Limits.{Limits};
ghost use Rattle.ns_session_files.specs.Laws.{AppliesAsMeant, KeepsApplications, PartsTellRuns};

/// Under the round robin a session has the same applications, in their order.
#[tactic(auto, using(crate::proofs::KeepingLaws::keeps_applications))]
pub fn sessions_keep_their_applications()
    ensures { (quantum : ℕ) → KeepsApplications quantum }
{}

/// An application that has ended and isn't granted the board has come to what its source means on its own: the same output,
/// report line, status and counters, at all limits. So what is told of the applications of a session is what their sources
/// mean, but for those that share the board.
pub fn applications_run_as_their_sources_mean()
    ensures { (limits : Limits) → AppliesAsMeant limits }
{
    ns_session::laws::applications_mean_their_sources();
    ns_link::laws::the_machine_does_what_is_meant();
}

/// What an application tells in parts its lines tell too. So one that has ended and isn't granted the board tells in parts what
/// its source means on its own.
pub fn parts_tell_runs()
    ensures { PartsTellRuns }
{
    ns_run_told::laws::lines_tell_ends();
}
