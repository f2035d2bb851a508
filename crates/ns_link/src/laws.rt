//! The laws of the simulation. Each function does nothing but name the laws that it rests on, and its contract is the
//! law.

ghost use Rattle.ns_scope.specs.declared.program.Program.{Program};
ghost use Rattle.ns_resolved.specs.Program.{Meant};
ghost use Rattle.ns_link.specs.Stated.{RunsAsMeant, ReportedAsMeant, WholeHasFirst, SourceRunsAsMeant, TurnsAreOnTheWay, LongTurnsEnd, FewerStepsBegin};

/// The machine on the code of a program, started, comes to the end that the program means by its
/// trees and its tables: with the same ending, world, board and count of activations. What is
/// reported of it by the code is the meaning of the program's run.
pub fn the_machine_does_what_is_meant()
    ensures ends { (meant : Meant) → RunsAsMeant meant }
    ensures reported { (meant : Meant) → ReportedAsMeant meant }
{
    ns_gen_code::laws::code_has_the_tables();
    ns_model::laws::returns_go_home();
    ns_model::laws::runs_end();
    ns_model::laws::the_meaning_reads_tables_alone();
}

/// A program that was loaded whole has a first class with an initialiser.
#[tactic(auto, using(crate::proofs::Sources::whole_has_first))]
pub fn whole_programs_begin()
    ensures { (program : Program) → WholeHasFirst program }
{}

/// So the machine on the code of such a program comes to the end that the program means, whatever
/// it is granted and given, at every limit.
pub fn the_machine_does_what_a_source_means()
    ensures { (program : Program) → SourceRunsAsMeant program }
{
    the_machine_does_what_is_meant();
    whole_programs_begin();
}

/// Each turn of the machine leaves a state on the way to that end: the run goes on to it from there,
/// has printed what it begins with, and where it moves no more it has come to it.
pub fn turns_are_on_the_way()
    ensures { (meant : Meant) → TurnsAreOnTheWay meant }
{
    the_machine_does_what_is_meant();
    ns_moves::move_laws::moves_add();
    ns_moves::move_laws::ended_runs_stay();
    ns_moves::move_laws::moves_go_onward();
}

/// A turn of one step more than the limit comes to that end.
pub fn long_turns_come_to_the_end()
    ensures { (meant : Meant) → LongTurnsEnd meant }
{
    turns_are_on_the_way();
    ns_moves::move_laws::ended_runs_stay();
    ns_moves::move_laws::moves_go_onward();
    ns_moves::valid_world::new_machines_are_valid();
    ns_moves::valid_world::opening_sends_are_valid();
    ns_moves::valid_frames::moves_keep_valid();
}

/// With fewer steps a program's run means the same, but for the limit itself, or that limit ends it
/// at a state of the machine on the way to the same end; what it has printed by then is the
/// beginning of what is printed with more.
pub fn fewer_steps_begin_the_run()
    ensures { (meant : Meant) → FewerStepsBegin meant }
{
    the_machine_does_what_is_meant();
    ns_moves::move_laws::moves_add();
    ns_moves::move_laws::ended_runs_stay();
    ns_moves::move_laws::moves_go_onward();
}
