//! What stays live while a run goes on, so that a host can hand on what it has got. Each function does nothing but name the
//! laws that it rests on, and its contract is the law.

ghost use Rattle.ns_code.specs.declared.program.CodeProgram.{CodeProgram};
ghost use Rattle.ns_facets.specs.declared.row.Grants.{Grants};
ghost use Rattle.ns_moves.specs.Living.{MovesKeepLive, TurnsKeepLive, RunsKeepLive, SendsKeepLive};

/// A value that is live at a valid state is live after any moves and turns from there on.
pub fn moves_keep_live()
    ensures moves { (code : CodeProgram) (grants : Grants) → MovesKeepLive code grants }
    ensures turns { (code : CodeProgram) (grants : Grants) → TurnsKeepLive code grants }
{
    ns_world::later::what_lives_stays();
    crate::move_laws::moves_go_onward();
    crate::valid_frames::moves_keep_valid();
}

/// So is a value that was live before a run was begun, by its start or by a send of the host.
pub fn begun_runs_keep_live()
    ensures runs { (code : CodeProgram) (grants : Grants) → RunsKeepLive code grants }
    ensures sends { (code : CodeProgram) (grants : Grants) → SendsKeepLive code grants }
{
    crate::valid_world::sends_of_a_host_are_valid();
    moves_keep_live();
}
