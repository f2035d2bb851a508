//! The invariant of the states that a run reaches, as far as it speaks of frames and of what waits. Each function
//! does nothing but name the laws that it rests on, and its contract is the law.

ghost use Rattle.ns_code.specs.declared.program.CodeProgram.{CodeProgram};
ghost use Rattle.ns_facets.specs.declared.row.Grants.{Grants};
ghost use Rattle.ns_moves.specs.Standing.{MovesKeepFrames, ValidFindsAsked, MovesKeepValid};

/// A move of a valid state keeps its frames valid, and so it does what waits: what is entered fits its body, a frame
/// that gets a value goes on at its height, and one that waits waits behind its instruction. So no move of a valid
/// state is at a loss, and each instruction finds what it asks of the world.
pub fn moves_keep_frames_valid()
    ensures frames { (code : CodeProgram) → MovesKeepFrames code }
    ensures asks { (code : CodeProgram) → ValidFindsAsked code }
{
    ns_world::later::later_worlds_compose();
    ns_world::later::calls_lead_on();
    ns_world::later::what_lives_stays();
    ns_world::lawful::charging_keeps_lawful();
    ns_verify::laws::sound_code_has_no_cause();
    ns_verify::laws::heights_agree();
    ns_verify::laws::homes_are_outermost();
    ns_verify::laws::sound_bodies_stand_right();
    ns_verify::laws::sound_instructions_are_usable();
    crate::laws::frames_last();
    crate::laws::what_waits_lasts();
    crate::laws::actions_lead_on();
    crate::laws::actions_spend_exactly();
    crate::laws::actions_keep_lawful();
    crate::laws::what_is_handed_on_fits();
    crate::laws::sites_stay();
    crate::laws::sites_fit();
    crate::laws::blocks_enter_their_bodies();
    crate::laws::sends_keep_lawful();
    crate::laws::sends_that_waited_go_on();
    crate::laws::values_keep_lawful();
    crate::laws::what_code_names_is_there();
    crate::laws::own_selectors_are_selectors();
}

/// Each state that a valid one moves to is valid: so every state of a run is.
pub fn moves_keep_valid()
    ensures { (code : CodeProgram) (grants : Grants) → MovesKeepValid code grants }
{
    moves_keep_frames_valid();
}
