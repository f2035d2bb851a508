//! Laws of what is left to be done. Each function does nothing but name the laws that it rests on, and its contract is
//! the law.

ghost use Rattle.ns_code.specs.declared.program.CodeProgram.{CodeProgram};
ghost use Rattle.ns_facets.specs.declared.row.Grants.{Grants};
ghost use Rattle.ns_moves.specs.Falling.{FreeMovesLower, LeftIsBelowPower, LeftIsBounded, MovesLower};

/// A move that charges no step lowers what a run in a valid state can do without charging one. So there are only so
/// many such moves one after another.
pub fn free_moves_lower()
    ensures { (code : CodeProgram) (grants : Grants) → FreeMovesLower code grants }
{}

/// What a run in a valid state can do so is bounded by its limits and its code.
pub fn left_is_bounded()
    ensures { (code : CodeProgram) (grants : Grants) → LeftIsBounded code grants }
{}

/// So each move lowers one number, whether it charges a step or none: each run ends, and each turn.
pub fn moves_lower()
    ensures { (code : CodeProgram) (grants : Grants) → MovesLower code grants }
{
    crate::move_laws::moves_charge_as_told();
    crate::move_laws::moves_go_onward();
    crate::valid_frames::moves_keep_valid();
    free_moves_lower();
    left_is_bounded();
}

/// So what is left of a run is less than two to a power that its limits and its code give.
pub fn left_is_below_a_power()
    ensures { (code : CodeProgram) (grants : Grants) → LeftIsBelowPower code grants }
{
    left_is_bounded();
}
