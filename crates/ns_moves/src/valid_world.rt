//! The invariant of the states that a run reaches, as far as it speaks of the world and of the end. Each function
//! does nothing, and its contract is the law.

ghost use Rattle.ns_code.specs.declared.program.CodeProgram.{CodeProgram};
ghost use Rattle.ns_facets.specs.declared.row.Grants.{Grants};
ghost use Rattle.ns_moves.specs.WorldStays.{SwapsKeepValid};
ghost use Rattle.ns_moves.specs.Beginning.{NewIsValid, StartKeepsValid, SecondIsValid, HostKeepsValid};

use ns_verify::laws::sound_code_is_in_order;

/// A new machine of sound code that fits its fields is in a valid state, with limits in range: its start has made
/// all of its cells, or it has ended with those that fit.
pub fn new_machines_are_valid()
    ensures { (code : CodeProgram) (grants : Grants) → NewIsValid code grants }
{
    sound_code_is_in_order();
}

/// The opening sends can be made: the start of a run keeps a state valid, and with the live value of the first
/// opening send the second can wait.
pub fn opening_sends_are_valid()
    ensures first { (code : CodeProgram) (grants : Grants) → StartKeepsValid code grants }
    ensures second { (code : CodeProgram) (grants : Grants) → SecondIsValid code grants }
{}

/// A valid state that is idle stays valid with a send of the host, to a live value and with at most 255 live
/// arguments, as many as the selector takes.
pub fn sends_of_a_host_are_valid()
    ensures { (code : CodeProgram) (grants : Grants) → HostKeepsValid code grants }
{}

/// A valid state with another board is valid.
pub fn swaps_keep_valid()
    ensures { (code : CodeProgram) (grants : Grants) → SwapsKeepValid code grants }
{}
