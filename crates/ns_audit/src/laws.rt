//! What an audit says. Each function does nothing but name the laws that it rests on, and its contract is the law.

ghost use Rattle.ns_code.specs.declared.program.CodeProgram.{CodeProgram};
ghost use Rattle.ns_verify.specs.Verify.{IsSound};
ghost use Rattle.ns_audit.specs.Stated.{ModulesAreDeclared, OthersAreThere, PerformedIsTold, SendsAreMade, SendsCarryPlaces, YesIsKept};

/// Where the audit of a module answers Yes, no state of any run of the code sends a denied selector from the module.
pub fn yes_is_kept()
    ensures { (code : CodeProgram) → YesIsKept code }
{
    ns_moves::valid_world::new_machines_are_valid();
    ns_moves::valid_world::opening_sends_are_valid();
    ns_moves::valid_world::sends_of_a_host_are_valid();
    ns_moves::valid_world::swaps_keep_valid();
    ns_moves::valid_frames::moves_keep_valid();
}

/// Where it answers anything else, the instruction that it names is there.
pub fn others_are_there()
    ensures { (code : CodeProgram) → OthersAreThere code }
{}

/// A class is inside the module of a class that stands in no other exactly where that is a declaration around it.
pub fn modules_are_declared()
    ensures { (code : CodeProgram) → IsSound code → ModulesAreDeclared code }
{
    ns_verify::laws::sound_code_has_no_cause();
}

/// What a state is said to send, its next move sends. Nothing is left out: those instructions send that carry a place, but
/// for the start of a superclass part, and what waits as a `perform:with:` of a body is told as its send.
pub fn sends_are_made()
    ensures made { (code : CodeProgram) → SendsAreMade code }
    ensures carry { SendsCarryPlaces }
    ensures performed { PerformedIsTold }
{}
