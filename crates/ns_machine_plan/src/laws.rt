//! Laws of steps. Each function does nothing, and its contract is the law.

ghost use Rattle.ns_code.specs.declared.program.CodeProgram.{CodeProgram};
ghost use Rattle.ns_world.specs.Heap.{Heap};
ghost use Rattle.ns_machine_plan.specs.Stated.{BodiesHaveSteps, StepsGoOn, JumpsLand, StepsAreUsable, RunningHasStep, FramesAreWithin};
ghost use Rattle.ns_machine_plan.specs.Stated.{MembersAreFound, MembersAreEntries, PrivateSendsHaveMembers, PrivateSendsFind, IntegersFindRows, BooleansFindRows, ArraysFindRows};

use ns_find::laws::{arrays_find_their_rows, booleans_find_their_rows, integers_find_their_rows};
use ns_moves::finding::enclosing_objects_are_there;
use ns_verify::laws::{heights_agree, sound_code_has_no_cause, sound_instructions_are_usable};

/// In sound code each body has a first step; behind a step that goes on there is a next one, and the target of a jump
/// is a step of its body.
pub fn steps_lead_to_steps()
    ensures first { (code : CodeProgram) → BodiesHaveSteps code }
    ensures next { (code : CodeProgram) → StepsGoOn code }
    ensures target { (code : CodeProgram) → JumpsLand code }
{
    sound_code_has_no_cause();
    heights_agree();
}

/// In sound code the literals, selectors, bodies, locals and members that a step names are there.
pub fn what_steps_name_is_there()
    ensures { (code : CodeProgram) → StepsAreUsable code }
{
    sound_instructions_are_usable();
}

/// A frame in a valid state that is about to go on has a step to go on with.
pub fn running_bodies_have_steps()
    ensures { (code : CodeProgram) → RunningHasStep code }
{}

/// What was found for a private send when the code was prepared is what its lookup finds, and its slot is an entry.
pub fn members_are_found()
    ensures found { (code : CodeProgram) → MembersAreFound code }
    ensures entries { (code : CodeProgram) → MembersAreEntries code }
{
    enclosing_objects_are_there();
}

/// A private send of sound code has a member, which its lookup finds: what the verifier admits isn't sent in vain.
pub fn private_sends_find()
    ensures member { (code : CodeProgram) → PrivateSendsHaveMembers code }
    ensures finds { (code : CodeProgram) → PrivateSendsFind code }
{
    members_are_found();
}

/// What an Integer finds is the row of Integer that was found for the send when the code was prepared, where one was.
pub fn integers_find_rows()
    ensures { (heap : Heap) (code : CodeProgram) → IntegersFindRows heap code }
{
    integers_find_their_rows();
}

/// What a Boolean finds is the method of Boolean that was found for the send when the code was prepared, where one was.
pub fn booleans_find_rows()
    ensures { (heap : Heap) (code : CodeProgram) → BooleansFindRows heap code }
{
    booleans_find_their_rows();
}

/// What an Array finds is the row of Array that was found for the send when the code was prepared, where one was.
pub fn arrays_find_rows()
    ensures { (heap : Heap) (code : CodeProgram) → ArraysFindRows heap code }
{
    arrays_find_their_rows();
}

/// No body has more locals and operands than the greatest frame.
pub fn frames_are_within_the_greatest()
    ensures { (code : CodeProgram) → FramesAreWithin code }
{}
