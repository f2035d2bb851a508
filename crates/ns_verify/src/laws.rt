//! Laws of sound code. Each function does nothing, and its contract is the law.

ghost use Rattle.std.specs.Prelude.{◌≡◌, ℕ, true, slice_get, None, Some};
ghost use Rattle.ns_code.specs.declared.program.CodeProgram.{CodeProgram};
ghost use Rattle.ns_code.specs.declared.body.BodyCode.{BodyCode};
ghost use Rattle.ns_code.specs.declared.instruction.Instr.{Instr};
ghost use Rattle.ns_code.specs.Soundness.{has_sound_classes, are_parents_earlier};
ghost use Rattle.ns_verify.specs.Chains.{around};
ghost use Rattle.ns_verify.specs.Heights.{heights};
ghost use Rattle.ns_verify.specs.Verify.{IsSound};
ghost use Rattle.ns_verify.specs.Places.{HasNoCause, HeightsAgree, height_before, home_of};
ghost use Rattle.ns_verify.specs.Uses.{IsUsable, StandsRight};

/// Code is sound exactly where no cause holds at any class or instruction.
pub fn sound_code_has_no_cause()
    ensures there { (code : CodeProgram) → IsSound code → HasNoCause code }
    ensures back { (code : CodeProgram) → HasNoCause code → IsSound code }
{}

/// In sound code no class record has a fault, and each body's parent is a body of a smaller number.
pub fn sound_code_is_in_order()
    ensures classes { (code : CodeProgram) → IsSound code → has_sound_classes code ≡ true }
    ensures parents { (code : CodeProgram) → IsSound code → are_parents_earlier 0 code.bodies ≡ true }
{}

/// The heights of a body are those that its instructions are met with. In sound code each instruction
/// has the operands that it takes, the heights of those that it goes on to agree with the height
/// after it, and a frame ends with nothing on its operands but what it gives.
pub fn heights_agree()
    ensures heights { (body : BodyCode) (at : ℕ) (instr : Instr) →
        slice_get body.instrs at ≡ Some instr → slice_get (heights body) at ≡ Some (height_before body at) }
    ensures agree { (code : CodeProgram) (number at : ℕ) (body : BodyCode) (instr : Instr) → IsSound code →
        slice_get code.bodies number ≡ Some body → slice_get body.instrs at ≡ Some instr → HeightsAgree body at instr }
{}

/// A block's outermost body is of the kind of that of the body in which it stands; where a body stands
/// in no other, it is its own.
pub fn homes_are_outermost()
    ensures inside { (code : CodeProgram) (number parent : ℕ) (body holder : BodyCode) → slice_get code.bodies number ≡ Some body →
        around number body ≡ Some parent → slice_get code.bodies parent ≡ Some holder →
        home_of code number body ≡ home_of code parent holder }
    ensures outermost { (code : CodeProgram) (number : ℕ) (body : BodyCode) → slice_get code.bodies number ≡ Some body →
        around number body ≡ None → home_of code number body ≡ body.kind }
{}

/// In sound code each body's class is there, and a block stands in an earlier body of its class and
/// side, which has an environment for it.
pub fn sound_bodies_stand_right()
    ensures { (code : CodeProgram) (number : ℕ) (body : BodyCode) → IsSound code → slice_get code.bodies number ≡ Some body → StandsRight code number body }
{}

/// In sound code what an instruction names is there, and the instruction stands in a body in which it
/// can be used.
pub fn sound_instructions_are_usable()
    ensures { (code : CodeProgram) (number at : ℕ) (body : BodyCode) (instr : Instr) → IsSound code →
        slice_get code.bodies number ≡ Some body → slice_get body.instrs at ≡ Some instr → IsUsable code number body at instr }
{}
