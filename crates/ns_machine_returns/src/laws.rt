//! Laws of the ends of frames. Each function does nothing but name the laws that it rests on, and its contract is the law.

ghost use Rattle.ns_code.specs.declared.program.CodeProgram.{CodeProgram};
ghost use Rattle.ns_facets.specs.declared.row.Grants.{Grants};
ghost use Rattle.ns_machine_returns.specs.Acting.{ReadyCanAct};

/// At every moment of a run a method of the kernel that is topmost can do its next action.
pub fn topmost_methods_can_act()
    ensures { (code : CodeProgram) (grants : Grants) → ReadyCanAct code grants }
{
    ns_machine_core::laws::valid_frames_are_framed();
}
