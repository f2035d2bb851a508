//! Laws of frozen states. Each function does nothing, and its contract is the law.

ghost use Rattle.std.specs.Prelude.{◌≡◌, ℕ, ◌≤◌, List, length};
ghost use Rattle.ns_code.specs.declared.program.CodeProgram.{CodeProgram};
ghost use Rattle.ns_moves.specs.State as run;
ghost use Rattle.ns_moves.specs.Steps.{steps_of, steps_from};
ghost use Rattle.ns_moves.specs.ValidFrames.{next_number};
ghost use Rattle.ns_frozen.specs.declared.cell.CellData.{CellData};
ghost use Rattle.ns_frozen.specs.declared.pending.Pending.{Pending};
ghost use Rattle.ns_frozen.specs.Laws.{CellsThawBack, FramesFreezeBack, FreezesBack, ThawsBack, ThawsAlike, ValidFreezes, ValidThaws};
ghost use Rattle.ns_frozen.specs.Freezing.{cells_frozen, pending_frozen, phase_frozen};
ghost use Rattle.ns_frozen.specs.Thawing.{heap_thawed, pending_thawed, phase_thawed};

use ns_verify::laws::sound_code_is_in_order;

/// Cells are the plain data that they were made of, valid or not.
#[tactic(auto, using(crate::proofs::Cells::cells_back))]
pub fn cells_freeze_back()
    ensures { (code : CodeProgram) (cells : List CellData) → cells_frozen (heap_thawed code cells) ≡ cells }
{}

/// Where each class has the base that the classes above it give, cells are those that their plain data stands for.
#[tactic(auto, using(crate::proofs::Thawed::cells_there))]
pub fn cells_thaw_back()
    ensures { (code : CodeProgram) → CellsThawBack code }
{}

/// A frame of a body is the plain data that it was made of, but for its kind.
#[tactic(auto, using(crate::proofs::Frames::running_back))]
pub fn frames_freeze_back()
    ensures { (code : CodeProgram) → FramesFreezeBack code }
{}

/// What is pending is what it was made of, both ways.
#[tactic(auto, using(crate::proofs::Numbers::pending_back, crate::proofs::Numbers::pending_there))]
pub fn pending_freezes_back()
    ensures back { (one : Pending) → pending_frozen (pending_thawed one) ≡ one }
    ensures there { (one : run.Pending) → pending_thawed (pending_frozen one) ≡ one }
{}

/// So are the numbers of phases and of instructions.
#[tactic(auto, using(crate::proofs::Numbers::phase_back, crate::proofs::Numbers::number_back))]
pub fn numbers_freeze_back()
    ensures phases { (arguments phase : ℕ) → phase ≤ 3 → phase_frozen (phase_thawed arguments phase) ≡ phase }
    ensures instructions { (code : CodeProgram) (body number : ℕ) → number ≤ length (steps_of code body) →
        next_number code body (steps_from code body number) ≡ number }
{}

/// A valid frozen state is the one that its state freezes to.
#[tactic(auto, using(crate::proofs::States::freezes_back))]
pub fn states_freeze_back()
    ensures { (code : CodeProgram) → FreezesBack code }
{}

/// A state in which a run can be is the one that its plain data stands for, where it is told whole.
#[tactic(auto, using(crate::proofs::Told::thaws_back))]
pub fn states_thaw_back()
    ensures { (code : CodeProgram) → ThawsBack code }
{}

/// Of any such state what is told is the same again.
#[tactic(auto, using(crate::proofs::Told::thaws_alike))]
pub fn states_thaw_alike()
    ensures { (code : CodeProgram) → ThawsAlike code }
{}

/// A state in which a run can be is valid as plain data.
#[tactic(auto, using(crate::proofs::ValidTold::valid_freezes))]
pub fn valid_states_freeze()
    ensures { (code : CodeProgram) → ValidFreezes code }
{}

/// A valid frozen state stands for a state in which a run can be, so each move from it is defined.
pub fn valid_states_thaw()
    ensures { (code : CodeProgram) → ValidThaws code }
{
    sound_code_is_in_order();
}
