//! Laws of the machine. Each function does nothing, and its contract is the law.

ghost use Rattle.std.specs.Prelude.{ℕ, List};
ghost use Rattle.ns_code.specs.declared.program.CodeProgram.{CodeProgram};
ghost use Rattle.ns_world.specs.declared.value.Value.{Value};
ghost use Rattle.ns_moves.specs.Control.{Progress};
ghost use Rattle.ns_moves.specs.State.{Phase, State};
ghost use Rattle.ns_moves.specs.Steps.{PlacedInstr};
ghost use Rattle.ns_moves.specs.Counted.{NewIsCounted, StartKeepsCount, MovesKeepCount};
ghost use Rattle.ns_moves.specs.MovesOnward.{MovesGoOnward};
ghost use Rattle.ns_moves.specs.Charges.{TakesAsTold, ChargesAsTold};
ghost use Rattle.ns_moves.specs.StatedMoves.{MovesAdd, ChargesAdd, StaysStill, TurnsAdd, TurnsLeaveOne, SendsOn, PerformsOn};
ghost use Rattle.ns_moves.specs.StatedMoves.{ReturnsLand, ReturnsLandBelow, HomesAreBelow, OperandsAreTaken, GoesBackTo, IsPushed, StaysBelow};

/// So many moves and then so many are all these moves, and charge as many steps.
#[tactic(auto, using(crate::proofs::Turns::moves_add, crate::proofs::Turns::charges_add))]
pub fn moves_add()
    ensures moves { (code : CodeProgram) (state : State) → MovesAdd code state }
    ensures charges { (code : CodeProgram) (state : State) → ChargesAdd code state }
{}

/// A turn and then another are one turn of all their steps, and there is only one state that a turn
/// can leave.
#[tactic(auto, using(crate::proofs::Turns::turns_add, crate::proofs::Turns::turns_one))]
pub fn turns_add()
    ensures add { (code : CodeProgram) → TurnsAdd code }
    ensures one { (code : CodeProgram) → TurnsLeaveOne code }
{}

/// A run that has begun nothing or has ended stays as it is.
#[tactic(auto, using(crate::proofs::Turns::still_stays))]
pub fn ended_runs_stay()
    ensures { (code : CodeProgram) (state : State) → StaysStill code state }
{}

/// A send that waited with the site that its place, receiver and selector give is the send itself.
pub fn waiting_sends_are_sends()
    ensures plain { (code : CodeProgram) (progress : Progress) → SendsOn code progress }
    ensures performed { (code : CodeProgram) (progress : Progress) → PerformsOn code progress }
{}

/// A return from a home that is there is delivered to what stands below it; where homes fall, no
/// frame of that home or a later one is left.
pub fn returns_land()
    ensures lands { (code : CodeProgram) (phase : Phase) → ReturnsLand code phase }
    ensures below { (code : CodeProgram) (phase : Phase) → ReturnsLandBelow code phase }
{}

/// Where the homes of methods fall from below a number on, each home that is there is below it.
#[tactic(auto, using(crate::proofs::Falls::homes_below))]
pub fn homes_are_below()
    ensures { (bound : ℕ) → HomesAreBelow bound }
{}

/// Where there are as many operands, they are taken, the deepest first.
#[tactic(auto, using(crate::proofs::Taking::taken_is))]
pub fn operands_are_taken()
    ensures { (missing : State) → OperandsAreTaken missing }
{}

/// A jump within a body goes back exactly where its target isn't behind it.
#[tactic(auto, using(crate::proofs::Back::back_is))]
pub fn jumps_go_back()
    ensures { (steps : List PlacedInstr) → GoesBackTo steps }
{}

/// In one list of values that are in use up to a top, a value that is written there is the topmost
/// operand, and what lies below a place is as it was.
#[tactic(auto, using(crate::proofs::Values::pushed_shown, crate::proofs::Values::below_stays))]
pub fn values_show()
    ensures pushed { (values : List Value) (value : Value) → IsPushed values value }
    ensures below { (values : List Value) (value : Value) → StaysBelow values value }
{}

/// A move takes one step where that is told before it, or finds none left, with which the run has
/// ended and nothing else has changed; and else it takes none. So a machine tests before it moves.
pub fn moves_charge_as_told()
    ensures steps { (code : CodeProgram) → TakesAsTold code }
    ensures test { (code : CodeProgram) → ChargesAsTold code }
{}

/// Each move goes onward: to a later world, in which no limit has changed, no counter but depth has
/// fallen, what was printed stands and no cell is gone, and with no method less begun.
pub fn moves_go_onward()
    ensures { (code : CodeProgram) → MovesGoOnward code }
{}

/// As much depth is charged as there are frames, and the homes of methods fall from the count of
/// begun methods on: so it is in a new machine, and its start and each move keep it, up to the end
/// of the run.
pub fn moves_keep_count()
    ensures new { (code : CodeProgram) → NewIsCounted code }
    ensures start { (code : CodeProgram) → StartKeepsCount code }
    ensures moves { (code : CodeProgram) → MovesKeepCount code }
{}
