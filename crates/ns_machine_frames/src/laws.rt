//! Laws that tie frames as they stand to those of the machine's states. Each function does nothing, and its contract is
//! the law.

ghost use Rattle.std.specs.Prelude.{ℕ, List};
ghost use Rattle.ns_base.specs.declared.place.Place.{Place as SourcePlace};
ghost use Rattle.ns_code.specs.declared.program.CodeProgram.{CodeProgram};
ghost use Rattle.ns_moves.specs.State.{Phase, State};
ghost use Rattle.ns_machine_frames.specs.Room.{OneMoreFits, TopIsWithin, EnteringKeeps, DepthGivesRoom, OthersKeep};
ghost use Rattle.ns_machine_frames.specs.Arriving.{BodiesBegin, PartsBegin, MethodsBegin};
ghost use Rattle.ns_machine_frames.specs.Stated.{ComeOffAgain, IsPicked, ValueIsDelivered, FindsHome, Unwinds};

/// The operands that `Stack::operands`, `pop` and `operand` give are those that an instruction takes off or picks.
#[tactic(auto, using(crate::proofs::Operands::taken_is, crate::proofs::Operands::picked_is))]
pub fn operands_are_taken()
    ensures taken { (missing : State) → ComeOffAgain missing }
    ensures picked { (missing : State) → IsPicked missing }
{}

/// What `Stack::deliver` leaves is what a value that is delivered leads to.
#[tactic(auto, using(crate::proofs::Returning::delivered_is))]
pub fn values_are_delivered()
    ensures { (code : CodeProgram) (places : List SourcePlace) (phase : Phase) → ValueIsDelivered code places phase }
{}

/// A home is there exactly where `Stack::frames_to` finds it, and what `Stack::unwind` leaves is what a return to it is
/// delivered to.
#[tactic(auto, using(crate::proofs::Returning::home_is, crate::proofs::Returning::unwound_is))]
pub fn returns_unwind()
    ensures finds { (code : CodeProgram) (places : List SourcePlace) → FindsHome code places }
    ensures unwinds { (code : CodeProgram) (places : List SourcePlace) (phase : Phase) → Unwinds code places phase }
{}

/// The heights of bodies and the limit on depth give room for all frames: where frames are within it they stay so,
/// what is pushed has its place, and what is entered its room.
#[tactic(auto, using(crate::proofs::Room::one_more_fits, crate::proofs::Room::top_within, crate::proofs::Room::depth_gives_room))]
pub fn frames_have_room()
    ensures one_more { (height : ℕ → ℕ) (greatest : ℕ) → OneMoreFits height greatest }
    ensures top { (height : ℕ → ℕ) (greatest : ℕ) → TopIsWithin height greatest }
    ensures entering { (height : ℕ → ℕ) (greatest : ℕ) → EnteringKeeps height greatest }
    ensures depth { (greatest : ℕ) → DepthGivesRoom greatest }
    ensures others { (height : ℕ → ℕ) (greatest : ℕ) → OthersKeep height greatest }
{}

/// The frames that `Stack::enter_body` and `begin` put on the others are those to which an action's end leads, and what
/// `Pending` keeps is what waits.
#[tactic(auto, using(crate::proofs::Arriving::body_begins, crate::proofs::Arriving::part_begins))]
pub fn frames_begin()
    ensures bodies { (code : CodeProgram) (places : List SourcePlace) (phase : Phase) → BodiesBegin code places phase }
    ensures parts { (code : CodeProgram) (places : List SourcePlace) (phase : Phase) → PartsBegin code places phase }
    ensures methods { (code : CodeProgram) (places : List SourcePlace) (phase : Phase) → MethodsBegin code places phase }
{}
