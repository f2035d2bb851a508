//! Laws of the meaning of a run. Each function does nothing, and its contract is the law.

ghost use Rattle.ns_code.specs.declared.program.CodeProgram.{CodeProgram};
ghost use Rattle.ns_resolved.specs.Program.{Meant};
ghost use Rattle.ns_model.specs.Laws.{ReturnsGoHome, FuelIsEnough, RunsEnd, MoreFuel, MethodsAreRows, FuelIsEnoughInMethods};
ghost use Rattle.ns_model.specs.Tables.{SameTables, ActAlike, MeansTheSame};

/// A return that a call leaves goes to a home that is live, so none goes past the opening sends.
#[tactic(auto, using(crate::proofs::GoHome::run_home))]
pub fn returns_go_home()
    ensures { (meant : Meant) (code : CodeProgram) → ReturnsGoHome meant code }
{}

/// Fuel above the steps that are left never runs out, so it decides nothing.
#[tactic(auto, using(crate::proofs::Enough::plain_enough))]
pub fn fuel_is_enough()
    ensures { (meant : Meant) (code : CodeProgram) → FuelIsEnough meant code }
{}

/// So a run ends by itself: with a value, an error or a limit.
pub fn runs_end()
    ensures { (meant : Meant) (code : CodeProgram) → RunsEnd meant code }
{}

/// More fuel than was enough changes nothing.
#[tactic(auto, using(crate::proofs::SameRun::more_fuel))]
pub fn more_fuel_changes_nothing()
    ensures { (meant : Meant) (code : CodeProgram) → MoreFuel meant code }
{}

/// A method of the kernel that evaluates blocks means its row, a recursion over its turns: `and:` and
/// the like evaluate a block or none, `whileTrue:` goes on as long as its receiver answers true,
/// `to:do:`, `timesRepeat:` and `do:` count.
pub fn methods_mean_their_rows()
    ensures rows { (meant : Meant) (code : CodeProgram) → MethodsAreRows meant code }
    ensures enough { (meant : Meant) (code : CodeProgram) → FuelIsEnoughInMethods meant code }
{}

/// Actions read of a code its files, its names, the records of its classes and the heads of its
/// bodies alone: over two codes that have the same, each comes to the same.
#[tactic(auto, using(crate::proofs::ActionsRead::act_alike))]
pub fn actions_read_tables_alone()
    ensures { (code : CodeProgram) (other : CodeProgram) → SameTables code other → ActAlike code other }
{}

/// So a program means the same over both, and no instruction has a part in its meaning.
#[tactic(auto, using(crate::proofs::SameRun::same_meaning))]
pub fn the_meaning_reads_tables_alone()
    ensures { (meant : Meant) (code : CodeProgram) (other : CodeProgram) → SameTables code other → MeansTheSame meant code other }
{}
