//! Isolation in two worlds. Each function does nothing but name the laws that it rests on, and its contract is the law.

ghost use Rattle.ns_code.specs.declared.program.CodeProgram.{CodeProgram};
ghost use Rattle.ns_facets.specs.declared.row.Grants.{Grants};
ghost use Rattle.ns_machine_alike.specs.Isolated.{SendsAreAlike, SendsComeToTheSame, EndedSendsAreAlike, RenamingsGoOn};
ghost use Rattle.ns_machine_alike.specs.Underway.{TurnsAreAlike, TurnsComeToTheSame, TurnsGoOnAlike};
ghost use Rattle.ns_machine_alike.specs.Premises.{PlainArgumentsAddNothing, UnreachedBoardsMayDiffer, ReachedValuesAreAlike};
ghost use Rattle.ns_machine_alike.specs.Modules.{ModulesAreAlike, ModulesComeToTheSame, ModulesTouchNothing};

/// A host sends the same in two idle states of one code whose worlds are alike from the receivers and the arguments on. After
/// equally many moves both runs go on, or have the equal ending after renaming; they have printed the same bytes and used as
/// much; and their worlds are alike from the roots and the value of their ending on. So what isn't reached doesn't matter.
pub fn sends_are_alike()
    ensures { (code : CodeProgram) (grants grants' : Grants) → SendsAreAlike code grants grants' }
{
    ns_moves::laws::rows_that_are_found_suit();
    ns_moves::finding::enclosing_objects_are_there();
    ns_moves::valid_frames::moves_keep_frames_valid();
    ns_moves::valid_frames::moves_keep_valid();
    ns_moves::valid_world::sends_of_a_host_are_valid();
}

/// So what a send has led to, it leads to in each such state.
pub fn sends_come_to_the_same()
    ensures { (code : CodeProgram) (grants grants' : Grants) → SendsComeToTheSame code grants grants' }
{
    sends_are_alike();
}

/// And two such sends that have run to their ends, each in as many moves as it takes, are alike.
pub fn ended_sends_are_alike()
    ensures { (code : CodeProgram) (grants grants' : Grants) → EndedSendsAreAlike code grants grants' }
{
    sends_are_alike();
    ns_moves::move_laws::moves_add();
    ns_moves::move_laws::ended_runs_stay();
}

/// A renaming goes on as one list of pairs, which can be computed.
pub fn renamings_go_on()
    ensures { RenamingsGoOn }
{}

/// What turns of a send have led to, turns of the same sizes lead to in each such state: each move of the one run charges a
/// step where that of the other does.
pub fn turns_come_to_the_same()
    ensures { (code : CodeProgram) (grants grants' : Grants) → TurnsComeToTheSame code grants grants' }
{
    sends_are_alike();
    renamings_go_on();
    ns_moves::move_laws::moves_add();
}

/// So two sends from states that are alike, which have had turns of the same sizes, are alike.
pub fn turns_are_alike()
    ensures { (code : CodeProgram) (grants grants' : Grants) → TurnsAreAlike code grants grants' }
{
    turns_come_to_the_same();
    ns_moves::move_laws::turns_add();
}

/// A send that is under way goes on with each turn, and these turns lead to the same in each such state.
pub fn turns_go_on_alike()
    ensures { (code : CodeProgram) (grants : Grants) → TurnsGoOnAlike code grants }
{
    turns_come_to_the_same();
}

/// Arguments that are no references need no renaming, and nothing is reached from them.
pub fn plain_arguments_add_nothing()
    ensures { PlainArgumentsAddNothing }
{}

/// Where no Board is reached, two boards may differ.
pub fn unreached_boards_may_differ()
    ensures { UnreachedBoardsMayDiffer }
{}

/// What alike roots reach is alike: after one send a host goes on with what it was answered, and needs no new comparison.
pub fn reached_values_are_alike()
    ensures { (code : CodeProgram) (grants grants' : Grants) → ReachedValuesAreAlike code grants grants' }
{}

/// The class of a module reaches nothing but itself. So it is alike in all idle states of one code with equal budgets left,
/// whatever else their worlds hold and whatever their runs were granted.
pub fn modules_are_alike()
    ensures { (code : CodeProgram) (grants grants' : Grants) → ModulesAreAlike code grants grants' }
{}

/// And what it is sent with plain arguments comes to the same there.
pub fn modules_come_to_the_same()
    ensures { (code : CodeProgram) (grants grants' : Grants) → ModulesComeToTheSame code grants grants' }
{
    sends_are_alike();
}

/// Such a send touches no cell that was there but the class, prints nothing and changes no board.
pub fn modules_touch_nothing()
    ensures { (code : CodeProgram) (grants : Grants) → ModulesTouchNothing code grants }
{
    ns_machine_reach::laws::sends_stay_in_reach();
}
