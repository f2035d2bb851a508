//! What holds of every action. Each function does nothing, and its contract is the law.

ghost use Rattle.std.specs.Prelude.{◌≡◌, ℕ, [], List, length, IsTrue};
ghost use Rattle.ns_base.specs.declared.selector.Sel.{Sel};
ghost use Rattle.ns_code.specs.declared.program.CodeProgram.{CodeProgram};
ghost use Rattle.ns_code.specs.declared.own.Own.{Own};
ghost use Rattle.ns_code.specs.Own.{own_text};
ghost use Rattle.ns_code.specs.Selector.{is_selector_number, selector_arity, text_arity, own_number};
ghost use Rattle.ns_world.specs.declared.value.Value.{Value};
ghost use Rattle.ns_world.specs.Cell.{Cell};
ghost use Rattle.ns_world.specs.Heap.{Heap};
ghost use Rattle.ns_world.specs.Starts.{start_of};
ghost use Rattle.ns_world.specs.Later.{IsLater, Lasts, Unchanged};
ghost use Rattle.ns_world.specs.Lawful.{IsLiveValue, IsEnvironmentOrNil};
ghost use Rattle.ns_find.specs.declared.found.Sending.{Sending};
ghost use Rattle.ns_find.specs.declared.found.Sending.TheVariants.{Inner};
ghost use Rattle.ns_find.specs.declared.members.Side.{Side};
ghost use Rattle.ns_find.specs.Find.{found_from, found_private, super_start};
ghost use Rattle.ns_kdata.specs.Arguments.{items_of, is_array};
ghost use Rattle.ns_world.specs.declared.kernel_parts.KMethod.{KMethod};
ghost use Rattle.ns_kcode.specs.declared.state.KState.{KState};
ghost use Rattle.ns_moves.specs.declared.site.Site.{Site};
ghost use Rattle.ns_moves.specs.Control.{Progress, Activation, Exit};
ghost use Rattle.ns_moves.specs.Classes.{super_part, body_ended, slot_filled};
ghost use Rattle.ns_moves.specs.Bodies.{local_stored, enclosing};
ghost use Rattle.ns_moves.specs.Blocks.{new_cell, new_text, evaluated, method_next, is_block};
ghost use Rattle.ns_moves.specs.Sends.{Target, sent, performed};
ghost use Rattle.ns_moves.specs.Lawful.{LawfulRun, LawfulAfter, LiveState, LiveActivation, FitsActivation, FitsTarget, FitsSelector, FitsExit, FitsSlot, FitsLocal};
ghost use Rattle.ns_moves.specs.Actions.{Action, progress_after};
ghost use Rattle.ns_moves.specs.Adding.{AddsOnly};
ghost use Rattle.ns_moves.specs.Ending.{HasSite, EndsFitly};
ghost use Rattle.ns_moves.specs.Spending.{Spends};
ghost use Rattle.ns_moves.specs.Fitting.{FitsMethod, Asks, HandsOn};
ghost use Rattle.ns_moves.specs.Suiting.{FoundSuits};
ghost use Rattle.ns_moves.specs.Stated.{WaitedIsLawful, WaitedFits, WaitedStays, WaitedLeadsOn, WaitedSpends, EnclosingIsLive, LocalStands, LocalIsLive, BlockMayBeMade, BlockIsEntered, PartStays};
ghost use Rattle.ns_moves.specs.StatedSends.{SentGoesOnward, PlainGoesOnward, PerformedGoesOnward, SentKeepsLawful, PlainKeepsLawful};
ghost use Rattle.ns_moves.specs.StatedSends.{PerformedKeepsLawful, EvaluatedKeepsLawful, SiteFits, SentStays, PlainStays, EvaluatedStays};
ghost use Rattle.ns_moves.specs.StatedActions.{EvaluatedGoesOnward, PartGoesOnward, EndGoesOnward, SlotGoesOnward, LocalGoesOnward, PartKeepsLawful};
ghost use Rattle.ns_moves.specs.StatedActions.{EndKeepsLawful, MethodKeepsLawful, ArrayKeepsLawful, BlockKeepsLawful, SlotKeepsLawful};
ghost use Rattle.ns_moves.specs.StatedActions.{LocalKeepsLawful};
ghost use Rattle.ns_moves.specs.Onward.{Onward, after_reached, waiting_reached};

/// No send changes a limit, lowers a counter but depth, takes back what was printed, or changes a
/// cell but its receiver and what that mirrors.
pub fn sends_go_onward()
    ensures sent { (code : CodeProgram) → SentGoesOnward code }
    ensures plain { (code : CodeProgram) → PlainGoesOnward code }
    ensures performed { (code : CodeProgram) → PerformedGoesOnward code }
{}

/// Nor does any other action: the evaluation of a block, an action of a kernel method, a part of a
/// superclass and a new cell change no cell that was there; the end of a clause's head changes the
/// object that keeps the class, the filling of a slot self, and the storing of a local the
/// environment in which it stands.
pub fn actions_go_onward()
    ensures evaluated { (code : CodeProgram) → EvaluatedGoesOnward code }
    ensures method_next { (method : KMethod) (state : KState) (site : Site) (progress : Progress) →
        Onward [] progress (waiting_reached (method_next method state site progress)) }
    ensures super_part { (code : CodeProgram) → PartGoesOnward code }
    ensures new_cell { (cell : Cell) (progress : Progress) → Onward [] progress (after_reached (new_cell cell progress)) }
    ensures body_ended { (code : CodeProgram) → EndGoesOnward code }
    ensures slot_filled { (code : CodeProgram) → SlotGoesOnward code }
    ensures local_stored { (code : CodeProgram) → LocalGoesOnward code }
{}

/// Each action leads to a later world.
pub fn actions_lead_on()
    ensures { (code : CodeProgram) (action : Action) (progress : Progress) → IsLater progress.world (progress_after code action progress).world }
{}

/// No action makes a facet, and none but the making of a block a block, which has the home of the
/// activation that makes it; the cells that were there keep their kinds, sizes and fixed parts.
#[tactic(auto, using(crate::specs::laws::AddingOn::action_adds))]
pub fn actions_add_cells()
    ensures { (code : CodeProgram) (action : Action) (progress : Progress) → AddsOnly code action progress }
{}

/// Each action charges exactly so much: a send and an evaluation a step, each frame that is entered
/// one of depth, and each method one activation, whose number is its home; each end of a frame
/// gives it back.
pub fn actions_spend_exactly()
    ensures { (code : CodeProgram) (action : Action) (progress : Progress) → Spends code action progress }
{}

/// What frames ask of their values lasts while the run goes on: running code fits its self and its
/// holder, its values are live, its end can be met, and its sends, its slots and its locals are
/// there.
pub fn frames_last()
    ensures fits { (activation : Activation) → Lasts (λ heap code. FitsActivation heap code activation) }
    ensures live { (activation : Activation) (beside : List Value) → Lasts (λ heap code. LiveActivation heap code activation beside) }
    ensures exits { (exit : Exit) → Lasts (λ heap code. FitsExit heap code exit) }
    ensures targets { (activation : Activation) (target : Target) → Lasts (λ heap code. FitsTarget heap code activation target) }
    ensures slots { (activation : Activation) (slot : ℕ) → Lasts (λ heap code. FitsSlot heap code activation slot) }
    ensures locals { (activation : Activation) (hops : ℕ) → Lasts (λ heap code. IsEnvironmentOrNil heap activation.env × FitsLocal heap code activation hops) }
{}

/// So does what is asked where a send, a block or a method of the kernel waits; a block stays one, and
/// an array stays one of as many elements.
pub fn what_waits_lasts()
    ensures selectors { (sel : Sel) (values : List Value) → Lasts (λ heap code. FitsSelector heap code sel values) }
    ensures states { (state : KState) → Lasts (λ heap code. LiveState heap code state) }
    ensures methods { (method : KMethod) (state : KState) → Lasts (λ heap code. FitsMethod heap method state) }
    ensures blocks { (block : Value) → Lasts (λ heap code. IsTrue (is_block heap block)) }
    ensures arrays { (array : Value) → Lasts (λ heap code. IsTrue (is_array heap array)) }
    ensures sizes { (array : Value) → Unchanged (λ heap code. IsLiveValue heap code array) (λ heap code. length (items_of heap array)) }
{}

/// In a lawful run a send leaves a lawful world, and what it goes on with is live: the answer, a
/// new activation's self, environment and locals, a block and its arguments, a method of the
/// kernel's, or the receiver and the array of a send that waits. What is asked is that the receiver
/// is live or the running code fits its self and its holder, that the selector is one, and that the
/// arguments are live and as many as it takes.
pub fn sends_keep_lawful()
    ensures sent { (code : CodeProgram) → SentKeepsLawful code }
    ensures plain { (code : CodeProgram) → PlainKeepsLawful code }
    ensures performed { (code : CodeProgram) → PerformedKeepsLawful code }
    ensures evaluated { (code : CodeProgram) → EvaluatedKeepsLawful code }
{}

/// So do the other actions: a superclass part where self and the arguments are live; the end of a
/// body with a live value, where the object of a clause has its nested class; and each action of a
/// kernel method whose values are live.
pub fn actions_keep_lawful()
    ensures super_part { (code : CodeProgram) → PartKeepsLawful code }
    ensures body_ended { (code : CodeProgram) → EndKeepsLawful code }
    ensures method_next { MethodKeepsLawful }
{}

/// And so do those that give or store a value: a new text, a new array of live elements, a new
/// block whose body fits where it is made, a slot that is filled with a live value, and a live
/// value that is stored in a local.
pub fn values_keep_lawful()
    ensures text { (code : CodeProgram) (bytes : List ℕ) (progress : Progress) → LawfulRun code progress → LawfulAfter code (new_text bytes progress) }
    ensures array { (code : CodeProgram) → ArrayKeepsLawful code }
    ensures block { (code : CodeProgram) → BlockKeepsLawful code }
    ensures slot { (code : CodeProgram) → SlotKeepsLawful code }
    ensures local { (code : CodeProgram) → LocalKeepsLawful code }
{}

/// In a lawful run a send, an evaluation, a superclass part and a method of the kernel that waits
/// hand on what the next action asks for: a body that fits its self, its holder and its
/// environment and has all of its locals, with an end of its kind that can be met; a block that is
/// to be evaluated; a method of the kernel with a receiver and arguments of its kinds; or a send
/// that waits, with a selector and as many live arguments as it takes.
pub fn what_is_handed_on_fits()
    ensures { (code : CodeProgram) (action : Action) (progress : Progress) →
        LawfulRun code progress → Asks code action progress → HandsOn code action progress }
{}

/// In a lawful run the site of a send names a class of the code and its selector, and a file of the
/// code where its place is in one.
pub fn sites_fit()
    ensures { (code : CodeProgram) → SiteFits code }
{}

/// What a send or an evaluation goes on with keeps its site; a method's home is its own activation,
/// that of a block's body is the block's, and a clause and an initialiser have none; and a block is
/// evaluated with at most 255 arguments where there are no more.
pub fn sites_stay()
    ensures sent { (code : CodeProgram) → SentStays code }
    ensures plain { (code : CodeProgram) → PlainStays code }
    ensures evaluated { (code : CodeProgram) → EvaluatedStays code }
    ensures part { (code : CodeProgram) → PartStays code }
{}

/// The evaluation of a block enters the block's body.
#[tactic(auto, using(crate::proofs::PartsStay::evaluated_body))]
pub fn blocks_enter_their_bodies()
    ensures { (code : CodeProgram) → BlockIsEntered code }
{}

/// A plain send that waited with its site is as any other send: it leads to a later world, which is
/// lawful, charges what a send charges, and what it hands on fits and has its site. A selector that
/// finds the evaluation of a block takes few arguments, however many another takes.
pub fn sends_that_waited_go_on()
    ensures lawful { (code : CodeProgram) → WaitedIsLawful code }
    ensures fits { (code : CodeProgram) → WaitedFits code }
    ensures at { (code : CodeProgram) → WaitedStays code }
    ensures later { (code : CodeProgram) → WaitedLeadsOn code }
    ensures spends { (code : CodeProgram) → WaitedSpends code }
{}

/// What running code names in a lawful run is there: an enclosing object is live where its level has a
/// declaration; a local so many bodies out stands beside the code or in an environment, and is live;
/// and a block of the body may be made.
pub fn what_code_names_is_there()
    ensures enclosing { (code : CodeProgram) → EnclosingIsLive code }
    ensures stands { (code : CodeProgram) → LocalStands code }
    ensures local { (code : CodeProgram) → LocalIsLive code }
    ensures block { (code : CodeProgram) → BlockMayBeMade code }
{}

/// The selectors that the machine sends by itself are selectors, whether code names them or not, and
/// take the arguments of their texts.
#[tactic(auto, using(crate::specs::laws::OwnSelectors::own_is, crate::specs::laws::OwnSelectors::own_arity))]
pub fn own_selectors_are_selectors()
    ensures selectors { (code : CodeProgram) (own : Own) → IsTrue (is_selector_number code (own_number code own)) }
    ensures arities { (code : CodeProgram) (own : Own) → selector_arity code (own_number code own) ≡ text_arity (own_text own) }
{}

/// In a lawful run no action ends it with a value, and an error names the place and the class of the
/// action's site, with its selector or that of a Message: a file, a class and a selector of the code.
#[tactic(auto, using(crate::specs::laws::Ending::action_ends))]
pub fn endings_fit()
    ensures { (code : CodeProgram) (action : Action) (progress : Progress) → LawfulRun code progress → HasSite code action → EndsFitly code action progress }
{}

/// A row of the kernel that a send finds suits its receiver: what a method of the kernel is sent to
/// is of its kind, what is evaluated is a block, and a mirror's row is sent to a cell.
pub fn rows_that_are_found_suit()
    ensures value { (heap : Heap) (code : CodeProgram) (receiver : Value) (sel : ℕ) (kind : Sending) →
        FoundSuits heap receiver (found_from heap code (start_of heap receiver) sel kind) }
    ensures above { (heap : Heap) (code : CodeProgram) (receiver : Value) (holder : ℕ) (side : Side) (sel : ℕ) →
        FoundSuits heap receiver (found_from heap code (super_start heap holder side) sel Inner) }
    ensures own { (heap : Heap) (code : CodeProgram) (receiver : Value) (holder : ℕ) (side : Side) (sel : ℕ) →
        FoundSuits heap receiver (found_private heap code holder side sel) }
{}
