//! Laws of the code of a program. Each function does nothing, and its contract is the law.

ghost use Rattle.std.specs.Prelude.{◌≡◌, None, ℕ, List, map, length, flat_map, option_map, slice_get, Some, false};
ghost use Rattle.ns_code.specs.declared.instruction.Instr.{Instr};
ghost use Rattle.ns_verify.specs.Heights.{begin};
ghost use Rattle.ns_resolved.specs.Program.{Meant, Body, Does, Node};
ghost use Rattle.ns_resolved.specs.Tables.{body_names, body_texts, names_of, texts_of, kind_of};
ghost use Rattle.ns_resolved.specs.There.{IsThere, IsRightBody, AreRightBodies};
ghost use Rattle.ns_gen_code.specs.Code.{CodeLine, instr_of, places_from, body_lines, greatest_height, body_code, code_of};
ghost use Rattle.ns_gen_code.specs.Stated.{GoOn, NamesInOrder, TextsInOrder, OneProgram, TextsStand, AreThere, LinesFind, Within, HaveGoodHeights, Ends};
ghost use Rattle.ns_gen_code.specs.Stated.{line_names, first_text, placed, shown};
ghost use Rattle.ns_gen_code.specs.Uses.{LinesHave};
ghost use Rattle.ns_gen_code.specs.Sizes.{size_fault};
ghost use Rattle.ns_verify.specs.Verify.{bodies_fault, first_class_fault, IsSound};
ghost use Rattle.ns_resolved.specs.Right.{IsRight};

/// The lines of an expression stand before what follows, whatever that is.
#[tactic(auto, using(crate::specs::laws::GoesOn::node_goes_on))]
pub fn lines_go_on()
    ensures { (node : Node) → GoOn node }
{}

/// The lines of an expression name its selectors, and push its literal texts, in the order in which
/// the walks over expressions meet them; so do those of a body.
#[tactic(auto, using(crate::specs::lemmas::InOrder::node_in_order, crate::proofs::TextsInOrder::texts_in_order, crate::specs::laws::Names::body_used))]
pub fn names_and_texts_stand_in_order()
    ensures names { (node : Node) → NamesInOrder node }
    ensures texts { (node : Node) → TextsInOrder node }
    ensures body_names { (body : Body) (k : ℕ) → flat_map line_names (body_lines k body.does) ≡ body_names body }
{}

/// The code without its instructions is the tables of the program.
#[tactic(auto, using(crate::proofs::OneProgram::one_program))]
pub fn code_has_the_tables()
    ensures { (meant : Meant) → OneProgram meant }
{}

/// The body of a number in the code is the code of the body of that number. Its literal texts stand
/// in the table, from the number of its first one on, and each name that it uses has a number.
#[tactic(auto, using(crate::proofs::BodyAt::body_of_code, crate::proofs::BodyAt::body_texts_stand, crate::proofs::NamesThere::names_there))]
pub fn bodies_have_their_code()
    ensures body { (meant : Meant) (n : ℕ) → slice_get (code_of meant).bodies n
        ≡ option_map (body_code (names_of meant) (first_text meant.bodies n)) (slice_get meant.bodies n) }
    ensures texts { (meant : Meant) (n : ℕ) (body : Body) → slice_get meant.bodies n ≡ Some body →
        TextsStand (texts_of meant) (first_text meant.bodies n) (body_texts body) }
    ensures names { (meant : Meant) (n k : ℕ) (body : Body) → slice_get meant.bodies n ≡ Some body →
        AreThere (names_of meant) (flat_map line_names (body_lines k body.does)) }
{}

/// In straight code each instruction finds its operands and none jumps, each return stands at a
/// height at which a frame may end, and no height is above the one that the body's head has. So the
/// verifier finds no bad height.
#[tactic(auto, using(crate::proofs::WithinGreatest::within_greatest))]
pub fn heights_are_good()
    ensures finds { (names : List (List ℕ)) (body : Does) (k : ℕ) → LinesFind names 0 (body_lines k body) }
    ensures within { (instrs : List Instr) (height : ℕ) → Within (greatest_height height instrs) height instrs }
    ensures good { (names : List (List ℕ)) (k : ℕ) (body : Body) →
        HaveGoodHeights (body_code names k body) (begin (length (body_code names k body).instrs)) 0 (body_code names k body).instrs }
{}

/// The last line of a body goes on to no other.
#[tactic(auto, using(crate::proofs::Ending::body_ends))]
pub fn bodies_end()
    ensures { (body : Does) (k : ℕ) → Ends (body_lines k body) }
{}

/// Instructions and places, put together by the numbers of the instructions, are the lines.
pub fn lines_are_shown()
    ensures { (names : List (List ℕ)) (n : ℕ) (lines : List CodeLine) → placed (places_from n lines) n (map (instr_of names) lines) ≡ map (shown names) lines }
{}

/// What the lines of a right body use is there, and the numbers of its literal texts are numbers of
/// texts. A superclass part begins once, and in an initialiser alone; each kind of body has its own
/// returns.
#[tactic(auto, using(crate::proofs::There::lines_there))]
pub fn lines_use_what_is_there()
    ensures { (meant : Meant) (number : ℕ) (body : Body) → slice_get meant.bodies number ≡ Some body → IsRightBody meant number body →
        LinesHave (IsThere meant number body) (length (texts_of meant)) (kind_of body.does) false (body_lines (first_text meant.bodies number) body.does) }
{}

/// The verifier finds no fault in the bodies of a program whose bodies are right and whose sizes are
/// within their limits: no cause holds of a body's head or at any of its instructions.
pub fn right_bodies_have_no_fault()
    ensures { (meant : Meant) → AreRightBodies meant → size_fault (code_of meant) ≡ None → bodies_fault (code_of meant) 0 (code_of meant).bodies ≡ None }
{
    ns_verify::laws::homes_are_outermost();
}

/// The verifier finds no fault in the class records of a right program.
#[tactic(auto, using(crate::proofs::Sound::classes_unfaulted))]
pub fn right_classes_have_no_fault()
    ensures { (meant : Meant) → IsRight meant → first_class_fault (code_of meant) (code_of meant).classes ≡ None }
{}

/// The code of a right program whose sizes are within their limits is sound.
pub fn right_programs_have_sound_code()
    ensures { (meant : Meant) → IsRight meant → size_fault (code_of meant) ≡ None → IsSound (code_of meant) }
{
    ns_verify::laws::homes_are_outermost();
}
