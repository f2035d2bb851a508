//! What was generated is the code of the program. The function does nothing, and its contract is the
//! law.

ghost use Rattle.std.specs.Prelude.{◌≡◌, ℕ, length, nat_lt, Bool, not, None};
ghost use Rattle.ns_resolved.specs.Program.{Meant};
ghost use Rattle.ns_gen_code.specs.Code.{code_of};
ghost use Rattle.ns_gen_code.specs.Sizes.{most, size_fault};
ghost use Rattle.ns_gen_bodies.specs.Coding.{Coded, with_bodies};
ghost use Rattle.ns_gen.specs.Whole.{named, coded_program, first_fault};

/// All bodies of a program, put in turn behind the names of its classes and kept where they aren't too
/// many, tell the first size of its code that passes its limit; and where none does, they and the tables
/// are its code.
#[tactic(auto, using(crate::proofs::Whole::fault_is, crate::proofs::Whole::code_is))]
pub fn bodies_in_turn_are_the_code()
    ensures size { (meant : Meant) (output : Coded) (keeps : Bool) (count : ℕ) → output ≡ with_bodies meant.bodies (named keeps meant.classes) →
        count ≡ length meant.bodies → keeps ≡ not (nat_lt most count) →
        first_fault (length output.names) count output.fault ≡ size_fault (code_of meant) }
    ensures code { (meant : Meant) (output : Coded) (keeps : Bool) (count : ℕ) → output ≡ with_bodies meant.bodies (named keeps meant.classes) →
        count ≡ length meant.bodies → keeps ≡ not (nat_lt most count) →
        size_fault (code_of meant) ≡ None → coded_program meant.files meant.classes output ≡ code_of meant }
{}
