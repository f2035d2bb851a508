//! Laws of the meaning of programs. Each function does nothing, and its contract is the law.

ghost use Rattle.std.specs.Prelude.{◌≡◌, ◌≤◌, ◌<◌, ◌^◌, ℕ, [], Some, slice_get, length};
ghost use Rattle.ns_tree.specs.Flat.{flat_expr};
ghost use Rattle.ns_tree.specs.Plain.{Expr};
ghost use Rattle.ns_tree.specs.Tree.{AllHaveText};
ghost use Rattle.ns_scope.specs.declared.program.Program.{Program};
ghost use Rattle.ns_scope.specs.Whole.{IsWhole};
ghost use Rattle.ns_static_rules.specs.Faults.{expr_faults};
ghost use Rattle.ns_static.specs.Check.{IsFaultless};
ghost use Rattle.ns_resolved.specs.Program.{Meant, Declaration, Body};
ghost use Rattle.ns_resolved.specs.Expressions.{Standing, expr_node};
ghost use Rattle.ns_resolved.specs.Classes.{meant};
ghost use Rattle.ns_resolved.specs.Right.{IsRightClass, IsRight};
ghost use Rattle.ns_resolved.specs.Uses.{NodeHas};
ghost use Rattle.ns_link.specs.Differ.{HasFewMembers};
ghost use Rattle.ns_link.specs.Named.{NamesWhatIsThere};
ghost use Rattle.ns_link.specs.Reached.{IsThereButBlocks};
ghost use Rattle.ns_link.specs.Reaching.{NamesHave};
ghost use Rattle.ns_link.specs.Using.{UseWhatIsThere};

/// What the record of a class of a whole program names is there: its names are identifiers, its
/// bodies are those of the class and side, and a method's body has as many parameters as its selector
/// takes arguments. There is a class.
pub fn classes_name_what_is_there()
    ensures named { (program : Program) → IsWhole program → (number : ℕ) (class : Declaration) →
        slice_get (meant program).classes number ≡ Some class → NamesWhatIsThere (meant program) number class }
    ensures some { (program : Program) → IsWhole program → 1 ≤ length (meant program).classes }
{}

/// The classes of a whole program without static faults are right.
pub fn classes_are_right()
    ensures { (program : Program) → IsWhole program → IsFaultless program → (number : ℕ) (class : Declaration) →
        slice_get (meant program).classes number ≡ Some class → IsRightClass (meant program) number class }
{
    ns_resolved::laws::classes_are_nested();
}

/// The classes of a whole program without static faults are few, and so are the members of each.
pub fn classes_and_members_are_few()
    ensures classes { (program : Program) → IsWhole program → IsFaultless program → length (meant program).classes ≤ 4096 }
    ensures members { (program : Program) → IsWhole program → IsFaultless program →
        (number : ℕ) (class : Declaration) → slice_get (meant program).classes number ≡ Some class → HasFewMembers class }
{}

/// The locals of a body of a whole program without static faults are few.
pub fn bodies_have_few_locals()
    ensures { (program : Program) → IsWhole program → IsFaultless program → (number : ℕ) (body : Body) →
        slice_get (meant program).bodies number ≡ Some body → length body.locals < 2 ^ 8 }
{}

/// What an expression without faults uses is there, where what names mean in its scope is. Its
/// messages have as many arguments as their selectors take, and these are few.
pub fn expressions_use_what_is_reached()
    ensures { (program : Meant) (number : ℕ) (body : Body) (here : Standing) (next : ℕ) (expr : Expr) →
        NamesHave (IsThereButBlocks program number body) here.scope → expr_faults here.scope expr ≡ [] →
        AllHaveText (flat_expr expr) → NodeHas (IsThereButBlocks program number body) (expr_node here next expr) }
{}

/// What the bodies of a whole program without static faults use is there: each local that an
/// expression names is one of a body around, each member that is reached is one of a declaration
/// around, and their numbers fit; a return leaves a method.
pub fn bodies_use_what_is_there()
    ensures { (program : Program) → IsWhole program → IsFaultless program → UseWhatIsThere (meant program) }
{}

/// A whole program without static faults means what is right.
pub fn whole_programs_are_right()
    ensures { (program : Program) → IsWhole program → IsFaultless program → IsRight (meant program) }
{
    ns_resolved::laws::bodies_are_placed();
    classes_name_what_is_there();
    classes_are_right();
    bodies_have_few_locals();
    bodies_use_what_is_there();
}
