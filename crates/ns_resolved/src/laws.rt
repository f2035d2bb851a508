//! Laws of what programs mean, and of their tables. Each function does nothing, and its contract is
//! the law.

ghost use Rattle.std.specs.Prelude.{◌≡◌, ◌<◌, ◌++◌, ◌∷◌, ℕ, List, true, length, slice_get, Some};
ghost use Rattle.ns_base.specs.declared.place.Place.{Place};
ghost use Rattle.ns_base.specs.Names.{NoRepeats, has, place_of};
ghost use Rattle.ns_tree.specs.Plain.{Class, Expr, SourceUnit};
ghost use Rattle.ns_scope.specs.Bodies as scopes;
ghost use Rattle.ns_resolved.specs.Program.{Meant, Body, Declaration};
ghost use Rattle.ns_resolved.specs.Expressions.{Standing};
ghost use Rattle.ns_resolved.specs.Statements.{expr_bodies};
ghost use Rattle.ns_resolved.specs.Classes.{Around, meant_of, class_declared, class_count, units_count};
ghost use Rattle.ns_resolved.specs.There.{IsPlaced};
ghost use Rattle.ns_resolved.specs.Right.{IsNested};
ghost use Rattle.ns_resolved.specs.Tables.{put_all, used_names, names_of};

/// The blocks of an expression are as many bodies as scopes, and so are the bodies of a program. So
/// the number that a walk gives to a body is its place in both lists.
#[tactic(auto, using(crate::specs::laws::Numbering::expr_counted, crate::specs::laws::Counting::units_counted))]
pub fn bodies_are_numbered_as_scopes()
    ensures blocks { (here : Standing) (next : ℕ) (expr : Expr) → length (expr_bodies here next expr) ≡ length (scopes.expr_blocks here.scope expr) }
    ensures bodies { (files : List (List ℕ)) (units : List SourceUnit) (marks : List (List Place)) →
        length units ≡ length marks → length (meant_of files units marks).bodies ≡ length (scopes.bodies_of units) }
{}

/// A class and those in it are as many declarations as are counted, and so are those of a program.
#[tactic(auto, using(crate::specs::laws::Counting::class_listed, crate::specs::laws::Counting::units_listed))]
pub fn classes_are_numbered_in_order()
    ensures class { (class : Class) (around : Around) (number next : ℕ) → length (class_declared around number next class) ≡ class_count class }
    ensures classes { (files : List (List ℕ)) (units : List SourceUnit) (marks : List (List Place)) →
        length units ≡ length marks → length (meant_of files units marks).classes ≡ units_count units }
{}

/// The number of a name in a table is its place, at which the name stands. It stays where the table
/// grows.
#[tactic(auto, using(crate::specs::laws::Places::name_at_place, crate::specs::laws::Places::place_below, crate::specs::laws::Places::place_stands_all))]
pub fn numbers_are_places()
    ensures there { (table : List (List ℕ)) (name : List ℕ) → has table name ≡ true → slice_get table (place_of table name) ≡ Some name }
    ensures below { (table : List (List ℕ)) (name : List ℕ) → has table name ≡ true → place_of table name < length table }
    ensures stays { (names table : List (List ℕ)) (name : List ℕ) → has table name ≡ true → place_of (put_all table names) name ≡ place_of table name }
{}

/// Each name that the code of a program uses stands in the program's table, at its number; and no
/// name stands there twice.
#[tactic(auto, using(crate::proofs::Places::names_placed, crate::proofs::Places::program_no_repeats))]
pub fn used_names_have_numbers()
    ensures placed { (meant : Meant) (before : List (List ℕ)) (name : List ℕ) (after : List (List ℕ)) →
        used_names meant ≡ before ++ name ∷ after → slice_get (names_of meant) (place_of (names_of meant) name) ≡ Some name }
    ensures once { (meant : Meant) → NoRepeats (names_of meant) }
{}

/// Each body of a program is placed: its declaration is there and its parameters are among its
/// locals. A block stands in an earlier body of its declaration and side, which has an environment
/// for it, and no other body stands in one; each block that an expression of a body names stands in
/// that body.
pub fn bodies_are_placed()
    ensures { (files : List (List ℕ)) (units : List SourceUnit) (marks : List (List Place)) →
        length units ≡ length marks → (number : ℕ) (body : Body) → slice_get (meant_of files units marks).bodies number ≡ Some body →
        IsPlaced (meant_of files units marks) number body }
{}

/// Each class of a program stands in an earlier one, or in none and then has no clause; and each of
/// its nested classes has it around itself.
pub fn classes_are_nested()
    ensures { (files : List (List ℕ)) (units : List SourceUnit) (marks : List (List Place)) (number : ℕ) (class : Declaration) →
        slice_get (meant_of files units marks).classes number ≡ Some class → IsNested (meant_of files units marks) number class }
{}
