//! What a send finds, and where its lookup begins. Each function does nothing, and its contract is
//! the law.

ghost use Rattle.std.specs.Prelude.{◌≡◌, ℕ, IsTrue};
ghost use Rattle.ns_code.specs.declared.program.CodeProgram.{CodeProgram};
ghost use Rattle.ns_world.specs.declared.value.Value.{Value};
ghost use Rattle.ns_world.specs.declared.value.Value.TheVariants.{Ref};
ghost use Rattle.ns_world.specs.Heap.{Heap, find_cell, is_class, superclass_in, words_at, open_words_at};
ghost use Rattle.ns_world.specs.Keeping.{IsEnclosed};
ghost use Rattle.ns_world.specs.Layout.{declaration_of};
ghost use Rattle.ns_world.specs.Lawful.{IsLawful, IsLiveValue, HasHolder};
ghost use Rattle.ns_world.specs.Starts.{start_of, has_class};
ghost use Rattle.ns_world.specs.World.{World};
ghost use Rattle.ns_classes.specs.Nested.{has_nested};
ghost use Rattle.ns_find.specs.Find.{is_start};
ghost use Rattle.ns_moves.specs.Control.{Activation};
ghost use Rattle.ns_moves.specs.Lawful.{FitsActivation, HasClass};
ghost use Rattle.ns_moves.specs.StatedFinding.{OwnSuits, PrivateSuits, AboveSuits, LevelIsThere, LevelIsDeclared, EntryIsInside, SlotIsInside};
ghost use Rattle.ns_moves.specs.StatedFinding.{NestedHasEntry, NestedIsInside, NestedStays, MessageFollows};

/// In a lawful world what a send finds can be done with its receiver: what is found from a value's
/// own start, as a private member of a declaration around running code, and above its holder.
pub fn what_is_found_suits()
    ensures own { OwnSuits }
    ensures private { PrivateSuits }
    ensures above { AboveSuits }
{}

/// In a lawful world a lookup can start at each live value, which has a class with a name.
pub fn lookups_can_start()
    ensures start { (world : World) (code : CodeProgram) (value : Value) → IsLawful world code →
        IsLiveValue world.cells code value → IsTrue (is_start world.cells (start_of world.cells value)) }
    ensures class { (world : World) (code : CodeProgram) (value : Value) → IsLawful world code → IsTrue (has_class world.cells (start_of world.cells value)) }
{}

/// In a lawful world each declaration around running code has its object, which is live, and its
/// class, which has that declaration; the first is the code's own self and holder.
pub fn enclosing_objects_are_there()
    ensures levels { LevelIsThere }
    ensures declared { LevelIsDeclared }
    ensures holder { (world : World) (code : CodeProgram) (activation : Activation) → IsLawful world code →
        FitsActivation world.cells code activation → IsTrue (is_class (find_cell world.cells activation.holder)) }
{}

/// In a lawful world an object whose chain has a holder has a word for each entry of that holder,
/// which may be written.
pub fn entries_are_inside()
    ensures entries { EntryIsInside }
    ensures slots { SlotIsInside }
    ensures same { (world : World) (at holder : ℕ) → HasHolder world.cells (Ref at) holder → open_words_at world.cells at ≡ words_at world.cells at }
{}

/// An object with a nested class of a holder has an entry for it, whose word may be written. The
/// object and the holder are those that the class asks for, and all this stays so where a cell is
/// made.
pub fn nested_classes_can_be_kept()
    ensures nested { (heap : Heap) (code : CodeProgram) (object holder class : ℕ) →
        HasClass heap code object holder class → IsTrue (has_nested code (declaration_of heap holder) class) }
    ensures entry { NestedHasEntry }
    ensures inside { NestedIsInside }
    ensures enclosed { (world : World) (code : CodeProgram) (object holder class : ℕ) → IsLawful world code →
        HasClass world.cells code object holder class → IsEnclosed world.cells code class (Ref object) (Ref holder) }
    ensures stays { NestedStays }
{}

/// In a lawful world a superclass that is declared is a class that is there.
pub fn superclasses_are_there()
    ensures { (world : World) (code : CodeProgram) (holder class : ℕ) → IsLawful world code →
        superclass_in (find_cell world.cells holder) ≡ Ref class → IsTrue (is_class (find_cell world.cells class)) }
{}

/// The Message of a selector with as many live arguments as it takes leaves a lawful world.
pub fn messages_follow()
    ensures { MessageFollows }
{}
