//! Laws of lookup. Each function does nothing, and its contract is the law.

ghost use Rattle.std.specs.Prelude.{ℕ, [], ◌∷◌, List, Option, Bool, All};
ghost use Rattle.ns_code.specs.declared.program.CodeProgram.{CodeProgram};
ghost use Rattle.ns_world.specs.declared.value.Value.{Value};
ghost use Rattle.ns_world.specs.declared.kernel_class.KernelRow.{KernelRow};
ghost use Rattle.ns_world.specs.declared.kernel.Start.{Start};
ghost use Rattle.ns_world.specs.declared.kernel.Start.TheVariants.{Instance, ClassSide, Kernel};
ghost use Rattle.ns_world.specs.Heap.{Heap, chain_of, write_word, write_byte};
ghost use Rattle.ns_world.specs.Later.{Lasts, Unchanged, IsClassAt};
ghost use Rattle.ns_find.specs.declared.memo.Kept.{Kept};
ghost use Rattle.ns_find.specs.declared.found.Sending.{Sending};
ghost use Rattle.ns_find.specs.declared.members.Side.{Side};
ghost use Rattle.ns_find.specs.declared.members.Side.TheVariants as side;
ghost use Rattle.ns_find.specs.Find.{found_from, found_private, CanStart};
ghost use Rattle.ns_find.specs.Belonging.{Belongs, factories_at};
ghost use Rattle.ns_find.specs.Named.{FoundBy, FindsBy};
ghost use Rattle.ns_find.specs.Memo.{PlaceIsRight};
ghost use Rattle.ns_find.specs.Stated.{StaysRight, MakingKeepsRight, FromBelongs, ArraysFind, BooleansFind, IntegersFind};

/// A kept lookup stays right whatever is made and written, as long as no facet and no first class
/// of a top-level declaration is made.
pub fn kept_lookups_stay_right()
    ensures made { MakingKeepsRight }
    ensures written { (at word : ℕ) (value : Value) → StaysRight (λ heap. write_word heap at word value) }
    ensures byte_written { (at offset byte : ℕ) → StaysRight (λ heap. write_byte heap at offset byte) }
{}

/// Later in a run a lookup can start where it could and finds what it found, a private member is the
/// one that it was, and kept lookups are right.
pub fn lookups_stay()
    ensures starts { (from : Start) → Lasts (CanStart from) }
    ensures found { (from : Start) (sel : ℕ) (kind : Sending) → Unchanged (CanStart from) (λ heap code. found_from heap code from sel kind) }
    ensures private { (holder : ℕ) (side : Side) (sel : ℕ) → Unchanged (IsClassAt holder) (λ heap code. found_private heap code holder side sel) }
    ensures kept { (place : Option Kept) → Lasts (λ heap code. PlaceIsRight heap code place) }
    ensures memos { (places : List (Option Kept)) → Lasts (λ heap code. All (PlaceIsRight heap code) places) }
{}

/// What a lookup finds is a member of the declaration of a holder in the chain that it looks
/// through, the factory of the class at which it starts, or has no holder.
pub fn what_is_found_belongs()
    ensures instance { (heap : Heap) (code : CodeProgram) (class : ℕ) → FromBelongs heap code (Instance class) side.Instance (chain_of heap class) [] }
    ensures class { (heap : Heap) (code : CodeProgram) (class : ℕ) (factory : Bool) →
        FromBelongs heap code (ClassSide class factory) side.Class (chain_of heap class) (factories_at class factory) }
    ensures kernel { (heap : Heap) (code : CodeProgram) (side : Side) (row : KernelRow) → FromBelongs heap code (Kernel row) side [] [] }
    ensures private { (heap : Heap) (code : CodeProgram) (holder : ℕ) (side : Side) (sel : ℕ) →
        Belongs heap code side (holder ∷ []) [] (found_private heap code holder side sel) }
{}

/// A method and a factory that are found have the selector that was sought, and where the classes
/// of the code are sound, they take as many arguments as it.
pub fn what_is_found_is_named()
    ensures found { (heap : Heap) (code : CodeProgram) (from : Start) (sel : ℕ) (kind : Sending) → FindsBy heap code from sel kind }
    ensures private { (heap : Heap) (code : CodeProgram) (holder sel : ℕ) (side : Side) → FoundBy heap code side sel (found_private heap code holder side sel) }
{}

/// An Integer finds the row of Integer that its selector spells, however it is sent.
pub fn integers_find_their_rows()
    ensures { (heap : Heap) (code : CodeProgram) (sel : ℕ) (kind : Sending) → IntegersFind heap code sel kind }
{}

/// A Boolean finds the row of Boolean that its selector spells, however it is sent.
pub fn booleans_find_their_rows()
    ensures { (heap : Heap) (code : CodeProgram) (sel : ℕ) (kind : Sending) → BooleansFind heap code sel kind }
{}

/// An Array finds the row of Array that its selector spells, however it is sent.
pub fn arrays_find_their_rows()
    ensures { (heap : Heap) (code : CodeProgram) (sel : ℕ) (kind : Sending) → ArraysFind heap code sel kind }
{}
