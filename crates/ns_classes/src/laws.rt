//! Laws of objects' entries. Each function does nothing, and its contract is the law.

ghost use Rattle.std.specs.Prelude.{ℕ};
ghost use Rattle.ns_world.specs.declared.value.Value.{Value};
ghost use Rattle.ns_world.specs.Lawful.{IsLiveValue};
ghost use Rattle.ns_world.specs.Later.{Unchanged, IsClassAt};
ghost use Rattle.ns_classes.specs.Apply.{class_fault};
ghost use Rattle.ns_classes.specs.Nested.{nested_word};
ghost use Rattle.ns_classes.specs.Stated.{EntriesNeverMeet, FillingKeepsLawful, KeepingKeepsLawful};

/// Two entries of an object that stand at one word are one entry of one holder. So a mixin that
/// is applied twice in one chain has its slots twice.
pub fn entries_never_meet()
    ensures { EntriesNeverMeet }
{}

/// A lawful world stays lawful where a slot of an object is filled with any live value that is no
/// environment, and where a nested class is kept that is enclosed by this object and this holder.
pub fn filling_entries_keeps_lawful()
    ensures slots { FillingKeepsLawful }
    ensures classes { KeepingKeepsLawful }
{}

/// Later in a run an object keeps a nested class in the word in which it kept it, and what passes as
/// a superclass is what passed.
pub fn nested_classes_stay()
    ensures words { (holder class : ℕ) → Unchanged (IsClassAt holder) (λ heap code. nested_word heap code holder class) }
    ensures checks { (over : Value) → Unchanged (λ heap code. IsLiveValue heap code over) (λ heap code. class_fault heap over) }
{}
