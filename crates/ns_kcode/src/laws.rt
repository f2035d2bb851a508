//! The law of the actions: one after another, they are what the method means. The functions do
//! nothing, and their contracts are the law, for any run in which the method stands.

ghost use Rattle.std.specs.Prelude.{ℕ, suc, ℤ, pos, negsuc, ◌<◌, ◌^◌, FitsSigned};
ghost use Rattle.std.specs.Int.{w64};
ghost use Rattle.ns_world.specs.declared.value.Value.{Value};
ghost use Rattle.ns_world.specs.declared.value.Value.TheVariants.{Nil, Int};
ghost use Rattle.ns_world.specs.declared.kernel_parts.KMethod.TheVariants.{And, Or, IfTrue, IfFalse, IfTrueIfFalse, IfFalseIfTrue, WhileTrue, WhileFalse, ToDo, TimesRepeat, Do};
ghost use Rattle.ns_kcode.specs.Rows.{Host, ActsAs, beginning, double, and_row, or_row, if_true_row, if_false_row, choice_row, while_true_row, while_false_row, to_do_row, times_row, do_row};

/// The methods that evaluate one block at most, in two actions at most.
pub fn choices_are_their_rows<W, O>()
    ensures and { (host : Host W O) (n : ℕ) (receiver block : Value) →
        ActsAs host And (suc (suc n)) (beginning receiver block Nil (pos 0)) (and_row host receiver block) }
    ensures or { (host : Host W O) (n : ℕ) (receiver block : Value) →
        ActsAs host Or (suc (suc n)) (beginning receiver block Nil (pos 0)) (or_row host receiver block) }
    ensures if_true { (host : Host W O) (n : ℕ) (receiver block : Value) →
        ActsAs host IfTrue (suc (suc n)) (beginning receiver block Nil (pos 0)) (if_true_row host receiver block) }
    ensures if_false { (host : Host W O) (n : ℕ) (receiver block : Value) →
        ActsAs host IfFalse (suc (suc n)) (beginning receiver block Nil (pos 0)) (if_false_row host receiver block) }
    ensures if_true_if_false { (host : Host W O) (n : ℕ) (receiver first second : Value) →
        ActsAs host IfTrueIfFalse (suc (suc n)) (beginning receiver first second (pos 0)) (choice_row host receiver first second) }
    ensures if_false_if_true { (host : Host W O) (n : ℕ) (receiver first second : Value) →
        ActsAs host IfFalseIfTrue (suc (suc n)) (beginning receiver first second (pos 0)) (choice_row host receiver second first) }
{}

/// The while loops, in two actions for each turn.
pub fn while_loops_are_their_rows<W, O>()
    ensures while_true { (host : Host W O) (n : ℕ) (receiver block : Value) →
        ActsAs host WhileTrue (double n) (beginning receiver block Nil (pos 0)) (while_true_row host n receiver block) }
    ensures while_false { (host : Host W O) (n : ℕ) (receiver block : Value) →
        ActsAs host WhileFalse (double n) (beginning receiver block Nil (pos 0)) (while_false_row host n receiver block) }
{}

/// The loops that count, in one action for each turn and one for the end. Of `to:do:` this is
/// said as long as its turns can be counted by an Integer.
pub fn counted_loops_are_their_rows<W, O>()
    ensures to_do { (host : Host W O) (n : ℕ) (start end : ℤ) (block : Value) → FitsSigned w64 start → n < 2 ^ 63 →
        ActsAs host ToDo n (beginning (Int start) (Int end) block (pos 0)) (to_do_row host n start start end block) }
    ensures times { (host : Host W O) (n times : ℕ) (block : Value) →
        ActsAs host TimesRepeat n (beginning (Int (pos times)) block Nil (pos 0)) (times_row host n times (Int (pos times)) block) }
    ensures no_times { (host : Host W O) (n below : ℕ) (block : Value) →
        ActsAs host TimesRepeat n (beginning (Int (negsuc below)) block Nil (pos 0)) (times_row host n 0 (Int (negsuc below)) block) }
    ensures items { (host : Host W O) (n size : ℕ) (array block : Value) →
        ActsAs host Do n (beginning array block Nil (pos size)) (do_row host n 0 size array block) }
{}
