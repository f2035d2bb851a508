//! What the errors of a run mean.

ghost use Rattle.std.specs.Prelude.{◌≡◌, option_map};
ghost use Rattle.ns_help.specs.Topics as spec;

/// What `NotUnderstood` means.
pub const NOT_UNDERSTOOD: &str =
    "NotUnderstood: nothing that the receiver has answers this selector. Is the
name spelled as where it is declared? A name alone, as `total`, is a message
too: to self, where no local and no class around it has it. What a plain send
reaches is public, and a member without an access word is protected, but on a
class side. The kernel's rows stand in RUNNING.md; there is no `/`, `max:`,
`collect:` or `class`.
";

/// What `NotPublic` means.
pub const NOT_PUBLIC: &str =
    "NotPublic: the member is there, and is protected. Say `public` where it is
declared, or send the message from inside.
";

/// What `Overflow` means.
pub const OVERFLOW: &str = "Overflow: the result doesn't fit 64 bits.
";

/// What `ZeroDivide` means.
pub const ZERO_DIVIDE: &str = "ZeroDivide: `//` or `\\\\` by 0.
";

/// What `WrongKind` means.
pub const WRONG_KIND: &str =
    "WrongKind: an argument isn't what this row takes. Arithmetic takes Integers,
`,` and `<` of a string strings, `print:` a string, a symbol or an Integer,
`ifTrue:` and its like blocks, also where they aren't evaluated: `and: [..]`.
";

/// What `OutOfRange` means.
pub const OUT_OF_RANGE: &str =
    "OutOfRange: no such place, counted from 1; no such slot; or a size below 0.
";

/// What `MustBeBoolean` means.
pub const MUST_BE_BOOLEAN: &str =
    "MustBeBoolean: the block before `whileTrue:` or `whileFalse:` answered neither
true nor false.
";

/// What `DeadReturn` means.
pub const DEAD_RETURN: &str =
    "DeadReturn: `^` in a block returns from the method in which the block was
made, and that has ended.
";

/// What `WrongArity` means.
pub const WRONG_ARITY: &str =
    "WrongArity: the block takes another number of arguments than it was given;
`do:` and `to:do:` give one.
";

/// What `NotAClass` means.
pub const NOT_A_CLASS: &str =
    "NotAClass: what the clause of a class, or the right side of `<:`, names is no
class.
";

/// What `KernelSuper` means.
pub const KERNEL_SUPER: &str =
    "KernelSuper: what the clause of a class, or the right side of `<:`, names is a
class of the kernel other than Object.
";

/// What `InitMismatch` means.
pub const INIT_MISMATCH: &str =
    "InitMismatch: the message to the superclass isn't the superclass's factory. A
class without a clause, and one whose clause has no message, sends `new`. A
mixin sends its own: to be applied to a class with the factory `a: x b: y` it
is declared as `class M a: x b: y = Object a: x b: y () (..)`.
";

/// What `FixedSlot` means.
pub const FIXED_SLOT: &str =
    "FixedSlot: the slot was declared by `x = e.`, so a mirror can't write it.
";

/// What `ChainLimit` means.
pub const CHAIN_LIMIT: &str = "ChainLimit: more than 256 classes, one above the other.
";

/// What is told of the kind of an error of a run, if the word is one.
pub fn errors_text(word: &[u8]) -> Option<&'static str>
    ensures { option_map (λ text. text.now) result ≡ spec.found word.now spec.errors }
{
    if word == b"NotUnderstood".as_slice() {
        return Some(NOT_UNDERSTOOD);
    }
    if word == b"NotPublic".as_slice() {
        return Some(NOT_PUBLIC);
    }
    if word == b"Overflow".as_slice() {
        return Some(OVERFLOW);
    }
    if word == b"ZeroDivide".as_slice() {
        return Some(ZERO_DIVIDE);
    }
    if word == b"WrongKind".as_slice() {
        return Some(WRONG_KIND);
    }
    if word == b"OutOfRange".as_slice() {
        return Some(OUT_OF_RANGE);
    }
    if word == b"MustBeBoolean".as_slice() {
        return Some(MUST_BE_BOOLEAN);
    }
    if word == b"DeadReturn".as_slice() {
        return Some(DEAD_RETURN);
    }
    if word == b"WrongArity".as_slice() {
        return Some(WRONG_ARITY);
    }
    if word == b"NotAClass".as_slice() {
        return Some(NOT_A_CLASS);
    }
    if word == b"KernelSuper".as_slice() {
        return Some(KERNEL_SUPER);
    }
    if word == b"InitMismatch".as_slice() {
        return Some(INIT_MISMATCH);
    }
    if word == b"FixedSlot".as_slice() {
        return Some(FIXED_SLOT);
    }
    if word == b"ChainLimit".as_slice() {
        return Some(CHAIN_LIMIT);
    }
    None
}
