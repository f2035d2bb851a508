//! What the refusals of programs mean.

ghost use Rattle.std.specs.Prelude.{◌≡◌, option_map};
ghost use Rattle.ns_help.specs.Topics as spec;

/// What `DuplicateMember` means.
pub const DUPLICATE_MEMBER: &str =
    "DuplicateMember: this side of the class has a member of that selector. A
mutable slot `x ::= e.` or `x` has two, `x` and `x:`, so a method `x:` is one
too many; make the slot public, or give one of them another name.
";

/// What `DuplicateLocal` means.
pub const DUPLICATE_LOCAL: &str = "DuplicateLocal: this body has a parameter or local of that name.
";

/// What `FixedLocal` means.
pub const FIXED_LOCAL: &str =
    "FixedLocal: a parameter, or a local that was declared by `x = e.`, can't be
set. Declare it by `x ::= e.`.
";

/// What `BadReturn` means.
pub const BAD_RETURN: &str =
    "BadReturn: an initialiser, and the message to the superclass, can't return.
Blocks there can't either.
";

/// What `BareReceiver` means.
pub const BARE_RECEIVER: &str =
    "BareReceiver: `super` and `outer N` aren't values; a message must follow.
";

/// What `NoSuchOuter` means.
pub const NO_SUCH_OUTER: &str = "NoSuchOuter: no class around this one has that name.
";

/// What `BadCascade` means.
pub const BAD_CASCADE: &str =
    "BadCascade: before the first `;` stands no message to a written receiver.
Write `self` or the receiver.
";

/// What `PlainTooLarge` means.
pub const PLAIN_TOO_LARGE: &str = "PlainTooLarge: 9223372036854775808 is only there with a minus.
";

/// What `TooMany` means.
pub const TOO_MANY: &str =
    "TooMany: at most 63 parameters of a method or keys of a message (Parameters),
255 parameters and locals of a body (Locals), 255 elements of a tuple
(Elements), 1,023 members of a side (Members; a mutable slot is two), 4,096
classes of a program (Classes).
";

/// What `TopSuper` means.
pub const TOP_SUPER: &str =
    "TopSuper: a top-level class has no superclass but Object, for there is nothing
around it that could have another. Nest the class in a module that is handed
the other, as a slot, and name that slot in the clause.
";

/// What `DuplicateTop` means.
pub const DUPLICATE_TOP: &str =
    "DuplicateTop: an earlier file has a top-level class of that name. With `--lib`
there is one named Collections.
";

/// What `TooLarge` means.
pub const TOO_LARGE: &str =
    "TooLarge: the code of the program has more than 65,536 names or bodies, or a
body more than 65,536 instructions or 1,023 operands at a time; the image has
more than 134,217,728 bytes.
";

/// What is told of a cause for which a program is refused, if the word is one.
pub fn programs_text(word: &[u8]) -> Option<&'static str>
    ensures { option_map (λ text. text.now) result ≡ spec.found word.now spec.programs }
{
    if word == b"DuplicateMember".as_slice() {
        return Some(DUPLICATE_MEMBER);
    }
    if word == b"DuplicateLocal".as_slice() {
        return Some(DUPLICATE_LOCAL);
    }
    if word == b"FixedLocal".as_slice() {
        return Some(FIXED_LOCAL);
    }
    if word == b"BadReturn".as_slice() {
        return Some(BAD_RETURN);
    }
    if word == b"BareReceiver".as_slice() {
        return Some(BARE_RECEIVER);
    }
    if word == b"NoSuchOuter".as_slice() {
        return Some(NO_SUCH_OUTER);
    }
    if word == b"BadCascade".as_slice() {
        return Some(BAD_CASCADE);
    }
    if word == b"PlainTooLarge".as_slice() {
        return Some(PLAIN_TOO_LARGE);
    }
    if word == b"TooMany".as_slice() {
        return Some(TOO_MANY);
    }
    if word == b"TopSuper".as_slice() {
        return Some(TOP_SUPER);
    }
    if word == b"DuplicateTop".as_slice() {
        return Some(DUPLICATE_TOP);
    }
    if word == b"TooLarge".as_slice() {
        return Some(TOO_LARGE);
    }
    None
}
