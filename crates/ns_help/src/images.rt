//! What the refusals of images, audits, tests and snapshots mean.

ghost use Rattle.std.specs.Prelude.{◌≡◌, option_map};
ghost use Rattle.ns_help.specs.Topics as spec;

/// What `NotAnImage` means.
pub const NOT_AN_IMAGE: &str = "NotAnImage: the file is no image. Build it by `nspk build`.
";

/// What `BadVersion` means.
pub const BAD_VERSION: &str = "BadVersion: the image or snapshot is one of a later `nspk`.
";

/// What `Truncated` means.
pub const TRUNCATED: &str = "Truncated: the image or snapshot was cut off. Make it again.
";

/// What `BadField` means.
pub const BAD_FIELD: &str =
    "BadField: the image or snapshot has at this byte, counted from 0, what can't
stand there. Make it again.
";

/// What `Trailing` means.
pub const TRAILING: &str = "Trailing: the image or snapshot has something behind it. Make it again.
";

/// What `BadJump` means.
pub const BAD_JUMP: &str =
    "BadJump: a jump of this code leaves its body. No compiler wrote it; FORMATS.md
says what is tested. Don't trust it.
";

/// What `BadHeight` means.
pub const BAD_HEIGHT: &str =
    "BadHeight: the operands of this code come short, or are more than its body
says. No compiler wrote it; FORMATS.md says what is tested. Don't trust it.
";

/// What `BadSlot` means.
pub const BAD_SLOT: &str =
    "BadSlot: this code names a slot, a class, a body or a place that its class has
not. No compiler wrote it; FORMATS.md says what is tested. Don't trust it.
";

/// What `BadScope` means.
pub const BAD_SCOPE: &str = "BadScope: this code reaches a local or a body that is not around it. No
compiler wrote it; FORMATS.md says what is tested. Don't trust it.
";

/// What `BadLiteral` means.
pub const BAD_LITERAL: &str =
    "BadLiteral: a name or text that this code uses is none, or not of the form
that it needs. No compiler wrote it; FORMATS.md says what is tested. Don't
trust it.
";

/// What `NoReturn` means.
pub const NO_RETURN: &str = "NoReturn: a body of this code can go on behind its last instruction. No
compiler wrote it; FORMATS.md says what is tested. Don't trust it.
";

/// What `NotTests` means.
pub const NOT_TESTS: &str =
    "NotTests: the application of `test` doesn't answer an object of a class that
this program declares.
";

/// What `NoTest` means.
pub const NO_TEST: &str = "NoTest: the class has no test of the name that `--only` gives.
";

/// What `NoClass` means.
pub const NO_CLASS: &str =
    "NoClass: the image has no top-level class of the name that `audit` was given.
";

/// What `BadOutbox` means.
pub const BAD_OUTBOX: &str =
    "BadOutbox: what the actor answered to a letter is neither nil nor an array of
letters: arrays of an actor's number, a symbol of one argument, and nil, a
boolean or an Integer.
";

/// What `NotASnapshot` means.
pub const NOT_A_SNAPSHOT: &str = "NotASnapshot: the file is no snapshot. Make it by `nspk snap`.
";

/// What `BadImage` means.
pub const BAD_IMAGE: &str =
    "BadImage: the image within the snapshot isn't one, or its code is refused.
Make the snapshot again.
";

/// What `BadLimits` means.
pub const BAD_LIMITS: &str =
    "BadLimits: the snapshot's limits aren't within what `nspk` allows, or its
counters have passed them.
";

/// What `BadCell` means.
pub const BAD_CELL: &str =
    "BadCell: no run makes a cell as this one of the snapshot. Don't trust it.
";

/// What `BadFrame` means.
pub const BAD_FRAME: &str =
    "BadFrame: no run makes a frame as this one of the snapshot. Don't trust it.
";

/// What `BadRest` means.
pub const BAD_REST: &str =
    "BadRest: what the snapshot says beside its cells and frames is in no run.
Don't trust it.
";

/// What is told of a cause for which an image, an audit, tests or a snapshot are refused, if the word is one.
pub fn images_text(word: &[u8]) -> Option<&'static str>
    ensures { option_map (λ text. text.now) result ≡ spec.found word.now spec.images }
{
    if word == b"NotAnImage".as_slice() {
        return Some(NOT_AN_IMAGE);
    }
    if word == b"BadVersion".as_slice() {
        return Some(BAD_VERSION);
    }
    if word == b"Truncated".as_slice() {
        return Some(TRUNCATED);
    }
    if word == b"BadField".as_slice() {
        return Some(BAD_FIELD);
    }
    if word == b"Trailing".as_slice() {
        return Some(TRAILING);
    }
    if word == b"BadJump".as_slice() {
        return Some(BAD_JUMP);
    }
    if word == b"BadHeight".as_slice() {
        return Some(BAD_HEIGHT);
    }
    if word == b"BadSlot".as_slice() {
        return Some(BAD_SLOT);
    }
    if word == b"BadScope".as_slice() {
        return Some(BAD_SCOPE);
    }
    if word == b"BadLiteral".as_slice() {
        return Some(BAD_LITERAL);
    }
    if word == b"NoReturn".as_slice() {
        return Some(NO_RETURN);
    }
    if word == b"NotTests".as_slice() {
        return Some(NOT_TESTS);
    }
    if word == b"NoTest".as_slice() {
        return Some(NO_TEST);
    }
    if word == b"NoClass".as_slice() {
        return Some(NO_CLASS);
    }
    if word == b"BadOutbox".as_slice() {
        return Some(BAD_OUTBOX);
    }
    if word == b"NotASnapshot".as_slice() {
        return Some(NOT_A_SNAPSHOT);
    }
    if word == b"BadImage".as_slice() {
        return Some(BAD_IMAGE);
    }
    if word == b"BadLimits".as_slice() {
        return Some(BAD_LIMITS);
    }
    if word == b"BadCell".as_slice() {
        return Some(BAD_CELL);
    }
    if word == b"BadFrame".as_slice() {
        return Some(BAD_FRAME);
    }
    if word == b"BadRest".as_slice() {
        return Some(BAD_REST);
    }
    None
}
