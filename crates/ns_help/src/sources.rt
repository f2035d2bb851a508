//! What the refusals of files and of their texts mean.

ghost use Rattle.std.specs.Prelude.{◌≡◌, option_map};
ghost use Rattle.ns_help.specs.Topics as spec;

/// What `Missing` means.
pub const MISSING: &str = "Missing: there is no file of this name.
";

/// What `TooLong` means.
pub const TOO_LONG: &str =
    "TooLong: the file is too long: a source and the file of `--text` have at most
1,048,576 bytes, an image and a snapshot 134,217,728.
";

/// What `Exists` means.
pub const EXISTS: &str =
    "Exists: `build --to=IMAGE` stores over an image alone, and a file of this name
that is none is there. Mostly the name of the image is missing before a
source.
";

/// What `BadByte` means.
pub const BAD_BYTE: &str =
    "BadByte: this byte begins no token. Outside strings and comments a source is
ASCII. A number ends at a digit: `1.5`, `16rFF`, `1e5` and `3x` aren't numbers
here; `$a` and `#(1 2)` aren't literals; a file has no byte order mark.
";

/// What `BigNumber` means.
pub const BIG_NUMBER: &str = "BigNumber: the number is above 9223372036854775808.
";

/// What `UnclosedComment` means.
pub const UNCLOSED_COMMENT: &str =
    "UnclosedComment: the comment that begins here has no end. Comments `(* *)`
nest, and two double quotes hold a comment too.
";

/// What `UnclosedString` means.
pub const UNCLOSED_STRING: &str =
    "UnclosedString: the string that begins here has no end. In a string a quote is
written twice: `'it''s'`.
";

/// What `TooDeep` means.
pub const TOO_DEEP: &str = "TooDeep: this bracket would be the 101st that is open.
";

/// What `Syntax` means.
pub const SYNTAX: &str = "Syntax: the file can't go on with this token; at its end, more is needed.
Mostly the fault is just before: a full stop between two statements is
missing; a slot with an initialiser has no full stop at its end (`| x = 3.
|`); `:=` is written where Newspeak has `::` (to set) or `::=` (to declare);
an argument of a keyword message needs parentheses around a keyword message of
its own; `class` is a reserved word and no message.
";

/// What is told of a cause for which a file or its text is refused, if the word is one.
pub fn sources_text(word: &[u8]) -> Option<&'static str>
    ensures { option_map (λ text. text.now) result ≡ spec.found word.now spec.sources }
{
    if word == b"Missing".as_slice() {
        return Some(MISSING);
    }
    if word == b"TooLong".as_slice() {
        return Some(TOO_LONG);
    }
    if word == b"Exists".as_slice() {
        return Some(EXISTS);
    }
    if word == b"BadByte".as_slice() {
        return Some(BAD_BYTE);
    }
    if word == b"BigNumber".as_slice() {
        return Some(BIG_NUMBER);
    }
    if word == b"UnclosedComment".as_slice() {
        return Some(UNCLOSED_COMMENT);
    }
    if word == b"UnclosedString".as_slice() {
        return Some(UNCLOSED_STRING);
    }
    if word == b"TooDeep".as_slice() {
        return Some(TOO_DEEP);
    }
    if word == b"Syntax".as_slice() {
        return Some(SYNTAX);
    }
    None
}
