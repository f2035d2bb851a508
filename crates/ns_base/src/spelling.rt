//! The bytes of which names, operators and numbers are spelled.

ghost use Rattle.std.specs.Prelude.{◌≡◌};
ghost use Rattle.ns_base.specs.Spelling as spelling;

/// Whether the byte is a decimal digit.
pub fn is_digit(byte: u8) -> bool
    ensures { result ≡ spelling.is_digit byte }
{
    b'0' <= byte && byte <= b'9'
}

/// Whether an identifier can begin with the byte: a letter or an underscore.
pub fn begins_name(byte: u8) -> bool
    ensures { result ≡ spelling.begins_name byte }
{
    (b'A' <= byte && byte <= b'Z') || (b'a' <= byte && byte <= b'z') || byte == b'_'
}

/// Whether an identifier can go on with the byte: a letter, an underscore or a digit.
pub fn goes_on_name(byte: u8) -> bool
    ensures { result ≡ spelling.goes_on_name byte }
{
    begins_name(byte) || is_digit(byte)
}

/// Whether operators are made of such bytes.
pub fn is_operator_byte(byte: u8) -> bool
    ensures { result ≡ spelling.is_operator_byte byte }
{
    b"+-*/\\~<>=@%|&?,!"
        .iter()
        .any(|operator| byte == *operator)
}
