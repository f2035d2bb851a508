//! Strings, numbers and members of JSON, each put behind the bytes that are there.

ghost use Rattle.std.specs.Prelude.{◌≡◌, ◌∷◌, ◌++◌, ◌+◌, ◌<◌, [], OnOk};
ghost use Rattle.ns_json.specs.Json as spec;
ghost use Rattle.ns_json.specs.Objects.{each, listed, objects};
ghost use Rattle.ns_json.specs.Report.{status};

use crate::object::Object;
use ns_base::no_memory::NoMemory;

/// Opens an object before its first member, which is a text.
#[tactic(auto, unfolding(crate::specs::Json::opened))]
pub fn open_object(out: &mut Vec<u8>, name: &str, text: &[u8]) -> Result<(), NoMemory>
    ensures { OnOk result (out.new.items ≡ out.old.items ++ spec.opened (spec.texted name.now text.now)) }
{
    out.push(b'{')?;
    put_name(out, name)?;
    put_string(out, text)
}

/// Opens an object before its status.
pub fn open_status(out: &mut Vec<u8>, word: &str) -> Result<(), NoMemory>
    ensures { OnOk result (out.new.items ≡ out.old.items ++ spec.opened (status word.now)) }
{
    open_object(out, "status", word.as_bytes())
}

/// Opens an object before its first member, which is a number.
#[tactic(auto, unfolding(crate::specs::Json::opened))]
pub fn open_numbered(out: &mut Vec<u8>, name: &str, n: u64) -> Result<(), NoMemory>
    ensures { OnOk result (out.new.items ≡ out.old.items ++ spec.opened (spec.numbered name.now n)) }
{
    out.push(b'{')?;
    put_name(out, name)?;
    put_number(out, n)
}

/// Closes an object behind its last member.
pub fn close_object(out: &mut Vec<u8>) -> Result<(), NoMemory>
    ensures { OnOk result (out.new.items ≡ out.old.items ++ 125 ∷ []) }
{
    out.push(b'}')?;
    Ok(())
}

/// Puts a member whose value is a text, behind others.
#[tactic(auto, unfolding(crate::specs::Json::behind_comma))]
pub fn put_texted(out: &mut Vec<u8>, name: &str, text: &[u8]) -> Result<(), NoMemory>
    ensures { OnOk result (out.new.items ≡ out.old.items ++ spec.behind_comma (spec.texted name.now text.now)) }
{
    out.push(b',')?;
    put_name(out, name)?;
    put_string(out, text)
}

/// Puts a member whose value is a number, behind others.
#[tactic(auto, unfolding(crate::specs::Json::behind_comma))]
pub fn put_numbered(out: &mut Vec<u8>, name: &str, n: u64) -> Result<(), NoMemory>
    ensures { OnOk result (out.new.items ≡ out.old.items ++ spec.behind_comma (spec.numbered name.now n)) }
{
    out.push(b',')?;
    put_name(out, name)?;
    put_number(out, n)
}

/// Puts a member whose value is an array of objects, behind others.
#[tactic(auto, unfolding(crate::specs::Json::behind_comma))]
pub fn put_listed<T: Object>(out: &mut Vec<u8>, name: &str, things: &[T]) -> Result<(), NoMemory>
    ensures { OnOk result (out.new.items ≡ out.old.items ++ spec.behind_comma (listed name.now T.members things.now)) }
{
    out.push(b',')?;
    put_name(out, name)?;
    put_objects(out, things)
}

/// Puts the name of a member, and the colon behind it.
pub fn put_name(out: &mut Vec<u8>, name: &str) -> Result<(), NoMemory>
    ensures { OnOk result (out.new.items ≡ out.old.items ++ (spec.string_text name.now ++ 58 ∷ [])) }
{
    put_string(out, name.as_bytes())?;
    out.push(b':')?;
    Ok(())
}

/// Puts an array of objects.
pub fn put_objects<T: Object>(out: &mut Vec<u8>, things: &[T]) -> Result<(), NoMemory>
    ensures { OnOk result (out.new.items ≡ out.old.items ++ spec.value_text (objects T.members things.now)) }
{
    out.push(b'[')?;
    put_elements(out, things)?;
    out.push(b']')?;
    Ok(())
}

/// Puts objects with commas between them.
#[tactic(auto, unfolding(crate::specs::Json::object_text))]
fn put_elements<T: Object>(out: &mut Vec<u8>, things: &[T]) -> Result<(), NoMemory>
    ensures { OnOk result (out.new.items ≡ out.old.items ++ spec.elements_text (each T.members things.now)) }
{
    match things {
        [] => Ok(()),
        [thing, rest @ ..] => {
            thing.put_object(out)?;
            put_elements_behind(out, rest)
        }
    }
}

/// Puts objects that stand behind others.
#[tactic(auto, unfolding(crate::specs::Json::object_text))]
fn put_elements_behind<T: Object>(out: &mut Vec<u8>, things: &[T]) -> Result<(), NoMemory>
    ensures { OnOk result (out.new.items ≡ out.old.items ++ spec.elements_behind (each T.members things.now)) }
{
    'things: for thing in things {
        out.push(b',')?;
        thing.put_object(out)?;
    }
    Ok(())
}

/// Puts bytes.
pub fn put(out: &mut Vec<u8>, bytes: &[u8]) -> Result<(), NoMemory>
    ensures { OnOk result (out.new.items ≡ out.old.items ++ bytes.now) }
{
    out.extend_from_slice(bytes)?;
    Ok(())
}

/// Puts a string of one character for each byte.
pub fn put_string(out: &mut Vec<u8>, bytes: &[u8]) -> Result<(), NoMemory>
    ensures { OnOk result (out.new.items ≡ out.old.items ++ spec.string_text bytes.now) }
{
    out.push(b'"')?;
    put_characters(out, bytes)?;
    out.push(b'"')?;
    Ok(())
}

/// Puts the characters of a string.
#[tactic(auto, using(crate::proofs::Strings::characters_step))]
fn put_characters(out: &mut Vec<u8>, bytes: &[u8]) -> Result<(), NoMemory>
    ensures { OnOk result (out.new.items ≡ out.old.items ++ spec.characters bytes.now) }
{
    'bytes: for byte in bytes {
        put_character(out, *byte)?;
    }
    Ok(())
}

/// Puts a byte as it is where it stands for itself, and else its escape.
fn put_character(out: &mut Vec<u8>, byte: u8) -> Result<(), NoMemory>
    ensures { OnOk result (out.new.items ≡ out.old.items ++ spec.character byte) }
{
    if is_plain(byte) {
        out.push(byte)?;
        return Ok(());
    }
    put_escape(out, byte)
}

/// Whether a byte stands for itself.
fn is_plain(byte: u8) -> bool
    ensures { result ≡ spec.is_plain byte }
{
    31 < byte && byte < 127 && byte != b'"' && byte != b'\\'
}

/// Puts the escape of a byte.
fn put_escape(out: &mut Vec<u8>, byte: u8) -> Result<(), NoMemory>
    ensures { OnOk result (out.new.items ≡ out.old.items ++ spec.escape byte) }
{
    put(out, b"\\u00".as_slice())?;
    out.push(hex_digit(byte / 16))?;
    out.push(hex_digit(byte % 16))?;
    Ok(())
}

/// A hexadecimal digit, in small letters.
fn hex_digit(n: u8) -> u8
    requires { n < 16 }
    ensures { result ≡ spec.hex_digit n }
{
    if n < 10 { b'0' + n } else { b'a' - 10 + n }
}

/// Puts a number in decimal.
#[tactic(auto, using(crate::proofs::Numbers::number_text_small))]
pub fn put_number(out: &mut Vec<u8>, n: u64) -> Result<(), NoMemory>
    ensures { OnOk result (out.new.items ≡ out.old.items ++ spec.number_text n) }
{
    if n < 10 {
        return put_digit(out, n);
    }
    put_number(out, n / 10)?;
    put_digit(out, n % 10)
}

/// Puts a digit.
fn put_digit(out: &mut Vec<u8>, digit: u64) -> Result<(), NoMemory>
    requires { digit < 10 }
    ensures { OnOk result (out.new.items ≡ out.old.items ++ (48 + digit) ∷ []) }
{
    out.push(b'0' + digit as u8)?;
    Ok(())
}
