//! Single fields, each put behind the bytes that are there.

ghost use Rattle.std.specs.Prelude.{◌≡◌, ◌++◌, OnOk};
ghost use Rattle.ns_code.specs.Fits.{IsShort};
ghost use Rattle.ns_image.specs.Bytes as image;
ghost use Rattle.ns_snapshot.specs.Bytes as spec;

use ns_base::no_memory::NoMemory;
use ns_image_write::write::output::{put_byte, put_long, put_word};

/// A number of eight bytes.
pub fn put_double(out: &mut Vec<u8>, number: u64) -> Result<(), NoMemory>
    ensures { OnOk result (out.new.items ≡ out.old.items ++ spec.double number) }
{
    out.extend_from_slice(&number.to_be_bytes())?;
    Ok(())
}

/// Bytes behind their length.
pub fn put_text(out: &mut Vec<u8>, bytes: &[u8]) -> Result<(), NoMemory>
    requires { IsShort bytes.now }
    ensures { OnOk result (out.new.items ≡ out.old.items ++ image.text bytes.now) }
{
    put_word(out, bytes.len() as u32)?;
    out.extend_from_slice(bytes)?;
    Ok(())
}

/// The number of a variant, and one of one byte behind it.
pub fn with_byte(out: &mut Vec<u8>, variant: u8, number: u8) -> Result<(), NoMemory>
    ensures { OnOk result (out.new.items ≡ out.old.items ++ (image.byte variant ++ image.byte number)) }
{
    put_byte(out, variant)?;
    put_byte(out, number)
}

/// The number of a variant, and one of four bytes behind it.
pub fn with_word(out: &mut Vec<u8>, variant: u8, number: u32) -> Result<(), NoMemory>
    ensures { OnOk result (out.new.items ≡ out.old.items ++ (image.byte variant ++ image.word number)) }
{
    put_byte(out, variant)?;
    put_word(out, number)
}

/// The number of a variant, and a signed one of eight bytes behind it.
pub fn with_long(out: &mut Vec<u8>, variant: u8, number: i64) -> Result<(), NoMemory>
    ensures { OnOk result (out.new.items ≡ out.old.items ++ (image.byte variant ++ image.long number)) }
{
    put_byte(out, variant)?;
    put_long(out, number)
}
