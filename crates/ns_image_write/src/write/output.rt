//! Single fields, each put behind the bytes that are there.

ghost use Rattle.std.specs.Prelude.{◌≡◌, ◌-◌, ◌<◌, ◌^◌, ◌++◌, List, ℕ, All, OnOk, length, flat_map};
ghost use Rattle.std.specs.Int.{to_be_bytes};
ghost use Rattle.std.specs.Option.{ForSome};
ghost use Rattle.ns_code.specs.Fits.{IsWord, IsHalf, IsShort};
ghost use Rattle.ns_image.specs.Bytes as spec;

use ns_base::no_memory::NoMemory;
use ns_base::text::Text;

/// What an image has many of.
pub trait Part {
    ghost layout: { Self → List ℕ };

    ghost fits: { Self → Type 0 };

    /// Puts it.
    fn put(&self, out: &mut Vec<u8>) -> Result<(), NoMemory>
        requires { fits self.now }
        ensures { OnOk result (out.new.items ≡ out.old.items ++ layout self.now) };
}

/// Puts parts one behind the other.
pub fn put_all<P: Part>(out: &mut Vec<u8>, parts: &[P]) -> Result<(), NoMemory>
    requires { All P.fits parts.now }
    ensures { OnOk result (out.new.items ≡ out.old.items ++ flat_map P.layout parts.now) }
{
    'parts: for part in parts {
        part.put(out)?;
    }
    Ok(())
}

/// Puts parts behind their count of four bytes.
pub fn put_counted<P: Part>(out: &mut Vec<u8>, parts: &[P]) -> Result<(), NoMemory>
    requires fits { All P.fits parts.now }
    requires short { IsWord (length parts.now) }
    ensures { OnOk result (out.new.items ≡ out.old.items ++ spec.counted P.layout parts.now) }
{
    put_word(out, parts.len() as u32)?;
    put_all(out, parts)
}

/// Puts parts behind their count of two bytes.
pub fn put_counted_half<P: Part>(out: &mut Vec<u8>, parts: &[P]) -> Result<(), NoMemory>
    requires fits { All P.fits parts.now }
    requires short { IsHalf (length parts.now) }
    ensures { OnOk result (out.new.items ≡ out.old.items ++ spec.counted_half P.layout parts.now) }
{
    put_half(out, parts.len() as u16)?;
    put_all(out, parts)
}

pub fn put_byte(out: &mut Vec<u8>, number: u8) -> Result<(), NoMemory>
    ensures { OnOk result (out.new.items ≡ out.old.items ++ spec.byte number) }
{
    out.extend_from_slice(&number.to_be_bytes())?;
    Ok(())
}

pub fn put_half(out: &mut Vec<u8>, number: u16) -> Result<(), NoMemory>
    ensures { OnOk result (out.new.items ≡ out.old.items ++ spec.half number) }
{
    out.extend_from_slice(&number.to_be_bytes())?;
    Ok(())
}

pub fn put_word(out: &mut Vec<u8>, number: u32) -> Result<(), NoMemory>
    ensures { OnOk result (out.new.items ≡ out.old.items ++ spec.word number) }
{
    out.extend_from_slice(&number.to_be_bytes())?;
    Ok(())
}

pub fn put_long(out: &mut Vec<u8>, number: i64) -> Result<(), NoMemory>
    ensures { OnOk result (out.new.items ≡ out.old.items ++ spec.long number) }
{
    out.extend_from_slice(&number.to_be_bytes())?;
    Ok(())
}

/// 1 for true, 0 for false.
pub fn put_flag(out: &mut Vec<u8>, is_set: bool) -> Result<(), NoMemory>
    ensures { OnOk result (out.new.items ≡ out.old.items ++ spec.flag is_set) }
{
    put_byte(out, if is_set { 1 } else { 0 })
}

/// The number and 1, or 0 for none.
pub fn put_reference(out: &mut Vec<u8>, number: Option<u32>) -> Result<(), NoMemory>
    requires { ForSome number (λ k. k < 2 ^ 32 - 1) }
    ensures { OnOk result (out.new.items ≡ out.old.items ++ spec.reference number) }
{
    match number {
        None => put_word(out, 0),
        Some(number) => put_word(out, number + 1),
    }
}

/// A text behind its length.
impl Part for Text {
    ghost layout = { spec.text };

    ghost fits = { IsShort };

    fn put(&self, out: &mut Vec<u8>) -> Result<(), NoMemory> {
        let bytes = self.bytes();
        put_word(out, bytes.len() as u32)?;
        out.extend_from_slice(bytes)?;
        Ok(())
    }
}
