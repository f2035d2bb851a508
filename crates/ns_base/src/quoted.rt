//! Texts in quotes.

ghost use Rattle.std.specs.Prelude.{◌≡◌, ◌++◌, OnOk};
ghost use Rattle.ns_base.specs.Quoted.{doubled, quoted};

use crate::no_memory::NoMemory;

/// Bytes in quotes, behind those that are there.
pub fn put_quoted(out: &mut Vec<u8>, text: &[u8]) -> Result<(), NoMemory>
    ensures { OnOk result (out.new.items ≡ out.old.items ++ quoted text.now) }
{
    out.push(b'\'')?;
    put_doubled(out, text)?;
    out.push(b'\'')?;
    Ok(())
}

/// Bytes, with each quote doubled.
pub fn put_doubled(out: &mut Vec<u8>, text: &[u8]) -> Result<(), NoMemory>
    ensures { OnOk result (out.new.items ≡ out.old.items ++ doubled text.now) }
{
    'bytes: for byte in text {
        if *byte == b'\'' {
            out.push(b'\'')?;
        }
        out.push(*byte)?;
    }
    Ok(())
}
