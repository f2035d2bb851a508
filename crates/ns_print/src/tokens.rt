//! Single tokens, each with the gap behind it.

ghost use Rattle.std.specs.Prelude.{◌≡◌, ◌++◌, ◌∷◌, [], OnOk, map};
ghost use Rattle.ns_tree.specs.declared.token.Kind.TheVariants as k;
ghost use Rattle.ns_tree.specs.Flat.{ident, set_key, stop_if, flat_access, flat_caret};
ghost use Rattle.ns_print.specs.Printed.{lines};

use ns_base::no_memory::NoMemory;
use ns_base::quoted::put_doubled;
use ns_base::text::Text;
use ns_tree::tree::{Access, Named};

/// A token's text and a blank.
pub fn put(out: &mut Vec<u8>, text: &[u8]) -> Result<(), NoMemory>
    ensures { OnOk result (out.new.items ≡ out.old.items ++ (text.now ++ 32 ∷ [])) }
{
    out.extend_from_slice(text)?;
    out.push(b' ')?;
    Ok(())
}

/// A full stop, where there is one.
pub fn put_stop_if(out: &mut Vec<u8>, stop: bool) -> Result<(), NoMemory>
    ensures { OnOk result (out.new.items ≡ out.old.items ++ lines (stop_if stop)) }
{
    if stop {
        put_stop(out)?;
    }
    Ok(())
}

pub fn put_stop(out: &mut Vec<u8>) -> Result<(), NoMemory>
    ensures { OnOk result (out.new.items ≡ out.old.items ++ lines (k.Stop ∷ [])) }
{
    out.extend_from_slice(b".\n")?;
    Ok(())
}

pub fn put_names(out: &mut Vec<u8>, names: &[Named]) -> Result<(), NoMemory>
    ensures { OnOk result (out.new.items ≡ out.old.items ++ lines (map ident names.now)) }
{
    for name in names {
        put(out, name.text.bytes())?;
    }
    Ok(())
}

pub fn put_set_keys(out: &mut Vec<u8>, names: &[Named]) -> Result<(), NoMemory>
    ensures { OnOk result (out.new.items ≡ out.old.items ++ lines (map set_key names.now)) }
{
    for name in names {
        out.extend_from_slice(name.text.bytes())?;
        put(out, b"::")?;
    }
    Ok(())
}

pub fn put_number(out: &mut Vec<u8>, size: u64) -> Result<(), NoMemory>
    ensures { OnOk result (out.new.items ≡ out.old.items ++ lines (k.Number size ∷ [])) }
{
    let alloc = *out.allocator();
    let text = size.to_string(alloc)?;
    put(out, text.as_bytes())
}

pub fn put_symbol(out: &mut Vec<u8>, text: &[u8]) -> Result<(), NoMemory>
    ensures { OnOk result (out.new.items ≡ out.old.items ++ lines (k.Symbol text.now ∷ [])) }
{
    out.push(b'#')?;
    put(out, text)
}

pub fn put_strings(out: &mut Vec<u8>, texts: &[Text]) -> Result<(), NoMemory>
    ensures { OnOk result (out.new.items ≡ out.old.items ++ lines (map k.Str texts.now)) }
{
    for text in texts {
        put_string(out, text.bytes())?;
    }
    Ok(())
}

pub fn put_string(out: &mut Vec<u8>, text: &[u8]) -> Result<(), NoMemory>
    ensures { OnOk result (out.new.items ≡ out.old.items ++ lines (k.Str text.now ∷ [])) }
{
    out.push(b'\'')?;
    put_doubled(out, text)?;
    put(out, b"'")
}

pub fn put_access(out: &mut Vec<u8>, access: Option<Access>) -> Result<(), NoMemory>
    ensures { OnOk result (out.new.items ≡ out.old.items ++ lines (flat_access access)) }
{
    match access {
        None => Ok(()),
        Some(Access::Public) => put(out, b"public"),
        Some(Access::Protected) => put(out, b"protected"),
        Some(Access::Private) => put(out, b"private"),
    }
}

pub fn put_caret(out: &mut Vec<u8>, caret: Option<u32>) -> Result<(), NoMemory>
    ensures { OnOk result (out.new.items ≡ out.old.items ++ lines (flat_caret caret)) }
{
    match caret {
        None => Ok(()),
        Some(_) => put(out, b"^"),
    }
}
