//! The keys of a message, and numbers as bytes.

ghost use Rattle.std.specs.Prelude.{◌≡◌, ◌++◌, codes, IfOk};
ghost use Rattle.ns_tree.specs.PlainOf.{keys_of};
ghost use Rattle.ns_resolved.specs.Expressions.{joined};
ghost use Rattle.ns_gen_draft.specs.Keys.{keys_count};

use crate::never::cannot_come;
use ns_base::no_memory::NoMemory;
use ns_base::text::Text;
use ns_tree::tree::{BinExpr, Named};
use std::alloc::Global;

/// A number that a byte holds.
pub fn byte(number: u32) -> Result<u8, NoMemory>
    ensures { IfOk result (λ byte. byte ≡ number) }
{
    match u8::try_from(number) {
        Ok(byte) => Ok(byte),
        Err(_) => Err(cannot_come()),
    }
}

/// A count that a byte holds.
pub fn count(len: usize) -> Result<u8, NoMemory>
    ensures { IfOk result (λ count. count ≡ len) }
{
    match u32::try_from(len) {
        Ok(len) => byte(len),
        Err(_) => Err(cannot_come()),
    }
}

/// The keys, joined.
pub fn joined(alloc: Global, keys: &[(Named, BinExpr)]) -> Result<Text, NoMemory>
    ensures { IfOk result (λ text. text ≡ joined (keys_of keys.now)) }
{
    let mut bytes = Vec::new(alloc);
    for key in keys {
        bytes.extend_from_slice(key.0.text.bytes())?;
    }
    Ok(Text::from_vec(bytes))
}

/// How many keys there are, as a byte.
#[tactic(auto, using(crate::proofs::Counted::keys_counted))]
pub fn keys_count(keys: &[(Named, BinExpr)]) -> Result<u8, NoMemory>
    ensures { IfOk result (λ count. count ≡ keys_count (keys_of keys.now)) }
{
    count(keys.len())
}

/// The selector of a setter.
pub fn setter_of(alloc: Global, name: &Text) -> Result<Text, NoMemory>
    ensures { IfOk result (λ setter. setter ≡ name.now ++ codes ":") }
{
    let mut bytes = Vec::from_slice(alloc, name.bytes())?;
    bytes.push(b':')?;
    Ok(Text::from_vec(bytes))
}
