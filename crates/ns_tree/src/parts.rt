//! Parts of a tree.

ghost use Rattle.std.specs.Prelude.{◌≡◌};
ghost use Rattle.ns_tree.specs.Parts as spec;
ghost use Rattle.ns_tree.specs.PlainOf.{keys_of};

use crate::tree::{BinExpr, Named};

/// The number of the token of the first key of a message, 0 where it has no keys.
pub fn first_key(keys: &[(Named, BinExpr)]) -> u32
    ensures { result ≡ spec.first_key (keys_of keys.now) }
{
    match keys {
        [] => 0,
        [first, ..] => first.0.at,
    }
}
