//! Texts, which are lists of bytes.

ghost use Rattle.std.specs.Prelude.{◌≡◌, ◌∷◌, [], IfOk};
ghost use Rattle.std.specs.Cmp.{on_equiv, partial_equiv_from_equiv};
ghost use Rattle.std.specs.Cmp.Lexicographic.{nat_list_eq_equiv, bytes_decides};
ghost use Rattle.std.specs.Str.{bytes_eq};
ghost use Rattle.std.proofs.Common.{ap};

use crate::no_memory::NoMemory;
use indexmap::Equivalent;
use smallvec::SmallVec;
use std::alloc::Global;
use std::hash::{Hash, Hasher};
use std::marker::Model;

/// A list of bytes. A clause sees the list alone. Up to 16 bytes, as most names have, stand in the text itself.
#[derive(Drop)]
pub struct Text {
    all: SmallVec<u8, 16>,
}

impl Model for Text {
    ghost use Rattle.std.specs.Prelude.{List, ℕ};
    ghost use Rattle.std.specs.Coded.{coded_list, coded_ℕ};

    ghost Value = { List ℕ };

    ghost coded = { coded_list coded_ℕ };

    ghost view = { λ t. t.all.items };
}

impl Text {
    /// The text of these bytes.
    pub fn of(alloc: Global, bytes: &[u8]) -> Result<Text, NoMemory>
        ensures { IfOk result (λ t. t ≡ bytes.now) }
    {
        Ok(Text {
            all: SmallVec::from_slice(alloc, bytes)?,
        })
    }

    /// The text of the bytes of a vector, whose memory it takes over where it is long.
    pub fn from_vec(bytes: Vec<u8>) -> Text
        ensures { result ≡ bytes.items }
    {
        Text {
            all: SmallVec::from_vec(bytes),
        }
    }

    /// The vector of its bytes, in the text's own memory where it has any.
    pub fn into_vec(self) -> Result<Vec<u8>, NoMemory>
        ensures { IfOk result (λ bytes. bytes.items ≡ self) }
    {
        match self.all.into_vec() {
            Ok(bytes) => Ok(bytes),
            Err(_) => Err(NoMemory),
        }
    }

    /// Its bytes.
    pub fn bytes(&self) -> &[u8]
        ensures { result.now ≡ self.now }
    {
        self.all.as_slice()
    }
}

/// Texts are equal where their bytes are.
impl PartialEq for Text {
    ghost eq = { bytes_eq };

    ghost laws = { partial_equiv_from_equiv nat_list_eq_equiv };

    fn eq(&self, other: &Text) -> bool {
        self.bytes() == other.bytes()
    }
}

impl Eq for Text {
    ghost laws = { nat_list_eq_equiv };
}

/// A text is hashed by its bytes, which are read at once.
impl Hash for Text {
    ghost hash_input = { λ text. text ∷ [] };

    ghost respects_eq = { λ x y h. ap (λ text. text ∷ []) ((bytes_decides x y).0 h) };

    fn hash<H: Hasher>(&self, state: &mut H) {
        state.write(self.bytes());
    }
}

/// Bytes that are looked for in a table of texts, so that no text is made for it.
#[derive(Clone, Copy)]
pub struct Sought<'a>(pub &'a [u8]);

impl PartialEq for Sought<'_> {
    ghost eq = { λ x y. bytes_eq x.0.now y.0.now };

    ghost laws = { partial_equiv_from_equiv (on_equiv (λ x. x.0.now) nat_list_eq_equiv) };

    fn eq(&self, other: &Sought<'_>) -> bool {
        self.0 == other.0
    }
}

impl Eq for Sought<'_> {
    ghost laws = { on_equiv (λ x. x.0.now) nat_list_eq_equiv };
}

impl Hash for Sought<'_> {
    ghost hash_input = { λ sought. sought.0.now ∷ [] };

    ghost respects_eq = { λ x y h. ap (λ text. text ∷ []) ((bytes_decides x.0.now y.0.now).0 h) };

    fn hash<H: Hasher>(&self, state: &mut H) {
        state.write(self.0);
    }
}

impl Equivalent<Text> for Sought<'_> {
    ghost equivalent = { λ sought text. bytes_eq sought.0.now text };

    ghost respects_hash = { λ sought text h. ap (λ text. text ∷ []) ((bytes_decides sought.0.now text).0 h) };

    ghost respects_eq = { λ sought x y. nat_list_eq_equiv.congr sought.0.now x y };

    fn equivalent(&self, key: &Text) -> bool {
        self.0 == key.bytes()
    }
}
