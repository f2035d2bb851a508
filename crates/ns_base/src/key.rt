//! Keys of tables of texts, by which a table is filled evenly, however its texts were chosen.

use crate::text::Text;
use sha2::{Digest, Sha256};
use std::hash::{BuildHasher, DefaultHasher, Hasher};

/// How many texts are few, so that a table of them needs no key of its own: few stand at one place under
/// any key.
pub const FEW: usize = 16;

/// The key of a table of texts: what SipHash has read before each text that it hashes for the table.
/// It is a digest of all that the texts come from, by SHA-256. So whoever chooses texts that would
/// stand at one place under some key gives the table another key by that. No clause speaks of keys,
/// since a table answers the same under each.
#[derive(Clone, Copy)]
pub struct Key {
    begun: DefaultHasher,
}

impl Key {
    /// The key of a table whose texts come from these bytes.
    pub fn of(bytes: &[u8]) -> Key {
        let mut origin = Origin::new();
        origin.add(bytes);
        origin.key()
    }

    /// The key of a table of these texts.
    pub fn of_texts(texts: &[Text]) -> Key {
        if texts.len() <= FEW {
            return Key::of_few();
        }
        let mut origin = Origin::new();
        for text in texts {
            origin.add(text.bytes());
        }
        origin.key()
    }

    /// The key of tables of few texts.
    pub fn of_few() -> Key {
        Key {
            begun: DefaultHasher::new(),
        }
    }

    /// The key of a table whose texts come from what the one and the other key are made from.
    pub fn and(self, other: Key) -> Key {
        let mut begun = self.begun;
        begun.write_u64(other.begun.finish());
        Key { begun }
    }
}

impl BuildHasher for Key {
    type Hasher = DefaultHasher;

    ghost build_hasher = { λ key. key.begun };

    fn build_hasher(&self) -> DefaultHasher {
        self.begun
    }
}

/// What the texts of a table come from, part by part.
#[derive(Drop)]
pub struct Origin {
    digest: Sha256,
}

impl Origin {
    /// No part.
    pub fn new() -> Origin {
        Origin {
            digest: Sha256::new(),
        }
    }

    /// Puts a part last. Its length goes before it, so that other parts make another key.
    pub fn add(&mut self, part: &[u8]) {
        let length = (part.len() as u64).to_le_bytes();
        self.digest.update(length.as_slice());
        self.digest.update(part);
    }

    /// The key that the parts make.
    pub fn key(self) -> Key {
        let mut begun = DefaultHasher::new();
        begun.write(&self.digest.finalize());
        Key { begun }
    }
}
