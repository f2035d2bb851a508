//! Lists that something else owns.

ghost use Rattle.std.specs.Prelude.{◌≡◌, length};

use std::marker::Model;

/// A list that is lent. A clause sees the list alone.
#[derive(Drop)]
pub struct Lent<'a, T> {
    all: &'a [T],
}

impl<'a, T> Model for Lent<'a, T> {
    ghost use Rattle.std.specs.Prelude.{List};

    ghost Value = { List T };

    ghost view = { λ lent. lent.all.now };
}

impl<'a, T> Lent<'a, T> {
    /// The list of these.
    pub fn of(all: &'a [T]) -> Lent<'a, T>
        ensures { result ≡ all.now }
    {
        Lent { all }
    }

    /// Its items.
    pub fn as_slice(&self) -> &'a [T]
        ensures { result.now ≡ self.now }
    {
        self.all
    }

    /// How many there are.
    pub fn len(&self) -> usize
        ensures { result ≡ length self.now }
    {
        self.all.len()
    }
}
