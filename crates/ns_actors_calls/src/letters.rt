//! Letters in order, and those that come next, for which there is room.

ghost use Rattle.std.specs.Prelude.{◌≡◌, [], ◌++◌, length, OnOk, OnErr};

use ns_actors::letter::Letter;
use ns_base::no_memory::NoMemory;
use std::alloc::Global;
use std::marker::Model;

/// Letters in order, as in a box, and those that come next: what was put there waits until all of it can be received, which takes
/// no memory. A clause sees both.
#[derive(Drop)]
pub struct Letters {
    all: Vec<Letter>,
    coming: Vec<Letter>,
}

impl Model for Letters {
    ghost use Rattle.std.specs.Prelude.{◌+◌, ◌≤◌, length};
    ghost use Rattle.std.specs.Vec.{vec_capacity};
    ghost use Rattle.ns_actors_calls.specs.Letters.{LettersView};

    ghost Value = { LettersView };

    ghost view = { λ l. record { all = l.all.items; coming = l.coming.items } };

    ghost invariant = { λ l. length l.all.items + length l.coming.items ≤ vec_capacity l.all };
}

impl Letters {
    /// No letters.
    pub fn new(alloc: Global) -> Letters
        ensures { result ≡ record { all = []; coming = [] } }
    {
        Letters {
            all: Vec::new(alloc),
            coming: Vec::new(alloc),
        }
    }

    /// The letters, without those that come next.
    pub fn as_slice(&self) -> &[Letter]
        ensures { result.now ≡ self.now.all }
    {
        self.all.as_slice()
    }

    /// How many letters there are, without those that come next.
    pub fn len(&self) -> usize
        ensures { result ≡ length self.now.all }
    {
        self.all.len()
    }

    /// These come next, in place of others that were to, and there is room for them. After a refusal all is as it was.
    pub fn expect_all(&mut self, letters: Vec<Letter>) -> Result<(), NoMemory>
        ensures ok { OnOk result (self.new ≡ record self.old { coming = letters.items }) }
        ensures err { OnErr result (self.new ≡ self.old) }
    {
        self.all.reserve(letters.len())?;
        self.coming = letters;
        Ok(())
    }

    /// Those that come next are received behind the others. It takes no memory.
    pub fn receive(&mut self)
        ensures { self.new ≡ record { all = self.old.all ++ self.old.coming; coming = [] } }
    {
        match self.all.append(&mut self.coming) {
            Ok(()) => {}
            Err(_) => unreachable!(),
        }
    }

    /// These come behind the others, and none comes next. After a refusal all is as it was.
    pub fn put(&mut self, letters: Vec<Letter>) -> Result<(), NoMemory>
        ensures ok { OnOk result (self.new ≡ record { all = self.old.all ++ letters.items; coming = [] }) }
        ensures err { OnErr result (self.new ≡ self.old) }
    {
        self.expect_all(letters)?;
        self.receive();
        Ok(())
    }
}
