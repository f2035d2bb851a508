//! What a walk keeps of the faults that it finds.

ghost use Rattle.std.specs.Prelude.{◌≡◌, [], ◌∷◌, ◌++◌, IfOk, length};
ghost use Rattle.ns_static_rules.specs.Keeping.{keep, least_kept, count_kept, list_kept, put_in};

use crate::fault::Placed;
use crate::least::earlier;
use ns_base::no_memory::NoMemory;
use std::alloc::Global;
use std::marker::Model;

/// The least of the faults, if there is one; or how many there are; or each, while there is room.
#[derive(Drop)]
pub enum Kept {
    Least(Option<Placed>),
    Counted(usize),
    Listed(Room),
}

/// Faults, and for how many more there is room. A clause sees both.
#[derive(Drop)]
pub struct Room {
    faults: Vec<Placed>,
    left: usize,
}

impl Model for Room {
    ghost use Rattle.std.specs.Prelude.{◌+◌, ◌≤◌};
    ghost use Rattle.std.specs.Vec.{vec_len, vec_capacity};
    ghost use Rattle.ns_static_rules.specs.Listing.{Listed};

    ghost Value = { Listed };

    ghost view = { λ room. record { faults = room.faults.items; left = room.left } };

    ghost invariant = { λ room. vec_len room.faults + room.left ≤ vec_capacity room.faults };
}

impl Room {
    /// Room for so many faults, or an error where there is none.
    pub fn with(alloc: Global, left: usize) -> Result<Room, NoMemory>
        ensures { IfOk result (λ room. room ≡ record { faults = []; left = left }) }
    {
        let faults = Vec::with_capacity(alloc, left)?;
        Ok(Room { faults, left })
    }

    /// Puts a fault behind the others, while there is room.
    fn put(&mut self, fault: Placed)
        ensures { self.new ≡ put_in self.old fault }
    {
        if self.left == 0 {
            return;
        }
        self.left -= 1;
        match self.faults.push(fault) {
            Ok(()) => {}
            Err(_) => {}
        }
    }

    /// The faults.
    pub fn into_faults(self) -> Vec<Placed>
        ensures { result.items ≡ self.faults }
    {
        self.faults
    }
}

impl Kept {
    /// Keeps a fault too.
    pub fn keep(&mut self, fault: Placed)
        ensures { self.new ≡ keep self.old fault }
    {
        match self {
            Kept::Least(least) => *least = Some(earlier(*least, fault)),
            Kept::Counted(count) => *count = count.saturating_add(1),
            Kept::Listed(room) => room.put(fault),
        }
    }

    /// The least fault, where that is kept.
    pub fn into_least(self) -> Option<Placed>
        ensures { result ≡ least_kept self }
    {
        match self {
            Kept::Least(least) => least,
            Kept::Counted(_) => None,
            Kept::Listed(_) => None,
        }
    }

    /// How many faults there are, where that is kept.
    pub fn into_count(self) -> usize
        ensures { result ≡ count_kept self }
    {
        match self {
            Kept::Least(_) => 0,
            Kept::Counted(count) => count,
            Kept::Listed(_) => 0,
        }
    }

    /// The faults, where they are kept.
    pub fn into_list(self, alloc: Global) -> Vec<Placed>
        ensures { result.items ≡ list_kept self }
    {
        match self {
            Kept::Least(_) => Vec::new(alloc),
            Kept::Counted(_) => Vec::new(alloc),
            Kept::Listed(room) => room.into_faults(),
        }
    }
}
