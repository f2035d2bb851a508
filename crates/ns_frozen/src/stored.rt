//! The cells of a state, in little memory.

ghost use Rattle.std.specs.Prelude.{◌≡◌, ◌<◌, [], length, get_or, OnOk};
ghost use Rattle.ns_frozen.specs.Heads.{data_of, with_word, with_cell};

use crate::cell::CellData;
use crate::pools::{Head, NewData, Pools};
use ns_base::no_memory::NoMemory;
use ns_world::value::Value;
use std::alloc::Global;
use std::marker::Model;

/// Cells that are put one behind the other, and the words of the next one. A clause sees these alone.
#[derive(Drop)]
pub struct CellsMaker {
    heads: Vec<Head>,
    pools: Pools,
    from: usize,
}

impl Model for CellsMaker {
    ghost use Rattle.std.specs.Prelude.{◌≤◌, map, drop, length, All};
    ghost use Rattle.ns_frozen.specs.Heads.{MadeCells, shown, IsThere};

    ghost Value = { MadeCells };

    ghost view = { λ maker. record {
      cells = map (shown maker.pools) maker.heads.items;
      words = drop maker.from maker.pools.values.items;
    } };

    ghost invariant = { λ maker.
        All (IsThere maker.pools) maker.heads.items × (maker.from ≤ length maker.pools.values.items) };
}

impl CellsMaker {
    /// No cells.
    pub fn new(alloc: Global) -> CellsMaker
        ensures cells { result.cells ≡ [] }
        ensures words { result.words ≡ [] }
    {
        CellsMaker {
            heads: Vec::new(alloc),
            pools: Pools::new(alloc),
            from: 0,
        }
    }

    /// How many cells there are.
    pub fn len(&self) -> usize
        ensures { result ≡ length self.now.cells }
    {
        self.heads.len()
    }

    /// The cell at a place.
    pub fn at(&self, place: usize) -> CellData<'_>
        requires { place < length self.now.cells }
        ensures { result ≡ get_or self.now.cells place result }
    {
        self.pools.shown(&self.heads[place])
    }

    /// Puts a word of the next cell.
    pub fn word(&mut self, word: Value) -> Result<(), NoMemory>
        ensures { OnOk result (self.new ≡ with_word word self.old) }
    {
        self.pools.word(word)?;
        Ok(())
    }

    /// Puts the next cell, which has the words that were put since the one before.
    pub fn put(&mut self, cell: NewData<'_>) -> Result<(), NoMemory>
        ensures { OnOk result (self.new ≡ with_cell (data_of cell.entry self.old.words) self.old) }
    {
        let head = self.pools.head(cell, self.from)?;
        self.heads.push(head)?;
        self.from = self.pools.words();
        Ok(())
    }
}

/// A list of cells. A clause sees the list alone, and not how the memory of all is shared.
#[derive(Drop)]
pub struct Cells {
    made: CellsMaker,
}

impl Model for Cells {
    ghost use Rattle.std.specs.Prelude.{List};
    ghost use Rattle.ns_frozen.specs.declared.cell.CellData.{CellData};

    ghost Value = { List CellData };

    ghost view = { λ cells. cells.made.cells };
}

impl Cells {
    /// No cells.
    pub fn none(alloc: Global) -> Cells
        ensures { result ≡ [] }
    {
        Cells {
            made: CellsMaker::new(alloc),
        }
    }

    /// Those that were put.
    pub fn of(made: CellsMaker) -> Cells
        ensures { result ≡ made.cells }
    {
        Cells { made }
    }

    /// The same, behind which more can be put.
    pub fn into_maker(self) -> CellsMaker
        ensures { result.cells ≡ self }
    {
        self.made
    }

    /// How many there are.
    pub fn len(&self) -> usize
        ensures { result ≡ length self.now }
    {
        self.made.len()
    }

    /// The cell at a place.
    pub fn at(&self, place: usize) -> CellData<'_>
        requires { place < length self.now }
        ensures { result ≡ get_or self.now place result }
    {
        self.made.at(place)
    }
}
