//! The cells of a frozen state, each found by its number, and the code that they are of.

ghost use Rattle.std.specs.Prelude.{◌≡◌, ◌<◌, ◌≤◌, IfOk, get_or, length, option_map};
ghost use Rattle.ns_code.specs.Fits.{Fits};
ghost use Rattle.ns_verify.specs.Verify.{IsSound};
ghost use Rattle.ns_code.specs.Selector.{is_selector_number, selector_arity};
ghost use Rattle.ns_world.specs.Heap as heap;
ghost use Rattle.ns_world.specs.Layout as layout;
ghost use Rattle.ns_frozen.specs.Freezing.{cell_frozen};
ghost use Rattle.ns_frozen.specs.Live as live;
ghost use Rattle.ns_frozen_tables.specs.Chain as chain;
ghost use Rattle.ns_frozen_tables.specs.Numbers.{IsPlaceOf};
ghost use Rattle.ns_frozen_seen.specs.Seen as spec;

use crate::keepers::Keeper;
use ns_base::items::Items;
use ns_base::no_memory::NoMemory;
use ns_base::selector::Sel;
use ns_code::program::CodeProgram;
use ns_frozen::cell::CellData;
use ns_frozen::stored::Cells;
use ns_frozen_tables::bodies::Bodies;
use ns_frozen_tables::chain::{Chain, Chains, chain_in};
use ns_frozen_tables::nested::outers_of;
use ns_frozen_tables::numbers::{cell_at, numbers_of, place_of};
use ns_frozen_tables::selectors::Selectors;
use ns_verify::laws::sound_code_is_in_order;
use std::alloc::Global;

/// Code and cells, with what is found of them once: the number of each cell, the chain of each class, what is asked of
/// selectors and bodies, which classes have words in their instances and the ways up from them, which bodies environments fit,
/// and in which declaration each class is nested.
#[derive(Drop)]
pub struct Seen<'a> {
    pub code: &'a CodeProgram,
    pub cells: &'a Cells,
    pub numbers: Items<u32>,
    pub chains: Chains,
    pub selectors: Selectors,
    pub bodies: Bodies,
    pub keepers: Vec<Keeper>,
    pub kept: Vec<u32>,
    pub outers: Items<Option<u32>>,
}

impl<'a> Seen<'a> {
    /// Sees these cells, over this code, where nothing is known of what environments fit.
    pub fn of(alloc: Global, code: &'a CodeProgram, cells: &'a Cells) -> Result<Seen<'a>, NoMemory>
        requires sound { IsSound code.now }
        requires fits { Fits code.now }
        ensures seen { IfOk result (λ seen. spec.IsSeen seen) }
        ensures these { IfOk result (λ seen. (seen.code.now ≡ code.now) × (seen.cells.now ≡ cells.now)) }
    {
        let mut seen = Seen::begin(alloc, code, cells)?;
        seen.find_keepers()?;
        Ok(seen)
    }

    /// The same, where nothing is kept of classes yet.
    #[tactic(auto, using(crate::proofs::Kept::none_kept, crate::proofs::Found::empty_fits))]
    fn begin(alloc: Global, code: &'a CodeProgram, cells: &'a Cells) -> Result<Seen<'a>, NoMemory>
        requires sound { IsSound code.now }
        requires fits { Fits code.now }
        ensures seen { IfOk result (λ seen. spec.IsSeen seen) }
        ensures none { IfOk result (λ seen. length seen.keepers.items ≡ 0) }
        ensures these { IfOk result (λ seen. (seen.code.now ≡ code.now) × (seen.cells.now ≡ cells.now)) }
    {
        let numbers = numbers_of(alloc, cells)?;
        let chains = Chains::of(alloc, code, cells)?;
        let selectors = Selectors::of(alloc, code)?;
        let bodies = Bodies::of(alloc, code)?;
        let outers = outers_of(alloc, code)?;
        sound_code_is_in_order();
        Ok(Seen {
            code,
            cells,
            numbers,
            chains,
            selectors,
            bodies,
            keepers: Vec::new(alloc),
            kept: Vec::new(alloc),
            outers,
        })
    }

    /// The cell of that number, if there is one.
    #[tactic(auto, using(crate::proofs::Found::found_one, crate::proofs::Found::found_none, crate::proofs::Found::rising_numbers))]
    pub fn find(&self, number: u32) -> Option<CellData<'_>>
        requires { spec.IsSeen self.now }
        ensures { result ≡ option_map cell_frozen (heap.find_cell (spec.heap_of self.now) number) }
    {
        match place_of(self.numbers.as_slice(), number) {
            Some(place) => cell_at(self.cells, place),
            None => None,
        }
    }

    /// The place of the cell of that number, if there is one.
    #[tactic(auto, using(crate::proofs::Found::rising_numbers))]
    pub fn place_of_cell(&self, number: u32) -> Option<usize>
        requires { spec.IsSeen self.now }
        ensures { IsPlaceOf self.now.numbers number result }
    {
        place_of(self.numbers.as_slice(), number)
    }

    /// What is kept of the chain of a class.
    fn chain(&self, class: u32) -> Chain
        requires { spec.IsSeen self.now }
        ensures { result ≡ chain.chain_at self.now.code.now (spec.heap_of self.now) class }
    {
        self.chains.at(class)
    }

    /// How many links the chain of a class has, 0 where it isn't as it must be.
    pub fn links(&self, class: u32) -> u32
        requires { spec.IsSeen self.now }
        ensures { result ≡ chain.links_of self.now.code.now (spec.heap_of self.now) class }
    {
        self.chain(class).links
    }

    /// Whether a class has at most 256 declared classes above it and itself, each made before the one below it.
    #[tactic(auto, using(ns_frozen_tables::specs::laws::Linked::chain_told))]
    pub fn has_chain(&self, class: u32) -> bool
        requires { spec.IsSeen self.now }
        ensures { result ≡ live.has_chain self.now.code.now (spec.heap_of self.now) class }
    {
        self.chain(class).links != 0
    }

    /// How many entries the instances of a class have.
    #[tactic(auto, using(crate::proofs::Found::seen_few))]
    pub fn layout(&self, class: u32) -> u64
        requires { spec.IsSeen self.now }
        ensures few { result ≤ 562949953421312 }
        ensures layout { result ≡ layout.layout_of (spec.heap_of self.now) self.now.code.now class }
    {
        self.chain(class).layout
    }

    /// The same of the class at a place, whose chain stands there.
    #[tactic(auto, using(crate::proofs::Kept::chain_here))]
    fn chain_of(&self, place: u32) -> Chain
        requires seen { spec.IsSeen self.now }
        requires there { place < length self.now.chains.numbers.items }
        ensures { result ≡ chain.chain_at self.now.code.now (spec.heap_of self.now) (get_or self.now.chains.numbers.items place 0) }
    {
        chain_in(self.chains.chains.as_slice(), place as usize)
    }

    /// Whether it has a chain.
    #[tactic(auto, using(ns_frozen_tables::specs::laws::Linked::chain_told))]
    pub fn has_chain_at(&self, place: u32) -> bool
        requires seen { spec.IsSeen self.now }
        requires there { place < length self.now.chains.numbers.items }
        ensures { result ≡ live.has_chain self.now.code.now (spec.heap_of self.now) (get_or self.now.chains.numbers.items place 0) }
    {
        self.chain_of(place).links != 0
    }

    /// How many entries its instances have.
    pub fn layout_at(&self, place: u32) -> u64
        requires seen { spec.IsSeen self.now }
        requires there { place < length self.now.chains.numbers.items }
        ensures { result ≡ layout.layout_of (spec.heap_of self.now) self.now.code.now (get_or self.now.chains.numbers.items place 0) }
    {
        self.chain_of(place).layout
    }

    /// Whether that number is a selector's.
    pub fn has_selector(&self, sel: Sel) -> bool
        requires { spec.IsSeen self.now }
        ensures { result ≡ is_selector_number self.now.code.now sel.0 }
    {
        self.selectors.has(sel)
    }

    /// How many arguments a selector takes.
    pub fn arity(&self, sel: Sel) -> usize
        requires { spec.IsSeen self.now }
        ensures { result ≡ selector_arity self.now.code.now sel.0 }
    {
        self.selectors.arity(sel)
    }
}
