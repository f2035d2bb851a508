//! The chains of classes, each found once.

ghost use Rattle.std.specs.Prelude.{◌≡◌, ◌≤◌, IfOk, OnOk, slice_get, unwrap_or, ◌∷◌};
ghost use Rattle.ns_code.specs.declared.program.CodeProgram.{CodeProgram};
ghost use Rattle.ns_code.specs.Fits.{Fits};
ghost use Rattle.ns_world.specs.Heap.{Heap, heap_size};
ghost use Rattle.ns_world.specs.Layout.{entries_of};
ghost use Rattle.ns_frozen.specs.Live as live;
ghost use Rattle.ns_frozen.specs.Thawing.{cell_thawed, heap_thawed};
ghost use Rattle.ns_frozen_tables.specs.Chain as spec;

use crate::numbers::{place_of, size};
use ns_base::no_memory::NoMemory;
use ns_code::program::CodeProgram;
use ns_frozen::cell::CellData;
use ns_frozen::stored::Cells;
use ns_world::value::{KClass, Value};
use std::alloc::Global;

/// How many classes a chain has, 0 where it isn't as it must be; and how many entries the instances of its class have.
#[derive(Clone, Copy)]
pub struct Chain {
    pub links: u32,
    pub layout: u64,
}

/// The chains of classes, by the numbers of these.
#[derive(Drop)]
pub struct Chains {
    pub numbers: Vec<u32>,
    pub chains: Vec<Chain>,
}

impl Chains {
    /// The chains of the classes among cells.
    pub fn of(alloc: Global, code: &CodeProgram, cells: &Cells) -> Result<Chains, NoMemory>
        requires { Fits code.now }
        ensures { IfOk result (λ chains. spec.AreChains code.now (heap_thawed code.now cells.now) chains) }
    {
        let mut chains = Chains {
            numbers: Vec::new(alloc),
            chains: Vec::new(alloc),
        };
        let mut number: u64 = 0;
        'cells: for place in 0..cells.len() {
            if number > u64::from(u32::MAX) {
                return Ok(chains);
            }
            let cell = cells.at(place);
            chains.add(code, number as u32, &cell)?;
            number += size(&cell);
        }
        Ok(chains)
    }

    /// Adds the chain of a cell that stands behind others, where it is a class.
    fn add(&mut self, code: &CodeProgram, number: u32, cell: &CellData<'_>) -> Result<(), NoMemory>
        requires fits { Fits code.now }
        requires rising { spec.AreRising self.old }
        requires here { spec.HasHeap code.now number self.old }
        ensures { (heap : Heap) → heap_size heap ≡ number → spec.AreChains code.now heap self.old →
            OnOk result (spec.AreChains code.now (cell_thawed code.now heap cell.now ∷ heap) self.new) }
    {
        match cell {
            CellData::Class { decl, over, .. } => {
                let chain = next_chain(code, *decl, *over, self.over(*over));
                self.numbers.push(number)?;
                self.chains.push(chain)?;
                Ok(())
            }
            _ => Ok(()),
        }
    }

    /// The chain of the class of that number.
    #[tactic(auto, using(crate::specs::laws::Linked::chain_there, crate::specs::laws::Linked::chain_absent))]
    pub fn at(&self, class: u32) -> Chain
        requires { spec.AreRising self.now }
        ensures { (code : CodeProgram) (heap : Heap) → spec.AreChains code heap self.now → result ≡ spec.chain_at code heap class }
    {
        match place_of(self.numbers.as_slice(), class) {
            Some(place) => chain_in(self.chains.as_slice(), place),
            None => NO_CHAIN,
        }
    }

    /// The chain of a superclass.
    fn over(&self, over: Value) -> Chain
        requires { spec.AreRising self.now }
        ensures { (code : CodeProgram) (heap : Heap) → spec.AreChains code heap self.now → result ≡ spec.chain_over code heap over }
    {
        match over {
            Value::Ref(class) => self.at(class),
            _ => NO_CHAIN,
        }
    }
}

/// How many classes a chain has at most.
const MOST_LINKS: u32 = 256;

/// That of a cell that is no class.
const NO_CHAIN: Chain = Chain {
    links: 0,
    layout: 0,
};

/// The chain at a place.
pub fn chain_in(chains: &[Chain], place: usize) -> Chain
    ensures { result ≡ unwrap_or (slice_get chains.now place) spec.no_chain }
{
    match chains.get(place) {
        Some(chain) => *chain,
        None => NO_CHAIN,
    }
}

/// The chain of a class by that of its superclass.
fn next_chain(code: &CodeProgram, decl: u32, over: Value, above: Chain) -> Chain
    requires fits { Fits code.now }
    requires few { above.layout ≤ 1152921504606846976 }
    ensures { result ≡ spec.next_chain code.now decl over above }
{
    Chain {
        links: next_links(code, decl, over, above.links),
        layout: entries(code, decl) + above.layout,
    }
}

/// How many links a class has by those of its superclass.
pub fn next_links(code: &CodeProgram, decl: u32, over: Value, links: u32) -> u32
    ensures { result ≡ spec.next_links code.now decl over links }
{
    if code.classes.as_slice().len() <= decl as usize {
        return 0;
    }
    if is_object_class(over) {
        1
    } else {
        more_links(links)
    }
}

/// One more link, at most 256.
fn more_links(links: u32) -> u32
    ensures { result ≡ spec.more_links links }
{
    if links == 0 || MOST_LINKS <= links {
        0
    } else {
        links + 1
    }
}

/// How many entries a declaration adds.
#[tactic(auto, using(crate::specs::laws::Few::class_few))]
fn entries(code: &CodeProgram, decl: u32) -> u64
    requires { Fits code.now }
    ensures entries { result ≡ entries_of code.now decl }
    ensures few { result ≤ 131070 }
{
    match code.classes.as_slice().get(decl as usize) {
        Some(class) => class.slots.as_slice().len() as u64 + class.nested.as_slice().len() as u64,
        None => 0,
    }
}

/// Whether a value is the kernel's class Object.
pub fn is_object_class(value: Value) -> bool
    ensures { result ≡ live.is_object_class value }
{
    matches!(value, Value::Kernel(KClass::Object))
}
