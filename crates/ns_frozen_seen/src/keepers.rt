//! The words of an object for nested classes, which are those of the classes in its chain. A class without nested ones is
//! passed over, so that no more is looked at than the object has words.

ghost use Rattle.std.specs.Prelude.{◌≡◌, ◌<◌, ◌≤◌, ◌+◌, true, [], get_or, length, slice_get, IfSome, OnOk, Some};
ghost use Rattle.ns_code.specs.Fits.{Fits};
ghost use Rattle.ns_world.specs.Heap as heap;
ghost use Rattle.ns_world.specs.Layout as layout;
ghost use Rattle.ns_frozen.specs.Live.{has_chain};
ghost use Rattle.ns_frozen_seen.specs.Keepers as spec;
ghost use Rattle.ns_frozen_tables.specs.Numbers.{IsPlaceOf};
ghost use Rattle.ns_frozen_seen.specs.Seen.{IsSeen, heap_of};

use crate::climbs::Climb;
use crate::seen::Seen;
use ns_base::no_memory::NoMemory;
use ns_code::class::NestedCode;
use ns_code::program::CodeProgram;
use ns_frozen::plain::PlainValue;
use ns_frozen_tables::numbers::place_of;

/// A class and its declaration, the first word for its nested classes, the place of the next class above it to look at for the
/// words of an object, and the way up its chain.
#[derive(Clone, Copy)]
pub struct Keeper {
    pub holder: u32,
    pub decl: u32,
    pub first: u64,
    pub above: Option<u32>,
    pub climb: Climb,
}

impl Seen<'_> {
    /// Finds what is kept of each class, once.
    pub fn find_keepers(&mut self) -> Result<(), NoMemory>
        requires seen { IsSeen self.old }
        requires none { length self.old.keepers.items ≡ 0 }
        ensures seen { OnOk result (IsSeen self.new) }
        ensures these { OnOk result ((self.new.code ≡ self.old.code) × (self.new.cells ≡ self.old.cells)) }
    {
        let count = self.chains.numbers.len();
        'classes: for place in 0..count {
            let keeper = self.keeper(place);
            self.keepers.push(keeper)?;
        }
        Ok(())
    }

    /// Whether the words for the nested classes of each class in a chain are so, from the class at a place upwards, where there
    /// is one.
    pub fn are_kept_at(&self, number: u128, words: &[PlainValue], from: Option<u32>) -> bool
        requires seen { IsSeen self.now }
        requires chained { spec.IsChained self.now.code.now (heap_of self.now) self.now.chains.numbers.items from }
        ensures { result ≡ spec.are_kept_at self.now.code.now (heap_of self.now) self.now.chains.numbers.items number words.now from }
    {
        let mut at = from;
        'classes: while let Some(place) = at {
            let keeper = self.keeper_at(place);
            let nested = nested_of(self.code, keeper.decl);
            if !self.are_kept_from(number, keeper.holder, words, keeper.first, nested) {
                return false;
            }
            at = keeper.above;
        }
        true
    }

    /// What is kept of the class at a place.
    fn keeper_at(&self, place: u32) -> Keeper
        requires seen { IsSeen self.now }
        requires there { place < length self.now.chains.numbers.items }
        ensures { has_chain self.now.code.now (heap_of self.now) (get_or self.now.chains.numbers.items place 0) ≡ true →
            spec.IsKeeper self.now.code.now (heap_of self.now) self.now.chains.numbers.items place result }
    {
        match kept_at(self.keepers.as_slice(), place) {
            Some(keeper) => keeper,
            None => self.keeper(place as usize),
        }
    }

    /// What is to be kept of it.
    fn keeper(&self, place: usize) -> Keeper
        requires seen { IsSeen self.now }
        requires there { place < length self.now.chains.numbers.items }
        ensures { has_chain self.now.code.now (heap_of self.now) (get_or self.now.chains.numbers.items place 0) ≡ true →
            spec.IsKeeper self.now.code.now (heap_of self.now) self.now.chains.numbers.items place result }
    {
        let holder = number_at(self.chains.numbers.as_slice(), place);
        let decl = self.declaration(holder);
        let over = self.superclass(holder);
        let at = self.over_at(holder, over);
        Keeper {
            holder,
            decl,
            first: self.layout_over(over, at) + slots(self.code, decl),
            above: self.above(at),
            climb: self.climb_over(at),
        }
    }

    /// The place of the superclass of a class, where that was made before it.
    fn over_at(&self, holder: u32, over: u32) -> Option<u32>
        requires seen { IsSeen self.now }
        requires over { over ≡ heap.superclass_of (heap_of self.now) holder }
        ensures placed { IfSome result (λ at. IsPlaceOf self.now.chains.numbers.items over (Some at)) }
        ensures over { has_chain self.now.code.now (heap_of self.now) holder ≡ true → spec.IsOver self.now.chains.numbers.items holder over result }
    {
        if holder <= over {
            return None;
        }
        self.place(over)
    }

    /// How many entries the instances of a superclass have, which may stand at a place.
    fn layout_over(&self, over: u32, at: Option<u32>) -> u64
        requires seen { IsSeen self.now }
        requires placed { IfSome at (λ at. IsPlaceOf self.now.chains.numbers.items over (Some at)) }
        ensures few { result ≤ 562949953421312 }
        ensures layout { result ≡ layout.layout_of (heap_of self.now) self.now.code.now over }
    {
        match at {
            Some(at) => self.layout_at(at),
            None => self.layout(over),
        }
    }

    /// The place of the next class to look at above a class whose superclass stands at a place, if it has one.
    fn above(&self, over: Option<u32>) -> Option<u32>
        requires seen { IsSeen self.now }
        requires there { IfSome over (λ at. at < length self.now.chains.numbers.items) }
        ensures { spec.IsAbove self.now.code.now (heap_of self.now) self.now.chains.numbers.items over result }
    {
        match over {
            Some(at) => self.passing(at),
            None => None,
        }
    }

    /// The place of the first class to look at from the one at a place upwards: one that has nested ones, as far as is known.
    fn passing(&self, place: u32) -> Option<u32>
        requires seen { IsSeen self.now }
        requires there { place < length self.now.chains.numbers.items }
        ensures { has_chain self.now.code.now (heap_of self.now) (get_or self.now.chains.numbers.items place 0) ≡ true →
            spec.IsNext self.now.code.now (heap_of self.now) self.now.chains.numbers.items (place + 1)
            (heap.chain_of (heap_of self.now) (get_or self.now.chains.numbers.items place 0)) result }
    {
        match kept_at(self.keepers.as_slice(), place) {
            Some(keeper) => {
                if has_none(self.code, keeper.decl) {
                    keeper.above
                } else {
                    Some(place)
                }
            }
            None => Some(place),
        }
    }

    /// The place of a class among all.
    #[tactic(auto, using(crate::proofs::Kept::place_few))]
    pub fn place(&self, class: u32) -> Option<u32>
        requires { IsSeen self.now }
        ensures { IsPlaceOf self.now.chains.numbers.items class result }
    {
        match place_of(self.chains.numbers.as_slice(), class) {
            Some(place) => Some(place as u32),
            None => None,
        }
    }
}

/// What is kept at a place.
pub fn kept_at(keepers: &[Keeper], place: u32) -> Option<Keeper>
    ensures { result ≡ slice_get keepers.now place }
{
    keepers.get(place as usize).copied()
}

/// The number at a place.
pub fn number_at(numbers: &[u32], place: usize) -> u32
    ensures number { result ≡ get_or numbers.now place 0 }
    ensures fits { result ≤ 4294967295 }
{
    match numbers.get(place) {
        Some(number) => *number,
        None => 0,
    }
}

/// The nested classes of a declaration, none where there is no such.
fn nested_of(code: &CodeProgram, decl: u32) -> &[NestedCode]
    ensures { result.now ≡ spec.nested_of code.now decl }
{
    match code.classes.as_slice().get(decl as usize) {
        Some(class) => class.nested.as_slice(),
        None => &[],
    }
}

/// Whether it has none.
fn has_none(code: &CodeProgram, decl: u32) -> bool
    ensures { result ≡ true → spec.nested_of code.now decl ≡ [] }
{
    match nested_of(code, decl) {
        [] => true,
        [_, ..] => false,
    }
}

/// How many slots it has.
#[tactic(auto, using(ns_frozen_tables::specs::laws::Few::class_few))]
fn slots(code: &CodeProgram, decl: u32) -> u64
    requires { Fits code.now }
    ensures slots { result ≡ spec.slots_of code.now decl }
    ensures few { result ≤ 65535 }
{
    match code.classes.as_slice().get(decl as usize) {
        Some(class) => class.slots.as_slice().len() as u64,
        None => 0,
    }
}
