//! What is kept beside a world, in 1,536 places: 1,024 for lookups with their answers, and 512 for ways out.

ghost use Rattle.std.specs.Prelude.{◌≡◌, ◌<◌, All, Some, IsTrue, IfOk, IfSome, slice_set};
ghost use Rattle.ns_world.specs.Lawful.{IsLawful};
ghost use Rattle.ns_find.specs.Find.{found_from, is_start};
ghost use Rattle.ns_find.specs.Memo.{IsEmpty, PlaceIsRight, LookupIsKept, WayIsKept};
ghost use Rattle.ns_find.specs.declared.memo.Kept.TheVariants.{Looked};

use crate::find::find;
use crate::found::{Found, Sending};
use ns_base::no_memory::NoMemory;
use ns_base::selector::Sel;
use ns_code::program::CodeProgram;
use ns_world::kernel::Start;
use ns_world::kernel_class::KernelRow;
use ns_world::world::World;
use std::alloc::Global;
use std::marker::Model;

/// How many places there are.
const PLACES: usize = 1536;

/// Two odd numbers: the highest ten bits of a product with one hang on all bits of the other factor.
const STARTED: u32 = 2_246_822_507;

const SENT: u32 = 2_654_435_769;

/// A lookup and its answer.
#[derive(Clone, Copy)]
pub struct Lookup {
    pub start: Start,
    pub sel: Sel,
    pub kind: Sending,
    pub found: Found,
}

/// A way out: the class or the environment from which it leads, over how many of what stands around one another, and
/// the one at its end.
#[derive(Clone, Copy)]
pub struct Way {
    pub from: u32,
    pub levels: u8,
    pub to: u32,
}

/// What a place keeps.
#[derive(Clone, Copy)]
pub enum Kept {
    Looked(Lookup),
    Out(Way),
}

/// Lookups that were made, and ways that were gone. A clause sees the list of its places.
#[derive(Drop)]
pub struct Memo {
    places: Vec<Option<Kept>>,
}

impl Model for Memo {
    ghost use Rattle.std.specs.Prelude.{◌≡◌, List, Option, length};
    ghost use Rattle.ns_find.specs.declared.memo.Kept.{Kept};

    ghost Value = { List (Option Kept) };

    ghost view = { λ m. m.places.items };

    ghost invariant = { λ m. length m.places.items ≡ 1536 };
}

impl Memo {
    /// A memo that keeps nothing.
    pub fn new(alloc: Global) -> Result<Memo, NoMemory>
        ensures { IfOk result (λ m. All IsEmpty m) }
    {
        let mut places = Vec::with_capacity(alloc, PLACES)?;
        'places: for _ in 0..PLACES {
            places.push(None)?;
        }
        Ok(Memo { places })
    }

    /// Forgets what it keeps.
    pub fn clear(&mut self)
        ensures { All IsEmpty self.new }
    {
        'places: for place in 0..PLACES {
            self.places[place] = None;
        }
    }

    /// The answer that is kept at a place for a lookup, if it is this lookup that is kept there.
    #[inline(always)]
    fn kept(&self, place: usize, start: Start, sel: Sel, kind: Sending) -> Option<Found>
        requires { place < 1536 }
        ensures { IfSome result (λ found. LookupIsKept self.now (record { start = start; sel = sel; kind = kind; found = found })) }
    {
        match self.places[place] {
            Some(Kept::Looked(kept)) => answer_of(kept, start, sel, kind),
            Some(Kept::Out(_)) => None,
            None => None,
        }
    }

    /// The end of a way that is kept at a place, if it is this way that is kept there.
    #[inline(always)]
    pub fn kept_way(&self, place: usize, from: u32, levels: u8) -> Option<u32>
        requires { place < 1536 }
        ensures { IfSome result (λ to. WayIsKept self.now (record { from = from; levels = levels; to = to })) }
    {
        match self.places[place] {
            Some(Kept::Looked(_)) => None,
            Some(Kept::Out(way)) => end_of(way, from, levels),
            None => None,
        }
    }

    /// Whether a place keeps nothing.
    fn is_free(&self, place: usize) -> bool
        requires { place < 1536 }
    {
        self.places[place].is_none()
    }

    /// Keeps something at a place.
    pub fn keep(&mut self, place: usize, kept: Kept)
        requires { place < 1536 }
        ensures { self.new ≡ slice_set self.old place (Some kept) }
    {
        self.places[place] = Some(kept);
    }
}

/// What `find` answers, from the place of this lookup where it is kept there or at one that belongs to it; else it is made and
/// kept. Takes no memory.
#[inline(always)]
pub fn find_kept(
    world: &World,
    code: &CodeProgram,
    memo: &mut Memo,
    start: Start,
    sel: Sel,
    kind: Sending,
) -> Found
    requires lawful { IsLawful world.now.world code.now }
    requires start { IsTrue (is_start world.now.world.cells start) }
    requires kept { All (PlaceIsRight world.now.world.cells code.now) memo.old }
    ensures found { result ≡ found_from world.now.world.cells code.now start sel.0 kind }
    ensures keeps { All (PlaceIsRight world.now.world.cells code.now) memo.new }
{
    let place = place_of(start, sel, kind);
    match memo.kept(place, start, sel, kind) {
        Some(found) => found,
        None => find_apart(world, code, memo, start, sel, kind, place),
    }
}

/// The same of a lookup that isn't kept at its place. Its start and its answer are told anew, case by case, so that neither stands in
/// memory on the way of a lookup that is kept.
#[inline(always)]
fn find_apart(
    world: &World,
    code: &CodeProgram,
    memo: &mut Memo,
    start: Start,
    sel: Sel,
    kind: Sending,
    place: usize,
) -> Found
    requires place { place < 1024 }
    requires lawful { IsLawful world.now.world code.now }
    requires start { IsTrue (is_start world.now.world.cells start) }
    requires kept { All (PlaceIsRight world.now.world.cells code.now) memo.old }
    ensures found { result ≡ found_from world.now.world.cells code.now start sel.0 kind }
    ensures keeps { All (PlaceIsRight world.now.world.cells code.now) memo.new }
{
    let found = find_beside(world, code, memo, start_anew(start), sel, kind, place);
    found_anew(found)
}

/// The same start.
#[inline(always)]
fn start_anew(start: Start) -> Start
    ensures { result ≡ start }
{
    match start {
        Start::Instance(class) => Start::Instance(class),
        Start::ClassSide { class, factory } => Start::ClassSide { class, factory },
        Start::Kernel(row) => Start::Kernel(row),
    }
}

/// The same answer.
#[inline(always)]
fn found_anew(found: Found) -> Found
    ensures { result ≡ found }
{
    match found {
        Found::Method { body, holder } => Found::Method { body, holder },
        Found::Getter { holder, word } => Found::Getter { holder, word },
        Found::Setter { holder, word } => Found::Setter { holder, word },
        Found::Nested { class, holder } => Found::Nested { class, holder },
        Found::Factory { class } => Found::Factory { class },
        Found::Kernel(number) => Found::Kernel(number),
        Found::NotPublic => Found::NotPublic,
        Found::Absent => Found::Absent,
    }
}

/// The same of a lookup that isn't kept at its place, where another may be: it is kept beside it then, or at the two places opposite.
/// So four lookups that are made by turns, and have one place, don't drive each other out.
#[inline(never)]
fn find_beside(
    world: &World,
    code: &CodeProgram,
    memo: &mut Memo,
    start: Start,
    sel: Sel,
    kind: Sending,
    place: usize,
) -> Found
    requires place { place < 1024 }
    requires lawful { IsLawful world.now.world code.now }
    requires start { IsTrue (is_start world.now.world.cells start) }
    requires kept { All (PlaceIsRight world.now.world.cells code.now) memo.old }
    ensures found { result ≡ found_from world.now.world.cells code.now start sel.0 kind }
    ensures keeps { All (PlaceIsRight world.now.world.cells code.now) memo.new }
{
    match memo.kept(beside(place), start, sel, kind) {
        Some(found) => found,
        None => find_opposite(world, code, memo, start, sel, kind, place),
    }
}

/// The same of a lookup that isn't kept beside its place either.
fn find_opposite(
    world: &World,
    code: &CodeProgram,
    memo: &mut Memo,
    start: Start,
    sel: Sel,
    kind: Sending,
    place: usize,
) -> Found
    requires place { place < 1024 }
    requires lawful { IsLawful world.now.world code.now }
    requires start { IsTrue (is_start world.now.world.cells start) }
    requires kept { All (PlaceIsRight world.now.world.cells code.now) memo.old }
    ensures found { result ≡ found_from world.now.world.cells code.now start sel.0 kind }
    ensures keeps { All (PlaceIsRight world.now.world.cells code.now) memo.new }
{
    match memo.kept(opposite(place), start, sel, kind) {
        Some(found) => found,
        None => match memo.kept(beside(opposite(place)), start, sel, kind) {
            Some(found) => found,
            None => {
                let free = free_place(memo, place);
                find_anew(world, code, memo, start, sel, kind, free)
            }
        },
    }
}

/// The same of a lookup that isn't kept: it is made, and kept at that place.
fn find_anew(
    world: &World,
    code: &CodeProgram,
    memo: &mut Memo,
    start: Start,
    sel: Sel,
    kind: Sending,
    place: usize,
) -> Found
    requires place { place < 1024 }
    requires lawful { IsLawful world.now.world code.now }
    requires start { IsTrue (is_start world.now.world.cells start) }
    requires kept { All (PlaceIsRight world.now.world.cells code.now) memo.old }
    ensures found { result ≡ found_from world.now.world.cells code.now start sel.0 kind }
    ensures keeps { All (PlaceIsRight world.now.world.cells code.now) memo.new }
{
    let found = find(world, code, start, sel, kind);
    memo.keep(
        place,
        Kept::Looked(Lookup {
            start,
            sel,
            kind,
            found,
        }),
    );
    found
}

/// Where a lookup of that place is to be kept: there, or at the first of the three others that keeps nothing, or at the last of them.
fn free_place(memo: &Memo, place: usize) -> usize
    requires { place < 1024 }
    ensures { result < 1024 }
{
    if memo.is_free(place) {
        return place;
    }
    if memo.is_free(beside(place)) {
        return beside(place);
    }
    if memo.is_free(opposite(place)) {
        return opposite(place);
    }
    beside(opposite(place))
}

/// The place beside one: each two are beside each other.
#[inline(always)]
fn beside(place: usize) -> usize
    requires { place < 1024 }
    ensures { result < 1024 }
{
    if place % 2 == 0 { place + 1 } else { place - 1 }
}

/// The place two further or two before, so that with those beside each of them each four belong together.
#[inline(always)]
fn opposite(place: usize) -> usize
    requires { place < 1024 }
    ensures { result < 1024 }
{
    if place % 4 < 2 { place + 2 } else { place - 2 }
}

/// The answer of a lookup that is kept, if it is this lookup.
#[inline(always)]
fn answer_of(kept: Lookup, start: Start, sel: Sel, kind: Sending) -> Option<Found>
    ensures { IfSome result (λ found. kept ≡ record { start = start; sel = sel; kind = kind; found = found }) }
{
    if kept.start == start && kept.sel.0 == sel.0 && kept.kind == kind {
        return Some(kept.found);
    }
    None
}

/// The end of a way that is kept, if it is this way.
#[inline(always)]
fn end_of(kept: Way, from: u32, levels: u8) -> Option<u32>
    ensures { IfSome result (λ to. kept ≡ record { from = from; levels = levels; to = to }) }
{
    if kept.from == from && kept.levels == levels {
        return Some(kept.to);
    }
    None
}

/// The place of a lookup, by its start, its selector and its kind.
#[inline(always)]
fn place_of(start: Start, sel: Sel, kind: Sending) -> usize
    ensures { result < 1024 }
{
    let sent = sel.0.wrapping_add(kind_key(kind)).wrapping_mul(SENT);
    ((start_key(start).wrapping_mul(STARTED) ^ sent) >> 22) as usize
}

#[inline(always)]
fn kind_key(kind: Sending) -> u32 {
    match kind {
        Sending::Plain => 0,
        Sending::Inner => 65_536,
    }
}

#[inline(always)]
fn start_key(start: Start) -> u32 {
    match start {
        Start::Instance(class) => class,
        Start::ClassSide { class, .. } => class.wrapping_add(1),
        Start::Kernel(row) => row_key(row),
    }
}

#[inline(always)]
fn row_key(row: KernelRow) -> u32 {
    match row {
        KernelRow::Object => 2,
        KernelRow::ObjectClass => 5,
        KernelRow::ArrayClass => 9,
        KernelRow::Class => 14,
        KernelRow::UndefinedObject => 20,
        KernelRow::Boolean => 27,
        KernelRow::Integer => 35,
        KernelRow::String => 44,
        KernelRow::Symbol => 54,
        KernelRow::Array => 65,
        KernelRow::Block => 77,
        KernelRow::Manifest => 90,
        KernelRow::Platform => 104,
        KernelRow::Kernel => 119,
        KernelRow::Console => 135,
        KernelRow::Board => 152,
        KernelRow::Mirrors => 170,
        KernelRow::Mirror => 189,
        KernelRow::Message => 209,
    }
}
