//! The cells of the start, which stand first.

ghost use Rattle.std.specs.Prelude.{◌≡◌, ◌≤◌, ◌++◌, map, [], IfOk, OnOk};
ghost use Rattle.ns_code.specs.declared.program.CodeProgram.{CodeProgram};
ghost use Rattle.ns_code.specs.Fits.{Fits};
ghost use Rattle.ns_moves.specs.Start.{facet_if, top_if, facets_of, standing_cells};
ghost use Rattle.ns_world.specs.Cell.{cell_size};
ghost use Rattle.ns_world.specs.Seek.{facet_number};
ghost use Rattle.ns_frozen.specs.Cells as spec;
ghost use Rattle.ns_frozen.specs.Thawing.{cell_thawed};
ghost use Rattle.ns_moves.specs.Valid.{fitting, is_no_facet};
ghost use Rattle.ns_frozen_valid.specs.First as own;

use ns_base::no_memory::NoMemory;
use ns_code::program::CodeProgram;
use ns_facets::row::Grants;
use ns_frozen::cell::CellData;
use ns_frozen::frozen::Frozen;
use ns_frozen_seen::plain::is_nil;
use ns_frozen_tables::chain::is_object_class;
use ns_world::cell::FacetKind;
use ns_world::ending::{Ending, LimitKind};
use std::alloc::Global;

/// A cell of the start: a facet, or the class of a top-level declaration.
#[derive(Clone, Copy)]
pub enum First {
    Facet(FacetKind),
    Top(u32),
}

/// The cells of the start, as many as the limit on cells holds where the start has ended the run.
pub fn first_cells(
    alloc: Global,
    code: &CodeProgram,
    frozen: &Frozen,
) -> Result<Vec<First>, NoMemory>
    requires { Fits code.now }
    ensures { IfOk result (λ first. map own.first_shown first.items ≡ spec.first_cells code.now frozen.now) }
{
    let standing = standing(alloc, code, frozen.grants)?;
    if ends_start(frozen.phase, frozen.ending) {
        return fitting(alloc, frozen.limits.cells, standing.as_slice());
    }
    Ok(standing)
}

/// Whether the start of a run has ended it.
pub fn ends_start(phase: u8, ending: Option<Ending>) -> bool
    ensures { result ≡ spec.ends_start phase ending }
{
    match ending {
        Some(Ending::Limit(LimitKind::Cells)) => phase == 0,
        _ => false,
    }
}

/// Whether the texts of the arguments and their array must follow them.
pub fn wants_arguments(phase: u8, ending: Option<Ending>) -> bool
    ensures { result ≡ spec.wants_arguments phase ending }
{
    match ending {
        Some(_) => false,
        None => phase < 2,
    }
}

/// The facets and the top-level classes, which each run of some code has.
fn standing(alloc: Global, code: &CodeProgram, grants: Grants) -> Result<Vec<First>, NoMemory>
    requires { Fits code.now }
    ensures { IfOk result (λ first. map own.first_shown first.items ≡ standing_cells code.now grants) }
{
    let mut first = facets(alloc, grants)?;
    let mut decl: u32 = 0;
    'classes: for class in code.classes.as_slice() {
        add_top(&mut first, class.outer, decl)?;
        decl += 1;
    }
    Ok(first)
}

/// Manifest and Platform, and the facets that are granted.
fn facets(alloc: Global, grants: Grants) -> Result<Vec<First>, NoMemory>
    ensures { IfOk result (λ first. map own.first_shown first.items ≡ facets_of grants) }
{
    let mut first = Vec::with_capacity(alloc, 6)?;
    first.push(First::Facet(FacetKind::Manifest))?;
    first.push(First::Facet(FacetKind::Platform))?;
    add_if(&mut first, grants.console, FacetKind::Console)?;
    add_if(&mut first, grants.mirrors, FacetKind::Mirrors)?;
    add_if(&mut first, grants.kernel, FacetKind::Kernel)?;
    add_if(&mut first, grants.board, FacetKind::Board)?;
    Ok(first)
}

/// Adds a facet, where it is granted.
fn add_if(first: &mut Vec<First>, granted: bool, kind: FacetKind) -> Result<(), NoMemory>
    ensures { OnOk result (map own.first_shown first.new.items ≡ map own.first_shown first.old.items ++ facet_if granted kind) }
{
    if granted {
        first.push(First::Facet(kind))?;
        return Ok(());
    }
    Ok(())
}

/// Adds the class of a declaration, where that is a top-level one.
fn add_top(first: &mut Vec<First>, outer: Option<u32>, decl: u32) -> Result<(), NoMemory>
    ensures { OnOk result (map own.first_shown first.new.items ≡ map own.first_shown first.old.items ++ top_if outer decl) }
{
    match outer {
        None => {
            first.push(First::Top(decl))?;
            Ok(())
        }
        Some(_) => Ok(()),
    }
}

/// Those of some cells that fit in so many, up to the first that doesn't.
fn fitting(alloc: Global, room: u64, cells: &[First]) -> Result<Vec<First>, NoMemory>
    ensures { IfOk result (λ first. map own.first_shown first.items ≡ fitting room 0 (map own.first_shown cells.now)) }
{
    let mut first = Vec::new(alloc);
    let mut used: u64 = 0;
    'cells: for cell in cells {
        used += size(*cell);
        if room < used {
            return Ok(first);
        }
        first.push(*cell)?;
    }
    Ok(first)
}

/// What a cell of the start costs.
fn size(cell: First) -> u64
    ensures size { result ≡ cell_size (own.first_shown cell) }
    ensures few { result ≤ 4 }
{
    match cell {
        First::Facet(_) => 1,
        First::Top(_) => 4,
    }
}

/// Whether a cell stands where cells of the start are to come, or texts and then an array, or any cell but a facet.
pub fn stands_first(first: &[First], arguments: bool, cell: &CellData<'_>) -> bool
    ensures { (code : CodeProgram) → result ≡ spec.stands_first (map own.first_shown first.now) arguments (cell_thawed code [] cell.now) }
{
    match first {
        [first, ..] => is_standing(*first, cell),
        [] => {
            if arguments {
                is_argument(cell)
            } else {
                is_no_facet(cell)
            }
        }
    }
}

/// Whether a cell is one of the start: that facet, or the class of that top-level declaration over the kernel's class Object.
fn is_standing(first: First, cell: &CellData<'_>) -> bool
    ensures { (code : CodeProgram) → result ≡ spec.is_standing (own.first_shown first) (cell_thawed code [] cell.now) }
{
    match (first, cell) {
        (First::Facet(kind), CellData::Facet(other)) => facet_number(kind) == facet_number(*other),
        (
            First::Top(decl),
            CellData::Class {
                decl: other,
                encl,
                holder,
                over,
            },
        ) => decl == *other && is_nil(*encl) && is_nil(*holder) && is_object_class(*over),
        _ => false,
    }
}

/// The place of a kind of facet in the order of their declaration.
fn facet_number(kind: FacetKind) -> u8
    ensures { result ≡ facet_number kind }
{
    match kind {
        FacetKind::Manifest => 0,
        FacetKind::Platform => 1,
        FacetKind::Console => 2,
        FacetKind::Mirrors => 3,
        FacetKind::Kernel => 4,
        FacetKind::Board => 5,
    }
}

/// Whether a cell is a text or an array.
fn is_argument(cell: &CellData<'_>) -> bool
    ensures { (code : CodeProgram) → result ≡ spec.is_argument (cell_thawed code [] cell.now) }
{
    match cell {
        CellData::Text(_) => true,
        CellData::Array(_) => true,
        _ => false,
    }
}

/// Whether a cell is no facet.
fn is_no_facet(cell: &CellData<'_>) -> bool
    ensures { (code : CodeProgram) → result ≡ is_no_facet (cell_thawed code [] cell.now) }
{
    match cell {
        CellData::Facet(_) => false,
        _ => true,
    }
}

/// The cells of the start that are to come behind one.
pub fn behind_first(first: &[First]) -> &[First]
    ensures { map own.first_shown result.now ≡ spec.behind_first (map own.first_shown first.now) }
{
    match first {
        [_, more @ ..] => more,
        [] => first,
    }
}

/// Whether texts and an array are to come behind a cell.
pub fn arguments_behind(first: &[First], arguments: bool, cell: &CellData<'_>) -> bool
    ensures { (code : CodeProgram) → result ≡ spec.arguments_behind (map own.first_shown first.now) arguments (cell_thawed code [] cell.now) }
{
    match (first, cell) {
        ([], CellData::Array(_)) => false,
        _ => arguments,
    }
}

/// Whether some cell is still to come.
pub fn is_awaited(first: &[First], arguments: bool) -> bool
    ensures { result ≡ spec.is_awaited (map own.first_shown first.now) arguments }
{
    match first {
        [] => arguments,
        [_, ..] => true,
    }
}
