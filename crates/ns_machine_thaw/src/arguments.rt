//! The array of the arguments, which follows the cells with which each run starts and the texts of the arguments.

ghost use Rattle.std.specs.Prelude.{◌≡◌, ◌+◌, ◌*◌, ◌≤◌, drop, length, unwrap_or};
ghost use Rattle.ns_moves.specs.Start.{facet_if, facets_of, tops_of, standing_cells, size_of_cells};
ghost use Rattle.ns_frozen.specs.Thawing.{heap_thawed, arguments_in};
ghost use Rattle.ns_moves.specs.Valid.{BeginsWith};
ghost use Rattle.ns_world.specs.Heap.{heap_size};
ghost use Rattle.ns_world.specs.declared.cell.FacetKind.{FacetKind};
ghost use Rattle.ns_machine_thaw.specs.Arguments.{data_behind, texts_size};

use ns_code::class::ClassCode;
use ns_code::program::CodeProgram;
use ns_facets::row::Grants;
use ns_frozen::cell::CellData;
use ns_frozen::laws::cells_freeze_back;
use ns_frozen::stored::Cells;

/// The number of the array, 0 where there is none.
#[tactic(auto, using(crate::proofs::Arrays::arguments_are, crate::proofs::Arrays::standing_count, crate::proofs::Arrays::texts_within))]
pub fn arguments_in(code: &CodeProgram, grants: Grants, cells: &Cells) -> u32
    requires begins { BeginsWith (standing_cells code.now grants) (heap_thawed code.now cells.now) }
    requires small { heap_size (heap_thawed code.now cells.now) ≤ 64000000 }
    requires classes { length code.now.classes ≤ 4294967295 }
    ensures { result ≡ arguments_in code.now grants (heap_thawed code.now cells.now) }
{
    cells_freeze_back();
    let facets = facets(grants);
    let tops = tops(code.classes.as_slice());
    array_behind(facets as u64 + 4 * tops as u64, cells, facets + tops)
}

/// How many facets a run starts with.
#[tactic(auto, using(crate::proofs::Arrays::facets_count))]
fn facets(grants: Grants) -> usize
    ensures count { result ≡ length (facets_of grants) }
    ensures few { result ≤ 6 }
{
    2 + one_if(grants.console)
        + one_if(grants.mirrors)
        + one_if(grants.kernel)
        + one_if(grants.board)
}

/// One, where a facet is granted.
fn one_if(granted: bool) -> usize
    ensures count { (kind : FacetKind) → result ≡ length (facet_if granted kind) }
    ensures few { result ≤ 1 }
{
    if granted { 1 } else { 0 }
}

/// How many top-level classes a run starts with.
fn tops(classes: &[ClassCode]) -> usize
    requires { length classes.now ≤ 4294967295 }
    ensures count { result ≡ length (tops_of 0 classes.now) }
    ensures few { result ≤ 4294967295 }
{
    let mut count = 0;
    'classes: for class in classes {
        if class.outer.is_none() {
            count += 1;
        }
    }
    count
}

/// The number of the array behind texts, of the cells from a place on, which begin at that number; 0 where there is none.
fn array_behind(first: u64, cells: &Cells, from: usize) -> u32
    requires { first + texts_size (drop from cells.now) ≤ 4294967295 }
    ensures { result ≡ unwrap_or (data_behind first (drop from cells.now)) 0 }
{
    let mut at = first;
    'texts: for place in from..cells.len() {
        match cells.at(place) {
            CellData::Text(text) => at += 1 + (text.len() as u64 + 7) / 8,
            CellData::Array(_) => return at as u32,
            _ => return 0,
        }
    }
    0
}
