//! The rows of the kernel's classes.

ghost use Rattle.std.specs.Prelude.{◌≡◌, ◌+◌, ◌≤◌, length};
ghost use Rattle.ns_code.specs.Selector.{selector_text};
ghost use Rattle.ns_world.specs.KernelShown.{shown, listed};
ghost use Rattle.ns_world.specs.KernelTable.{row_of};
ghost use Rattle.ns_find.specs.Members.{search};
ghost use Rattle.ns_find.specs.Rows.{kernel_rows, rows_members, row_members, top_rows, facet_asked, is_granted};

use crate::found::{Found, Sending};
use crate::members::allowed;
use ns_base::selector::Sel;
use ns_code::program::CodeProgram;
use ns_world::cell::FacetKind;
use ns_world::kernel_class::KernelRow;
use ns_world::kernel_parts::FacetRow;
use ns_world::kernel_row::Row;
use ns_world::kernel_table::{Line, Rows, rows_of};
use ns_world::world::World;

/// The row of a class of the kernel that a selector names.
pub fn row_named(
    world: &World,
    code: &CodeProgram,
    class: KernelRow,
    sel: Sel,
    kind: Sending,
) -> Option<Found>
    requires { length code.now.classes ≤ 4096 }
    ensures { result ≡ search code.now sel.0 kind (kernel_rows world.now.world.cells code.now class) }
{
    found_among(
        world,
        code,
        rows_of(class),
        code.selector_text(sel),
        sel,
        kind,
    )
}

/// What a selector of that text finds among rows.
fn found_among(
    world: &World,
    code: &CodeProgram,
    rows: Rows,
    text: &[u8],
    sel: Sel,
    kind: Sending,
) -> Option<Found>
    requires classes { length code.now.classes ≤ 4096 }
    requires text { text.now ≡ selector_text code.now sel.0 }
    requires few { rows.first + length rows.lines.now ≤ 81 }
    ensures { result ≡ search code.now sel.0 kind (rows_members world.now.world.cells code.now (listed rows)) }
{
    let mut number = rows.first;
    'lines: for line in rows.lines {
        match found_with(world, code, number, line, text, sel, kind) {
            Some(found) => return Some(found),
            None => number += 1,
        }
    }
    None
}

/// What it finds of the row of a line.
#[inline(always)]
fn found_with(
    world: &World,
    code: &CodeProgram,
    number: u32,
    line: &Line,
    text: &[u8],
    sel: Sel,
    kind: Sending,
) -> Option<Found>
    requires classes { length code.now.classes ≤ 4096 }
    requires text { text.now ≡ selector_text code.now sel.0 }
    ensures { result ≡ search code.now sel.0 kind (row_members world.now.world.cells code.now (row_of number (shown line.now))) }
{
    match line.text {
        Some(spelled) => {
            if text == spelled && is_granted(world, line.row) {
                return Some(allowed(kind, line.access, Found::Kernel(number)));
            }
            None
        }
        None => top_named(world, code, number, sel, kind),
    }
}

/// Whether a row is there: where it answers a facet, this was granted.
#[inline]
fn is_granted(world: &World, row: Row) -> bool
    ensures { result ≡ is_granted world.now.world.cells (facet_asked row) }
{
    match facet_asked(row) {
        Some(kind) => world.granted(kind).is_some(),
        None => true,
    }
}

/// The facet that a row of Platform answers.
#[inline]
fn facet_asked(row: Row) -> Option<FacetKind>
    ensures { result ≡ facet_asked row }
{
    match row {
        Row::Facet(FacetRow::PlatformConsole) => Some(FacetKind::Console),
        Row::Facet(FacetRow::PlatformKernel) => Some(FacetKind::Kernel),
        Row::Facet(FacetRow::PlatformMirrors) => Some(FacetKind::Mirrors),
        Row::Facet(FacetRow::PlatformBoard) => Some(FacetKind::Board),
        _ => None,
    }
}

/// The row of Manifest, whose number is given, for the name of a top-level class that was made.
#[tactic(auto, using(crate::proofs::RowSearch::open_allowed))]
fn top_named(
    world: &World,
    code: &CodeProgram,
    manifest: u32,
    sel: Sel,
    kind: Sending,
) -> Option<Found>
    requires { length code.now.classes ≤ 4096 }
    ensures { result ≡ search code.now sel.0 kind (top_rows world.now.world.cells manifest 0 code.now.classes) }
{
    let mut number: u32 = 0;
    'classes: for class in code.classes.as_slice() {
        if sel.0 == class.name.0 && class.outer.is_none() && world.top(number).is_some() {
            return Some(Found::Kernel(manifest));
        }
        number += 1;
    }
    None
}
