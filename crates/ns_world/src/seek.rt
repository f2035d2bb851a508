//! What is looked for from the first cell on: a facet, or a class of a top-level declaration.

ghost use Rattle.std.specs.Prelude.{◌≡◌};
ghost use Rattle.ns_world.specs.Seek.{facet_number, is_sought_at, is_facet_at, is_top_at, is_nil_at};

use crate::cell::FacetKind;
use crate::word::Word;

/// A facet of a kind, or a class of a declaration that has nil as its enclosing object.
#[derive(Clone, Copy)]
pub enum Sought {
    Facet(FacetKind),
    Top(u32),
}

/// The place of a kind of facet in the order of their declaration.
fn facet_number(kind: FacetKind) -> u8
    ensures { result ≡ facet_number kind }
{
    match kind {
        FacetKind::Manifest => 0,
        FacetKind::Platform => 1,
        FacetKind::Console => 2,
        FacetKind::Mirrors => 3,
        FacetKind::Kernel => 4,
        FacetKind::Board => 5,
    }
}

/// Whether a head, with the word behind it, is that of a cell that is sought.
pub fn is_sought_at(sought: Sought, head: Word, next: Word) -> bool
    ensures { result ≡ is_sought_at sought head next }
{
    match sought {
        Sought::Facet(kind) => is_facet_at(kind, head),
        Sought::Top(decl) => is_top_at(decl, head, next),
    }
}

fn is_facet_at(kind: FacetKind, head: Word) -> bool
    ensures { result ≡ is_facet_at kind head }
{
    match head {
        Word::Facet(other) => facet_number(kind) == facet_number(other),
        _ => false,
    }
}

fn is_top_at(decl: u32, head: Word, next: Word) -> bool
    ensures { result ≡ is_top_at decl head next }
{
    match head {
        Word::Class { decl: other, .. } => decl == other && is_nil_at(next),
        _ => false,
    }
}

fn is_nil_at(word: Word) -> bool
    ensures { result ≡ is_nil_at word }
{
    match word {
        Word::Nil => true,
        _ => false,
    }
}
