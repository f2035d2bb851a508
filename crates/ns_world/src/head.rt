//! What the first word of a cell tells, and what is known of the cell by it alone.

ghost use Rattle.std.specs.Prelude.{◌≡◌};
ghost use Rattle.ns_world.specs.Head.{is_class_head, declared_at_head, base_at_head, start_at_head};
ghost use Rattle.ns_world.specs.Starts.{kernel_class_row, facet_row};

use crate::cell::FacetKind;
use crate::kernel::Start;
use crate::kernel_class::KernelRow;
use crate::value::KClass;
use ns_base::selector::Sel;

/// The kind and the size of a cell, and the numbers that stand beside them.
#[derive(Clone, Copy)]
pub enum Head {
    Object { class: u32, words: u32 },
    Class { decl: u32, base: u32 },
    Block { body: u32, home: u64 },
    Environment { locals: u32 },
    Array { size: u32 },
    Text { bytes: u32 },
    Facet(FacetKind),
    Mirror,
    Message(Sel),
}

/// Whether a head is that of a class.
pub fn is_class_head(head: Head) -> bool
    ensures { result ≡ is_class_head head }
{
    match head {
        Head::Class { .. } => true,
        _ => false,
    }
}

/// The declaration of a class, 0 where the head is that of another cell.
#[inline(always)]
pub fn declared_at_head(head: Head) -> u32
    ensures { result ≡ declared_at_head head }
{
    match head {
        Head::Class { decl, .. } => decl,
        _ => 0,
    }
}

/// The base of a class, 0 where the head is that of another cell.
#[inline(always)]
pub fn base_at_head(head: Head) -> u32
    ensures { result ≡ base_at_head head }
{
    match head {
        Head::Class { base, .. } => base,
        _ => 0,
    }
}

/// Where the lookup starts for the cell of that number.
#[inline(always)]
pub fn start_at_head(head: Head, at: u32) -> Start
    ensures { result ≡ start_at_head head at }
{
    match head {
        Head::Object { class, .. } => Start::Instance(class),
        Head::Class { .. } => Start::ClassSide {
            class: at,
            factory: true,
        },
        Head::Block { .. } => Start::Kernel(KernelRow::Block),
        Head::Environment { .. } => Start::Kernel(KernelRow::Object),
        Head::Array { .. } => Start::Kernel(KernelRow::Array),
        Head::Text { .. } => Start::Kernel(KernelRow::String),
        Head::Facet(kind) => Start::Kernel(facet_row(kind)),
        Head::Mirror => Start::Kernel(KernelRow::Mirror),
        Head::Message(_) => Start::Kernel(KernelRow::Message),
    }
}

/// The class object of a kernel class.
pub fn kernel_class_row(class: KClass) -> KernelRow
    ensures { result ≡ kernel_class_row class }
{
    match class {
        KClass::Object => KernelRow::ObjectClass,
        KClass::Array => KernelRow::ArrayClass,
    }
}

/// The class of a facet.
fn facet_row(kind: FacetKind) -> KernelRow
    ensures { result ≡ facet_row kind }
{
    match kind {
        FacetKind::Manifest => KernelRow::Manifest,
        FacetKind::Platform => KernelRow::Platform,
        FacetKind::Console => KernelRow::Console,
        FacetKind::Mirrors => KernelRow::Mirrors,
        FacetKind::Kernel => KernelRow::Kernel,
        FacetKind::Board => KernelRow::Board,
    }
}
