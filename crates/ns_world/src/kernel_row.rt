//! What answers a row.

use crate::kernel_parts::{DataRow, FacetRow, IntRow, KMethod, MirrorRow};

/// A row of the kernel, by what answers it.
#[derive(Clone, Copy, PartialEq, Eq)]
pub enum Row {
    Data(DataRow),
    Integer(IntRow),
    /// The row of Manifest: the top-level class of the name that was sent.
    Top,
    Facet(FacetRow),
    Mirror(MirrorRow),
    /// A method that evaluates blocks in a frame of its own.
    Method(KMethod),
    /// `<:` of a declared class.
    Apply,
    /// `value`, `value:` and so on.
    Value,
    /// `valueWithArguments:`.
    ValueWithArguments,
    /// `numArgs`.
    NumArgs,
}
