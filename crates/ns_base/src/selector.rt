//! Selectors by number.

/// The number of a name in a table of names, in the order of first use.
#[derive(Clone, Copy, PartialEq, Eq)]
pub struct Sel(pub u32);
