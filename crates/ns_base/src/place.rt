//! Places in source files.

/// A place in a source: the number of its file among those of the program, and a line and a
/// column, both counted from 1. Columns count bytes, and a line ends after its line feed.
#[derive(Clone, Copy)]
pub struct Place {
    pub file: u32,
    pub line: u32,
    pub col: u32,
}
