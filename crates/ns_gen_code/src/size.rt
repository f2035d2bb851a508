//! What of a program can be too large.

/// The names of a program, its bodies, the instructions of a body, or the operands of a body at one
/// time.
#[derive(Clone, Copy)]
pub enum SizeKind {
    Names,
    Bodies,
    Code,
    Height,
}
