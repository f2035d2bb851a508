//! What can stand at the front of a text.

use ns_tree::token::Kind;

/// What is wrong with a text.
#[derive(Clone, Copy)]
pub enum Cause {
    BadByte,
    UnclosedComment,
    UnclosedString,
    BigNumber,
}

/// A part of a gap of so many bytes, a token of so many bytes, or a fault so many bytes from here.
#[derive(Drop)]
pub enum Piece {
    Gap(usize),
    Token(Kind, usize),
    Fault(Cause, usize),
}
