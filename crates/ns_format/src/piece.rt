//! What a source consists of.

use ns_base::text::Text;
use ns_tree::token::Kind;

/// What stands in a source between a piece and the one before it.
#[derive(Clone, Copy)]
pub enum Gap {
    /// No piece stands before.
    First,
    /// Nothing: both are tokens, and they touch.
    Nothing,
    /// No line feed: something else, or nothing beside a comment.
    Blanks,
    /// One line feed.
    Line,
    /// More line feeds than one.
    Lines,
}

/// What a piece is.
#[derive(Drop)]
pub enum Mark {
    Token(Kind),
    Comment,
}

/// A token or a comment, byte for byte, with what stands before it.
#[derive(Drop)]
pub struct Piece {
    pub gap: Gap,
    pub mark: Mark,
    pub text: Text,
}

/// What a piece is to the leads of lines.
#[derive(Clone, Copy)]
pub enum Role {
    Comment,
    /// The opening bracket `(`.
    Open,
    /// Another opening bracket.
    OtherOpen,
    /// The closing bracket `)`.
    Close,
    /// Another closing bracket.
    OtherClose,
    Colon,
    /// The operator `|`.
    Bar,
    /// Any other token.
    Other,
}
