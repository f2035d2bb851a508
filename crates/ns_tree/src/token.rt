//! The tokens of a source.

use ns_base::text::Text;

/// A token: what it is, and the bytes of the source at which it stands, from `start` up to `end`.
#[derive(Drop)]
pub struct Token {
    pub kind: Kind,
    pub start: u32,
    pub end: u32,
}

/// What a token is. A key's text holds its colon; the text of a setter key, of a string and of a
/// symbol is without its colons, quotes and `#`.
#[derive(Drop)]
pub enum Kind {
    Ident(Text),
    Word(Reserved),
    Key(Text),
    SetKey(Text),
    Oper(Text),
    Number(u64),
    Str(Text),
    Symbol(Text),
    Open,
    Close,
    OpenBlock,
    CloseBlock,
    OpenTuple,
    CloseTuple,
    Stop,
    Semi,
    Caret,
    Colon,
    SlotSet,
}

/// The words that are no identifiers.
#[derive(Clone, Copy)]
pub enum Reserved {
    Class,
    Public,
    Protected,
    Private,
    SelfWord,
    Super,
    Outer,
    True,
    False,
    Nil,
}
