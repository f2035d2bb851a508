//! What answers rows, part by part: each enum is answered by the crate that its comment names.

use ns_base::selector::Sel;

/// The rows of Integer that compute with numbers alone: `ns_kint`.
#[derive(Clone, Copy, PartialEq, Eq)]
pub enum IntRow {
    Add,
    Subtract,
    Multiply,
    Quotient,
    Remainder,
    Less,
    LessEqual,
    Greater,
    GreaterEqual,
    Equal,
    BitAnd,
    BitOr,
    BitXor,
    Negated,
}

/// The rows of values, booleans, texts, symbols, arrays and messages: `ns_kdata`.
#[derive(Clone, Copy, PartialEq, Eq)]
pub enum DataRow {
    Identical,
    Equal,
    IsNil,
    NotNil,
    KernelObject,
    DoesNotUnderstand,
    NewObject,
    NewArray,
    NilPrint,
    Not,
    BooleanPrint,
    And,
    Or,
    IntegerPrint,
    TextSize,
    TextAt,
    TextCopy,
    TextJoin,
    TextEqual,
    TextLess,
    TextPrint,
    SymbolSize,
    SymbolText,
    SymbolPrint,
    SymbolLess,
    ArraySize,
    ArrayAt,
    ArrayPut,
    MessageSelector,
    MessageArguments,
}

/// The methods that evaluate blocks in a frame of their own: `ns_kcode`.
#[derive(Clone, Copy, PartialEq, Eq)]
pub enum KMethod {
    And,
    Or,
    IfTrue,
    IfFalse,
    IfTrueIfFalse,
    IfFalseIfTrue,
    WhileTrue,
    WhileFalse,
    ToDo,
    TimesRepeat,
    Do,
}

/// The rows of the facets: `ns_facets`. That of Manifest carries the selector that was sent.
#[derive(Clone, Copy, PartialEq, Eq)]
pub enum FacetRow {
    Top(Sel),
    PlatformConsole,
    PlatformKernel,
    PlatformMirrors,
    PlatformBoard,
    KernelObject,
    KernelArray,
    ConsolePrint,
    ConsolePrintLine,
    BoardAt,
    BoardPut,
}

/// The rows of Mirrors and of Mirror: `ns_mirror`.
#[derive(Clone, Copy, PartialEq, Eq)]
pub enum MirrorRow {
    On,
    ClassName,
    SlotNames,
    Slot,
    SlotPut,
    Selectors,
    Enclosing,
    Perform,
}
