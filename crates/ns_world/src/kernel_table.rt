//! The kernel's table, and what is looked up in it.

ghost use Rattle.std.specs.Prelude.{◌≡◌, ◌+◌, ◌≤◌, length, map};
ghost use Rattle.ns_world.specs.KernelTable.{all_lines, row_at, rows_of, rows_between, row_called, calls};
ghost use Rattle.ns_world.specs.KernelShown.{shown, listed};

use crate::kernel_class::KernelRow;
use crate::kernel_parts::{DataRow, FacetRow, IntRow, KMethod, MirrorRow};
use crate::kernel_row::Row;

/// A row: the text that calls it, its access by number, and what answers it. A row without a text
/// is called by the names of the top-level classes.
pub struct Line {
    pub text: Option<&'static [u8]>,
    pub access: u8,
    pub row: Row,
}

/// Rows that stand together in the table: the number of the first, and their lines.
#[derive(Clone, Copy)]
pub struct Rows {
    pub first: u32,
    pub lines: &'static [Line],
}

/// One line: `public` or `protected` with a text, or `named` without one, and what answers the row.
macro_rules! line {
    (public $text:literal => $row:expr) => {
        Line { text: Some($text), access: 0, row: $row }
    };
    (protected $text:literal => $row:expr) => {
        Line { text: Some($text), access: 1, row: $row }
    };
    (named => $row:expr) => {
        Line { text: None, access: 0, row: $row }
    };
}

macro_rules! lines {
    ($($access:ident $($text:literal)? => $row:expr;)*) => {
        [$(line!($access $($text)? => $row)),*]
    };
}

/// The table, class by class. A row's number is its place, counted from 0.
static TABLE: [Line; 81] = lines! {
    // Object
    public b"==" => Row::Data(DataRow::Identical);
    public b"=" => Row::Data(DataRow::Equal);
    public b"isNil" => Row::Data(DataRow::IsNil);
    public b"notNil" => Row::Data(DataRow::NotNil);
    protected b"Object" => Row::Data(DataRow::KernelObject);
    protected b"doesNotUnderstand:" => Row::Data(DataRow::DoesNotUnderstand);
    // ObjectClass
    public b"new" => Row::Data(DataRow::NewObject);
    // ArrayClass
    public b"new:" => Row::Data(DataRow::NewArray);
    // Class
    public b"<:" => Row::Apply;
    // UndefinedObject
    public b"printString" => Row::Data(DataRow::NilPrint);
    // Boolean
    public b"not" => Row::Data(DataRow::Not);
    public b"printString" => Row::Data(DataRow::BooleanPrint);
    public b"&" => Row::Data(DataRow::And);
    public b"|" => Row::Data(DataRow::Or);
    public b"and:" => Row::Method(KMethod::And);
    public b"or:" => Row::Method(KMethod::Or);
    public b"ifTrue:" => Row::Method(KMethod::IfTrue);
    public b"ifFalse:" => Row::Method(KMethod::IfFalse);
    public b"ifTrue:ifFalse:" => Row::Method(KMethod::IfTrueIfFalse);
    public b"ifFalse:ifTrue:" => Row::Method(KMethod::IfFalseIfTrue);
    // Integer
    public b"+" => Row::Integer(IntRow::Add);
    public b"-" => Row::Integer(IntRow::Subtract);
    public b"*" => Row::Integer(IntRow::Multiply);
    public b"//" => Row::Integer(IntRow::Quotient);
    public b"\\\\" => Row::Integer(IntRow::Remainder);
    public b"<" => Row::Integer(IntRow::Less);
    public b"<=" => Row::Integer(IntRow::LessEqual);
    public b">" => Row::Integer(IntRow::Greater);
    public b">=" => Row::Integer(IntRow::GreaterEqual);
    public b"=" => Row::Integer(IntRow::Equal);
    public b"bitAnd:" => Row::Integer(IntRow::BitAnd);
    public b"bitOr:" => Row::Integer(IntRow::BitOr);
    public b"bitXor:" => Row::Integer(IntRow::BitXor);
    public b"negated" => Row::Integer(IntRow::Negated);
    public b"printString" => Row::Data(DataRow::IntegerPrint);
    public b"to:do:" => Row::Method(KMethod::ToDo);
    public b"timesRepeat:" => Row::Method(KMethod::TimesRepeat);
    // String
    public b"size" => Row::Data(DataRow::TextSize);
    public b"at:" => Row::Data(DataRow::TextAt);
    public b"copyFrom:to:" => Row::Data(DataRow::TextCopy);
    public b"," => Row::Data(DataRow::TextJoin);
    public b"=" => Row::Data(DataRow::TextEqual);
    public b"<" => Row::Data(DataRow::TextLess);
    public b"printString" => Row::Data(DataRow::TextPrint);
    // Symbol
    public b"size" => Row::Data(DataRow::SymbolSize);
    public b"asString" => Row::Data(DataRow::SymbolText);
    public b"printString" => Row::Data(DataRow::SymbolPrint);
    public b"<" => Row::Data(DataRow::SymbolLess);
    // Array
    public b"size" => Row::Data(DataRow::ArraySize);
    public b"at:" => Row::Data(DataRow::ArrayAt);
    public b"at:put:" => Row::Data(DataRow::ArrayPut);
    public b"do:" => Row::Method(KMethod::Do);
    // Block
    public b"value" => Row::Value;
    public b"value:" => Row::Value;
    public b"value:value:" => Row::Value;
    public b"value:value:value:" => Row::Value;
    public b"valueWithArguments:" => Row::ValueWithArguments;
    public b"numArgs" => Row::NumArgs;
    public b"whileTrue:" => Row::Method(KMethod::WhileTrue);
    public b"whileFalse:" => Row::Method(KMethod::WhileFalse);
    // Manifest
    named => Row::Top;
    // Platform
    public b"console" => Row::Facet(FacetRow::PlatformConsole);
    public b"kernel" => Row::Facet(FacetRow::PlatformKernel);
    public b"mirrors" => Row::Facet(FacetRow::PlatformMirrors);
    public b"board" => Row::Facet(FacetRow::PlatformBoard);
    // Kernel
    public b"Object" => Row::Facet(FacetRow::KernelObject);
    public b"Array" => Row::Facet(FacetRow::KernelArray);
    // Console
    public b"print:" => Row::Facet(FacetRow::ConsolePrint);
    public b"printLine:" => Row::Facet(FacetRow::ConsolePrintLine);
    // Board
    public b"at:" => Row::Facet(FacetRow::BoardAt);
    public b"at:put:" => Row::Facet(FacetRow::BoardPut);
    // Mirrors
    public b"on:" => Row::Mirror(MirrorRow::On);
    // Mirror
    public b"className" => Row::Mirror(MirrorRow::ClassName);
    public b"slotNames" => Row::Mirror(MirrorRow::SlotNames);
    public b"slot:" => Row::Mirror(MirrorRow::Slot);
    public b"slot:put:" => Row::Mirror(MirrorRow::SlotPut);
    public b"selectors" => Row::Mirror(MirrorRow::Selectors);
    public b"enclosing" => Row::Mirror(MirrorRow::Enclosing);
    public b"perform:with:" => Row::Mirror(MirrorRow::Perform);
    // Message
    public b"selector" => Row::Data(DataRow::MessageSelector);
    public b"arguments" => Row::Data(DataRow::MessageArguments);
};

/// The table of the code, which is that of the definitions.
#[inline(always)]
fn table() -> &'static [Line]
    ensures lines { map shown result.now ≡ all_lines }
    ensures all { length result.now ≡ 81 }
{
    &TABLE
}

/// The row of a number, and `Apply` for a number that no row has.
#[inline(always)]
pub fn row_of(number: u32) -> Row
    ensures { result ≡ row_at number }
{
    if number < 81 {
        return table()[number as usize].row;
    }
    Row::Apply
}

/// The rows of a class.
pub fn rows_of(class: KernelRow) -> Rows
    ensures rows { listed result ≡ rows_of class }
    ensures few { result.first + length result.lines.now ≤ 81 }
{
    match class {
        KernelRow::Object => between(0, 6),
        KernelRow::ObjectClass => between(6, 7),
        KernelRow::ArrayClass => between(7, 8),
        KernelRow::Class => between(8, 9),
        KernelRow::UndefinedObject => between(9, 10),
        KernelRow::Boolean => between(10, 20),
        KernelRow::Integer => between(20, 37),
        KernelRow::String => between(37, 44),
        KernelRow::Symbol => between(44, 48),
        KernelRow::Array => between(48, 52),
        KernelRow::Block => between(52, 60),
        KernelRow::Manifest => between(60, 61),
        KernelRow::Platform => between(61, 65),
        KernelRow::Kernel => between(65, 67),
        KernelRow::Console => between(67, 69),
        KernelRow::Board => between(69, 71),
        KernelRow::Mirrors => between(71, 72),
        KernelRow::Mirror => between(72, 79),
        KernelRow::Message => between(79, 81),
    }
}

/// The rows from a number up to another.
#[inline(always)]
fn between(first: u32, end: u32) -> Rows
    requires order { first ≤ end }
    requires inside { end ≤ 81 }
    ensures rows { listed result ≡ rows_between first end }
    ensures few { result.first + length result.lines.now ≤ 81 }
{
    Rows {
        first,
        lines: &table()[first as usize..end as usize],
    }
}

/// The number of the row of a class that a text calls.
pub fn row_called(class: KernelRow, text: &[u8]) -> Option<u32>
    ensures { result ≡ row_called class text.now }
{
    let rows = rows_of(class);
    let mut number = rows.first;
    'lines: for line in rows.lines {
        if calls(text, line) {
            return Some(number);
        }
        number += 1;
    }
    None
}

/// Whether a text calls a row.
pub fn calls(text: &[u8], line: &Line) -> bool
    ensures { result ≡ calls text.now (shown line.now).text }
{
    match line.text {
        Some(spelled) => text == spelled,
        None => false,
    }
}
