//! What is asked of a cell, where there is one.

ghost use Rattle.std.specs.Prelude.{◌≡◌, option_map};
ghost use Rattle.ns_frozen_tables.specs.Kinds as spec;

use ns_frozen::cell::CellData;
use ns_frozen::plain::PlainValue;
use ns_world::value::Value;

/// Whether a cell can be a receiver: it is there, and no environment.
pub fn is_receiver_cell(cell: Option<CellData<'_>>) -> bool
    ensures { result ≡ spec.is_receiver_cell cell.entry }
{
    match cell {
        Some(CellData::Environment { .. }) => false,
        Some(_) => true,
        None => false,
    }
}

/// Whether a cell is a class.
pub fn is_class(cell: Option<CellData<'_>>) -> bool
    ensures { result ≡ spec.is_class cell.entry }
{
    match cell {
        Some(CellData::Class { .. }) => true,
        _ => false,
    }
}

/// Whether a cell is an environment.
pub fn is_environment(cell: Option<CellData<'_>>) -> bool
    ensures { result ≡ spec.is_environment cell.entry }
{
    match cell {
        Some(CellData::Environment { .. }) => true,
        _ => false,
    }
}

/// Whether a cell is a block.
pub fn is_block(cell: Option<CellData<'_>>) -> bool
    ensures { result ≡ spec.is_block cell.entry }
{
    match cell {
        Some(CellData::Block { .. }) => true,
        _ => false,
    }
}

/// Whether a cell is an array.
pub fn is_array(cell: Option<CellData<'_>>) -> bool
    ensures { result ≡ spec.is_array cell.entry }
{
    match cell {
        Some(CellData::Array(_)) => true,
        _ => false,
    }
}

/// How many elements an array has, 0 where the cell is another.
pub fn item_count(cell: Option<CellData<'_>>) -> usize
    ensures { result ≡ spec.item_count cell.entry }
{
    match cell {
        Some(CellData::Array(items)) => items.len(),
        _ => 0,
    }
}

/// The declaration of a class, 0 where the cell is none.
pub fn declaration(cell: Option<CellData<'_>>) -> u32
    ensures { result ≡ spec.declaration cell.entry }
{
    match cell {
        Some(CellData::Class { decl, .. }) => decl,
        _ => 0,
    }
}

/// The superclass of a class, nil where the cell is none.
pub fn superclass(cell: Option<CellData<'_>>) -> Value
    ensures { result ≡ spec.superclass cell.entry }
{
    match cell {
        Some(CellData::Class { over, .. }) => over,
        _ => Value::Nil,
    }
}

/// The class of an object.
pub fn class_of(cell: Option<CellData<'_>>) -> Option<u32>
    ensures { result ≡ spec.class_of cell.entry }
{
    match cell {
        Some(CellData::Object { class, .. }) => Some(class),
        _ => None,
    }
}

/// The parent and the locals of an environment.
pub fn environment_in<'a>(cell: Option<CellData<'a>>) -> Option<(Value, &'a [PlainValue])>
    ensures { option_map (λ parts. (parts.0, parts.1.now)) result ≡ spec.environment_in cell.entry }
{
    match cell {
        Some(CellData::Environment { parent, locals }) => Some((parent, locals.as_slice())),
        _ => None,
    }
}
