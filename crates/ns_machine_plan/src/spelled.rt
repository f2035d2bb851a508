//! The rows of Integer, of Boolean and of Array that the names of a code spell, found once before any send asks for one.

ghost use Rattle.std.specs.Prelude.{◌≡◌, ◌<◌, IfOk, map};
ghost use Rattle.ns_machine_plan.specs.Arrays as arrays;
ghost use Rattle.ns_machine_plan.specs.Booleans as booleans;
ghost use Rattle.ns_machine_plan.specs.Integers as integers;
ghost use Rattle.ns_machine_plan.specs.Spelled as spec;

use crate::step::SpelledRow;
use ns_base::items::Items;
use ns_base::no_memory::NoMemory;
use ns_base::selector::Sel;
use ns_base::text::Text;
use ns_code::program::CodeProgram;
use ns_world::kernel_class::KernelRow;
use ns_world::kernel_parts::{DataRow, IntRow, KMethod};
use ns_world::kernel_row::Row;
use ns_world::kernel_table::{row_called, row_of};
use std::alloc::Global;

/// For each name the row of Integer, of Boolean or of Array that it spells, if it spells one.
#[derive(Drop)]
pub struct SpelledRows {
    rows: Items<Option<SpelledRow>>,
}

impl SpelledRows {
    /// Those of the names of a code.
    pub fn new(alloc: Global, code: &CodeProgram) -> Result<SpelledRows, NoMemory>
        ensures { IfOk result (λ rows. spec.AreRowsOf code.now rows) }
    {
        let rows = rows_of(alloc, code.names.as_slice())?;
        Ok(SpelledRows {
            rows: Items::from_vec(rows),
        })
    }

    /// The row that the name of a selector spells.
    pub fn of_send(&self, code: &CodeProgram, sel: Sel) -> Option<SpelledRow>
        requires { spec.AreRowsOf code.now self.now }
        ensures { result ≡ spec.spelled_by code.now sel }
    {
        let _code = code;
        match self.rows.as_slice().get(sel.0 as usize) {
            Some(row) => *row,
            None => None,
        }
    }
}

/// The rows that some names spell.
fn rows_of(alloc: Global, names: &[Text]) -> Result<Vec<Option<SpelledRow>>, NoMemory>
    ensures { IfOk result (λ rows. rows.items ≡ map spec.spelled_by_text names.now) }
{
    let mut rows = Vec::with_capacity(alloc, names.len())?;
    'names: for name in names {
        rows.push(spelled_by_text(name.bytes()))?;
    }
    Ok(rows)
}

/// The row that a text spells, if it spells one.
fn spelled_by_text(text: &[u8]) -> Option<SpelledRow>
    ensures { result ≡ spec.spelled_by_text text.now }
{
    first_row(
        row_of_text(text),
        method_of_text(text),
        array_row_of_text(text),
    )
}

/// The row of Integer, or else the method of Boolean, or else the row of Array.
fn first_row(
    row: Option<IntRow>,
    method: Option<KMethod>,
    array: Option<DataRow>,
) -> Option<SpelledRow>
    ensures { result ≡ spec.first_row row method array }
{
    match (row, method, array) {
        (Some(row), _, _) => Some(SpelledRow::Integer(row)),
        (None, Some(method), _) => Some(SpelledRow::Boolean(method)),
        (None, None, Some(row)) => Some(SpelledRow::Array(row)),
        (None, None, None) => None,
    }
}

/// The row of Integer that a text spells, if it spells one.
fn row_of_text(text: &[u8]) -> Option<IntRow>
    ensures { result ≡ integers.row_of_text text.now }
{
    match row_called(KernelRow::Integer, text) {
        Some(number) => integer_of(row_of(number)),
        None => None,
    }
}

/// The row of Integer that a row is, if it is one.
fn integer_of(row: Row) -> Option<IntRow>
    ensures { result ≡ integers.integer_of row }
{
    match row {
        Row::Integer(row) => Some(row),
        _ => None,
    }
}

/// The method of Boolean that a text spells, if it spells one.
fn method_of_text(text: &[u8]) -> Option<KMethod>
    ensures { result ≡ booleans.method_of_text text.now }
{
    match row_called(KernelRow::Boolean, text) {
        Some(number) => method_of(row_of(number)),
        None => None,
    }
}

/// The method that a row is, if it is one.
fn method_of(row: Row) -> Option<KMethod>
    ensures { result ≡ booleans.method_of row }
{
    match row {
        Row::Method(method) => Some(method),
        _ => None,
    }
}

/// The row of Array that a text spells, if it spells one that is no method.
fn array_row_of_text(text: &[u8]) -> Option<DataRow>
    ensures { result ≡ arrays.row_of_text text.now }
{
    match row_called(KernelRow::Array, text) {
        Some(number) => data_of(row_of(number)),
        None => None,
    }
}

/// The row of data that a row is, if it is one.
fn data_of(row: Row) -> Option<DataRow>
    ensures { result ≡ arrays.data_of row }
{
    match row {
        Row::Data(row) => Some(row),
        _ => None,
    }
}
