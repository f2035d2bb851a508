//! Texts, each of which is the one file of a command, within a class or a method.

use crate::command::leaves;
use ns_base::no_memory::NoMemory;
use std::alloc::Global;

/// What stands before and behind a text.
pub type Around = (&'static str, &'static str);

pub const NOTHING: Around = ("", "");

/// A class whose method's body the text is.
pub const METHOD: Around = (
    "class T packageUsing: m = () (\npublic main: p args: a = (",
    ")\n)\n",
);

/// A text, the bytes that a command of it leaves in both streams, and the exit status.
pub type Row = (&'static str, &'static str, &'static str, u8);

/// A command of the file T.ns, and the texts that it is given there.
pub type Table = (&'static str, Around, &'static [Row]);

/// The first text of the tables of which its command leaves something else.
pub fn first_other(alloc: Global, tables: &[Table]) -> Option<&'static str> {
    for (line, around, rows) in tables {
        for row in *rows {
            if !is_left(alloc, line, *around, *row) {
                return Some(row.0);
            }
        }
    }
    None
}

fn is_left(alloc: Global, line: &'static str, around: Around, row: Row) -> bool {
    let (text, out, err, status) = row;
    match within(alloc, around, text) {
        Ok(source) => leaves(
            alloc,
            &[("T.ns", source.as_bytes())],
            (line, out, err, status),
        ),
        Err(_) => false,
    }
}

pub fn within(alloc: Global, around: Around, text: &str) -> Result<String, NoMemory> {
    let mut whole = String::from_str(alloc, around.0)?;
    whole.push_str(text)?;
    whole.push_str(around.1)?;
    Ok(whole)
}
