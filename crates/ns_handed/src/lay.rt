//! The texts that a host hands over as cells of a program.

ghost use Rattle.std.specs.Prelude.{◌≡◌, ◌+◌, ◌++◌, ◌<◌, ◌≤◌, nat_le, IfOk, OnOk};
ghost use Rattle.ns_handed.specs.Laid as spec;

use crate::value::Hand;
use ns_base::no_memory::NoMemory;
use ns_base::text::Text;
use ns_frozen::pools::NewData;
use ns_frozen::stored::CellsMaker;
use ns_world::value::Value;
use std::alloc::Global;

/// What one costs in cells.
fn cost_of(hand: Hand) -> u64
    ensures { result ≡ spec.cost_of hand }
{
    match hand {
        Hand::Given(_) => 0,
        Hand::Text(size) => 1 + (u64::from(size) + 7) / 8,
        Hand::Nothing => 0,
    }
}

/// Whether so many cells and the texts aren't more than that.
pub fn is_within(used: u64, hands: &[Hand], most: u64) -> bool
    ensures { result ≡ nat_le (used + spec.cost_of_all hands.now) most }
{
    used <= most && cost_within(hands, most - used)
}

/// Whether texts cost no more than so many cells.
fn cost_within(hands: &[Hand], room: u64) -> bool
    ensures { result ≡ nat_le (spec.cost_of_all hands.now) room }
{
    let mut left = room;
    for hand in hands {
        let cost = cost_of(*hand);
        if left < cost {
            return false;
        }
        left -= cost;
    }
    true
}

/// The values of all, where each text is the next cell, and the number of the cell behind them.
pub fn values_from(alloc: Global, next: u64, hands: &[Hand]) -> Result<(Vec<Value>, u64), NoMemory>
    requires { next + spec.cost_of_all hands.now < 4294967296 }
    ensures values { IfOk result (λ r. r.0.items ≡ spec.values_from next hands.now) }
    ensures behind { IfOk result (λ r. r.1 ≡ next + spec.cost_of_all hands.now) }
{
    let mut behind = next;
    let mut values = Vec::new(alloc);
    for hand in hands {
        values.push(value_from(behind, *hand))?;
        behind += cost_of(*hand);
    }
    Ok((values, behind))
}

/// The value of one, where the next cell has that number.
fn value_from(next: u64, hand: Hand) -> Value
    requires { next < 4294967296 }
    ensures { result ≡ spec.value_from next hand }
{
    match hand {
        Hand::Given(value) => value,
        Hand::Text(_) => Value::Ref(next as u32),
        Hand::Nothing => Value::Nil,
    }
}

/// Puts the cells of all behind others; their bytes lie one behind the other.
pub fn put_cells(cells: &mut CellsMaker, texts: &[u8], hands: &[Hand]) -> Result<(), NoMemory>
    ensures { OnOk result (cells.new.cells ≡ cells.old.cells ++ spec.cells_from texts.now hands.now) }
{
    let mut rest = texts;
    for hand in hands {
        put_cell(cells, rest, *hand)?;
        rest = bytes_behind(rest, *hand);
    }
    Ok(())
}

/// Puts the cell of one, whose bytes are the first of these.
fn put_cell(cells: &mut CellsMaker, bytes: &[u8], hand: Hand) -> Result<(), NoMemory>
    ensures { OnOk result (cells.new.cells ≡ cells.old.cells ++ spec.cell_from bytes.now hand) }
{
    match hand {
        Hand::Text(size) => {
            let (text, _) = bytes.split_at(bytes.len().min(size as usize));
            cells.put(NewData::Text(text))
        }
        Hand::Given(_) => Ok(()),
        Hand::Nothing => Ok(()),
    }
}

/// Puts the texts of all behind others; their bytes lie one behind the other.
pub fn put_texts(
    alloc: Global,
    texts: &mut Vec<Text>,
    bytes: &[u8],
    hands: &[Hand],
) -> Result<(), NoMemory>
    ensures { OnOk result (texts.new.items ≡ texts.old.items ++ spec.texts_from bytes.now hands.now) }
{
    let mut rest = bytes;
    for hand in hands {
        put_text(alloc, texts, rest, *hand)?;
        rest = bytes_behind(rest, *hand);
    }
    Ok(())
}

/// Puts the text of one, whose bytes are the first of these.
fn put_text(alloc: Global, texts: &mut Vec<Text>, bytes: &[u8], hand: Hand) -> Result<(), NoMemory>
    ensures { OnOk result (texts.new.items ≡ texts.old.items ++ spec.text_from bytes.now hand) }
{
    match hand {
        Hand::Text(size) => {
            let text = Text::of(alloc, bytes.split_at(bytes.len().min(size as usize)).0)?;
            texts.push(text)?;
            Ok(())
        }
        Hand::Given(_) => Ok(()),
        Hand::Nothing => Ok(()),
    }
}

/// The bytes behind those of one.
fn bytes_behind(bytes: &[u8], hand: Hand) -> &[u8]
    ensures { result.now ≡ spec.bytes_behind bytes.now hand }
{
    match hand {
        Hand::Text(size) => bytes.split_at(bytes.len().min(size as usize)).1,
        Hand::Given(_) => bytes,
        Hand::Nothing => bytes,
    }
}
