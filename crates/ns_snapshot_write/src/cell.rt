//! Cells.

ghost use Rattle.std.specs.Prelude.{◌≡◌, ◌+◌, ◌++◌, ◌∷◌, [], All, OnOk, flat_map, length};
ghost use Rattle.std.specs.List.{concat};
ghost use Rattle.ns_code.specs.Fits.{IsShort, IsWord};
ghost use Rattle.ns_image.specs.Bytes as image;
ghost use Rattle.ns_snapshot.specs.Bytes as spec;
ghost use Rattle.ns_snapshot_write.specs.Room.{CellHasRoom, Takes};

use crate::output::{put_double, put_text, with_byte, with_word};
use crate::part::{Part, measure_counted, put_counted};
use crate::room::{Room, TooLarge};
use crate::variant::facet_number;
use ns_base::no_memory::NoMemory;
use ns_frozen::cell::CellData;
use ns_frozen::plain::PlainValue;
use ns_frozen::stored::Cells;
use ns_image_write::write::output::{put_byte, put_word};
use ns_world::value::Value;

/// Its number, and what it holds.
impl Part for CellData<'_> {
    ghost layout = { spec.cell };

    ghost has_room = { CellHasRoom };

    fn measure(&self, room: &mut Room) -> Result<(), TooLarge> {
        match self {
            CellData::Object { class: _, words } => measure_list(room, 5, words.as_slice()),
            CellData::Class {
                decl: _,
                encl,
                holder,
                over,
            } => measure_class(room, *encl, *holder, *over),
            CellData::Block {
                body: _,
                env,
                home: _,
                receiver,
                holder: _,
            } => measure_block(room, *env, *receiver),
            CellData::Environment { parent, locals } => measure_environment(
                room,
                *parent,
                locals.as_slice(),
            ),
            CellData::Array(items) => measure_list(room, 1, items.as_slice()),
            CellData::Text(text) => measure_text(room, 1, text.as_slice()),
            CellData::Facet(_) => room.take(2),
            CellData::Mirror(mirrored) => measure_value(room, 1, *mirrored),
            CellData::Message { sel: _, args } => measure_value(room, 5, *args),
        }
    }

    fn put(&self, out: &mut Vec<u8>) -> Result<(), NoMemory> {
        match self {
            CellData::Object { class, words } => put_object(out, *class, words.as_slice()),
            CellData::Class {
                decl,
                encl,
                holder,
                over,
            } => put_class(out, *decl, *encl, *holder, *over),
            CellData::Block {
                body,
                env,
                home,
                receiver,
                holder,
            } => put_block(out, *body, *env, *home, *receiver, *holder),
            CellData::Environment { parent, locals } => put_environment(
                out,
                *parent,
                locals.as_slice(),
            ),
            CellData::Array(items) => put_array(out, items.as_slice()),
            CellData::Text(text) => put_literal(out, text.as_slice()),
            CellData::Facet(kind) => with_byte(out, 6, facet_number(*kind)),
            CellData::Mirror(mirrored) => put_mirror(out, *mirrored),
            CellData::Message { sel, args } => put_message(out, sel.0, *args),
        }
    }
}

/// Takes the bytes of cells behind their count.
pub fn measure_cells(room: &mut Room, cells: &Cells) -> Result<(), TooLarge>
    ensures { Takes (length (image.counted spec.cell cells.now)) room.old.left result room.new.left }
{
    room.take(4)?;
    measure_each(room, cells)
}

/// Takes the bytes of each cell.
fn measure_each(room: &mut Room, cells: &Cells) -> Result<(), TooLarge>
    ensures { Takes (length (flat_map spec.cell cells.now)) room.old.left result room.new.left }
{
    'cells: for place in 0..cells.len() {
        let cell = cells.at(place);
        cell.measure(room)?;
    }
    Ok(())
}

/// Puts cells behind their count.
pub fn put_cells(out: &mut Vec<u8>, cells: &Cells) -> Result<(), NoMemory>
    requires cells { All CellHasRoom cells.now }
    requires short { IsWord (length cells.now) }
    ensures { OnOk result (out.new.items ≡ out.old.items ++ image.counted spec.cell cells.now) }
{
    put_word(out, cells.len() as u32)?;
    put_each(out, cells)
}

/// Puts cells one behind the other.
fn put_each(out: &mut Vec<u8>, cells: &Cells) -> Result<(), NoMemory>
    requires { All CellHasRoom cells.now }
    ensures { OnOk result (out.new.items ≡ out.old.items ++ flat_map spec.cell cells.now) }
{
    'cells: for place in 0..cells.len() {
        let cell = cells.at(place);
        cell.put(out)?;
    }
    Ok(())
}

/// Takes so many bytes, and those of values behind their count.
fn measure_list(room: &mut Room, others: u64, values: &[PlainValue]) -> Result<(), TooLarge>
    ensures { Takes (others + length (spec.values values.now)) room.old.left result room.new.left }
{
    room.take(others)?;
    measure_counted(room, values)
}

/// Takes so many bytes, and those of a value.
fn measure_value(room: &mut Room, others: u64, value: Value) -> Result<(), TooLarge>
    ensures { Takes (others + length (spec.value value)) room.old.left result room.new.left }
{
    room.take(others)?;
    value.measure(room)
}

/// Takes so many bytes, and those of a text behind its length.
pub fn measure_text(room: &mut Room, others: u64, text: &[u8]) -> Result<(), TooLarge>
    ensures { Takes (others + length (image.text text.now)) room.old.left result room.new.left }
{
    room.take(others)?;
    room.take(4)?;
    room.take(text.len() as u64)
}

fn measure_class(room: &mut Room, encl: Value, holder: Value, over: Value) -> Result<(), TooLarge>
    ensures { Takes (5 + (length (spec.value encl) + (length (spec.value holder) + length (spec.value over))))
        room.old.left result room.new.left }
{
    room.take(5)?;
    encl.measure(room)?;
    holder.measure(room)?;
    over.measure(room)
}

fn measure_block(room: &mut Room, env: Value, receiver: Value) -> Result<(), TooLarge>
    ensures { Takes (17 + (length (spec.value env) + length (spec.value receiver))) room.old.left result room.new.left }
{
    room.take(17)?;
    env.measure(room)?;
    receiver.measure(room)
}

fn measure_environment(
    room: &mut Room,
    parent: Value,
    locals: &[PlainValue],
) -> Result<(), TooLarge>
    ensures { Takes (1 + (length (spec.value parent) + length (spec.values locals.now))) room.old.left result room.new.left }
{
    room.take(1)?;
    parent.measure(room)?;
    measure_counted(room, locals)
}

fn put_object(out: &mut Vec<u8>, class: u32, words: &[PlainValue]) -> Result<(), NoMemory>
    requires { IsWord (length words.now) }
    ensures { OnOk result (out.new.items ≡ out.old.items ++ concat (image.byte 0 ∷ image.word class ∷ spec.values words.now ∷ [])) }
{
    with_word(out, 0, class)?;
    put_counted(out, words)
}

fn put_class(
    out: &mut Vec<u8>,
    decl: u32,
    encl: Value,
    holder: Value,
    over: Value,
) -> Result<(), NoMemory>
    ensures { OnOk result (out.new.items ≡ out.old.items
        ++ concat (image.byte 1 ∷ image.word decl ∷ spec.value encl ∷ spec.value holder ∷ spec.value over ∷ [])) }
{
    with_word(out, 1, decl)?;
    encl.put(out)?;
    holder.put(out)?;
    over.put(out)
}

fn put_block(
    out: &mut Vec<u8>,
    body: u32,
    env: Value,
    home: u64,
    receiver: Value,
    holder: u32,
) -> Result<(), NoMemory>
    ensures { OnOk result (out.new.items ≡ out.old.items
        ++ concat (image.byte 2 ∷ image.word body ∷ spec.value env ∷ spec.double home
        ∷ spec.value receiver ∷ image.word holder ∷ [])) }
{
    with_word(out, 2, body)?;
    env.put(out)?;
    put_double(out, home)?;
    receiver.put(out)?;
    put_word(out, holder)
}

fn put_environment(out: &mut Vec<u8>, parent: Value, locals: &[PlainValue]) -> Result<(), NoMemory>
    requires { IsWord (length locals.now) }
    ensures { OnOk result (out.new.items ≡ out.old.items ++ concat (image.byte 3 ∷ spec.value parent ∷ spec.values locals.now ∷ [])) }
{
    put_byte(out, 3)?;
    parent.put(out)?;
    put_counted(out, locals)
}

fn put_array(out: &mut Vec<u8>, items: &[PlainValue]) -> Result<(), NoMemory>
    requires { IsWord (length items.now) }
    ensures { OnOk result (out.new.items ≡ out.old.items ++ (image.byte 4 ++ spec.values items.now)) }
{
    put_byte(out, 4)?;
    put_counted(out, items)
}

fn put_literal(out: &mut Vec<u8>, text: &[u8]) -> Result<(), NoMemory>
    requires { IsShort text.now }
    ensures { OnOk result (out.new.items ≡ out.old.items ++ (image.byte 5 ++ image.text text.now)) }
{
    put_byte(out, 5)?;
    put_text(out, text)
}

fn put_mirror(out: &mut Vec<u8>, mirrored: Value) -> Result<(), NoMemory>
    ensures { OnOk result (out.new.items ≡ out.old.items ++ (image.byte 7 ++ spec.value mirrored)) }
{
    put_byte(out, 7)?;
    mirrored.put(out)
}

fn put_message(out: &mut Vec<u8>, sel: u32, args: Value) -> Result<(), NoMemory>
    ensures { OnOk result (out.new.items ≡ out.old.items ++ concat (image.byte 8 ∷ image.word sel ∷ spec.value args ∷ [])) }
{
    with_word(out, 8, sel)?;
    args.put(out)
}
