//! What waits to be done, and how a run has ended.

ghost use Rattle.std.specs.Prelude.{◌≡◌, ◌+◌, ◌++◌, ◌∷◌, [], OnOk, length};
ghost use Rattle.std.specs.List.{concat};
ghost use Rattle.ns_code.specs.Fits.{IsWord};
ghost use Rattle.ns_image.specs.Bytes as image;
ghost use Rattle.ns_snapshot.specs.Bytes as spec;
ghost use Rattle.ns_snapshot_write.specs.Room.{PendingHasRoom, Takes};
ghost use Rattle.ns_world.specs.declared.ending.Ending.TheVariants.{Error};

use crate::output::with_byte;
use crate::part::{Part, measure_counted, put_counted};
use crate::room::{Room, TooLarge};
use crate::variant::{kind_number, limit_number};
use ns_base::no_memory::NoMemory;
use ns_base::selector::Sel;
use ns_frozen::pending::Pending;
use ns_frozen::plain::PlainValue;
use ns_image_write::write::output::{put_byte, put_word};
use ns_moves::site::Site;
use ns_world::ending::{Ending, RunError};
use ns_world::value::Value;

/// Its number, and what it holds.
impl Part for Pending {
    ghost layout = { spec.pending };

    ghost has_room = { PendingHasRoom };

    fn measure(&self, room: &mut Room) -> Result<(), TooLarge> {
        match self {
            Pending::Send {
                receiver,
                sel: _,
                args,
                site,
            } => measure_sent(room, *receiver, 5, args.as_slice(), site),
            Pending::Perform {
                receiver,
                sel: _,
                args: _,
                site,
            } => measure_sent_on(room, *receiver, site),
            Pending::Evaluate { block, args, site } => measure_sent(
                room,
                *block,
                1,
                args.as_slice(),
                site,
            ),
        }
    }

    fn put(&self, out: &mut Vec<u8>) -> Result<(), NoMemory> {
        match self {
            Pending::Send {
                receiver,
                sel,
                args,
                site,
            } => put_send(out, *receiver, *sel, args.as_slice(), site),
            Pending::Perform {
                receiver,
                sel,
                args,
                site,
            } => put_perform(out, *receiver, *sel, *args, site),
            Pending::Evaluate { block, args, site } => put_evaluate(
                out,
                *block,
                args.as_slice(),
                site,
            ),
        }
    }
}

/// Takes the bytes of a receiver, arguments and a site, and so many others.
fn measure_sent(
    room: &mut Room,
    receiver: Value,
    others: u64,
    args: &[PlainValue],
    site: &Site,
) -> Result<(), TooLarge>
    ensures { Takes (others + (length (spec.value receiver) + (length (spec.values args.now) + length (spec.site site.now))))
        room.old.left result room.new.left }
{
    room.take(others)?;
    receiver.measure(room)?;
    measure_counted(room, args)?;
    site.measure(room)
}

/// Takes the bytes of a receiver, a selector, an array's number and a site.
fn measure_sent_on(room: &mut Room, receiver: Value, site: &Site) -> Result<(), TooLarge>
    ensures { Takes (9 + (length (spec.value receiver) + length (spec.site site.now))) room.old.left result room.new.left }
{
    room.take(9)?;
    receiver.measure(room)?;
    site.measure(room)
}

fn put_send(
    out: &mut Vec<u8>,
    receiver: Value,
    sel: Sel,
    args: &[PlainValue],
    site: &Site,
) -> Result<(), NoMemory>
    requires { IsWord (length args.now) }
    ensures { OnOk result (out.new.items ≡ out.old.items
        ++ concat (image.byte 0 ∷ spec.value receiver ∷ image.word sel.0 ∷ spec.values args.now ∷ spec.site site.now ∷ [])) }
{
    put_byte(out, 0)?;
    receiver.put(out)?;
    put_word(out, sel.0)?;
    put_counted(out, args)?;
    site.put(out)
}

fn put_perform(
    out: &mut Vec<u8>,
    receiver: Value,
    sel: Sel,
    array: u32,
    site: &Site,
) -> Result<(), NoMemory>
    ensures { OnOk result (out.new.items ≡ out.old.items
        ++ concat (image.byte 1 ∷ spec.value receiver ∷ image.word sel.0 ∷ image.word array ∷ spec.site site.now ∷ [])) }
{
    put_byte(out, 1)?;
    receiver.put(out)?;
    put_word(out, sel.0)?;
    put_word(out, array)?;
    site.put(out)
}

fn put_evaluate(
    out: &mut Vec<u8>,
    block: Value,
    args: &[PlainValue],
    site: &Site,
) -> Result<(), NoMemory>
    requires { IsWord (length args.now) }
    ensures { OnOk result (out.new.items ≡ out.old.items
        ++ concat (image.byte 2 ∷ spec.value block ∷ spec.values args.now ∷ spec.site site.now ∷ [])) }
{
    put_byte(out, 2)?;
    block.put(out)?;
    put_counted(out, args)?;
    site.put(out)
}

/// Its number, and what it holds.
impl Part for Ending {
    ghost layout = { spec.ending };

    ghost has_room = { λ _. Unit {0} };

    fn measure(&self, room: &mut Room) -> Result<(), TooLarge> {
        match self {
            Ending::Done(value) => measure_done(room, *value),
            Ending::Error(error) => measure_error(room, error),
            Ending::Limit(_) => room.take(2),
        }
    }

    fn put(&self, out: &mut Vec<u8>) -> Result<(), NoMemory> {
        match self {
            Ending::Done(value) => put_done(out, *value),
            Ending::Error(error) => put_error(out, error),
            Ending::Limit(kind) => with_byte(out, 2, limit_number(*kind)),
        }
    }
}

fn measure_done(room: &mut Room, value: Value) -> Result<(), TooLarge>
    ensures { Takes (1 + length (spec.value value)) room.old.left result room.new.left }
{
    room.take(1)?;
    value.measure(room)
}

fn measure_error(room: &mut Room, error: &RunError) -> Result<(), TooLarge>
    ensures { Takes (6 + (length (spec.option spec.place error.now.place) + length (spec.class_name error.now.class)))
        room.old.left result room.new.left }
{
    room.take(6)?;
    error.place.measure(room)?;
    error.class.measure(room)
}

fn put_done(out: &mut Vec<u8>, value: Value) -> Result<(), NoMemory>
    ensures { OnOk result (out.new.items ≡ out.old.items ++ (image.byte 0 ++ spec.value value)) }
{
    put_byte(out, 0)?;
    value.put(out)
}

fn put_error(out: &mut Vec<u8>, error: &RunError) -> Result<(), NoMemory>
    ensures { OnOk result (out.new.items ≡ out.old.items ++ spec.ending (Error error.now)) }
{
    with_byte(out, 1, kind_number(error.kind))?;
    error.place.put(out)?;
    error.class.put(out)?;
    put_word(out, error.sel.0)
}
