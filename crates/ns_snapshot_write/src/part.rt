//! What a snapshot is made of: how many bytes it has, and these put behind others.

ghost use Rattle.std.specs.Prelude.{◌≡◌, ◌++◌, List, ℕ, All, OnOk, length, flat_map};
ghost use Rattle.std.specs.Option.{ForSome};
ghost use Rattle.ns_code.specs.Fits.{IsWord};
ghost use Rattle.ns_image.specs.Bytes as image;
ghost use Rattle.ns_snapshot.specs.Bytes as spec;
ghost use Rattle.ns_snapshot_write.specs.Room.{Takes};

use crate::room::{Room, TooLarge};
use ns_base::no_memory::NoMemory;
use ns_image_write::write::output::{put_byte, put_word};

/// A part of a snapshot.
pub trait Part {
    ghost layout: { Self → List ℕ };

    ghost has_room: { Self → Type 0 };

    /// Takes as many bytes as it has.
    fn measure(&self, room: &mut Room) -> Result<(), TooLarge>
        ensures { Takes (length (layout self.now)) room.old.left result room.new.left };

    /// Puts it.
    fn put(&self, out: &mut Vec<u8>) -> Result<(), NoMemory>
        requires { has_room self.now }
        ensures { OnOk result (out.new.items ≡ out.old.items ++ layout self.now) };
}

/// Takes the bytes of parts.
pub fn measure_all<P: Part>(room: &mut Room, parts: &[P]) -> Result<(), TooLarge>
    ensures { Takes (length (flat_map P.layout parts.now)) room.old.left result room.new.left }
{
    'parts: for part in parts {
        part.measure(room)?;
    }
    Ok(())
}

/// Takes the bytes of parts behind their count.
pub fn measure_counted<P: Part>(room: &mut Room, parts: &[P]) -> Result<(), TooLarge>
    ensures { Takes (length (image.counted P.layout parts.now)) room.old.left result room.new.left }
{
    room.take(4)?;
    measure_all(room, parts)
}

/// Puts parts one behind the other.
pub fn put_all<P: Part>(out: &mut Vec<u8>, parts: &[P]) -> Result<(), NoMemory>
    requires { All P.has_room parts.now }
    ensures { OnOk result (out.new.items ≡ out.old.items ++ flat_map P.layout parts.now) }
{
    'parts: for part in parts {
        part.put(out)?;
    }
    Ok(())
}

/// Puts parts behind their count.
pub fn put_counted<P: Part>(out: &mut Vec<u8>, parts: &[P]) -> Result<(), NoMemory>
    requires parts { All P.has_room parts.now }
    requires short { IsWord (length parts.now) }
    ensures { OnOk result (out.new.items ≡ out.old.items ++ image.counted P.layout parts.now) }
{
    put_word(out, parts.len() as u32)?;
    put_all(out, parts)
}

/// 0 for none, or 1 and the part.
impl<P: Part> Part for Option<P> {
    ghost layout = { spec.option P.layout };

    ghost has_room = { λ part. ForSome part P.has_room };

    fn measure(&self, room: &mut Room) -> Result<(), TooLarge> {
        room.take(1)?;
        match self {
            None => Ok(()),
            Some(part) => part.measure(room),
        }
    }

    fn put(&self, out: &mut Vec<u8>) -> Result<(), NoMemory> {
        match self {
            None => put_byte(out, 0),
            Some(part) => {
                put_byte(out, 1)?;
                part.put(out)
            }
        }
    }
}
