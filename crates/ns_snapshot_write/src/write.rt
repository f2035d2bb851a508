//! The bytes of a snapshot from code and a state.

ghost use Rattle.std.specs.Prelude.{◌≡◌, ◌<◌, ◌≤◌, IfOk, IsErrOf, length};
ghost use Rattle.ns_code.specs.Fits.{Fits, IsShort};
ghost use Rattle.ns_image.specs.Bytes as image;
ghost use Rattle.ns_snapshot.specs.Bytes as spec;
ghost use Rattle.ns_snapshot.specs.Fits.{FrozenFits};
ghost use Rattle.ns_snapshot_write.specs.Room.{StateHasRoom, Takes};
ghost use Rattle.ns_snapshot_write.specs.declared.write.WriteFault.TheVariants as fault;

use crate::cell::measure_text;
use crate::output::put_text;
use crate::part::Part;
use crate::room::{Room, TooLarge};
use ns_base::no_memory::NoMemory;
use ns_code::program::CodeProgram;
use ns_frozen::frozen::Frozen;
use ns_image_write::write::output::put_half;
use ns_image_write::write::write;
use std::alloc::Global;

/// Why no snapshot is written.
#[derive(Clone, Copy, PartialEq, Eq)]
pub enum WriteFault {
    /// It would have more bytes than it may.
    TooLarge,
    /// No memory was found.
    Memory,
}

/// The snapshot of a state of a run of that code, of at most so many bytes; `TooLarge` where it would have more. The bytes
/// are counted before any of the state is written, and room is asked for once.
pub fn write_snapshot(
    alloc: Global,
    code: &CodeProgram,
    frozen: &Frozen,
    most: u32,
) -> Result<Vec<u8>, WriteFault>
    requires { Fits code.now }
    ensures bytes { IfOk result (λ bytes. bytes.items ≡ spec.snapshot_of code.now frozen.now) }
    ensures within { IfOk result (λ bytes. length bytes.items ≤ most) }
    ensures large { IsErrOf result fault.TooLarge → most < length (spec.snapshot_of code.now frozen.now) }
{
    match write(alloc, code) {
        Ok(image) => with_image(alloc, &image, frozen, most),
        Err(_) => Err(WriteFault::Memory),
    }
}

/// The same with the image of the code.
pub fn with_image(
    alloc: Global,
    image: &[u8],
    frozen: &Frozen,
    most: u32,
) -> Result<Vec<u8>, WriteFault>
    ensures bytes { IfOk result (λ bytes. bytes.items ≡ spec.with_image image.now frozen.now) }
    ensures within { IfOk result (λ bytes. length bytes.items ≤ most) }
    ensures large { IsErrOf result fault.TooLarge → most < length (spec.with_image image.now frozen.now) }
{
    let mut room = Room {
        left: u64::from(most),
    };
    match measure(&mut room, image, frozen) {
        Ok(()) => measured(alloc, image, frozen, most, u64::from(most) - room.left),
        Err(_) => Err(WriteFault::TooLarge),
    }
}

/// The snapshot of a state of a run of that code, whose numbers fit their fields, however many bytes it has.
pub fn write_whole(alloc: Global, code: &CodeProgram, frozen: &Frozen) -> Result<Vec<u8>, NoMemory>
    requires code { Fits code.now }
    requires image { IsShort (image.bytes_of code.now) }
    requires fields { FrozenFits frozen.now }
    ensures { IfOk result (λ bytes. bytes.items ≡ spec.snapshot_of code.now frozen.now) }
{
    let image = write(alloc, code)?;
    let mut room = Room { left: u64::MAX };
    match measure(&mut room, &image, frozen) {
        Ok(()) => written(alloc, &image, frozen, u64::MAX - room.left),
        Err(_) => Err(NoMemory),
    }
}

/// Takes the bytes of a snapshot with that image.
fn measure(room: &mut Room, image: &[u8], frozen: &Frozen) -> Result<(), TooLarge>
    ensures { Takes (length (spec.with_image image.now frozen.now)) room.old.left result room.new.left }
{
    measure_text(room, 6, image)?;
    frozen.measure(room)
}

/// The snapshot with that image, of which it is known how many bytes it has, and that it may have as many.
fn measured(
    alloc: Global,
    image: &[u8],
    frozen: &Frozen,
    most: u32,
    size: u64,
) -> Result<Vec<u8>, WriteFault>
    requires size { size ≡ length (spec.with_image image.now frozen.now) }
    requires within { size ≤ most }
    ensures bytes { IfOk result (λ bytes. bytes.items ≡ spec.with_image image.now frozen.now) }
    ensures within { IfOk result (λ bytes. length bytes.items ≤ most) }
    ensures memory { IsErrOf result fault.TooLarge → ⊥ }
{
    match written(alloc, image, frozen, size) {
        Ok(bytes) => Ok(bytes),
        Err(_) => Err(WriteFault::Memory),
    }
}

/// The snapshot with that image, for which room of so many bytes is asked for.
fn written(alloc: Global, image: &[u8], frozen: &Frozen, size: u64) -> Result<Vec<u8>, NoMemory>
    requires image { IsShort image.now }
    requires room { StateHasRoom frozen.now }
    ensures { IfOk result (λ bytes. bytes.items ≡ spec.with_image image.now frozen.now) }
{
    let mut out = Vec::with_capacity(alloc, size as usize)?;
    out.extend_from_slice(b"NSPS")?;
    put_half(&mut out, 1)?;
    put_text(&mut out, image)?;
    frozen.put(&mut out)?;
    Ok(out)
}
