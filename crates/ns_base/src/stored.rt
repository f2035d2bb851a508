//! Files in memory, as the two shelves over memory keep them.

ghost use Rattle.std.specs.Prelude.{◌≡◌, ◌≤◌, length, take, IfOk, IfErr, OnOk, OnErr, Some, option_map};
ghost use Rattle.std.specs.Option.{option_copied};
ghost use Rattle.ns_base.specs.Files.{OthersStand};
ghost use Rattle.ns_base.specs.Stored.{file_at};

use crate::no_memory::NoMemory;
use crate::shelf::ShelfFault;
use crate::text::Text;
use std::alloc::Global;

/// The bytes of the first file of that name.
pub fn find<'a>(files: &'a [(Text, Vec<u8>)], name: &[u8]) -> Option<&'a Vec<u8>>
    ensures { option_map (λ bytes. bytes.items) (option_copied result) ≡ file_at files.now name.now }
{
    for (text, bytes) in files {
        if text.bytes() == name {
            return Some(bytes);
        }
    }
    None
}

/// The first `most` bytes, or all where there are fewer.
pub fn first(alloc: Global, bytes: &[u8], most: u64) -> Result<Vec<u8>, ShelfFault>
    ensures ok { IfOk result (λ first. first.items ≡ take most bytes.now) }
    ensures at_most { IfOk result (λ first. length first.items ≤ most) }
    ensures err { IfErr result (λ e. e ≡ ShelfFault.Memory) }
{
    let end = bytes.len().min(most as usize);
    match Vec::from_slice(alloc, &bytes[..end]) {
        Ok(first) => Ok(first),
        Err(_) => Err(ShelfFault::Memory),
    }
}

/// Makes these the bytes of the file of that name.
pub fn set(files: &mut Vec<(Text, Vec<u8>)>, name: &[u8], bytes: &[u8]) -> Result<(), NoMemory>
    ensures named { OnOk result (file_at files.new.items name.now ≡ Some bytes.now) }
    ensures others { OnOk result (OthersStand (file_at files.old.items) (file_at files.new.items) name.now) }
    ensures err { OnErr result (files.new.items ≡ files.old.items) }
{
    let alloc = *files.allocator();
    let file = (Text::of(alloc, name)?, Vec::from_slice(alloc, bytes)?);
    files.insert(0, file)?;
    Ok(())
}
