//! Storing bytes under a name, by what stands there.

ghost use Rattle.std.specs.Prelude.{◌≡◌, IsErrOf, None};
ghost use Rattle.ns_system.specs.Standing.{Finds};
ghost use Rattle.ns_system.specs.Store.{IsStored, OfDrive};

use crate::draft::replace;
use crate::drive::Drive;
use crate::outlet::put_all;
use ns_base::shelf::ShelfFault;
use std::alloc::Global;
use std::fs::{Metadata, Permissions};
use std::io::{self, ErrorKind};

/// What stands under a name.
#[derive(Drop)]
pub enum Standing {
    /// Nothing does.
    Nothing,
    /// A file with these permissions.
    File(Permissions),
    /// A link.
    Link,
    /// Something else, as a folder, a device or a pipe.
    Other,
    /// The system doesn't say.
    Unknown,
}

/// Stores bytes under a name, or leaves all as it was. A link stays, and what it leads to is stored. What is no file can only be
/// written through: of that nothing is told.
#[tactic(auto, using(crate::proofs::Untold::no_link, crate::proofs::Untold::only_files, crate::proofs::Untold::only_untold))]
pub fn store<D: Drive>(
    drive: &mut D,
    alloc: Global,
    name: &str,
    bytes: &[u8],
) -> Result<(), ShelfFault>
    ensures missing { IsErrOf result ShelfFault.Missing → ⊥ }
    ensures told { OfDrive (IsStored name.now bytes.now result) (D.kept drive.old) (D.kept drive.new) }
{
    match found_there(drive.metadata(name)) {
        Standing::Nothing => replace(drive, alloc, name, None, bytes),
        Standing::File(permissions) => overwrite(drive, alloc, name, permissions, bytes),
        Standing::Link => store_followed(drive, alloc, name, bytes),
        Standing::Other => write_through(drive, name, bytes),
        Standing::Unknown => Err(ShelfFault::Failed),
    }
}

/// What stands under a name, by what the system tells of it.
fn found_there(found: io::Result<Metadata>) -> Standing
    ensures { Finds found result }
{
    match found {
        Ok(found) if found.is_file() => Standing::File(found.permissions()),
        Ok(found) if found.is_symlink() => Standing::Link,
        Ok(_) => Standing::Other,
        Err(e) if e.kind() == ErrorKind::NotFound => Standing::Nothing,
        Err(_) => Standing::Unknown,
    }
}

/// Replaces a file, if it may be written.
fn overwrite<D: Drive>(
    drive: &mut D,
    alloc: Global,
    name: &str,
    permissions: Permissions,
    bytes: &[u8],
) -> Result<(), ShelfFault>
    ensures missing { IsErrOf result ShelfFault.Missing → ⊥ }
    ensures told { OfDrive (IsStored name.now bytes.now result) (D.kept drive.old) (D.kept drive.new) }
{
    if drive.is_writable(name) {
        replace(drive, alloc, name, Some(permissions), bytes)
    } else {
        Err(ShelfFault::Failed)
    }
}

/// Stores bytes under the name that a link leads to. A link to nothing can only be written through.
fn store_followed<D: Drive>(
    drive: &mut D,
    alloc: Global,
    name: &str,
    bytes: &[u8],
) -> Result<(), ShelfFault>
    ensures missing { IsErrOf result ShelfFault.Missing → ⊥ }
    ensures untold { D.kept drive.old ≡ None → D.kept drive.new ≡ None }
{
    match drive.followed(alloc, name) {
        Ok(path) => store_there(drive, alloc, path.as_str(), bytes),
        Err(e) if e.kind() == ErrorKind::NotFound => write_through(drive, name, bytes),
        Err(e) if e.kind() == ErrorKind::OutOfMemory => Err(ShelfFault::Memory),
        Err(_) => Err(ShelfFault::Failed),
    }
}

/// Stores bytes under a name to which a link leads.
fn store_there<D: Drive>(
    drive: &mut D,
    alloc: Global,
    name: &str,
    bytes: &[u8],
) -> Result<(), ShelfFault>
    ensures missing { IsErrOf result ShelfFault.Missing → ⊥ }
    ensures untold { D.kept drive.old ≡ None → D.kept drive.new ≡ None }
{
    match found_there(drive.metadata(name)) {
        Standing::File(permissions) => overwrite(drive, alloc, name, permissions, bytes),
        Standing::Other => write_through(drive, name, bytes),
        Standing::Nothing | Standing::Link | Standing::Unknown => Err(ShelfFault::Failed),
    }
}

/// Writes bytes to what stands under a name and is no file.
fn write_through<D: Drive>(drive: &mut D, name: &str, bytes: &[u8]) -> Result<(), ShelfFault>
    ensures missing { IsErrOf result ShelfFault.Missing → ⊥ }
    ensures untold { D.kept drive.old ≡ None → D.kept drive.new ≡ None }
{
    match drive.through(name) {
        Ok(mut to) => {
            if put_all(&mut to, bytes) {
                Ok(())
            } else {
                Err(ShelfFault::Failed)
            }
        }
        Err(_) => Err(ShelfFault::Failed),
    }
}
