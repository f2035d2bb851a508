//! Writing a file without losing the old one: a draft beside it takes the bytes, and then its place.

ghost use Rattle.std.specs.Prelude.{◌≡◌, ℕ, List, [], ◌∷◌, IfOk, IfSome, IsErrOf, IsSomeAnd, None, Some, string_bytes, true, false};
ghost use Rattle.std.specs.Path.{path_buf_bytes};
ghost use Rattle.ns_base.specs.Sink.{with_bytes};
ghost use Rattle.ns_base.specs.Files.{Files};
ghost use Rattle.ns_system.specs.Drive.{IsPlaced};
ghost use Rattle.ns_system.specs.Store as spec;
ghost use Rattle.ns_system.specs.Store.{IsStored, OfDrive};

use crate::drive::Drive;
use crate::outlet::put_all;
use ns_base::no_memory::NoMemory;
use ns_base::shelf::ShelfFault;
use std::alloc::Global;
use std::fs::Permissions;
use std::io::ErrorKind;
use std::path::{Path, PathBuf};

/// How many names are tried for a draft. A store that was cut off leaves its draft, and others may be storing too.
const DRAFTS: u32 = 65_536;

/// Replaces the file of that name, or makes it. Where it fails, all files are as they were.
pub fn replace<D: Drive>(
    drive: &mut D,
    alloc: Global,
    name: &str,
    permissions: Option<Permissions>,
    bytes: &[u8],
) -> Result<(), ShelfFault>
    ensures missing { IsErrOf result ShelfFault.Missing → ⊥ }
    ensures told { OfDrive (IsStored name.now bytes.now result) (D.kept drive.old) (D.kept drive.new) }
{
    'names: for number in 0..DRAFTS {
        let path = match draft_name(alloc, name, number) {
            Ok(path) => path,
            Err(_) => return Err(ShelfFault::Memory),
        };
        let beside = path.as_str();
        match drive.begin(beside) {
            Ok(draft) => return finish(drive, draft, beside, name, permissions, bytes),
            Err(e) if e.kind() == ErrorKind::AlreadyExists => {}
            Err(_) => return Err(ShelfFault::Failed),
        }
    }
    Err(ShelfFault::Failed)
}

/// The name of a draft of that number: in the folder of the file.
#[tactic(auto, unfolding(crate::specs::Store::draft_name))]
fn draft_name(alloc: Global, name: &str, number: u32) -> Result<PathBuf, NoMemory>
    ensures { IfOk result (λ beside. path_buf_bytes beside ≡ spec.draft_name name.now number) }
{
    let last = last_name(alloc, number)?;
    Ok(Path::new(name).with_file_name(alloc, last.as_str())?)
}

/// What a draft of that number is called in its folder.
fn last_name(alloc: Global, number: u32) -> Result<String, NoMemory>
    ensures { IfOk result (λ last. string_bytes last ≡ spec.last_name number) }
{
    Ok(format!(in alloc; ".nspk-{number}")?)
}

/// Writes the draft, and has it take the place of the file. Where that fails it is removed.
fn finish<D: Drive>(
    drive: &mut D,
    draft: D::Draft,
    beside: &str,
    name: &str,
    permissions: Option<Permissions>,
    bytes: &[u8],
) -> Result<(), ShelfFault>
    ensures missing { IsErrOf result ShelfFault.Missing → ⊥ }
    ensures untold { D.kept drive.old ≡ None → D.kept drive.new ≡ None }
    ensures told { (files : Files) → (drafts : List (List ℕ)) → D.kept drive.old ≡ Some (record { files = files; drafts = beside.now ∷ drafts })
        → D.Draft.written draft ≡ Some []
        → IsSomeAnd (D.kept drive.new) (IsStored name.now bytes.now result (record { files = files; drafts = drafts })) }
{
    if takes_place(drive, draft, beside, name, permissions, bytes) {
        return Ok(());
    }
    drive.remove(beside);
    Err(ShelfFault::Failed)
}

/// Whether the draft took the bytes and then the place of the file. Where it didn't, the drive is as it was.
fn takes_place<D: Drive>(
    drive: &mut D,
    mut draft: D::Draft,
    beside: &str,
    name: &str,
    permissions: Option<Permissions>,
    bytes: &[u8],
) -> bool
    ensures no { result ≡ false → D.kept drive.new ≡ D.kept drive.old }
    ensures untold { D.kept drive.old ≡ None → D.kept drive.new ≡ None }
    ensures placed { result ≡ true → (files : Files) → (drafts : List (List ℕ))
        → D.kept drive.old ≡ Some (record { files = files; drafts = beside.now ∷ drafts }) → D.Draft.written draft ≡ Some []
        → IsPlaced name.now files drafts bytes.now (D.kept drive.new) }
{
    if !is_filled(drive, &mut draft, permissions, bytes) {
        return false;
    }
    match drive.place(draft, beside, name) {
        Ok(()) => true,
        Err(_) => false,
    }
}

/// Whether the draft has the permissions and the bytes, and the system keeps them.
fn is_filled<D: Drive>(
    drive: &mut D,
    draft: &mut D::Draft,
    permissions: Option<Permissions>,
    bytes: &[u8],
) -> bool
    ensures kept { D.kept drive.new ≡ D.kept drive.old }
    ensures synced { result ≡ true → IfSome (D.kept drive.old) (λ _. D.synced draft.new ≡ with_bytes bytes.now (D.Draft.written draft.old)) }
{
    if let Some(permissions) = permissions {
        if drive.permit(draft, permissions).is_err() {
            return false;
        }
    }
    put_all(draft, bytes) && drive.sync(draft).is_ok()
}
