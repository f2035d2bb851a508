//! A drive as a shelf: what is loaded and stored is counted, and told where the drive tells it.

ghost use Rattle.std.specs.Prelude.{◌≡◌, ◌≢◌, ℕ, List, Err, ◌+◌, ◌≤◌, length, take, Option, None, option_map, IfOk, IfSome, IsErrOf, IsNone, IsSomeAnd, MatchOption, string_bytes};
ghost use Rattle.ns_base.specs.Count.{Rose};
ghost use Rattle.ns_base.specs.Files.{Files};
ghost use Rattle.ns_base.specs.Shelf.{AnswersLoad, AnswersStore};
ghost use Rattle.ns_system.specs.Drive.{AnswersOpen, IsAbsence, files_of};
ghost use Rattle.ns_system.specs.Telling.{KeepsName};

use crate::drive::Drive;
use crate::store::store;
use crate::telling::TellingShelf;
use ns_base::shelf::{Shelf, ShelfFault};
use std::alloc::Global;
use std::io::{self, ErrorKind, Read};

/// How many bytes are read at once.
const READ_BYTES: u64 = 16_384;

/// The files of a drive, with how many loads found no file, how many failed, and how many stores failed; and with the names of the
/// files where a load and where a store failed last. A name for which no memory was found isn't kept.
#[derive(Drop)]
pub struct Disk<D> {
    pub drive: D,
    alloc: Global,
    pub misses: u64,
    pub faults: u64,
    pub store_faults: u64,
    pub unread: Option<String>,
    pub unstored: Option<String>,
}

impl<D> Disk<D> {
    /// The files of the drive, of which no load and no store failed yet.
    pub fn new(alloc: Global, drive: D) -> Disk<D>
        ensures drive { result.drive ≡ drive }
        ensures counts { result.misses + result.faults + result.store_faults ≡ 0 }
        ensures unread { result.unread ≡ None }
        ensures unstored { result.unstored ≡ None }
    {
        Disk {
            drive,
            alloc,
            misses: 0,
            faults: 0,
            store_faults: 0,
            unread: None,
            unstored: None,
        }
    }
}

impl<D: Drive> Shelf for Disk<D> {
    ghost use Rattle.ns_system.specs.Drive.{files_of};

    ghost holds = { λ s. files_of (D.kept s.drive) };

    ghost misses = { λ s. s.misses };

    ghost faults = { λ s. s.faults };

    ghost store_faults = { λ s. s.store_faults };

    /// The first `most` bytes of the file. Where that fails, its name is kept.
    fn load(&mut self, alloc: Global, name: &str, most: u64) -> Result<Vec<u8>, ShelfFault>
        ensures unread { KeepsName name.now result (option_map string_bytes self.old.unread) (option_map string_bytes self.new.unread) }
        ensures unstored { self.new.unstored ≡ self.old.unstored }

        ensures holds { files_of (D.kept self.new.drive) ≡ files_of (D.kept self.old.drive) }
        ensures store_faults { self.new.store_faults ≡ self.old.store_faults }
        ensures misses { self.old.misses ≤ self.new.misses }
        ensures faults { self.old.faults ≤ self.new.faults }
        ensures at_most { IfOk result (λ bytes. length bytes.items ≤ most) }
        ensures missing { IsErrOf result ShelfFault.Missing → Rose self.old.misses self.new.misses }
        ensures failed { IsErrOf result ShelfFault.Failed → Rose self.old.faults self.new.faults }
        ensures told { IfSome (files_of (D.kept self.old.drive)) (λ files. AnswersLoad files name.now most result) }
    {
        match load(&mut self.drive, alloc, name, most) {
            Ok(bytes) => Ok(bytes),
            Err(ShelfFault::Missing) => {
                self.misses = self.misses.saturating_add(1);
                Err(ShelfFault::Missing)
            }
            Err(ShelfFault::Failed) => {
                self.faults = self.faults.saturating_add(1);
                self.unread = kept(alloc, name);
                Err(ShelfFault::Failed)
            }
            Err(ShelfFault::Memory) => Err(ShelfFault::Memory),
        }
    }

    /// Makes these the bytes of the file. Where that fails, its name is kept.
    fn store(&mut self, name: &str, bytes: &[u8]) -> Result<(), ShelfFault>
        ensures unstored { KeepsName name.now result (option_map string_bytes self.old.unstored) (option_map string_bytes self.new.unstored) }
        ensures unread { self.new.unread ≡ self.old.unread }

        ensures misses { self.new.misses ≡ self.old.misses }
        ensures faults { self.new.faults ≡ self.old.faults }
        ensures store_faults { self.old.store_faults ≤ self.new.store_faults }
        ensures missing { IsErrOf result ShelfFault.Missing → ⊥ }
        ensures failed { IsErrOf result ShelfFault.Failed → Rose self.old.store_faults self.new.store_faults }
        ensures told { MatchOption (files_of (D.kept self.old.drive)) (IsNone (files_of (D.kept self.new.drive)))
            (λ old. IsSomeAnd (files_of (D.kept self.new.drive)) (λ new. AnswersStore old new name.now bytes.now result)) }
    {
        match store(&mut self.drive, self.alloc, name, bytes) {
            Ok(()) => Ok(()),
            Err(ShelfFault::Memory) => Err(ShelfFault::Memory),
            Err(_) => {
                self.store_faults = self.store_faults.saturating_add(1);
                self.unstored = kept(self.alloc, name);
                Err(ShelfFault::Failed)
            }
        }
    }
}

impl<D: Drive> TellingShelf for Disk<D> {
    ghost use Rattle.std.specs.Prelude.{option_map, string_bytes};

    ghost unread = { λ s. option_map string_bytes s.unread };

    ghost unstored = { λ s. option_map string_bytes s.unstored };

    fn unread(&self) -> Option<&str> {
        as_text(&self.unread)
    }

    fn unstored(&self) -> Option<&str> {
        as_text(&self.unstored)
    }

    fn failed_stores(&self) -> u64 {
        self.store_faults
    }
}

/// A name to be kept, if memory is found for it.
fn kept(alloc: Global, name: &str) -> Option<String>
    ensures { IfSome result (λ kept. string_bytes kept ≡ name.now) }
{
    match String::from_str(alloc, name) {
        Ok(name) => Some(name),
        Err(_) => None,
    }
}

/// The name that was kept.
fn as_text(kept: &Option<String>) -> Option<&str>
    ensures { option_map (λ name. name.now) result ≡ option_map string_bytes kept.now }
{
    match kept {
        Some(name) => Some(name.as_str()),
        None => None,
    }
}

/// The first `most` bytes of the file of that name, or all where it has fewer.
fn load<D: Drive>(
    drive: &mut D,
    alloc: Global,
    name: &str,
    most: u64,
) -> Result<Vec<u8>, ShelfFault>
    ensures kept { D.kept drive.new ≡ D.kept drive.old }
    ensures at_most { IfOk result (λ bytes. length bytes.items ≤ most) }
    ensures told { IfSome (files_of (D.kept drive.old)) (λ files. AnswersLoad files name.now most result) }
{
    read_opened(drive.open(name), alloc, most)
}

/// What a load answers, by how the file was opened.
fn read_opened<R: Read + Drop>(
    opened: io::Result<R>,
    alloc: Global,
    most: u64,
) -> Result<Vec<u8>, ShelfFault>
    ensures at_most { IfOk result (λ bytes. length bytes.items ≤ most) }
    ensures told { (files : Files) → (name : List ℕ) → AnswersOpen R.remaining files name opened → AnswersLoad files name most result }
{
    match opened {
        Ok(mut file) => read_first(&mut file, alloc, most),
        Err(e) => Err(opening_fault(e.kind())),
    }
}

/// A file that can't be opened isn't there where its name leads to nothing.
fn opening_fault(kind: ErrorKind) -> ShelfFault
    ensures missing { result ≡ ShelfFault.Missing → IsAbsence kind }
    ensures failed { result ≢ ShelfFault.Missing → (result ≡ ShelfFault.Failed) × (IsAbsence kind → ⊥) }
{
    match kind {
        ErrorKind::NotFound | ErrorKind::NotADirectory | ErrorKind::InvalidFilename => {
            ShelfFault::Missing
        }
        _ => ShelfFault::Failed,
    }
}

/// The first `most` bytes that a reader gives, or all where it has fewer. A read that was interrupted is made again.
#[tactic(auto, using(crate::proofs::Taken::nothing_taken, crate::proofs::Taken::more_taken, crate::proofs::Taken::still_taken, crate::proofs::Taken::taken_most, crate::proofs::Taken::taken_all))]
fn read_first<R: Read>(from: &mut R, alloc: Global, most: u64) -> Result<Vec<u8>, ShelfFault>
    ensures at_most { IfOk result (λ bytes. length bytes.items ≤ most) }
    ensures first { IfOk result (λ bytes. IfSome (R.remaining from.old) (λ all. bytes.items ≡ take most all)) }
    ensures there { result ≢ Err ShelfFault.Missing }
{
    let mut bytes = Vec::new(alloc);
    let mut buffer = [0u8; READ_BYTES as usize];
    let mut left = most;
    'pieces: for _ in 0..u64::MAX {
        let want = left.min(READ_BYTES) as usize;
        if want == 0 {
            return Ok(bytes);
        }
        match from.read(&mut buffer[..want]) {
            Ok(0) => return Ok(bytes),
            Ok(n) => {
                if bytes.extend_from_slice(&buffer[..n]).is_err() {
                    return Err(ShelfFault::Memory);
                }
                left -= n as u64;
            }
            Err(e) if e.kind() == ErrorKind::Interrupted => {}
            Err(_) => return Err(ShelfFault::Failed),
        }
    }
    Err(ShelfFault::Failed)
}
