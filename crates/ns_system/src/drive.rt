//! Where real files are: what is asked of the system, one call each.

ghost use Rattle.std.specs.Prelude.{◌≡◌, ℕ, List, [], ◌∷◌, Option, option_map, Some, None, OnErr, OnOk, IfOk, IfSome};
ghost use Rattle.std.specs.Fs.{IsFile, file_type};
ghost use Rattle.ns_base.specs.Files.{Files};
ghost use Rattle.ns_system.specs.Drive.{AnswersOpen, IsPlaced, Kept, begun};

use crate::outlet::Outlet;
use std::alloc::Global;
use std::fs::{Metadata, Permissions};
use std::io::{self, Read};
use std::path::PathBuf;

/// Files by name, and drafts: files that are being written, under names of their own. One that tells what it has holds
/// nothing but files.
pub trait Drive {
    /// A file that is open for reading.
    type Reader: Read + Drop;

    /// A file that is open for writing.
    type Draft: Outlet + Drop;

    /// The files and the drafts, where the drive tells them.
    ghost kept: { Self → Option Kept };

    /// The bytes of a draft that the system keeps beyond its own end, where the drive tells them.
    ghost synced: { Self.Draft → Option (List ℕ) };

    /// Opens the file of that name for reading.
    fn open(&mut self, name: &str) -> io::Result<Self::Reader>
        ensures kept { kept self.new ≡ kept self.old }
        ensures told { IfSome (kept self.old) (λ told. AnswersOpen Self.Reader.remaining told.files name.now result) };

    /// What stands under that name, be it a link.
    fn metadata(&mut self, name: &str) -> io::Result<Metadata>
        ensures kept { kept self.new ≡ kept self.old }
        ensures told { IfSome (kept self.old) (λ _. IfOk result (λ found. IsFile (file_type found))) };

    /// The name of what a link leads to.
    fn followed(&mut self, alloc: Global, name: &str) -> io::Result<PathBuf>
        ensures { kept self.new ≡ kept self.old };

    /// Whether the file of that name may be written. It changes nothing.
    fn is_writable(&mut self, name: &str) -> bool
        ensures { kept self.new ≡ kept self.old };

    /// Begins a draft under that name, where nothing stands there.
    fn begin(&mut self, name: &str) -> io::Result<Self::Draft>
        ensures none { OnErr result (kept self.new ≡ kept self.old) }
        ensures begun { OnOk result (kept self.new ≡ option_map (begun name.now) (kept self.old)) }
        ensures fresh { IfOk result (λ draft. IfSome (kept self.old) (λ _. Self.Draft.written draft ≡ Some [])) };

    /// Gives the draft these permissions.
    fn permit(&mut self, draft: &mut Self::Draft, permissions: Permissions) -> io::Result<()>
        ensures kept { kept self.new ≡ kept self.old }
        ensures written { Self.Draft.written draft.new ≡ Self.Draft.written draft.old };

    /// Has the system keep the draft's bytes beyond its own end.
    fn sync(&mut self, draft: &mut Self::Draft) -> io::Result<()>
        ensures kept { kept self.new ≡ kept self.old }
        ensures synced { OnOk result (IfSome (kept self.old) (λ _. synced draft.new ≡ Self.Draft.written draft.old)) };

    /// Puts the draft `from` in the place `to`, whatever stood there. Of its bytes those are there that were synced.
    fn place(&mut self, draft: Self::Draft, from: &str, to: &str) -> io::Result<()>
        ensures none { OnErr result (kept self.new ≡ kept self.old) }
        ensures untold { kept self.old ≡ None → kept self.new ≡ None }
        ensures placed { OnOk result ((files : Files) → (drafts : List (List ℕ)) → (bytes : List ℕ)
            → kept self.old ≡ Some (record { files = files; drafts = from.now ∷ drafts }) → synced draft ≡ Some bytes
            → IsPlaced to.now files drafts bytes (kept self.new)) };

    /// Removes the draft of that name.
    fn remove(&mut self, name: &str)
        ensures untold { kept self.old ≡ None → kept self.new ≡ None }
        ensures removed { (files : Files) → (drafts : List (List ℕ))
            → kept self.old ≡ Some (record { files = files; drafts = name.now ∷ drafts })
            → kept self.new ≡ Some (record { files = files; drafts = drafts }) };

    /// Opens what stands under that name and is no file, as a device or a pipe, for writing.
    fn through(&mut self, name: &str) -> io::Result<Self::Draft>
        ensures { kept self.old ≡ None → kept self.new ≡ None };
}
