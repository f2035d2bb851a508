//! The code of one text.

ghost use Rattle.std.specs.Prelude.{◌≡◌, IfErr, IfOk, true};
ghost use Rattle.ns_base.specs.Stored.{file_at};
ghost use Rattle.ns_facets.specs.declared.row.Grants.{Grants};
ghost use Rattle.ns_load.specs.Loaded.{loaded};
ghost use Rattle.ns_run_words.specs.Application.{are_few, names_in};
ghost use Rattle.ns_session_files.specs.Answer.{HasRefusedFile, IsMadeAs};
ghost use Rattle.ns_session_files.specs.Making.{of_loading, one_file};

use crate::fault::JointFault;
use crate::source::code_of_files;
use ns_base::mem_shelf::MemShelf;
use ns_base::no_memory::NoMemory;
use ns_base::text::Text;
use ns_verify::verify::Verified;
use std::alloc::Global;

/// The code of the application whose one file has this name and this text, and of the library where it is asked for; or why it
/// can't be made. It is for hosts that have a text and no files.
pub fn code_of_text(
    alloc: Global,
    name: &str,
    text: &str,
    lib: bool,
) -> Result<Verified, JointFault>
    requires few { are_few 16 (names_in name.now) ≡ true }
    ensures told { (grants : Grants) → IsMadeAs grants
        (of_loading (names_in name.now) grants lib (loaded (names_in name.now) lib (one_file name.now text.now))) result }
    ensures refused { IfErr result HasRefusedFile }
{
    let mut shelf = shelf_of(alloc, name, text)?;
    code_of_files(alloc, name, lib, &mut shelf)
}

/// A shelf of one file.
fn shelf_of(alloc: Global, name: &str, text: &str) -> Result<MemShelf, NoMemory>
    ensures { IfOk result (λ shelf. file_at shelf.files.items ≡ one_file name.now text.now) }
{
    let mut files = Vec::new(alloc);
    let name = Text::of(alloc, name.as_bytes())?;
    files.push((name, text.as_bytes().to_vec(alloc)?))?;
    Ok(MemShelf::new(alloc, files))
}
