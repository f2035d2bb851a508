//! The listing of an image: its bytes are read, and the code is listed as it is.

ghost use Rattle.std.specs.Prelude.{◌≡◌, Ok, Err, IfOk, IsErrOf};
ghost use Rattle.ns_code.specs.Fits.{Fits};
ghost use Rattle.ns_run_code.specs.Listing as spec;
ghost use Rattle.ns_run_code.specs.declared.listing.ListFault.TheVariants.{Image};
ghost use Rattle.ns_image.specs.Reading.{read_image};
ghost use Rattle.ns_image.specs.declared.fault.ImageFault.{ImageFault};

use ns_base::no_memory::NoMemory;
use ns_code::program::CodeProgram;
use ns_image::fault::ImageFault;
use ns_image::read::read;
use ns_image_list::list::list;
use std::alloc::Global;

/// Why there is no listing: the bytes are no image (never for want of memory, which has its own
/// variant), or no memory was found.
#[derive(Clone, Copy)]
pub enum ListFault {
    Image(ImageFault),
    Memory,
}

impl From<NoMemory> for ListFault {
    ghost use Rattle.ns_run_code.specs.declared.listing.ListFault.TheVariants.{Memory};

    ghost from_gives = { λ _ e. e ≡ Memory };

    fn from(_error: NoMemory) -> ListFault {
        ListFault::Memory
    }
}

/// The listing of the code of an image, admitted or not; or the first fault of its bytes.
pub fn listing_of(alloc: Global, bytes: &[u8]) -> Result<Vec<u8>, ListFault>
    ensures lines { IfOk result (λ text. spec.listed bytes.now ≡ spec.lines text.items) }
    ensures image { (fault : ImageFault) → IsErrOf result (Image fault) → spec.listed bytes.now ≡ spec.unlisted fault }
{
    let code = read_code(alloc, bytes)?;
    let lines = list(alloc, &code)?;
    Ok(lines)
}

/// The code of an image, or the first fault of its bytes.
pub fn read_code(alloc: Global, bytes: &[u8]) -> Result<CodeProgram, ListFault>
    ensures code { IfOk result (λ code. read_image bytes.now ≡ Ok code) }
    ensures fits { IfOk result Fits }
    ensures image { (fault : ImageFault) → IsErrOf result (Image fault) → read_image bytes.now ≡ Err fault }
{
    match read(alloc, bytes) {
        Ok(code) => Ok(code),
        Err(fault) => Err(told_fault(fault)),
    }
}

/// The fault of an image, with want of memory as a variant of its own.
fn told_fault(fault: ImageFault) -> ListFault
    ensures { result ≡ spec.told_fault fault }
{
    match fault {
        ImageFault::Memory => ListFault::Memory,
        fault => ListFault::Image(fault),
    }
}
