//! The code of an image: its bytes are read, and it is verified.

ghost use Rattle.std.specs.Prelude.{◌≡◌, IfOk, IsErrOf};
ghost use Rattle.ns_code.specs.Fits.{Fits};
ghost use Rattle.ns_run_code.specs.Exec as spec;
ghost use Rattle.ns_run_code.specs.declared.exec.ExecFault.TheVariants.{Image, Unsound};
ghost use Rattle.ns_image.specs.declared.fault.ImageFault.{ImageFault};
ghost use Rattle.ns_verify.specs.Verify.{fault_of};
ghost use Rattle.ns_verify.specs.declared.fault.VerifyCause.{VerifyCause};
ghost use Rattle.ns_verify.specs.declared.fault.Where.{Where};

use crate::listing::{ListFault, read_code};
use ns_base::no_memory::NoMemory;
use ns_code::program::CodeProgram;
use ns_image::fault::ImageFault;
use ns_verify::fault::{VerifyCause, VerifyFault, Where};
use ns_verify::verify::{Verified, verify};
use std::alloc::Global;

/// Why an image has no code to run: its bytes are no image (never for want of memory, which has its own
/// variant), its code isn't admitted, or no memory was found.
#[derive(Clone, Copy)]
pub enum ExecFault {
    Image(ImageFault),
    Unsound { cause: VerifyCause, at: Where },
    Memory,
}

impl From<NoMemory> for ExecFault {
    ghost use Rattle.ns_run_code.specs.declared.exec.ExecFault.TheVariants.{Memory};

    ghost from_gives = { λ _ e. e ≡ Memory };

    fn from(_error: NoMemory) -> ExecFault {
        ExecFault::Memory
    }
}

/// The code of an image, admitted; or the first fault of the bytes, or of the code.
pub fn image_code(alloc: Global, bytes: &[u8]) -> Result<Verified, ExecFault>
    ensures code { IfOk result (λ code. spec.image_code bytes.now ≡ spec.admitted code) }
    ensures image { (fault : ImageFault) → IsErrOf result (Image fault) → spec.image_code bytes.now ≡ spec.refused_image fault }
    ensures unsound { (cause : VerifyCause) (at : Where) → IsErrOf result (Unsound cause at) → spec.image_code bytes.now ≡ spec.refused_code cause at }
{
    match read_code(alloc, bytes) {
        Ok(code) => admitted(alloc, code),
        Err(ListFault::Image(fault)) => Err(ExecFault::Image(fault)),
        Err(ListFault::Memory) => Err(ExecFault::Memory),
    }
}

/// Code that was read, admitted; or its first fault.
fn admitted(alloc: Global, code: CodeProgram) -> Result<Verified, ExecFault>
    requires { Fits code }
    ensures code { IfOk result (λ same. spec.of_code code (fault_of code) ≡ spec.admitted same) }
    ensures unsound { (cause : VerifyCause) (at : Where) → IsErrOf result (Unsound cause at) →
        spec.of_code code (fault_of code) ≡ spec.refused_code cause at }
    ensures no_image { (fault : ImageFault) → IsErrOf result (Image fault) → ⊥ }
{
    match verify(alloc, code) {
        Ok(verified) => Ok(verified),
        Err(VerifyFault::Memory) => Err(ExecFault::Memory),
        Err(VerifyFault::At { cause, at }) => Err(ExecFault::Unsound { cause, at }),
    }
}
