//! The image of a program without static faults.

ghost use Rattle.std.specs.Prelude.{◌≡◌, IfOk, OnOk, IsErrOf};
ghost use Rattle.ns_code.specs.Fits.{Fits};
ghost use Rattle.ns_gen_code.specs.Code.{code_of};
ghost use Rattle.ns_gen_code.specs.declared.size.SizeKind.{SizeKind};
ghost use Rattle.ns_resolved.specs.Classes.{meant};
ghost use Rattle.ns_verify.specs.Verify.{IsSound};
ghost use Rattle.ns_run_code.specs.Build.{built_of, of_bytes, image, too_large, image_too_large};
ghost use Rattle.ns_run_code.specs.declared.build.BuildFault.TheVariants.{TooLarge, Image};

use ns_base::no_memory::NoMemory;
use ns_gen_code::size::SizeKind;
use ns_image_write::write::write;
use ns_link::compile::compile;
use ns_link::fault::LinkFault;
use ns_static::check::Checked;
use std::alloc::Global;

/// Why a program has no image: a size of its code passes its limit, the image would be too large, or
/// no memory was found.
#[derive(Clone, Copy)]
pub enum BuildFault {
    TooLarge(SizeKind),
    Image,
    Memory,
}

impl From<NoMemory> for BuildFault {
    ghost use Rattle.ns_run_code.specs.declared.build.BuildFault.TheVariants.{Memory};

    ghost from_gives = { λ _ e. e ≡ Memory };

    fn from(_error: NoMemory) -> BuildFault {
        BuildFault::Memory
    }
}

/// The most bytes of an image.
const MOST_BYTES: usize = 134_217_728;

/// The image of a program; or the first size of its code that passes its limit, or that the image has
/// too many bytes. The program's tree is given back before the image is written.
pub fn build(alloc: Global, checked: Checked) -> Result<Vec<u8>, BuildFault>
    ensures image { IfOk result (λ bytes. built_of (meant checked) ≡ image bytes.items) }
    ensures fits { OnOk result (Fits (code_of (meant checked))) }
    ensures sound { OnOk result (IsSound (code_of (meant checked))) }
    ensures large { (kind : SizeKind) → IsErrOf result (TooLarge kind) → built_of (meant checked) ≡ too_large kind }
    ensures large_image { IsErrOf result Image → built_of (meant checked) ≡ image_too_large }
{
    match compile(alloc, &checked) {
        Ok(code) => {
            drop(checked);
            let bytes = write(alloc, code.code())?;
            measured(bytes)
        }
        Err(LinkFault::TooLarge(kind)) => Err(BuildFault::TooLarge(kind)),
        Err(LinkFault::Memory) => Err(BuildFault::Memory),
    }
}

/// An image that isn't too large.
fn measured(bytes: Vec<u8>) -> Result<Vec<u8>, BuildFault>
    ensures image { IfOk result (λ same. of_bytes bytes.items ≡ image same.items) }
    ensures large_image { IsErrOf result Image → of_bytes bytes.items ≡ image_too_large }
    ensures no_size { (kind : SizeKind) → IsErrOf result (TooLarge kind) → ⊥ }
{
    if bytes.len() > MOST_BYTES {
        return Err(BuildFault::Image);
    }
    Ok(bytes)
}
