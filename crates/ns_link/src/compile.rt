//! The compiler: it generates code, which is sound and fits its fields.

ghost use Rattle.std.specs.Prelude.{◌≡◌, None, Some, IfOk, OnOk, IsErrOf};
ghost use Rattle.ns_code.specs.Fits.{Fits};
ghost use Rattle.ns_verify.specs.Verify.{IsSound};
ghost use Rattle.ns_resolved.specs.Classes.{meant};
ghost use Rattle.ns_gen_code.specs.declared.size.SizeKind.{SizeKind};
ghost use Rattle.ns_gen_code.specs.Code.{code_of};
ghost use Rattle.ns_gen_code.specs.Sizes.{size_fault};
ghost use Rattle.ns_link.specs.declared.fault.LinkFault.TheVariants.{TooLarge};

use crate::fault::LinkFault;
use crate::sound::{code_fits, code_is_sound};
use ns_gen::fault::GenFault;
use ns_gen::generate::generate;
use ns_static::check::Checked;
use ns_verify::verify::Verified;
use std::alloc::Global;

/// The code of a program, admitted; or the first size of it that passes its limit.
pub fn compile(alloc: Global, checked: &Checked) -> Result<Verified, LinkFault>
    ensures code { IfOk result (λ verified. verified ≡ code_of (meant checked.now)) }
    ensures fits { OnOk result (Fits (code_of (meant checked.now))) }
    ensures sound { OnOk result (IsSound (code_of (meant checked.now))) }
    ensures small { OnOk result (size_fault (code_of (meant checked.now)) ≡ None) }
    ensures large { (kind : SizeKind) → IsErrOf result (TooLarge kind) → size_fault (code_of (meant checked.now)) ≡ Some kind }
{
    code_is_sound();
    code_fits();
    match generate(alloc, checked.program()) {
        Ok(code) => Ok(Verified::known(code)),
        Err(GenFault::TooLarge(kind)) => Err(LinkFault::TooLarge(kind)),
        Err(GenFault::Memory) => Err(LinkFault::Memory),
    }
}
