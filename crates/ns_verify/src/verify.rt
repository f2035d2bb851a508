//! Which code is admitted.

ghost use Rattle.std.specs.Prelude.{◌≡◌, None, IfOk, MatchResult};
ghost use Rattle.ns_code.specs.Fits.{Fits};
ghost use Rattle.ns_verify.specs.Verify.{fault_of, IsSound, Told};

use crate::fault::VerifyFault;
use crate::faults::first_fault;
use ns_base::no_memory::NoMemory;
use ns_code::copies::TryClone;
use ns_code::program::CodeProgram;
use std::alloc::Global;
use std::marker::Model;

/// Code that was admitted: its numbers fit their fields, and it is sound. A clause sees the code.
#[derive(Drop)]
pub struct Verified {
    code: CodeProgram,
}

impl Model for Verified {
    ghost use Rattle.ns_code.specs.Fits.{Fits};
    ghost use Rattle.ns_code.specs.declared.program.CodeProgram.{CodeProgram};
    ghost use Rattle.ns_verify.specs.Verify.{IsSound};

    ghost Value = { CodeProgram };

    ghost view = { λ verified. verified.code };

    ghost invariant = { λ verified. Fits verified.code × IsSound verified.code };
}

impl Verified {
    /// Code that is known to be sound and to fit its fields.
    pub fn known(code: CodeProgram) -> Verified
        requires fits { Fits code }
        requires sound { IsSound code }
        ensures { result ≡ code }
    {
        Verified { code }
    }

    /// The code.
    pub fn code(&self) -> &CodeProgram
        ensures code { result.now ≡ self.now }
        ensures fits { Fits result.now }
        ensures sound { IsSound result.now }
    {
        &self.code
    }

    /// The same code, in memory of its own.
    pub fn copy(&self, alloc: Global) -> Result<Verified, NoMemory>
        ensures { IfOk result (λ copy. copy ≡ self.now) }
    {
        let code = self.code.try_clone(alloc)?;
        Ok(Verified { code })
    }
}

/// Admits code that is sound; else tells its first fault. The code's numbers must fit their fields.
pub fn verify(alloc: Global, code: CodeProgram) -> Result<Verified, VerifyFault>
    requires { Fits code }
    ensures code { IfOk result (λ verified. verified ≡ code) }
    ensures exact { MatchResult result (λ _. IsSound code) (λ fault. Told (fault_of code) fault) }
{
    match first_fault(alloc, &code) {
        Ok(None) => Ok(Verified { code }),
        Ok(Some(fault)) => {
            drop(code);
            Err(VerifyFault::At {
                cause: fault.cause,
                at: fault.at,
            })
        }
        Err(_) => {
            drop(code);
            Err(VerifyFault::Memory)
        }
    }
}
