//! The declaration so many levels out from another, which is found in few steps however many levels there are.

ghost use Rattle.std.specs.Prelude.{◌≡◌, ◌*◌, ◌≤◌, length, Some, IfOk};
ghost use Rattle.ns_moves.specs.Lawful.{outer_of};
ghost use Rattle.ns_machine_plan.specs.Outers.{AreOutersOf, out_from};
ghost use Rattle.ns_machine_plan.specs.Privates.{declaration_out};

use ns_base::items::Items;
use ns_base::no_memory::NoMemory;
use ns_code::program::CodeProgram;
use std::alloc::Global;

/// How many levels a far step goes.
const FAR: u8 = 16;

/// For each declaration the one that stands a far step out, if there is one.
#[derive(Drop)]
pub struct Outers {
    far: Items<Option<u32>>,
}

impl Outers {
    /// Those of the declarations of a code.
    pub fn new(alloc: Global, code: &CodeProgram) -> Result<Outers, NoMemory>
        requires { length code.now.classes ≤ 4096 }
        ensures { IfOk result (λ outers. AreOutersOf code.now outers) }
    {
        let count = code.classes.len() as u32;
        let mut far = Vec::with_capacity(alloc, code.classes.len())?;
        'classes: for number in 0..count {
            far.push(out_from(code, Some(number), FAR))?;
        }
        Ok(Outers {
            far: Items::from_vec(far),
        })
    }

    /// The declaration so many levels out from one, where there are as many.
    pub fn declaration_out(&self, code: &CodeProgram, decl: u32, level: u8) -> Option<u32>
        requires { AreOutersOf code.now self.now }
        ensures { result ≡ declaration_out code.now decl level }
    {
        let far = self.far_steps(code, decl, level / FAR);
        out_from(code, far, level % FAR)
    }

    /// The declaration so many far steps out from one.
    fn far_steps(&self, code: &CodeProgram, decl: u32, steps: u8) -> Option<u32>
        requires { AreOutersOf code.now self.now }
        ensures { result ≡ out_from code.now (Some decl) (steps * 16) }
    {
        let mut found = Some(decl);
        'steps: for _passed in 0..steps {
            found = self.far_step(code, found);
        }
        found
    }

    /// The declaration a far step out from one, if there is one.
    #[tactic(auto, using(crate::proofs::Outward::none_out))]
    fn far_step(&self, code: &CodeProgram, from: Option<u32>) -> Option<u32>
        requires { AreOutersOf code.now self.now }
        ensures { result ≡ out_from code.now from 16 }
    {
        match from {
            Some(decl) => self.far_from(code, decl),
            None => None,
        }
    }

    /// The declaration a far step out from one.
    fn far_from(&self, code: &CodeProgram, decl: u32) -> Option<u32>
        requires { AreOutersOf code.now self.now }
        ensures { result ≡ out_from code.now (Some decl) 16 }
    {
        let _code = code;
        match self.far.as_slice().get(decl as usize) {
            Some(far) => *far,
            None => None,
        }
    }
}

/// The declaration so many levels out from one, if there is one, level by level.
fn out_from(code: &CodeProgram, from: Option<u32>, levels: u8) -> Option<u32>
    ensures { result ≡ out_from code.now from levels }
{
    let mut found = from;
    'levels: for _passed in 0..levels {
        found = outer_of(code, found);
    }
    found
}

/// The declaration around another, if there is one.
fn outer_of(code: &CodeProgram, decl: Option<u32>) -> Option<u32>
    ensures { result ≡ outer_of code.now decl }
{
    match decl {
        Some(decl) => outer(code, decl),
        None => None,
    }
}

/// The declaration around another.
fn outer(code: &CodeProgram, decl: u32) -> Option<u32>
    ensures { result ≡ outer_of code.now (Some decl) }
{
    match code.classes.as_slice().get(decl as usize) {
        Some(class) => class.outer,
        None => None,
    }
}
