//! The private members of all declarations.

ghost use Rattle.std.specs.Prelude.{◌≡◌, ◌<◌, IfOk, length};
ghost use Rattle.std.specs.List.{AllZip};
ghost use Rattle.ns_code.specs.declared.class.ClassCode.{ClassCode};
ghost use Rattle.ns_code.specs.declared.program.CodeProgram.{CodeProgram};
ghost use Rattle.ns_verify_members.specs.Members.{has_private};
ghost use Rattle.ns_verify_members.specs.Numbers as spec;

use crate::members::{private_instance_numbers, private_side_numbers};
use crate::names::NameTable;
use crate::numbers::Numbers;
use ns_base::no_memory::NoMemory;
use ns_base::selector::Sel;
use ns_code::class::ClassCode;
use ns_code::kinds::INSTANCES;
use ns_code::program::CodeProgram;
use std::alloc::Global;

/// The numbers of the private members of a declaration, of both sides.
#[derive(Drop)]
pub struct Privates {
    pub instance: Numbers,
    pub side: Numbers,
}

impl Privates {
    /// Those of a declaration.
    fn of(
        alloc: Global,
        code: &CodeProgram,
        names: &NameTable,
        class: &ClassCode,
    ) -> Result<Privates, NoMemory>
        requires { spec.IsNameTable code.now names.now }
        ensures { IfOk result (λ privates. spec.IsPrivatesOf code.now class.now privates) }
    {
        let instance = private_instance_numbers(alloc, code, names, class)?;
        let side = private_side_numbers(alloc, code, class)?;
        Ok(Privates {
            instance: Numbers::of(instance)?,
            side: Numbers::of(side)?,
        })
    }

    /// Whether a name is the selector of a private member of a side.
    pub fn has(&self, side: u8, name: Sel) -> bool
        ensures { (code : CodeProgram) (class : ClassCode) → spec.IsPrivatesOf code class self.now → name.0 < length code.names →
            result ≡ has_private code side class name.0 }
    {
        if side == INSTANCES {
            self.instance.has(name.0)
        } else {
            self.side.has(name.0)
        }
    }
}

/// Those of all declarations, by number.
pub fn all_privates(
    alloc: Global,
    code: &CodeProgram,
    names: &NameTable,
) -> Result<Vec<Privates>, NoMemory>
    requires { spec.IsNameTable code.now names.now }
    ensures { IfOk result (λ all. AllZip (spec.IsPrivatesOf code.now) code.now.classes all.items) }
{
    privates_of(alloc, code, names, code.classes.as_slice())
}

/// Those of some declarations.
fn privates_of(
    alloc: Global,
    code: &CodeProgram,
    names: &NameTable,
    classes: &[ClassCode],
) -> Result<Vec<Privates>, NoMemory>
    requires { spec.IsNameTable code.now names.now }
    ensures { IfOk result (λ all. AllZip (spec.IsPrivatesOf code.now) classes.now all.items) }
{
    let mut all = Vec::new(alloc);
    'classes: for class in classes {
        all.push(Privates::of(alloc, code, names, class)?)?;
    }
    Ok(all)
}
