//! What is found once for all bodies of a code.

ghost use Rattle.std.specs.Prelude.{◌≡◌, ◌≤◌, ◌<◌, IfOk, length, map, option_map, slice_get};
ghost use Rattle.ns_code.specs.Selector.{selector_arity};
ghost use Rattle.ns_code.specs.declared.class.ClassCode.{ClassCode};
ghost use Rattle.ns_verify_members.specs.Numbers.{IsNameTable};
ghost use Rattle.ns_verify.specs.Around as spec;
ghost use Rattle.ns_verify.specs.Causes.{lacks_private};
ghost use Rattle.ns_verify.specs.Chains.{arounds_from};

use crate::chains::around;
use ns_base::items::Items;
use ns_base::no_memory::NoMemory;
use ns_base::selector::Sel;
use ns_code::body::BodyCode;
use ns_code::class::ClassCode;
use ns_code::program::CodeProgram;
use ns_verify_members::names::NameTable;
use ns_verify_members::privates::{Privates, all_privates};
use std::alloc::Global;

/// The names, the private members of each class, the declaration around each class, and the body
/// around each body.
#[derive(Drop)]
pub struct Tables {
    names: NameTable,
    privates: Items<Privates>,
    outers: Items<Option<u32>>,
    arounds: Items<Option<u32>>,
}

impl Tables {
    /// The tables of a code, from that of its names.
    pub fn new(alloc: Global, code: &CodeProgram, names: NameTable) -> Result<Tables, NoMemory>
        requires few { length code.now.bodies ≤ 65536 }
        requires names { IsNameTable code.now names }
        ensures { IfOk result (λ tables. spec.AreTablesOf code.now tables) }
    {
        let privates = all_privates(alloc, code, &names)?;
        let outers = outers_of(alloc, code.classes.as_slice())?;
        let arounds = arounds_of(alloc, code.bodies.as_slice())?;
        Ok(Tables {
            names,
            privates: Items::from_vec(privates),
            outers: Items::from_vec(outers),
            arounds: Items::from_vec(arounds),
        })
    }

    /// How many arguments a selector takes.
    pub fn arity(&self, code: &CodeProgram, sel: Sel) -> usize
        requires { spec.AreTablesOf code.now self.now }
        ensures { result ≡ selector_arity code.now sel.0 }
    {
        let _code = code;
        self.names.arity(sel)
    }

    /// The declaration around each class.
    pub fn outers(&self) -> &[Option<u32>]
        ensures { result.now ≡ self.now.outers }
    {
        self.outers.as_slice()
    }

    /// The body around each body.
    pub fn arounds(&self) -> &[Option<u32>]
        ensures { result.now ≡ self.now.arounds }
    {
        self.arounds.as_slice()
    }

    /// The private members of a class, where it is there.
    fn privates_of(&self, class: u32) -> Option<&Privates>
        ensures { option_map (λ privates. privates.now) result ≡ slice_get self.now.privates class }
    {
        match self.privates.as_slice().get(class as usize) {
            Some(privates) => Some(privates),
            None => None,
        }
    }

    /// Whether a class that is there has no private member of that name on that side.
    pub fn lacks_private(&self, code: &CodeProgram, class: u32, side: u8, name: Sel) -> bool
        requires tables { spec.AreTablesOf code.now self.now }
        requires name { name.0 < length code.now.names }
        ensures { result ≡ lacks_private code.now side name class }
    {
        let _code = code;
        match self.privates_of(class) {
            Some(privates) => !privates.has(side, name),
            None => false,
        }
    }
}

/// The declarations around classes.
fn outers_of(alloc: Global, classes: &[ClassCode]) -> Result<Vec<Option<u32>>, NoMemory>
    ensures { IfOk result (λ outers. outers.items ≡ map (λ (class : ClassCode). class.outer) classes.now) }
{
    let mut outers = Vec::with_capacity(alloc, classes.len())?;
    'classes: for class in classes {
        outers.push(class.outer)?;
    }
    Ok(outers)
}

/// The bodies around bodies.
fn arounds_of(alloc: Global, bodies: &[BodyCode]) -> Result<Vec<Option<u32>>, NoMemory>
    requires { length bodies.now ≤ 65536 }
    ensures { IfOk result (λ arounds. arounds.items ≡ arounds_from 0 bodies.now) }
{
    let mut arounds = Vec::with_capacity(alloc, bodies.len())?;
    let mut number: u32 = 0;
    'bodies: for body in bodies {
        arounds.push(around(number, body))?;
        number += 1;
    }
    Ok(arounds)
}
