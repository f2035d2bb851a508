//! What stands around a body, found once for all of its instructions.

ghost use Rattle.std.specs.Prelude.{◌≡◌, ℕ, Some, IfOk, slice_get};
ghost use Rattle.ns_code.specs.declared.program.CodeProgram.{CodeProgram};
ghost use Rattle.ns_verify.specs.Around as spec;
ghost use Rattle.ns_verify.specs.Chains.{declaration_at, body_at};

use crate::tables::Tables;
use ns_base::items::Items;
use ns_base::no_memory::NoMemory;
use ns_code::program::CodeProgram;
use std::alloc::Global;

/// How many levels or hops outwards an instruction can name.
const LEVELS: u32 = 256;

/// The declarations around the class of a body, itself first, and the bodies around the body.
#[derive(Drop)]
pub struct Around {
    declarations: Items<u32>,
    bodies: Items<u32>,
}

impl Around {
    /// What stands around a body of that number and class.
    pub fn of(
        alloc: Global,
        code: &CodeProgram,
        tables: &Tables,
        number: u32,
        class: u32,
    ) -> Result<Around, NoMemory>
        requires { spec.AreTablesOf code.now tables.now }
        ensures { IfOk result (λ around. spec.IsAround code.now number class around) }
    {
        let _code = code;
        let declarations = outwards(alloc, tables.outers(), LEVELS, class)?;
        let bodies = outwards(alloc, tables.arounds(), LEVELS, number)?;
        Ok(Around {
            declarations: Items::from_vec(declarations),
            bodies: Items::from_vec(bodies),
        })
    }

    /// The declaration so many levels out from the class, which is at level 0 itself.
    pub fn declaration(&self, level: u8) -> Option<u32>
        ensures { (code : CodeProgram) (number class : ℕ) → spec.IsAround code number class self.now → result ≡ declaration_at code level class }
    {
        at(self.declarations.as_slice(), level)
    }

    /// The body so many bodies out from the body, which is at 0 hops itself.
    pub fn body(&self, hops: u8) -> Option<u32>
        ensures { (code : CodeProgram) (number class : ℕ) → spec.IsAround code number class self.now → result ≡ body_at code hops number }
    {
        at(self.bodies.as_slice(), hops)
    }
}

/// The number at a place, if there is one.
fn at(numbers: &[u32], place: u8) -> Option<u32>
    ensures { result ≡ slice_get numbers.now place }
{
    match numbers.get(usize::from(place)) {
        Some(number) => Some(*number),
        None => None,
    }
}

/// Those that are met outwards from one, itself first, so many at most, by a table of what stands
/// around each.
fn outwards(
    alloc: Global,
    table: &[Option<u32>],
    most: u32,
    number: u32,
) -> Result<Vec<u32>, NoMemory>
    ensures { IfOk result (λ found. found.items ≡ spec.outwards table.now most (Some number)) }
{
    let mut found = Vec::with_capacity(alloc, most as usize)?;
    let mut next = Some(number);
    'levels: for _passed in 0..most {
        match next {
            Some(inner) => {
                found.push(inner)?;
                next = around_in(table, inner);
            }
            None => return Ok(found),
        }
    }
    Ok(found)
}

/// What stands around one, by a table of what stands around each.
fn around_in(table: &[Option<u32>], number: u32) -> Option<u32>
    ensures { result ≡ spec.around_in table.now number }
{
    match table.get(number as usize) {
        Some(around) => *around,
        None => None,
    }
}
