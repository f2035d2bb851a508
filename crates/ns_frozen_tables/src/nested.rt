//! In which declaration each class is nested, found once.

ghost use Rattle.std.specs.Prelude.{◌≡◌, ◌≤◌, true, slice_get, slice_set, Some, IfOk, length};
ghost use Rattle.ns_frozen_tables.specs.Nested.{AreOuters};

use ns_base::items::Items;
use ns_base::no_memory::NoMemory;
use ns_code::class::{ClassCode, NestedCode};
use ns_code::program::CodeProgram;
use std::alloc::Global;

/// A declaration that has each class among its nested ones, where there is any, by the number of the class.
#[tactic(auto, using(crate::proofs::Outers::no_outers))]
pub fn outers_of(alloc: Global, code: &CodeProgram) -> Result<Items<Option<u32>>, NoMemory>
    requires { length code.now.classes ≤ 65536 }
    ensures { IfOk result (λ outers. AreOuters code.now outers) }
{
    let mut outers = vec![in alloc; None; code.classes.len()]?;
    let mut decl: u32 = 0;
    'classes: for class in code.classes.as_slice() {
        add_nested(code, &mut outers, decl, class);
        decl += 1;
    }
    Ok(Items::from_vec(outers))
}

/// Adds those nested in one declaration.
fn add_nested(code: &CodeProgram, outers: &mut Vec<Option<u32>>, decl: u32, class: &ClassCode)
    requires outers { AreOuters code.now outers.old.items }
    requires there { slice_get code.now.classes decl ≡ Some class.now }
    ensures { AreOuters code.now outers.new.items }
{
    // The code stands in what is required alone.
    let _code = code;
    'nested: for one in class.nested.as_slice() {
        set_outer(outers, one, decl);
    }
}

/// Sets the declaration of a nested class, if there is a class of that number.
fn set_outer(outers: &mut Vec<Option<u32>>, nested: &NestedCode, decl: u32)
    ensures { outers.new.items ≡ slice_set outers.old.items nested.now.class (Some decl) }
{
    if let Some(outer) = outers.get_mut(nested.class as usize) {
        *outer = Some(decl);
    }
}

/// Whether a class is known to be nested in a declaration.
pub fn is_known_nested(outers: &[Option<u32>], class: u32, decl: u32) -> bool
    ensures { result ≡ true → slice_get outers.now class ≡ Some (Some decl) }
{
    match outers.get(class as usize) {
        Some(Some(outer)) => *outer == decl,
        _ => false,
    }
}
