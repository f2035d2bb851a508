//! What is asked of selectors at each send, found once.

ghost use Rattle.std.specs.Prelude.{◌≡◌, ◌≤◌, length, map, IfOk};
ghost use Rattle.ns_code.specs.declared.program.CodeProgram.{CodeProgram};
ghost use Rattle.ns_code.specs.Selector.{selector_arity, text_arity, own_text_at, own_number};
ghost use Rattle.ns_code.specs.Selectors.{IsTableOf};

use crate::own::Own;
use crate::program::CodeProgram;
use crate::selector::{own_text_at, text_arity};
use ns_base::items::Items;
use ns_base::no_memory::NoMemory;
use ns_base::selector::Sel;
use ns_base::text::Text;
use std::alloc::Global;

/// The arity of each name of a code, and the machine's own selectors.
#[derive(Drop)]
pub struct SelectorTable {
    arities: Items<usize>,
    package_using: Sel,
    main_args: Sel,
    does_not_understand: Sel,
}

impl SelectorTable {
    /// The table of a code.
    pub fn new(alloc: Global, code: &CodeProgram) -> Result<SelectorTable, NoMemory>
        requires { length code.now.names ≤ 65536 }
        ensures { IfOk result (λ table. IsTableOf code.now table) }
    {
        let arities = arities_of(alloc, code.names.as_slice())?;
        Ok(SelectorTable {
            arities: Items::from_vec(arities),
            package_using: code.own_selector(Own::PackageUsing),
            main_args: code.own_selector(Own::MainArgs),
            does_not_understand: code.own_selector(Own::DoesNotUnderstand),
        })
    }

    /// How many arguments a selector takes.
    pub fn arity(&self, sel: Sel) -> usize
        ensures { (code : CodeProgram) → IsTableOf code self.now → result ≡ selector_arity code sel.0 }
    {
        let arities = self.arities.as_slice();
        let number = sel.0 as usize;
        if number < arities.len() {
            return arities[number];
        }
        text_arity(own_text_at(number - arities.len()))
    }

    /// The number of an own selector.
    pub fn own(&self, own: Own) -> Sel
        ensures { (code : CodeProgram) → IsTableOf code self.now → result.0 ≡ own_number code own }
    {
        match own {
            Own::PackageUsing => self.package_using,
            Own::MainArgs => self.main_args,
            Own::DoesNotUnderstand => self.does_not_understand,
        }
    }
}

/// The arities of names, in their order.
fn arities_of(alloc: Global, names: &[Text]) -> Result<Vec<usize>, NoMemory>
    ensures { IfOk result (λ arities. arities.items ≡ map text_arity names.now) }
{
    let mut arities = Vec::new(alloc);
    'names: for name in names {
        arities.push(text_arity(name.bytes()))?;
    }
    Ok(arities)
}
