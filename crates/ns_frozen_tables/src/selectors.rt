//! Which numbers are those of selectors, and how many arguments these take.

ghost use Rattle.std.specs.Prelude.{◌≡◌, ◌≤◌, length, IfOk};
ghost use Rattle.ns_code.specs.declared.program.CodeProgram.{CodeProgram};
ghost use Rattle.ns_code.specs.Selector.{has_name, is_selector_number, selector_arity};
ghost use Rattle.ns_frozen_tables.specs.Selectors.{AreSelectors};

use ns_base::no_memory::NoMemory;
use ns_base::selector::Sel;
use ns_code::program::CodeProgram;
use ns_code::selector::own_text_at;
use ns_code::selectors::SelectorTable;
use std::alloc::Global;

/// What is asked of selectors, found once: how many names there are, which of the machine's own selectors the code names,
/// and how many arguments each takes.
#[derive(Drop)]
pub struct Selectors {
    pub names: usize,
    pub first: bool,
    pub second: bool,
    pub third: bool,
    pub arities: SelectorTable,
}

impl Selectors {
    /// Those of a code.
    pub fn of(alloc: Global, code: &CodeProgram) -> Result<Selectors, NoMemory>
        requires { length code.now.names ≤ 65536 }
        ensures { IfOk result (λ selectors. AreSelectors code.now selectors) }
    {
        let arities = SelectorTable::new(alloc, code)?;
        Ok(Selectors {
            names: code.names.len(),
            first: has_name(code, own_text_at(0)),
            second: has_name(code, own_text_at(1)),
            third: has_name(code, own_text_at(2)),
            arities,
        })
    }

    /// Whether that number is a selector's: a name of the code, or one of the machine's own that the code doesn't name.
    pub fn has(&self, sel: Sel) -> bool
        ensures { (code : CodeProgram) → AreSelectors code self.now → result ≡ is_selector_number code sel.0 }
    {
        let number = sel.0 as usize;
        if number < self.names {
            return true;
        }
        match number - self.names {
            0 => !self.first,
            1 => !self.second,
            2 => !self.third,
            _ => false,
        }
    }

    /// How many arguments a selector takes.
    pub fn arity(&self, sel: Sel) -> usize
        ensures { (code : CodeProgram) → AreSelectors code self.now → result ≡ selector_arity code sel.0 }
    {
        self.arities.arity(sel)
    }
}

/// Whether the code names that text.
fn has_name(code: &CodeProgram, text: &[u8]) -> bool
    ensures { result ≡ has_name code.now text.now }
{
    code.names
        .as_slice()
        .iter()
        .any(|name| text == name.bytes())
}
