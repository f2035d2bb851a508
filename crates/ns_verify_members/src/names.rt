//! Names of the code, by their numbers: what is asked of each at every use is found once.

ghost use Rattle.std.specs.Prelude.{◌≡◌, ◌≢◌, ◌≤◌, ◌<◌, Some, length, map, IfOk, slice_get};
ghost use Rattle.std.specs.List.{AllPairs};
ghost use Rattle.ns_base.specs.Spelling.{is_identifier};
ghost use Rattle.ns_code.specs.Selector.{selector_arity};
ghost use Rattle.ns_code.specs.Soundness as spec;
ghost use Rattle.ns_code.specs.declared.program.CodeProgram.{CodeProgram};
ghost use Rattle.ns_verify_members.specs.Numbers.{IsNameTable, setter_number, with_colon};

use ns_base::items::Items;
use ns_base::key::Key;
use ns_base::no_memory::NoMemory;
use ns_base::selector::Sel;
use ns_base::spelled::is_identifier;
use ns_base::text::Text;
use ns_base::text_set::TextSet;
use ns_code::program::CodeProgram;
use ns_code::selectors::SelectorTable;
use std::alloc::Global;

/// Of each name its arity, whether it is an identifier, and the number of the name that is its text
/// with a colon behind it.
#[derive(Drop)]
pub struct NameTable {
    selectors: SelectorTable,
    identifiers: Items<bool>,
    setters: Items<Option<u32>>,
}

impl NameTable {
    /// The table of a code, whose names differ.
    pub fn new(alloc: Global, code: &CodeProgram) -> Result<NameTable, NoMemory>
        requires few { length code.now.names ≤ 65536 }
        requires differ { AllPairs (λ a b. a ≢ b) code.now.names }
        ensures { IfOk result (λ table. IsNameTable code.now table) }
    {
        let names = code.names.as_slice();
        let selectors = SelectorTable::new(alloc, code)?;
        let identifiers = identifiers_of(alloc, names)?;
        let setters = setters_of(alloc, names)?;
        Ok(NameTable {
            selectors,
            identifiers: Items::from_vec(identifiers),
            setters: Items::from_vec(setters),
        })
    }

    /// How many arguments a selector takes.
    pub fn arity(&self, sel: Sel) -> usize
        ensures { (code : CodeProgram) → IsNameTable code self.now → result ≡ selector_arity code sel.0 }
    {
        self.selectors.arity(sel)
    }

    /// Whether it is the number of an identifier.
    pub fn is_identifier(&self, sel: Sel) -> bool
        ensures { (code : CodeProgram) → IsNameTable code self.now → result ≡ spec.is_identifier_name code sel }
    {
        match self.identifiers.as_slice().get(sel.0 as usize) {
            Some(identifier) => *identifier,
            None => false,
        }
    }

    /// The number of the setter of a slot of that name.
    #[tactic(auto, using(crate::proofs::Colons::setter_is))]
    pub fn setter(&self, code: &CodeProgram, name: Sel) -> u32
        requires table { IsNameTable code.now self.now }
        requires name { name.0 < length code.now.names }
        ensures { result ≡ setter_number code.now.names name.0 }
    {
        match self.with_colon(code, name) {
            Some(number) => number,
            None => code.names.len() as u32 + name.0,
        }
    }

    /// The number of the name that is that name with a colon behind it.
    fn with_colon(&self, code: &CodeProgram, name: Sel) -> Option<u32>
        requires table { IsNameTable code.now self.now }
        requires name { name.0 < length code.now.names }
        ensures { slice_get self.now.setters name.0 ≡ Some result }
    {
        let _code = code;
        self.setters.as_slice()[name.0 as usize]
    }

    /// Whether a method with that selector, if it is a name, has so many parameters.
    pub fn has_params(&self, code: &CodeProgram, sel: Sel, params: u8) -> bool
        requires { IsNameTable code.now self.now }
        ensures { result ≡ spec.has_params_of code.now sel params }
    {
        !is_name(code, sel) || usize::from(params) == self.arity(sel)
    }
}

/// Whether a number is a name's.
pub fn is_name(code: &CodeProgram, sel: Sel) -> bool
    ensures { result ≡ spec.is_name code.now sel }
{
    (sel.0 as usize) < code.names.len()
}

/// Which of some names are identifiers.
fn identifiers_of(alloc: Global, names: &[Text]) -> Result<Vec<bool>, NoMemory>
    ensures { IfOk result (λ found. found.items ≡ map is_identifier names.now) }
{
    let mut found = Vec::with_capacity(alloc, names.len())?;
    'names: for name in names {
        found.push(is_identifier(name.bytes()))?;
    }
    Ok(found)
}

/// For each of some names, which differ, the number of the one that is its text with a colon.
fn setters_of(alloc: Global, names: &[Text]) -> Result<Vec<Option<u32>>, NoMemory>
    requires { AllPairs (λ a b. a ≢ b) names.now }
    ensures { IfOk result (λ found. found.items ≡ map (with_colon names.now) names.now) }
{
    let table = table_of(alloc, names)?;
    let found = setters_in(alloc, &table, names);
    drop(table);
    found
}

/// For each of some names the number of the one in a table that is its text with a colon.
fn setters_in(alloc: Global, table: &TextSet, names: &[Text]) -> Result<Vec<Option<u32>>, NoMemory>
    ensures { IfOk result (λ found. found.items ≡ map (with_colon table.now) names.now) }
{
    let mut found = Vec::with_capacity(alloc, names.len())?;
    'names: for name in names {
        found.push(with_colon(alloc, table, name.bytes())?)?;
    }
    Ok(found)
}

/// The number of the name that is this text with a colon behind it.
fn with_colon(alloc: Global, table: &TextSet, text: &[u8]) -> Result<Option<u32>, NoMemory>
    ensures { IfOk result (λ number. number ≡ with_colon table.now text.now) }
{
    let mut bytes = Vec::with_capacity(alloc, text.len() + 1)?;
    bytes.extend_from_slice(text)?;
    bytes.push(b':')?;
    Ok(table.find(bytes.as_slice()))
}

/// The table of some names, which differ.
fn table_of(alloc: Global, names: &[Text]) -> Result<TextSet, NoMemory>
    requires { AllPairs (λ a b. a ≢ b) names.now }
    ensures { IfOk result (λ table. table ≡ names.now) }
{
    let mut table = TextSet::new(alloc, Key::of_texts(names));
    'names: for name in names {
        let name = Text::of(alloc, name.bytes())?;
        table.add(name)?;
    }
    Ok(table)
}
