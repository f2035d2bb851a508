//! The names of code, and which of them are others with a colon behind them.

ghost use Rattle.std.specs.Prelude.{◌≡◌, ◌++◌, ◌∷◌, [], length, map, IfOk, OnOk};
ghost use Rattle.ns_code.specs.Own.{own_text, own_texts};
ghost use Rattle.ns_code.specs.Selector.{selector_text};
ghost use Rattle.ns_code.specs.Fronts.{front_in, kept_at};
ghost use Rattle.ns_code.specs.declared.program.CodeProgram.{CodeProgram};

use crate::copies::TryClone;
use crate::own::Own;
use ns_base::items::Items;
use ns_base::key::Key;
use ns_base::no_memory::NoMemory;
use ns_base::selector::Sel;
use ns_base::text::Text;
use ns_base::text_set::TextSet;
use std::alloc::Global;
use std::marker::Model;

/// Names, each known by its number in their list. A clause sees the list alone. Beside it stands, for each name and each of the
/// machine's own selectors, the number of the name before the colon at its end.
#[derive(Drop)]
pub struct Names {
    all: Items<Text>,
    fronts: Items<Option<u32>>,
}

impl Model for Names {
    ghost use Rattle.std.specs.Prelude.{ℕ, List, ◌≡◌, ◌++◌, map};
    ghost use Rattle.ns_code.specs.Own.{own_texts};
    ghost use Rattle.ns_code.specs.Fronts.{front_in};

    ghost Value = { List (List ℕ) };

    ghost view = { λ names. names.all };

    ghost invariant = { λ names. names.fronts ≡ map (front_in names.all) (names.all ++ own_texts) };
}

impl Names {
    /// These names. Some that come twice are taken for want of memory.
    pub fn of(alloc: Global, all: Items<Text>) -> Result<Names, NoMemory>
        ensures { IfOk result (λ names. names ≡ all) }
    {
        let table = table_of(alloc, all.as_slice())?;
        match fronts_of(alloc, &table, all.as_slice()) {
            Ok(fronts) => {
                drop(table);
                Ok(Names { all, fronts })
            }
            Err(_) => {
                drop(table);
                drop(all);
                Err(NoMemory)
            }
        }
    }

    /// The names.
    pub fn as_slice(&self) -> &[Text]
        ensures { result.now ≡ self.now }
    {
        self.all.as_slice()
    }

    /// How many there are.
    pub fn len(&self) -> usize
        ensures { result ≡ length self.now }
    {
        self.all.len()
    }

    /// The number of the name before the colon at the end of a selector: of a name, or of one of the machine's own, whose numbers
    /// follow the names.
    #[tactic(auto, using(crate::proofs::Fronting::front_kept))]
    pub fn front(&self, sel: Sel) -> Option<u32>
        ensures { (code : CodeProgram) → self.now ≡ code.names → result ≡ front_in code.names (selector_text code sel.0) }
    {
        kept_at(self.fronts.as_slice(), sel.0)
    }
}

impl TryClone for Names {
    fn try_clone(&self, alloc: Global) -> Result<Names, NoMemory> {
        let all = self.all.try_clone(alloc)?;
        let fronts = Vec::from_slice(alloc, self.fronts.as_slice())?;
        Ok(Names {
            all,
            fronts: Items::from_vec(fronts),
        })
    }
}

/// What is kept under a number, if anything.
fn kept_at(fronts: &[Option<u32>], number: u32) -> Option<u32>
    ensures { result ≡ kept_at fronts.now number }
{
    match fronts.get(number as usize) {
        Some(front) => *front,
        None => None,
    }
}

/// The table of these names, none of which may come twice.
fn table_of(alloc: Global, names: &[Text]) -> Result<TextSet, NoMemory>
    ensures { IfOk result (λ table. table ≡ names.now) }
{
    let mut table = TextSet::new(alloc, Key::of_texts(names));
    'names: for name in names {
        put(alloc, &mut table, name.bytes())?;
    }
    Ok(table)
}

/// Puts a name into the table, where it isn't there.
fn put(alloc: Global, table: &mut TextSet, name: &[u8]) -> Result<(), NoMemory>
    ensures { OnOk result (table.new ≡ table.old ++ name.now ∷ []) }
{
    match table.find(name) {
        Some(_) => Err(NoMemory),
        None => {
            table.add(Text::of(alloc, name)?)?;
            Ok(())
        }
    }
}

/// For each name, and each of the machine's own selectors behind them, the number of the name before the colon at its end.
#[tactic(auto, using(crate::proofs::Fronting::fronts_both))]
fn fronts_of(alloc: Global, table: &TextSet, names: &[Text]) -> Result<Items<Option<u32>>, NoMemory>
    ensures { IfOk result (λ fronts. fronts ≡ map (front_in table.now) (names.now ++ own_texts)) }
{
    let mut fronts = Vec::with_capacity(alloc, names.len())?;
    'names: for name in names {
        fronts.push(front_in(table, name.bytes()))?;
    }
    put_own(&mut fronts, table)?;
    Ok(Items::from_vec(fronts))
}

/// The same for the machine's own selectors.
fn put_own(fronts: &mut Vec<Option<u32>>, table: &TextSet) -> Result<(), NoMemory>
    ensures { OnOk result (fronts.new.items ≡ fronts.old.items ++ map (front_in table.now) own_texts) }
{
    put_front(fronts, table, Own::PackageUsing)?;
    put_front(fronts, table, Own::MainArgs)?;
    put_front(fronts, table, Own::DoesNotUnderstand)?;
    Ok(())
}

/// The same for one of them.
fn put_front(fronts: &mut Vec<Option<u32>>, table: &TextSet, own: Own) -> Result<(), NoMemory>
    ensures { OnOk result (fronts.new.items ≡ fronts.old.items ++ front_in table.now (own_text own) ∷ []) }
{
    fronts.push(front_in(table, own.text()))?;
    Ok(())
}

/// The number of the name before the colon at the end of a text.
fn front_in(table: &TextSet, text: &[u8]) -> Option<u32>
    ensures { result ≡ front_in table.now text.now }
{
    match text {
        [front @ .., last] => {
            if *last == b':' {
                table.find(front)
            } else {
                None
            }
        }
        [] => None,
    }
}
