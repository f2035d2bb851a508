//! The writer of a program's names, its literal texts, and the lines of one body after the other.

ghost use Rattle.std.specs.Prelude.{◌≡◌, ◌<◌, ◌^◌, ◌++◌, [], OnOk, OnErr, IfOk, length, map};
ghost use Rattle.ns_gen_code.specs.Code.{does, symbol, sends, starts, instr_of, places_from};
ghost use Rattle.ns_gen_draft.specs.Drafts.{with_line, with_name, with_text, with_draft, without_lines, way_of, line_of, IsBelow, IsNumberOf, instruction, draft_places};

use crate::draft::{Draft, SendWay};
use crate::names::Names;
use crate::never::cannot_come;
use ns_base::key::Key;
use ns_base::no_memory::NoMemory;
use ns_base::place::Place;
use ns_base::selector::Sel;
use ns_base::text::Text;
use ns_code::instruction::Instr;
use std::alloc::Global;
use std::marker::Model;

/// How many lines a body that gets code has at most.
pub const MOST_LINES: usize = 65536;

/// The tables of names and literal texts, and the lines of the body that is written. A clause sees a
/// line with the text of its selector, so a table that grows changes no line. Of lines that are too many
/// no more are kept than tell so, however long the body.
#[derive(Drop)]
pub struct Writer {
    alloc: Global,
    names: Names,
    texts: Vec<Text>,
    drafts: Vec<Draft>,
}

impl Model for Writer {
    ghost use Rattle.std.specs.Prelude.{length};
    ghost use Rattle.ns_base.specs.Names.{NoRepeats};
    ghost use Rattle.ns_gen_draft.specs.Drafts.{Written, written, AreBelow};

    ghost Value = { Written };

    ghost view = { λ writer. written writer.names writer.texts.items writer.drafts.items };

    ghost invariant = { λ writer. NoRepeats writer.names × AreBelow (length writer.names) writer.drafts.items };
}

impl Writer {
    /// A writer of a body without lines, and the key of its table of names.
    #[tactic(auto, using(crate::proofs::Stand::table_distinct))]
    pub fn new(alloc: Global, key: Key) -> Writer
        ensures { result ≡ record { names = []; texts = []; lines = [] } }
    {
        Writer {
            alloc,
            names: Names::new(alloc, key),
            texts: Vec::new(alloc),
            drafts: Vec::new(alloc),
        }
    }

    /// Where its memory comes from.
    pub fn alloc(&self) -> Global {
        self.alloc
    }

    /// An instruction that names no selector.
    pub fn does(&mut self, instr: Instr) -> Result<(), NoMemory>
        ensures put { OnOk result (self.new ≡ with_line self.old (does instr)) }
    {
        self.put(Draft::Does(instr))
    }

    /// The symbol of that text.
    pub fn symbol(&mut self, text: &[u8]) -> Result<(), NoMemory>
        ensures put { OnOk result (self.new ≡ with_line (with_name self.old text.now) (symbol text.now)) }
    {
        let sel = self.number(text)?;
        self.put(Draft::Symbol(sel))
    }

    /// A send with so many arguments.
    pub fn sends(
        &mut self,
        way: SendWay,
        text: &[u8],
        place: Place,
        argc: u8,
    ) -> Result<(), NoMemory>
        ensures put { OnOk result (self.new ≡ with_line (with_name self.old text.now)
            (sends (way_of way) (record { selector = text.now; place = place }) argc)) }
    {
        let sel = self.number(text)?;
        self.put(Draft::Sends {
            way,
            sel,
            place,
            argc,
        })
    }

    /// A superclass part that is initialised with so many arguments.
    pub fn starts(&mut self, place: Place, argc: u8) -> Result<(), NoMemory>
        ensures put { OnOk result (self.new ≡ with_line self.old (starts place argc)) }
    {
        self.put(Draft::Starts { place, argc })
    }

    /// A literal text, which gets the next number.
    #[tactic(auto, using(crate::proofs::Stand::text_put, crate::proofs::Stand::below_put))]
    pub fn text(&mut self, bytes: &[u8]) -> Result<(), NoMemory>
        ensures put { OnOk result (self.new ≡ with_text self.old bytes.now) }
    {
        let Ok(number) = u32::try_from(self.texts.len()) else {
            return Err(cannot_come());
        };
        let text = Text::of(self.alloc, bytes)?;
        self.texts.push(text)?;
        put_draft(&mut self.drafts, Draft::Does(Instr::PushText(number)))?;
        Ok(())
    }

    /// A name of a class's record, which gets a number.
    pub fn name(&mut self, text: &[u8]) -> Result<Sel, NoMemory>
        ensures named { OnOk result (self.new ≡ with_name self.old text.now) }
        ensures found { IfOk result (λ sel. IsNumberOf self.new.names sel text.now) }
    {
        self.number(text)
    }

    /// The tables of names and literal texts.
    pub fn into_tables(self) -> (Names, Vec<Text>)
        ensures names { result.0 ≡ self.names }
        ensures texts { result.1.items ≡ self.texts }
    {
        (self.names, self.texts)
    }

    /// How many names there are.
    pub fn name_count(&self) -> usize
        ensures { result ≡ length self.now.names }
    {
        self.names.count()
    }

    /// How many lines there are.
    pub fn line_count(&self) -> usize
        ensures { result ≡ length self.now.lines }
    {
        self.drafts.len()
    }

    /// Begins the next body.
    pub fn clear(&mut self)
        ensures { self.new ≡ without_lines self.old }
    {
        self.drafts.clear();
    }

    /// The instructions of the lines.
    #[tactic(auto, using(crate::proofs::Numbers::instructions_are))]
    pub fn instructions(&self) -> Result<Vec<Instr>, NoMemory>
        ensures { IfOk result (λ instrs. instrs.items ≡ map (instr_of self.now.names) self.now.lines) }
    {
        instructions(self.alloc, &self.drafts)
    }

    /// The places of sends and superclass parts, by the numbers of their instructions, of which there
    /// are few.
    pub fn places(&self) -> Result<Vec<(u32, Place)>, NoMemory>
        requires few { length self.now.lines < 2 ^ 32 }
        ensures { IfOk result (λ places. places.items ≡ places_from 0 self.now.lines) }
    {
        places(self.alloc, &self.drafts)
    }

    /// The number of a text, which gets the next one where it is new.
    #[tactic(auto, using(crate::proofs::Stand::named, crate::proofs::Stand::below_named, crate::proofs::Stand::text_at_number))]
    fn number(&mut self, text: &[u8]) -> Result<Sel, NoMemory>
        ensures named { OnOk result (self.new ≡ with_name self.old text.now) }
        ensures found { IfOk result (λ sel. IsNumberOf self.new.names sel text.now) }
    {
        let sel = self.names.intern(text)?;
        Ok(sel)
    }

    #[tactic(auto, using(crate::proofs::Stand::below_put, crate::proofs::Stand::line_put))]
    fn put(&mut self, draft: Draft) -> Result<(), NoMemory>
        requires { IsBelow (length self.old.names) draft }
        ensures put { OnOk result (self.new ≡ with_line self.old (line_of self.old.names draft)) }
    {
        match put_draft(&mut self.drafts, draft) {
            Err(_) => Err(NoMemory),
            Ok(()) => Ok(()),
        }
    }
}

/// A further draft, unless there are too many already. After a refusal the drafts are as they were.
fn put_draft(drafts: &mut Vec<Draft>, draft: Draft) -> Result<(), NoMemory>
    ensures put { OnOk result (drafts.new.items ≡ with_draft drafts.old.items draft) }
    ensures unchanged { OnErr result (drafts.new.items ≡ drafts.old.items) }
{
    if drafts.len() > MOST_LINES {
        return Ok(());
    }
    drafts.push(draft)?;
    Ok(())
}

fn instructions(alloc: Global, drafts: &[Draft]) -> Result<Vec<Instr>, NoMemory>
    ensures { IfOk result (λ instrs. instrs.items ≡ map instruction drafts.now) }
{
    let mut instrs = Vec::with_capacity(alloc, drafts.len())?;
    put_instructions(&mut instrs, drafts)?;
    Ok(instrs)
}

fn put_instructions(instrs: &mut Vec<Instr>, drafts: &[Draft]) -> Result<(), NoMemory>
    ensures { OnOk result (instrs.new.items ≡ instrs.old.items ++ map instruction drafts.now) }
{
    for draft in drafts {
        instrs.push(draft.instruction())?;
    }
    Ok(())
}

fn places(alloc: Global, drafts: &[Draft]) -> Result<Vec<(u32, Place)>, NoMemory>
    requires few { length drafts.now < 2 ^ 32 }
    ensures { IfOk result (λ places. places.items ≡ draft_places 0 drafts.now) }
{
    let mut places = Vec::with_capacity(alloc, place_count(drafts))?;
    put_places(&mut places, drafts)?;
    Ok(places)
}

/// How many drafts have a place. Code is kept, so it gets no more room for places than it has.
fn place_count(drafts: &[Draft]) -> usize
    ensures { result ≡ length (draft_places 0 drafts.now) }
{
    let mut count: usize = 0;
    for draft in drafts {
        if draft.place().is_some() {
            count += 1;
        }
    }
    count
}

fn put_places(places: &mut Vec<(u32, Place)>, drafts: &[Draft]) -> Result<(), NoMemory>
    requires few { length drafts.now < 2 ^ 32 }
    ensures { OnOk result (places.new.items ≡ places.old.items ++ draft_places 0 drafts.now) }
{
    let mut number: u32 = 0;
    for draft in drafts {
        if let Some(place) = draft.place() {
            places.push((number, place))?;
        }
        number += 1;
    }
    Ok(())
}
