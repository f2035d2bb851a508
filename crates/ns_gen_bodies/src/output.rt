//! What is generated: the tables, and the code of one body after the other.

ghost use Rattle.std.specs.Prelude.{◌≡◌, ◌+◌, [], true, None, length, IfOk, OnOk, option_map};
ghost use Rattle.ns_tree.specs.Plain as p;
ghost use Rattle.ns_tree.specs.PlainOf.{bars_of, statements_of, clause_of, class_of, pattern_of};
ghost use Rattle.ns_scope.specs.Scopes.{factory_params};
ghost use Rattle.ns_resolved.specs.Program.{as_method};
ghost use Rattle.ns_resolved.specs.Statements.{routine};
ghost use Rattle.ns_resolved.specs.Classes.{clause_body, initialiser_body};
ghost use Rattle.ns_gen_draft.specs.Standing.{standing};
ghost use Rattle.ns_gen_bodies.specs.Heading.{block_in};
ghost use Rattle.ns_gen_bodies.specs.Coding.{with_one, graver, with_lines_of, coded_of};

use crate::clauses::put_clause;
use crate::finish::{Finished, finish};
use crate::head::head;
use crate::initialisers::put_initialiser;
use crate::steps::{put_block_body, put_method_body};
use ns_base::no_memory::NoMemory;
use ns_base::text::Text;
use ns_code::body::BodyCode;
use ns_code::kinds::{BLOCK, CLAUSE, INITIALISER, METHOD};
use ns_gen_code::size::SizeKind;
use ns_gen_draft::here::Here;
use ns_gen_draft::names::Names;
use ns_gen_draft::never::cannot_come;
use ns_gen_draft::writer::Writer;
use ns_tree::tree::{Class, Method, Named, Pattern, Slot, Statements, SuperClause};
use std::alloc::Global;
use std::marker::Model;

/// The tables of names and literal texts, and whether bodies are kept: those that fit, and what of one is
/// too large. A program with too many bodies gets no code, but its names are counted all the same.
#[derive(Drop)]
pub struct Output {
    alloc: Global,
    writer: Writer,
    keeps: bool,
    bodies: Vec<BodyCode>,
    fault: Option<SizeKind>,
}

impl Model for Output {
    ghost use Rattle.ns_gen_bodies.specs.Coding.{Coded};

    ghost Value = { Coded };

    ghost view = { λ output. record { names = output.writer.names; texts = output.writer.texts; keeps = output.keeps; bodies = output.bodies.items; fault = output.fault } };
}

impl Output {
    /// No body yet, behind what was written.
    pub fn after(writer: Writer, keeps: bool) -> Output
        ensures { result ≡ record { names = writer.names; texts = writer.texts; keeps = keeps; bodies = []; fault = None } }
    {
        let alloc = writer.alloc();
        Output {
            alloc,
            writer,
            keeps,
            bodies: Vec::new(alloc),
            fault: None,
        }
    }

    /// Where its memory comes from.
    pub fn alloc(&self) -> Global {
        self.alloc
    }

    /// The code of a method whose expressions stand so.
    pub fn method(&mut self, here: &Here<'_>, method: &Method) -> Result<(), NoMemory>
        ensures { OnOk result (self.new ≡ with_one
            (routine (standing here.now) None as_method method.now.pattern.params.items (bars_of method.now.slots) (statements_of method.now.body))
            self.old) }
    {
        let first = behind(here.body)?;
        let mut next = first;
        let params = method.pattern.params.as_slice();
        let parameters = count(params)?;
        self.writer.clear();
        put_method_body(
            &mut self.writer,
            here,
            &mut next,
            parameters,
            &method.slots,
            &method.body,
        )?;
        let head = head(
            self.alloc,
            here,
            METHOD,
            None,
            params,
            &method.slots,
            first < next,
        )?;
        put_code(
            &self.writer,
            self.keeps,
            &mut self.bodies,
            &mut self.fault,
            head,
        )?;
        Ok(())
    }

    /// The code of a block with such parameters, locals and statements, whose expressions stand so, in the body of
    /// that number.
    pub fn block(
        &mut self,
        here: &Here<'_>,
        parent: u32,
        params: &[Named],
        slots: &Option<Vec<Slot>>,
        body: &Statements,
    ) -> Result<(), NoMemory>
        ensures { OnOk result (self.new ≡ with_one
            (block_in (standing here.now) parent (p.block_with params.now (bars_of slots.now) (statements_of body.now))) self.old) }
    {
        let first = behind(here.body)?;
        let mut next = first;
        let parameters = count(params)?;
        self.writer.clear();
        put_block_body(&mut self.writer, here, &mut next, parameters, slots, body)?;
        let head = head(
            self.alloc,
            here,
            BLOCK,
            Some(parent),
            params,
            slots,
            first < next,
        )?;
        put_code(
            &self.writer,
            self.keeps,
            &mut self.bodies,
            &mut self.fault,
            head,
        )?;
        Ok(())
    }

    /// The code of the initialiser of a class.
    pub fn initialiser(&mut self, here: &Here<'_>, class: &Class) -> Result<(), NoMemory>
        ensures { OnOk result (self.new ≡ with_one (initialiser_body (standing here.now) (class_of class.now)) self.old) }
    {
        let first = behind(here.body)?;
        let mut next = first;
        self.writer.clear();
        put_initialiser(
            &mut self.writer,
            here,
            &mut next,
            &class.name,
            &class.clause,
            &class.slots,
            &class.body,
        )?;
        let params = factory_params(&class.factory);
        let head = head(
            self.alloc,
            here,
            INITIALISER,
            None,
            params,
            &None,
            first < next,
        )?;
        put_code(
            &self.writer,
            self.keeps,
            &mut self.bodies,
            &mut self.fault,
            head,
        )?;
        Ok(())
    }

    /// The code of a superclass clause.
    pub fn clause(&mut self, here: &Here<'_>, clause: &SuperClause) -> Result<(), NoMemory>
        ensures { OnOk result (self.new ≡ with_one (clause_body (standing here.now) (clause_of clause.now)) self.old) }
    {
        self.writer.clear();
        put_clause(&mut self.writer, here, &clause.head, &clause.over)?;
        let head = head(self.alloc, here, CLAUSE, None, &[], &None, false)?;
        put_code(
            &self.writer,
            self.keeps,
            &mut self.bodies,
            &mut self.fault,
            head,
        )?;
        Ok(())
    }

    /// How many names there are.
    pub fn name_count(&self) -> usize
        ensures { result ≡ length self.now.names }
    {
        self.writer.name_count()
    }

    /// What of a body is too large.
    pub fn fault(&self) -> Option<SizeKind>
        ensures { result ≡ self.now.fault }
    {
        self.fault
    }

    /// The tables of names and literal texts, and the bodies.
    pub fn into_parts(self) -> (Names, Vec<Text>, Vec<BodyCode>)
        ensures names { result.0 ≡ self.names }
        ensures texts { result.1.items ≡ self.texts }
        ensures bodies { result.2.items ≡ self.bodies }
    {
        let (names, texts) = self.writer.into_tables();
        (names, texts, self.bodies)
    }
}

/// How many parameters there are.
fn count(params: &[Named]) -> Result<u32, NoMemory>
    ensures { IfOk result (λ count. count ≡ length params.now) }
{
    match u32::try_from(params.len()) {
        Ok(count) => Ok(count),
        Err(_) => Err(cannot_come()),
    }
}

/// The next number.
fn behind(number: u32) -> Result<u32, NoMemory>
    ensures { IfOk result (λ behind. behind ≡ number + 1) }
{
    match number.checked_add(1) {
        Some(behind) => Ok(behind),
        None => Err(cannot_come()),
    }
}

/// The parameters of a factory.
fn factory_params(factory: &Option<Pattern>) -> &[Named]
    ensures { result.now ≡ factory_params (option_map pattern_of factory.now) }
{
    match factory {
        None => &[],
        Some(pattern) => pattern.params.as_slice(),
    }
}

/// The code of the body with this head, whose lines were written, or what of it is too large, where bodies
/// are kept.
#[tactic(auto, using(crate::proofs::Keeping::put_where_kept, crate::proofs::Keeping::same_where_not))]
fn put_code(
    writer: &Writer,
    keeps: bool,
    bodies: &mut Vec<BodyCode>,
    fault: &mut Option<SizeKind>,
    head: BodyCode,
) -> Result<(), NoMemory>
    ensures { OnOk result (coded_of writer.now keeps bodies.new.items fault.new ≡ with_lines_of head writer.now
        (coded_of writer.now keeps bodies.old.items fault.old)) }
{
    if keeps {
        put_kept(writer, bodies, fault, head)
    } else {
        Ok(())
    }
}

/// The same, of bodies that are kept.
fn put_kept(
    writer: &Writer,
    bodies: &mut Vec<BodyCode>,
    fault: &mut Option<SizeKind>,
    head: BodyCode,
) -> Result<(), NoMemory>
    ensures { OnOk result (coded_of writer.now true bodies.new.items fault.new ≡ with_lines_of head writer.now
        (coded_of writer.now true bodies.old.items fault.old)) }
{
    match finish(writer, head)? {
        Finished::Fits(code) => bodies.push(code)?,
        Finished::TooLarge(kind) => *fault = Some(graver(*fault, kind)),
    }
    Ok(())
}

/// Of two that are too large: too many instructions are told before too great a height.
fn graver(fault: Option<SizeKind>, kind: SizeKind) -> SizeKind
    ensures { result ≡ graver fault kind }
{
    match fault {
        Some(SizeKind::Code) => SizeKind::Code,
        _ => kind,
    }
}
