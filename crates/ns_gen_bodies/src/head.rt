//! The heads of bodies.

ghost use Rattle.std.specs.Prelude.{◌≡◌, map, IfOk};
ghost use Rattle.ns_tree.specs.PlainOf.{bars_of};
ghost use Rattle.ns_resolved.specs.Statements.{local_names};
ghost use Rattle.ns_resolved.specs.Tables.{side_number};
ghost use Rattle.ns_gen_draft.specs.Standing.{standing};
ghost use Rattle.ns_gen_bodies.specs.Heading.{head_of};

use ns_base::items::Items;
use ns_base::no_memory::NoMemory;
use ns_base::text::Text;
use ns_code::body::BodyCode;
use ns_code::instructions::Instructions;
use ns_code::kinds::{CLASS, INSTANCES};
use ns_code::local_names::LocalNames;
use ns_gen_draft::here::Here;
use ns_gen_draft::keys::count;
use ns_scope::names::{Declared, Local, locals};
use ns_scope::scope::CodeSide;
use ns_tree::tree::{Named, Slot};
use std::alloc::Global;

/// The head of a body of this kind whose expressions stand so: the body around it, if it is a block,
/// its parameters and locals, and whether blocks stand in it.
pub fn head(
    alloc: Global,
    here: &Here<'_>,
    kind: u8,
    parent: Option<u32>,
    params: &[Named],
    slots: &Option<Vec<Slot>>,
    environment: bool,
) -> Result<BodyCode, NoMemory>
    ensures { IfOk result (λ head. head ≡ head_of (standing here.now) kind parent params.now (bars_of slots.now) environment) }
{
    let local_names = local_names(alloc, params, slots)?;
    let locals = count(local_names.len())?;
    let params = count(params.len())?;
    Ok(BodyCode {
        kind,
        side: side_number(here.scope.side),
        class: here.class,
        parent,
        params,
        locals,
        environment,
        height: 0,
        instrs: Instructions::none(alloc),
        places: Items::from_vec(Vec::new(alloc)),
        local_names: LocalNames::given(local_names),
    })
}

/// The names of the parameters and locals of a body.
fn local_names(
    alloc: Global,
    params: &[Named],
    slots: &Option<Vec<Slot>>,
) -> Result<Items<Text>, NoMemory>
    ensures { IfOk result (λ names. names ≡ local_names params.now (bars_of slots.now)) }
{
    let locals = locals(alloc, params, slots)?;
    let names = names_of(alloc, &locals)?;
    Ok(Items::from_vec(names))
}

fn names_of(alloc: Global, locals: &[Declared<Local>]) -> Result<Vec<Text>, NoMemory>
    ensures { IfOk result (λ names. names.items ≡ map (λ local. local.name) locals.now) }
{
    let mut names = Vec::new(alloc);
    for local in locals {
        names.push(Text::of(alloc, local.name.bytes())?)?;
    }
    Ok(names)
}

fn side_number(side: CodeSide) -> u8
    ensures { result ≡ side_number side }
{
    match side {
        CodeSide::Instance => INSTANCES,
        CodeSide::Class => CLASS,
    }
}
