//! To which selector or name a body belongs.

ghost use Rattle.std.specs.Prelude.{◌≡◌, ◌++◌, [], IfOk, OnOk, flat_map, map, slice_get, None};
ghost use Rattle.std.specs.Option.{option_map_or};
ghost use Rattle.ns_image_members.specs.Named as spec;

use crate::firsts::Firsts;
use ns_base::no_memory::NoMemory;
use ns_base::selector::Sel;
use ns_code::body::BodyCode;
use ns_code::class::{ClassCode, MethodCode};
use ns_code::kinds::{BLOCK, INITIALISER, METHOD};
use ns_code::program::CodeProgram;
use std::alloc::Global;

/// The bodies that classes name, by their kinds, and to which selector or name each belongs.
#[derive(Drop)]
pub struct Records<'a> {
    pub methods: Firsts<'a, Sel>,
    pub inits: Firsts<'a, Sel>,
    pub clauses: Firsts<'a, Sel>,
}

/// The selector or name of each body, if it has one. The records of the classes are gone through once.
pub fn body_names(alloc: Global, code: &CodeProgram) -> Result<Vec<Option<Sel>>, NoMemory>
    ensures { IfOk result (λ names. names.items ≡ spec.body_names code.now) }
{
    let classes = code.classes.as_slice();
    let bodies = code.bodies.as_slice();
    let methods = method_records(alloc, classes)?;
    let inits = init_records(alloc, classes)?;
    let clauses = clause_records(alloc, classes)?;
    let records = Records {
        methods: Firsts::of(alloc, &methods, bodies.len())?,
        inits: Firsts::of(alloc, &inits, bodies.len())?,
        clauses: Firsts::of(alloc, &clauses, bodies.len())?,
    };
    names_of(alloc, &records, bodies)
}

fn names_of(
    alloc: Global,
    records: &Records<'_>,
    bodies: &[BodyCode],
) -> Result<Vec<Option<Sel>>, NoMemory>
    ensures { IfOk result (λ names. names.items ≡ spec.names_behind records.now [] bodies.now) }
{
    let mut names = Vec::with_capacity(alloc, bodies.len())?;
    'bodies: for body in bodies {
        let name = next_name(records, &names, body.kind, body.parent);
        names.push(name)?;
    }
    Ok(names)
}

/// What the next body has, behind those that have these names.
fn next_name(
    records: &Records<'_>,
    names: &[Option<Sel>],
    kind: u8,
    parent: Option<u32>,
) -> Option<Sel>
    ensures { result ≡ spec.next_name records.now names.now kind parent }
{
    match kind {
        METHOD => records.methods.first(names.len()),
        BLOCK => parent_name(names, parent),
        INITIALISER => records.inits.first(names.len()),
        _ => records.clauses.first(names.len()),
    }
}

fn parent_name(names: &[Option<Sel>], parent: Option<u32>) -> Option<Sel>
    ensures { result ≡ spec.parent_name names.now parent }
{
    match parent {
        None => None,
        Some(parent) => name_at(names, parent as usize),
    }
}

/// The name of the body of that number, if it has one.
pub fn name_at(names: &[Option<Sel>], number: usize) -> Option<Sel>
    ensures { result ≡ option_map_or (λ name. name) (slice_get names.now number) None }
{
    match names.get(number) {
        None => None,
        Some(name) => *name,
    }
}

fn method_records(alloc: Global, classes: &[ClassCode]) -> Result<Vec<(u32, Sel)>, NoMemory>
    ensures { IfOk result (λ records. records.items ≡ flat_map spec.method_records classes.now) }
{
    let mut records = Vec::new(alloc);
    'classes: for class in classes {
        put_class_methods(&mut records, class)?;
    }
    Ok(records)
}

fn put_class_methods(records: &mut Vec<(u32, Sel)>, class: &ClassCode) -> Result<(), NoMemory>
    ensures { OnOk result (records.new.items ≡ records.old.items ++ spec.method_records class.now) }
{
    put_methods(records, class.methods.as_slice())?;
    put_methods(records, class.side_methods.as_slice())
}

fn put_methods(records: &mut Vec<(u32, Sel)>, methods: &[MethodCode]) -> Result<(), NoMemory>
    ensures { OnOk result (records.new.items ≡ records.old.items ++ map spec.method_record methods.now) }
{
    'methods: for method in methods {
        records.push((method.body, method.sel))?;
    }
    Ok(())
}

fn init_records(alloc: Global, classes: &[ClassCode]) -> Result<Vec<(u32, Sel)>, NoMemory>
    ensures { IfOk result (λ records. records.items ≡ flat_map spec.init_records classes.now) }
{
    let mut records = Vec::with_capacity(alloc, classes.len())?;
    'classes: for class in classes {
        records.push((class.init, class.factory))?;
    }
    Ok(records)
}

fn clause_records(alloc: Global, classes: &[ClassCode]) -> Result<Vec<(u32, Sel)>, NoMemory>
    ensures { IfOk result (λ records. records.items ≡ flat_map spec.clause_records classes.now) }
{
    let mut records = Vec::new(alloc);
    'classes: for class in classes {
        put_clause(&mut records, class.name, class.clause)?;
    }
    Ok(records)
}

fn put_clause(records: &mut Vec<(u32, Sel)>, name: Sel, clause: Option<u32>) -> Result<(), NoMemory>
    ensures { OnOk result (records.new.items ≡ records.old.items ++ spec.clause_record name clause) }
{
    match clause {
        None => {}
        Some(body) => records.push((body, name))?,
    }
    Ok(())
}
