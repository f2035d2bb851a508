//! Bodies, as the walk enters them.

ghost use Rattle.std.specs.Prelude.{◌≡◌, ◌++◌, [], map, slice_get, option_map, IfOk, OnOk};
ghost use Rattle.ns_tree.specs.Plain as p;
ghost use Rattle.ns_tree.specs.PlainOf.{bars_of, pattern_of};
ghost use Rattle.ns_scope.specs.Names.{table_of, locals_of};
ghost use Rattle.ns_scope.specs.Scopes.{block_scope, method_scope, initialiser_scope, factory_params};
ghost use Rattle.ns_static_rules.specs.Rules.{found_repeated, params_found, locals_found};
ghost use Rattle.ns_static_rules.specs.Walk.{with_found};

use crate::checker::{Checker, found_if, found_past};
use crate::fault::{Many, StaticCause};
use ns_base::no_memory::NoMemory;
use ns_scope::chain::Chain;
use ns_scope::names::{Declared, Local, key_of, locals, put_declared};
use ns_scope::scope::{ClassScope, CodeSide, Scope};
use ns_scope::table::Table;
use ns_tree::tree::{Named, Pattern, Slot};

/// Finds what is declared twice or too many in a block. Answers what it sees.
pub fn enter_block(
    checker: &mut Checker<'_>,
    outer: &Scope,
    params: &[Named],
    slots: &Option<Vec<Slot>>,
) -> Result<Scope, NoMemory>
    ensures found { OnOk result (checker.new ≡ with_found checker.old (locals_found (locals_of params.now (bars_of slots.now)))) }
    ensures scope { IfOk result (λ scope. scope ≡ block_scope outer.now params.now (bars_of slots.now)) }
{
    let declared = locals(checker.alloc, params, slots)?;
    let names = locals_found(checker, &declared)?;
    Scope::inside(checker.alloc, names, outer)
}

/// Finds what is declared twice or too many in a method. Answers what it sees.
pub fn begin_method(
    checker: &mut Checker<'_>,
    classes: &Chain<ClassScope>,
    side: CodeSide,
    params: &[Named],
    slots: &Option<Vec<Slot>>,
) -> Result<Scope, NoMemory>
    ensures found { OnOk result (checker.new ≡ with_found checker.old (params_found params.now ++ locals_found
        (locals_of params.now (bars_of slots.now)))) }
    ensures scope { IfOk result (λ scope. scope ≡ method_scope classes.now side params.now (bars_of slots.now)) }
{
    params_found(checker, params);
    let declared = locals(checker.alloc, params, slots)?;
    let names = locals_found(checker, &declared)?;
    Scope::outermost(checker.alloc, names, side, true, classes)
}

/// Finds what is declared twice or too many in an initialiser. Answers what it sees.
pub fn begin_initialiser(
    checker: &mut Checker<'_>,
    classes: &Chain<ClassScope>,
    factory: &Option<Pattern>,
) -> Result<Scope, NoMemory>
    ensures found { OnOk result (checker.new ≡ with_found checker.old
        (params_found (factory_params (option_map pattern_of factory.now))
        ++ locals_found (locals_of (factory_params (option_map pattern_of factory.now)) p.no_bars))) }
    ensures scope { IfOk result (λ scope. scope ≡ initialiser_scope classes.now (option_map pattern_of factory.now)) }
{
    let params = factory_params(factory);
    params_found(checker, params);
    let declared = locals(checker.alloc, params, &None)?;
    let names = locals_found(checker, &declared)?;
    Scope::outermost(checker.alloc, names, CodeSide::Instance, false, classes)
}

fn factory_params(factory: &Option<Pattern>) -> &[Named]
    ensures { result.now ≡ factory_params (option_map pattern_of factory.now) }
{
    match factory {
        None => &[],
        Some(pattern) => &pattern.params,
    }
}

/// TooMany(Parameters) past 63 parameters of a pattern.
fn params_found(checker: &mut Checker<'_>, params: &[Named])
    ensures { checker.new ≡ with_found checker.old (params_found params.now) }
{
    found_past(checker, param_past(params, 63), Many::Parameters);
}

/// The place of the parameter that has so many before it, if there is one.
fn param_past(params: &[Named], most: usize) -> Option<u32>
    ensures { result ≡ slice_get (map (λ param. param.at) params.now) most }
{
    match params.get(most) {
        None => None,
        Some(param) => Some(param.at),
    }
}

/// DuplicateLocal, and TooMany(Locals) past 255. Answers what each name stands for.
pub fn locals_found(
    checker: &mut Checker<'_>,
    declared: &[Declared<Local>],
) -> Result<Table<Local>, NoMemory>
    ensures found { OnOk result (checker.new ≡ with_found checker.old (locals_found declared.now)) }
    ensures table { IfOk result (λ table. table ≡ table_of declared.now) }
{
    let table = found_repeated(checker, StaticCause::DuplicateLocal, declared)?;
    found_past(checker, place_past(declared, 255), Many::Locals);
    Ok(table)
}

/// A cause at each name that was declared before. Answers what each name stands for.
pub fn found_repeated<V: Copy>(
    checker: &mut Checker<'_>,
    cause: StaticCause,
    declared: &[Declared<V>],
) -> Result<Table<V>, NoMemory>
    ensures found { OnOk result (checker.new ≡ with_found checker.old (found_repeated cause [] declared.now)) }
    ensures table { IfOk result (λ table. table ≡ table_of declared.now) }
{
    let mut table = Table::new(checker.alloc, key_of(declared));
    for one in declared {
        let new = put_declared(checker.alloc, &mut table, one)?;
        found_if(checker, !new, one.at, cause);
    }
    Ok(table)
}

/// The number of the token of the name that has so many before it, if there is one.
pub fn place_past<V: Copy>(declared: &[Declared<V>], most: usize) -> Option<u32>
    ensures { result ≡ slice_get (map (λ d. d.at) declared.now) most }
{
    match declared.get(most) {
        None => None,
        Some(one) => Some(one.at),
    }
}
