//! Patterns of methods and factories, and the bases of a superclass clause.

ghost use Rattle.std.specs.Prelude.{◌≡◌, option_map, IfOk};
ghost use Rattle.ns_tree.specs.PlainOf.{pattern_of};
ghost use Rattle.ns_parse_tokens.specs.Pattern as spec;
ghost use Rattle.ns_parse_tokens.specs.Reads.{Reads, next_is};

use crate::fault::ParseFault;
use crate::mark::{Mark, sees, skip};
use crate::name::{Operators, Sort, name, sees_name};
use crate::tokens::Tokens;
use ns_base::no_memory::NoMemory;
use ns_tree::make;
use ns_tree::token::{Kind, Reserved};
use ns_tree::tree::{Base, Named, Origin, Pattern};
use std::alloc::Global;

/// The pattern of a name alone.
fn unary(alloc: Global, name: Named) -> Result<Pattern, NoMemory>
    ensures { IfOk result (λ pattern. pattern_of pattern ≡ spec.unary name) }
{
    let mut parts = Vec::new(alloc);
    parts.push(name)?;
    let params = Vec::new(alloc);
    Ok(make::pattern(parts, params))
}

/// The pattern of an operator and its parameter.
fn binary(alloc: Global, operator: Named, param: Named) -> Result<Pattern, NoMemory>
    ensures { IfOk result (λ pattern. pattern_of pattern ≡ spec.binary (operator, param)) }
{
    let mut parts = Vec::new(alloc);
    parts.push(operator)?;
    let mut params = Vec::new(alloc);
    params.push(param)?;
    Ok(make::pattern(parts, params))
}

/// The pattern of keys, each with its parameter.
fn keyword(alloc: Global, pairs: Vec<(Named, Named)>) -> Result<Pattern, NoMemory>
    ensures { IfOk result (λ pattern. pattern_of pattern ≡ spec.keyword pairs.items) }
{
    let mut parts = Vec::new(alloc);
    let mut params = Vec::new(alloc);
    'pairs: for (part, param) in pairs {
        parts.push(part)?;
        params.push(param)?;
    }
    Ok(make::pattern(parts, params))
}

/// Reads a key and its parameter.
fn key_param(alloc: Global, tokens: &mut Tokens) -> Result<(Named, Named), ParseFault>
    ensures { Reads (λ pair. pair) spec.key_param result tokens.old tokens.new }
{
    let part = name(alloc, tokens, Sort::Key)?;
    let param = name(alloc, tokens, Sort::Ident)?;
    Ok((part, param))
}

/// Reads keys with their parameters, as many as there are.
fn key_params(alloc: Global, tokens: &mut Tokens) -> Result<Vec<(Named, Named)>, ParseFault>
    ensures { Reads (λ pairs. pairs.items) spec.key_params result tokens.old tokens.new }
{
    let mut pairs = Vec::new(alloc);
    'pairs: while sees_name(tokens, Sort::Key) {
        let item = key_param(alloc, tokens)?;
        pairs.push(item)?;
    }
    Ok(pairs)
}

/// Reads the pattern of a method.
#[tactic(auto, unfolding(crate::specs::Pattern::pattern))]
pub fn pattern(alloc: Global, tokens: &mut Tokens) -> Result<Pattern, ParseFault>
    ensures { Reads pattern_of spec.pattern result tokens.old tokens.new }
{
    if sees_name(tokens, Sort::Ident) {
        let alone = name(alloc, tokens, Sort::Ident)?;
        let pattern = unary(alloc, alone)?;
        Ok(pattern)
    } else if sees_name(tokens, Sort::Operator(Operators::All)) {
        let operator = name(alloc, tokens, Sort::Operator(Operators::All))?;
        let param = name(alloc, tokens, Sort::Ident)?;
        let pattern = binary(alloc, operator, param)?;
        Ok(pattern)
    } else if sees_name(tokens, Sort::Key) {
        let pairs = key_params(alloc, tokens)?;
        let pattern = keyword(alloc, pairs)?;
        Ok(pattern)
    } else {
        Err(ParseFault::Syntax(tokens.at))
    }
}

/// Reads the pattern of a factory, if there is one.
#[tactic(auto, unfolding(crate::specs::Pattern::factory))]
pub fn factory(alloc: Global, tokens: &mut Tokens) -> Result<Option<Pattern>, ParseFault>
    ensures { Reads (option_map pattern_of) spec.factory result tokens.old tokens.new }
{
    if sees_name(tokens, Sort::Ident) {
        let alone = name(alloc, tokens, Sort::Ident)?;
        let pattern = unary(alloc, alone)?;
        Ok(Some(pattern))
    } else if sees_name(tokens, Sort::Key) {
        let pairs = key_params(alloc, tokens)?;
        let pattern = keyword(alloc, pairs)?;
        Ok(Some(pattern))
    } else {
        Ok(None)
    }
}

/// Reads a base.
#[tactic(auto, unfolding(crate::specs::Pattern::base))]
pub fn base(alloc: Global, tokens: &mut Tokens) -> Result<Base, ParseFault>
    ensures { Reads (λ base. base) spec.base result tokens.old tokens.new }
{
    if sees(tokens, Mark::SuperWord) {
        skip(tokens, Mark::SuperWord)?;
        let name = name(alloc, tokens, Sort::Ident)?;
        Ok(Base {
            origin: Origin::Super,
            name,
        })
    } else if sees(tokens, Mark::OuterWord) {
        skip(tokens, Mark::OuterWord)?;
        let class = name(alloc, tokens, Sort::Ident)?;
        let name = name(alloc, tokens, Sort::Ident)?;
        Ok(Base {
            origin: Origin::Outer(class),
            name,
        })
    } else {
        let name = name(alloc, tokens, Sort::Ident)?;
        Ok(Base {
            origin: Origin::Here,
            name,
        })
    }
}

/// Reads a colon and a name.
fn param(alloc: Global, tokens: &mut Tokens) -> Result<Named, ParseFault>
    ensures { Reads (λ name. name) spec.param result tokens.old tokens.new }
{
    skip(tokens, Mark::Colon)?;
    name(alloc, tokens, Sort::Ident)
}

/// Reads colons with names, as many as there are.
fn colon_params(alloc: Global, tokens: &mut Tokens) -> Result<Vec<Named>, ParseFault>
    ensures { Reads (λ names. names.items) spec.colon_params result tokens.old tokens.new }
{
    let mut names = Vec::new(alloc);
    'names: while sees(tokens, Mark::Colon) {
        let item = param(alloc, tokens)?;
        names.push(item)?;
    }
    Ok(names)
}

/// Reads the parameters of a block and the bar behind them, if there are any.
#[tactic(auto, unfolding(crate::specs::Pattern::params))]
pub fn params(alloc: Global, tokens: &mut Tokens) -> Result<Vec<Named>, ParseFault>
    ensures { Reads (λ names. names.items) spec.params result tokens.old tokens.new }
{
    if sees(tokens, Mark::Colon) {
        let names = colon_params(alloc, tokens)?;
        skip(tokens, Mark::Bar)?;
        Ok(names)
    } else {
        Ok(Vec::new(alloc))
    }
}

/// Whether a base is next.
pub fn sees_base(tokens: &Tokens) -> bool
    ensures { result ≡ next_is spec.starts_base tokens.now }
{
    match tokens.next() {
        Some(kind) => match kind {
            Kind::Ident(_) => true,
            Kind::Word(word) => matches!(word, Reserved::Super | Reserved::Outer),
            _ => false,
        },
        None => false,
    }
}
