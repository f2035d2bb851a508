//! Expressions, slots, statements and blocks: a function for each rule of the grammar. The depth is how
//! many brackets may still open. A node that is let go with a fault is passed to `drop`, so that its drop is
//! proved once and not in each function.

ghost use Rattle.ns_tree.specs.PlainOf.{expr_of, message_of, key_expr_of, bin_of, un_of, primary_of, block_of, slot_of, init_of, statements_of};
ghost use Rattle.ns_tree.specs.PlainOf.{statement_of, opers_of, keys_of, cascade_of, slots_of, bars_of};
ghost use Rattle.ns_parse_exprs.specs.Expressions as spec;
ghost use Rattle.ns_parse_tokens.specs.Reads.{ReaderGives, Reads};
ghost use Rattle.ns_parse_exprs.specs.Views.{oper_view, key_view, cascaded_view};

use crate::fronts::{sees_expr, sees_leaf, sees_slot, sees_statement, sees_un};
use ns_parse_tokens::fault::ParseFault;
use ns_parse_tokens::leaf::{access, leaf};
use ns_parse_tokens::mark::{Mark, closed, place, place_if, sees, skip, skip_if};
use ns_parse_tokens::name::{Operators, Sort, name, names, sees_name};
use ns_parse_tokens::pattern::params;
use ns_parse_tokens::tokens::Tokens;
use ns_tree::make;
use ns_tree::tree::{
    Access, BinExpr, Block, Expr, KeyExpr, Message, Named, Primary, Slot, SlotInit, Statement,
    Statements, UnExpr,
};
use std::alloc::Global;

/// What holds slots.
#[derive(Clone, Copy)]
pub enum Holder {
    /// An object. Its slots may have access words.
    Object,
    /// A method or a block.
    Code,
}

/// Reads the access word of a slot, if it may have one and has it.
fn slot_access(tokens: &mut Tokens, holder: Holder) -> Option<Access>
    ensures { ReaderGives (spec.slot_access holder) result tokens.old tokens.new }
{
    match holder {
        Holder::Object => access(tokens),
        Holder::Code => None,
    }
}

/// Reads a primary.
#[cycle(exprs)]
#[tactic(auto, unfolding(crate::specs::Expressions::primary))]
fn primary(alloc: Global, tokens: &mut Tokens, depth: usize) -> Result<Primary, ParseFault>
    ensures { Reads primary_of (spec.primary depth) result tokens.old tokens.new }
{
    if depth == 0 {
        let primary = leaf(alloc, tokens)?;
        Ok(primary)
    } else {
        let primary = any_primary(alloc, tokens, depth - 1)?;
        Ok(primary)
    }
}

/// Reads a primary within whose brackets so many may open.
#[cycle(exprs)]
#[tactic(auto, unfolding(crate::specs::Expressions::any_primary))]
fn any_primary(alloc: Global, tokens: &mut Tokens, depth: usize) -> Result<Primary, ParseFault>
    ensures { Reads primary_of (spec.any_primary (spec.primary depth)) result tokens.old tokens.new }
{
    if sees_leaf(tokens) {
        leaf(alloc, tokens)
    } else {
        bracketed(alloc, tokens, depth)
    }
}

/// Reads an expression in parentheses, a block or a tuple.
#[cycle(exprs)]
#[tactic(auto, unfolding(crate::specs::Expressions::bracketed))]
fn bracketed(alloc: Global, tokens: &mut Tokens, depth: usize) -> Result<Primary, ParseFault>
    ensures { Reads primary_of (spec.bracketed (spec.primary depth)) result tokens.old tokens.new }
{
    if sees(tokens, Mark::Open) {
        paren(alloc, tokens, depth)
    } else if sees(tokens, Mark::OpenBlock) {
        block_literal(alloc, tokens, depth)
    } else {
        tuple(alloc, tokens, depth)
    }
}

/// Reads an expression in parentheses.
#[cycle(exprs)]
fn paren(alloc: Global, tokens: &mut Tokens, depth: usize) -> Result<Primary, ParseFault>
    ensures { Reads primary_of (spec.paren (spec.primary depth)) result tokens.old tokens.new }
{
    skip(tokens, Mark::Open)?;
    let inner = expr(alloc, tokens, depth, Operators::All)?;
    let inner = closed(tokens, Mark::Close, inner)?;
    Ok(make::paren(alloc, inner)?)
}

/// Reads a block with its brackets.
#[cycle(exprs)]
fn block_literal(alloc: Global, tokens: &mut Tokens, depth: usize) -> Result<Primary, ParseFault>
    ensures { Reads primary_of (spec.block_literal (spec.primary depth)) result tokens.old tokens.new }
{
    skip(tokens, Mark::OpenBlock)?;
    let block = block(alloc, tokens, depth)?;
    let block = closed(tokens, Mark::CloseBlock, block)?;
    Ok(make::block_literal(alloc, block)?)
}

/// Reads a tuple.
#[cycle(exprs)]
fn tuple(alloc: Global, tokens: &mut Tokens, depth: usize) -> Result<Primary, ParseFault>
    ensures { Reads primary_of (spec.tuple (spec.primary depth)) result tokens.old tokens.new }
{
    skip(tokens, Mark::OpenTuple)?;
    let items = tuple_items(alloc, tokens, depth)?;
    closed(tokens, Mark::CloseTuple, items)
}

/// Reads a primary and the names that are sent to it.
#[cycle(exprs)]
#[tactic(auto, unfolding(crate::specs::Expressions::un))]
fn un(alloc: Global, tokens: &mut Tokens, depth: usize) -> Result<UnExpr, ParseFault>
    ensures { Reads un_of (spec.un (spec.primary depth)) result tokens.old tokens.new }
{
    let at = tokens.at as u32;
    let primary = primary(alloc, tokens, depth)?;
    match names(alloc, tokens, Sort::Ident) {
        Ok(names) => Ok(make::un(alloc, at, primary, names)?),
        Err(fault) => {
            drop(primary);
            Err(fault)
        }
    }
}

/// Reads an operator and its argument.
#[cycle(exprs)]
fn oper(
    alloc: Global,
    tokens: &mut Tokens,
    depth: usize,
    operators: Operators,
) -> Result<(Named, UnExpr), ParseFault>
    ensures { Reads oper_view (spec.oper (spec.primary depth) operators) result tokens.old tokens.new }
{
    let operator = name(alloc, tokens, Sort::Operator(operators))?;
    let argument = un(alloc, tokens, depth)?;
    Ok((operator, argument))
}

/// Reads operators with their arguments, as many as there are.
#[cycle(exprs)]
fn opers(
    alloc: Global,
    tokens: &mut Tokens,
    depth: usize,
    operators: Operators,
) -> Result<Vec<(Named, UnExpr)>, ParseFault>
    ensures { Reads (λ opers. opers_of opers.items) (spec.opers (spec.primary depth) operators) result tokens.old tokens.new }
{
    let mut items = Vec::new(alloc);
    'items: while sees_name(tokens, Sort::Operator(operators)) {
        let item = oper(alloc, tokens, depth, operators)?;
        items.push(item)?;
    }
    Ok(items)
}

/// Reads a receiver and the binary messages to it.
#[cycle(exprs)]
#[tactic(auto, unfolding(crate::specs::Expressions::bin))]
fn bin(
    alloc: Global,
    tokens: &mut Tokens,
    depth: usize,
    operators: Operators,
) -> Result<BinExpr, ParseFault>
    ensures { Reads bin_of (spec.bin (spec.primary depth) operators) result tokens.old tokens.new }
{
    let first = un(alloc, tokens, depth)?;
    match opers(alloc, tokens, depth, operators) {
        Ok(more) => Ok(make::bin(first, more)),
        Err(fault) => {
            drop(first);
            Err(fault)
        }
    }
}

/// Reads a key and its argument.
#[cycle(exprs)]
fn key(
    alloc: Global,
    tokens: &mut Tokens,
    depth: usize,
    operators: Operators,
) -> Result<(Named, BinExpr), ParseFault>
    ensures { Reads key_view (spec.key (spec.primary depth) operators) result tokens.old tokens.new }
{
    let part = name(alloc, tokens, Sort::Key)?;
    let argument = bin(alloc, tokens, depth, operators)?;
    Ok((part, argument))
}

/// Reads keys with their arguments, as many as there are.
#[cycle(exprs)]
pub fn keys(
    alloc: Global,
    tokens: &mut Tokens,
    depth: usize,
    operators: Operators,
) -> Result<Vec<(Named, BinExpr)>, ParseFault>
    ensures { Reads (λ keys. keys_of keys.items) (spec.keys (spec.primary depth) operators) result tokens.old tokens.new }
{
    let mut items = Vec::new(alloc);
    'items: while sees_name(tokens, Sort::Key) {
        let item = key(alloc, tokens, depth, operators)?;
        items.push(item)?;
    }
    Ok(items)
}

/// Reads a receiver with the keys of the message to it, or keys alone.
#[cycle(exprs)]
#[tactic(auto, unfolding(crate::specs::Expressions::key_expr))]
fn key_expr(
    alloc: Global,
    tokens: &mut Tokens,
    depth: usize,
    operators: Operators,
) -> Result<KeyExpr, ParseFault>
    ensures { Reads key_expr_of (spec.key_expr (spec.primary depth) operators) result tokens.old tokens.new }
{
    if sees_un(tokens) {
        let receiver = bin(alloc, tokens, depth, operators)?;
        match keys(alloc, tokens, depth, operators) {
            Ok(keys) => Ok(make::sent(receiver, keys)),
            Err(fault) => {
                drop(receiver);
                Err(fault)
            }
        }
    } else if sees_name(tokens, Sort::Key) {
        let keys = keys(alloc, tokens, depth, operators)?;
        Ok(make::implicit(keys))
    } else {
        Err(ParseFault::Syntax(tokens.at))
    }
}

/// Reads a message.
#[cycle(exprs)]
#[tactic(auto, unfolding(crate::specs::Expressions::message))]
fn message(
    alloc: Global,
    tokens: &mut Tokens,
    depth: usize,
    operators: Operators,
) -> Result<Message, ParseFault>
    ensures { Reads message_of (spec.message (spec.primary depth) operators) result tokens.old tokens.new }
{
    if sees_name(tokens, Sort::Ident) {
        let name = name(alloc, tokens, Sort::Ident)?;
        Ok(Message::Unary(name))
    } else if sees_name(tokens, Sort::Operator(operators)) {
        let item = oper(alloc, tokens, depth, operators)?;
        Ok(make::binary(alloc, item)?)
    } else if sees_name(tokens, Sort::Key) {
        let keys = keys(alloc, tokens, depth, operators)?;
        Ok(make::keywords(keys))
    } else {
        Err(ParseFault::Syntax(tokens.at))
    }
}

/// Reads a semicolon and a message.
#[cycle(exprs)]
fn cascaded(
    alloc: Global,
    tokens: &mut Tokens,
    depth: usize,
    operators: Operators,
) -> Result<(u32, Message), ParseFault>
    ensures { Reads cascaded_view (spec.cascaded (spec.primary depth) operators) result tokens.old tokens.new }
{
    let at = place(tokens, Mark::Semi)?;
    let message = message(alloc, tokens, depth, operators)?;
    Ok((at, message))
}

/// Reads the messages of a cascade, as many as there are.
#[cycle(exprs)]
fn cascade(
    alloc: Global,
    tokens: &mut Tokens,
    depth: usize,
    operators: Operators,
) -> Result<Vec<(u32, Message)>, ParseFault>
    ensures { Reads (λ messages. cascade_of messages.items) (spec.cascade (spec.primary depth) operators) result tokens.old tokens.new }
{
    let mut items = Vec::new(alloc);
    'items: while sees(tokens, Mark::Semi) {
        let item = cascaded(alloc, tokens, depth, operators)?;
        items.push(item)?;
    }
    Ok(items)
}

/// Reads an expression.
#[cycle(exprs)]
#[tactic(auto, unfolding(crate::specs::Expressions::expr))]
fn expr(
    alloc: Global,
    tokens: &mut Tokens,
    depth: usize,
    operators: Operators,
) -> Result<Expr, ParseFault>
    ensures { Reads expr_of (spec.expr (spec.primary depth) operators) result tokens.old tokens.new }
{
    let sets = names(alloc, tokens, Sort::SetKey)?;
    let first = key_expr(alloc, tokens, depth, operators)?;
    match cascade(alloc, tokens, depth, operators) {
        Ok(more) => Ok(make::expr(alloc, sets, first, more)?),
        Err(fault) => {
            drop(first);
            Err(fault)
        }
    }
}

/// Reads an expression and the full stop behind it.
#[cycle(exprs)]
fn value(alloc: Global, tokens: &mut Tokens, depth: usize) -> Result<Expr, ParseFault>
    ensures { Reads expr_of (spec.value (spec.primary depth)) result tokens.old tokens.new }
{
    let value = expr(alloc, tokens, depth, Operators::ButBar)?;
    closed(tokens, Mark::Stop, value)
}

/// Reads how a slot begins.
#[cycle(exprs)]
#[tactic(auto, unfolding(crate::specs::Expressions::init))]
fn init(alloc: Global, tokens: &mut Tokens, depth: usize) -> Result<SlotInit, ParseFault>
    ensures { Reads init_of (spec.init (spec.primary depth)) result tokens.old tokens.new }
{
    if sees(tokens, Mark::Equals) {
        skip(tokens, Mark::Equals)?;
        let value = value(alloc, tokens, depth)?;
        Ok(make::fixed(alloc, value)?)
    } else if sees(tokens, Mark::SlotSet) {
        skip(tokens, Mark::SlotSet)?;
        let value = value(alloc, tokens, depth)?;
        Ok(make::mutable(alloc, value)?)
    } else {
        let stop = skip_if(tokens, Mark::Stop);
        Ok(SlotInit::Bare { stop })
    }
}

/// Reads a slot.
#[cycle(exprs)]
#[tactic(auto, unfolding(crate::specs::Expressions::slot))]
fn slot(
    alloc: Global,
    tokens: &mut Tokens,
    depth: usize,
    holder: Holder,
) -> Result<Slot, ParseFault>
    ensures { Reads slot_of (spec.slot (spec.primary depth) holder) result tokens.old tokens.new }
{
    let access = slot_access(tokens, holder);
    let name = name(alloc, tokens, Sort::Ident)?;
    let init = init(alloc, tokens, depth)?;
    Ok(make::slot(access, name, init))
}

/// Reads slots, as many as there are.
#[cycle(exprs)]
fn slots(
    alloc: Global,
    tokens: &mut Tokens,
    depth: usize,
    holder: Holder,
) -> Result<Vec<Slot>, ParseFault>
    ensures { Reads (λ slots. slots_of slots.items) (spec.slots (spec.primary depth) holder) result tokens.old tokens.new }
{
    let mut items = Vec::new(alloc);
    'items: while sees_slot(tokens, holder) {
        let item = slot(alloc, tokens, depth, holder)?;
        items.push(item)?;
    }
    Ok(items)
}

/// Reads slots between bars, if there are any.
#[cycle(exprs)]
#[tactic(auto, unfolding(crate::specs::Expressions::bars))]
pub fn bars(
    alloc: Global,
    tokens: &mut Tokens,
    depth: usize,
    holder: Holder,
) -> Result<Option<Vec<Slot>>, ParseFault>
    ensures { Reads bars_of (spec.bars (spec.primary depth) holder) result tokens.old tokens.new }
{
    if sees(tokens, Mark::Bar) {
        skip(tokens, Mark::Bar)?;
        let slots = slots(alloc, tokens, depth, holder)?;
        let slots = closed(tokens, Mark::Bar, slots)?;
        Ok(Some(slots))
    } else {
        Ok(None)
    }
}

/// Reads a statement.
#[cycle(exprs)]
#[tactic(auto, unfolding(crate::specs::Expressions::statement))]
fn statement(alloc: Global, tokens: &mut Tokens, depth: usize) -> Result<Statement, ParseFault>
    ensures { Reads statement_of (spec.statement (spec.primary depth)) result tokens.old tokens.new }
{
    let caret = place_if(tokens, Mark::Caret);
    let expr = expr(alloc, tokens, depth, Operators::All)?;
    Ok(make::statement(caret, expr))
}

/// Reads statements, as many as there are.
#[cycle(exprs)]
pub fn statements(
    alloc: Global,
    tokens: &mut Tokens,
    depth: usize,
) -> Result<Statements, ParseFault>
    ensures { Reads statements_of (spec.statements (spec.primary depth)) result tokens.old tokens.new }
{
    let mut items = Vec::new(alloc);
    'items: while sees_statement(tokens) {
        let item = statement(alloc, tokens, depth)?;
        items.push(item)?;
        if !skip_if(tokens, Mark::Stop) {
            return Ok(make::statements(items, false));
        }
    }
    let stop = !items.is_empty();
    Ok(make::statements(items, stop))
}

/// Reads the elements of a tuple, as many as there are.
#[cycle(exprs)]
fn tuple_items(alloc: Global, tokens: &mut Tokens, depth: usize) -> Result<Primary, ParseFault>
    ensures { Reads primary_of (spec.tuple_items (spec.primary depth)) result tokens.old tokens.new }
{
    let mut items = Vec::new(alloc);
    'items: while sees_expr(tokens) {
        let item = expr(alloc, tokens, depth, Operators::All)?;
        items.push(item)?;
        if !skip_if(tokens, Mark::Stop) {
            return Ok(make::tuple(items, false));
        }
    }
    let stop = !items.is_empty();
    Ok(make::tuple(items, stop))
}

/// Reads what stands in a block.
#[cycle(exprs)]
#[tactic(auto, unfolding(crate::specs::Expressions::block))]
fn block(alloc: Global, tokens: &mut Tokens, depth: usize) -> Result<Block, ParseFault>
    ensures { Reads block_of (spec.block (spec.primary depth)) result tokens.old tokens.new }
{
    let params = params(alloc, tokens)?;
    let slots = bars(alloc, tokens, depth, Holder::Code)?;
    let body = statements(alloc, tokens, depth)?;
    Ok(make::block(params, slots, body))
}
