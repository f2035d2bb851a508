//! The faults of expressions, statements and slots. Each function finds what the definition of its
//! name lists.

ghost use Rattle.std.specs.Prelude.{◌≡◌, ◌++◌, [], flat_map, OnOk};
ghost use Rattle.ns_tree.specs.Plain as p;
ghost use Rattle.ns_tree.specs.PlainOf.{expr_of, full_expr_of, cascade_of, message_of, key_expr_of, keys_of, bin_of, opers_of, un_of, sent_of, primary_of};
ghost use Rattle.ns_tree.specs.PlainOf.{exprs_of, block_of, slots_of, init_of, bars_of, statements_of, statement_list_of, statement_of};
ghost use Rattle.ns_static_rules.specs.Rules.{set_found, bare_found, outer_found, number_found};
ghost use Rattle.ns_static_rules.specs.Faults.{expr_faults, cascade_faults, message_faults, key_expr_faults, keys_faults, bin_faults, opers_faults, un_faults, primary_faults};
ghost use Rattle.ns_static_rules.specs.Faults.{keywords_found, elements_found, items_faults, block_faults, inside_faults, bars_faults, slots_faults};
ghost use Rattle.ns_static_rules.specs.Faults.{init_faults, statements_faults, list_faults, statement_faults};
ghost use Rattle.ns_static_rules.specs.Walk.{with_found};

use crate::bodies::enter_block;
use crate::checker::Checker;
use crate::fault::Role;
use crate::rules::{
    bare_found, cascade_found, elements_found, has_keys, has_names, has_opers, keywords_found,
    number_found, outer_found, receiver_if, return_found, set_found,
};
use ns_base::no_memory::NoMemory;
use ns_scope::scope::Scope;
use ns_tree::tree::{
    BinExpr, Block, Expr, FullExpr, KeyExpr, Message, Named, Primary, SentExpr, Slot, SlotInit,
    Statement, Statements, UnExpr,
};

#[cycle(expressions)]
pub fn expr_faults(checker: &mut Checker<'_>, scope: &Scope, expr: &Expr) -> Result<(), NoMemory>
    ensures { OnOk result (checker.new ≡ with_found checker.old (expr_faults scope.now (expr_of expr.now))) }
{
    match expr {
        Expr::Operand(operand) => un_faults(checker, scope, Role::Value, operand),
        Expr::Operation(bin) => bin_faults(checker, scope, Role::Value, bin),
        Expr::Implicit(keys) => keywords_faults(checker, scope, keys),
        Expr::Full(full) => full_expr_faults(checker, scope, full),
    }
}

#[cycle(expressions)]
fn full_expr_faults(
    checker: &mut Checker<'_>,
    scope: &Scope,
    expr: &FullExpr,
) -> Result<(), NoMemory>
    ensures { OnOk result (checker.new ≡ with_found checker.old (expr_faults scope.now (full_expr_of expr.now))) }
{
    sets_found(checker, scope, &expr.sets);
    cascade_found(checker, &expr.first, &expr.more);
    key_expr_faults(checker, scope, &expr.first)?;
    cascade_faults(checker, scope, &expr.more)
}

fn sets_found(checker: &mut Checker<'_>, scope: &Scope, sets: &[Named])
    ensures { checker.new ≡ with_found checker.old (flat_map (set_found scope.now) sets.now) }
{
    for name in sets {
        set_found(checker, scope, name);
    }
}

#[cycle(expressions)]
fn cascade_faults(
    checker: &mut Checker<'_>,
    scope: &Scope,
    messages: &[(u32, Message)],
) -> Result<(), NoMemory>
    ensures { OnOk result (checker.new ≡ with_found checker.old (cascade_faults scope.now (cascade_of messages.now))) }
{
    for message in messages {
        message_faults(checker, scope, &message.1)?;
    }
    Ok(())
}

#[cycle(expressions)]
pub fn message_faults(
    checker: &mut Checker<'_>,
    scope: &Scope,
    message: &Message,
) -> Result<(), NoMemory>
    ensures { OnOk result (checker.new ≡ with_found checker.old (message_faults scope.now (message_of message.now))) }
{
    match message {
        Message::Unary(_) => Ok(()),
        Message::Binary(oper) => un_faults(checker, scope, Role::Value, &oper.1),
        Message::Keys(keys) => keywords_faults(checker, scope, keys),
    }
}

/// The keys of one message.
#[cycle(expressions)]
fn keywords_faults(
    checker: &mut Checker<'_>,
    scope: &Scope,
    keys: &[(Named, BinExpr)],
) -> Result<(), NoMemory>
    ensures { OnOk result (checker.new ≡ with_found checker.old
        (keywords_found (keys_of keys.now) ++ keys_faults scope.now (keys_of keys.now))) }
{
    keywords_found(checker, keys);
    keys_faults(checker, scope, keys)
}

#[cycle(expressions)]
fn key_expr_faults(checker: &mut Checker<'_>, scope: &Scope, expr: &KeyExpr) -> Result<(), NoMemory>
    ensures { OnOk result (checker.new ≡ with_found checker.old (key_expr_faults scope.now (key_expr_of expr.now))) }
{
    match &expr.receiver {
        None => keywords_faults(checker, scope, &expr.keys),
        Some(receiver) => {
            let role = receiver_if(has_keys(&expr.keys), Role::Value);
            bin_faults(checker, scope, role, receiver)?;
            keywords_faults(checker, scope, &expr.keys)
        }
    }
}

#[cycle(expressions)]
fn keys_faults(
    checker: &mut Checker<'_>,
    scope: &Scope,
    keys: &[(Named, BinExpr)],
) -> Result<(), NoMemory>
    ensures { OnOk result (checker.new ≡ with_found checker.old (keys_faults scope.now (keys_of keys.now))) }
{
    for key in keys {
        bin_faults(checker, scope, Role::Value, &key.1)?;
    }
    Ok(())
}

#[cycle(expressions)]
fn bin_faults(
    checker: &mut Checker<'_>,
    scope: &Scope,
    role: Role,
    expr: &BinExpr,
) -> Result<(), NoMemory>
    ensures { OnOk result (checker.new ≡ with_found checker.old (bin_faults scope.now role (bin_of expr.now))) }
{
    let role = receiver_if(has_opers(&expr.more), role);
    un_faults(checker, scope, role, &expr.first)?;
    opers_faults(checker, scope, &expr.more)
}

#[cycle(expressions)]
fn opers_faults(
    checker: &mut Checker<'_>,
    scope: &Scope,
    opers: &[(Named, UnExpr)],
) -> Result<(), NoMemory>
    ensures { OnOk result (checker.new ≡ with_found checker.old (opers_faults scope.now (opers_of opers.now))) }
{
    for oper in opers {
        un_faults(checker, scope, Role::Value, &oper.1)?;
    }
    Ok(())
}

#[cycle(expressions)]
fn un_faults(
    checker: &mut Checker<'_>,
    scope: &Scope,
    role: Role,
    expr: &UnExpr,
) -> Result<(), NoMemory>
    ensures { OnOk result (checker.new ≡ with_found checker.old (un_faults scope.now role (un_of expr.now))) }
{
    match expr {
        UnExpr::Alone { at, primary } => primary_faults(checker, scope, role, *at, primary),
        UnExpr::Sent(sent) => sent_faults(checker, scope, role, sent),
    }
}

#[cycle(expressions)]
fn sent_faults(
    checker: &mut Checker<'_>,
    scope: &Scope,
    role: Role,
    expr: &SentExpr,
) -> Result<(), NoMemory>
    ensures { OnOk result (checker.new ≡ with_found checker.old (un_faults scope.now role (sent_of expr.now))) }
{
    let role = receiver_if(has_names(&expr.names), role);
    primary_faults(checker, scope, role, expr.at, &expr.primary)
}

#[cycle(expressions)]
fn primary_faults(
    checker: &mut Checker<'_>,
    scope: &Scope,
    role: Role,
    at: u32,
    primary: &Primary,
) -> Result<(), NoMemory>
    ensures { OnOk result (checker.new ≡ with_found checker.old (primary_faults scope.now role at (primary_of primary.now))) }
{
    match primary {
        Primary::Name(_) => Ok(()),
        Primary::Number { minus, size } => number_faults(checker, *minus, *size, at),
        Primary::Str(_) => Ok(()),
        Primary::Symbol(_) => Ok(()),
        Primary::Nil => Ok(()),
        Primary::True => Ok(()),
        Primary::False => Ok(()),
        Primary::SelfWord => Ok(()),
        Primary::Super => super_word_faults(checker, role, at),
        Primary::Outer(name) => outer_faults(checker, scope, role, at, name),
        Primary::Paren(inner) => expr_faults(checker, scope, inner),
        Primary::Block(block) => block_faults(checker, scope, block),
        Primary::BareBlock(body) => bare_block_faults(checker, scope, body),
        Primary::Tuple { items, stop: _ } => tuple_faults(checker, scope, items),
    }
}

fn number_faults(checker: &mut Checker<'_>, minus: bool, size: u64, at: u32) -> Result<(), NoMemory>
    ensures { OnOk result (checker.new ≡ with_found checker.old (number_found minus size at)) }
{
    number_found(checker, minus, size, at);
    Ok(())
}

fn super_word_faults(checker: &mut Checker<'_>, role: Role, at: u32) -> Result<(), NoMemory>
    ensures { OnOk result (checker.new ≡ with_found checker.old (bare_found role at)) }
{
    bare_found(checker, role, at);
    Ok(())
}

fn outer_faults(
    checker: &mut Checker<'_>,
    scope: &Scope,
    role: Role,
    at: u32,
    name: &Named,
) -> Result<(), NoMemory>
    ensures { OnOk result (checker.new ≡ with_found checker.old (bare_found role at ++ outer_found scope.now.classes name.now)) }
{
    bare_found(checker, role, at);
    outer_found(checker, &scope.classes, name);
    Ok(())
}

#[cycle(expressions)]
fn tuple_faults(checker: &mut Checker<'_>, scope: &Scope, items: &[Expr]) -> Result<(), NoMemory>
    ensures { OnOk result (checker.new ≡ with_found checker.old (elements_found (exprs_of items.now) ++ items_faults scope.now
        (exprs_of items.now))) }
{
    elements_found(checker, items);
    items_faults(checker, scope, items)
}

#[cycle(expressions)]
fn items_faults(checker: &mut Checker<'_>, scope: &Scope, items: &[Expr]) -> Result<(), NoMemory>
    ensures { OnOk result (checker.new ≡ with_found checker.old (items_faults scope.now (exprs_of items.now))) }
{
    for item in items {
        expr_faults(checker, scope, item)?;
    }
    Ok(())
}

#[cycle(expressions)]
fn block_faults(checker: &mut Checker<'_>, scope: &Scope, block: &Block) -> Result<(), NoMemory>
    ensures { OnOk result (checker.new ≡ with_found checker.old (block_faults scope.now (block_of block.now))) }
{
    let inner = enter_block(checker, scope, &block.params, &block.slots)?;
    inside_faults(checker, &inner, block)
}

/// A block without parameters and locals.
#[cycle(expressions)]
fn bare_block_faults(
    checker: &mut Checker<'_>,
    scope: &Scope,
    body: &Statements,
) -> Result<(), NoMemory>
    ensures { OnOk result (checker.new ≡ with_found checker.old (block_faults scope.now (p.block_with [] p.no_bars (statements_of body.now)))) }
{
    let inner = enter_block(checker, scope, &[], &None)?;
    statements_faults(checker, &inner, body)
}

/// What stands in a block, which sees this.
#[cycle(expressions)]
fn inside_faults(checker: &mut Checker<'_>, scope: &Scope, block: &Block) -> Result<(), NoMemory>
    ensures { OnOk result (checker.new ≡ with_found checker.old (inside_faults scope.now (block_of block.now))) }
{
    match &block.slots {
        None => statements_faults(checker, scope, &block.body),
        Some(slots) => {
            slots_faults(checker, scope, slots)?;
            statements_faults(checker, scope, &block.body)
        }
    }
}

/// The slots of a method or an initialiser.
pub fn bars_faults(
    checker: &mut Checker<'_>,
    scope: &Scope,
    slots: &Option<Vec<Slot>>,
) -> Result<(), NoMemory>
    ensures { OnOk result (checker.new ≡ with_found checker.old (bars_faults scope.now (bars_of slots.now))) }
{
    match slots {
        None => Ok(()),
        Some(slots) => slots_faults(checker, scope, slots),
    }
}

#[cycle(expressions)]
fn slots_faults(checker: &mut Checker<'_>, scope: &Scope, slots: &[Slot]) -> Result<(), NoMemory>
    ensures { OnOk result (checker.new ≡ with_found checker.old (slots_faults scope.now (slots_of slots.now))) }
{
    for slot in slots {
        init_faults(checker, scope, &slot.init)?;
    }
    Ok(())
}

#[cycle(expressions)]
fn init_faults(checker: &mut Checker<'_>, scope: &Scope, init: &SlotInit) -> Result<(), NoMemory>
    ensures { OnOk result (checker.new ≡ with_found checker.old (init_faults scope.now (init_of init.now))) }
{
    match init {
        SlotInit::Bare { stop: _ } => Ok(()),
        SlotInit::Fixed(value) => expr_faults(checker, scope, value),
        SlotInit::Mutable(value) => expr_faults(checker, scope, value),
    }
}

#[cycle(expressions)]
pub fn statements_faults(
    checker: &mut Checker<'_>,
    scope: &Scope,
    body: &Statements,
) -> Result<(), NoMemory>
    ensures { OnOk result (checker.new ≡ with_found checker.old (statements_faults scope.now (statements_of body.now))) }
{
    list_faults(checker, scope, &body.list)
}

#[cycle(expressions)]
fn list_faults(checker: &mut Checker<'_>, scope: &Scope, list: &[Statement]) -> Result<(), NoMemory>
    ensures { OnOk result (checker.new ≡ with_found checker.old (list_faults scope.now (statement_list_of list.now))) }
{
    for statement in list {
        statement_faults(checker, scope, statement)?;
    }
    Ok(())
}

#[cycle(expressions)]
fn statement_faults(
    checker: &mut Checker<'_>,
    scope: &Scope,
    statement: &Statement,
) -> Result<(), NoMemory>
    ensures { OnOk result (checker.new ≡ with_found checker.old (statement_faults scope.now (statement_of statement.now))) }
{
    return_found(checker, scope, statement.caret);
    expr_faults(checker, scope, &statement.expr)
}
