//! A maker for each node of a tree that holds a vector, a box or an option of nodes, and for the nodes
//! around them. Each says the node's plain form, so that who makes a tree sees plain forms alone.

ghost use Rattle.std.specs.Prelude.{◌≡◌, [], IfOk, option_map};
ghost use Rattle.ns_tree.specs.Plain as p;
ghost use Rattle.ns_tree.specs.PlainOf.{expr_of, full_expr_of, message_of, key_expr_of, bin_of, un_of, sent_of, primary_of, block_of, slot_of, init_of, statements_of, statement_of};
ghost use Rattle.ns_tree.specs.PlainOf.{cascade_of, keys_of, opers_of, exprs_of, bars_of, statement_list_of, members_of, class_side_of};
ghost use Rattle.ns_tree.specs.PlainOf.{pattern_of, clause_of, method_of, class_of, side_of, member_of, what_of, unit_of};

use crate::tree::{
    Access, Base, BinExpr, Block, Class, Expr, FullExpr, KeyExpr, Member, Message, Method, Named,
    Pattern, Primary, SentExpr, Side, Slot, SlotInit, Statement, Statements, SuperClause, UnExpr,
    Unit, What,
};
use ns_base::no_memory::NoMemory;
use ns_base::text::Text;
use std::alloc::Global;

/// The most items of a list that is moved into memory of its own size.
const SHORT_LIST: usize = 64;

/// Sets, an expression, and the messages of its cascade.
pub fn expr(
    alloc: Global,
    sets: Vec<Named>,
    first: KeyExpr,
    more: Vec<(u32, Message)>,
) -> Result<Expr, NoMemory>
    ensures { IfOk result (λ expr. expr_of expr ≡ p.expr_with sets.items (key_expr_of first) (cascade_of more.items)) }
{
    if sets.is_empty() && more.is_empty() {
        simple(alloc, first)
    } else {
        full(alloc, sets, first, more)
    }
}

/// An expression without names that are set and without a cascade.
fn simple(alloc: Global, expr: KeyExpr) -> Result<Expr, NoMemory>
    ensures { IfOk result (λ made. expr_of made ≡ p.expr_with [] (key_expr_of expr) p.no_messages) }
{
    let KeyExpr { receiver, keys } = expr;
    match receiver {
        None => Ok(Expr::Implicit(keys)),
        Some(bin) => keyed(alloc, bin, keys),
    }
}

/// A receiver, and the keys of the message to it, if there are any.
fn keyed(alloc: Global, receiver: BinExpr, keys: Vec<(Named, BinExpr)>) -> Result<Expr, NoMemory>
    ensures { IfOk result (λ made. expr_of made ≡ p.expr_with [] (p.sent (bin_of receiver) (keys_of keys.items)) p.no_messages) }
{
    if keys.is_empty() {
        operation(alloc, receiver)
    } else {
        full(
            alloc,
            Vec::new(alloc),
            sent(receiver, keys),
            Vec::new(alloc),
        )
    }
}

/// A receiver and the binary messages to it, if there are any.
fn operation(alloc: Global, bin: BinExpr) -> Result<Expr, NoMemory>
    ensures { IfOk result (λ made. expr_of made ≡ p.expr_with [] (p.sent (bin_of bin) p.no_keys) p.no_messages) }
{
    if bin.more.is_empty() {
        Ok(Expr::Operand(bin.first))
    } else {
        Ok(Expr::Operation(Box::new(alloc, bin)?))
    }
}

/// An expression of any form.
fn full(
    alloc: Global,
    sets: Vec<Named>,
    first: KeyExpr,
    more: Vec<(u32, Message)>,
) -> Result<Expr, NoMemory>
    ensures { IfOk result (λ expr. expr_of expr ≡ p.expr_with sets.items (key_expr_of first) (cascade_of more.items)) }
{
    let full = full_expr(sets, first, more);
    Ok(Expr::Full(Box::new(alloc, full)?))
}

fn full_expr(sets: Vec<Named>, first: KeyExpr, more: Vec<(u32, Message)>) -> FullExpr
    ensures { full_expr_of result ≡ p.expr_with sets.items (key_expr_of first) (cascade_of more.items) }
{
    FullExpr {
        sets: fitted(sets),
        first,
        more: fitted(more),
    }
}

/// A binary message: an operator and its argument.
pub fn binary(alloc: Global, oper: (Named, UnExpr)) -> Result<Message, NoMemory>
    ensures { IfOk result (λ message. message_of message ≡ p.binary oper.0 (un_of oper.1)) }
{
    Ok(Message::Binary(Box::new(alloc, oper)?))
}

/// A keyword message.
pub fn keywords(keys: Vec<(Named, BinExpr)>) -> Message
    ensures { message_of result ≡ p.keywords (keys_of keys.items) }
{
    Message::Keys(fitted(keys))
}

/// A receiver, and the keys of the message to it, if there are any.
pub fn sent(receiver: BinExpr, keys: Vec<(Named, BinExpr)>) -> KeyExpr
    ensures { key_expr_of result ≡ p.sent (bin_of receiver) (keys_of keys.items) }
{
    KeyExpr {
        receiver: Some(receiver),
        keys: fitted(keys),
    }
}

/// The keys of an implicit send.
pub fn implicit(keys: Vec<(Named, BinExpr)>) -> KeyExpr
    ensures { key_expr_of result ≡ p.implicit (keys_of keys.items) }
{
    KeyExpr {
        receiver: None,
        keys: fitted(keys),
    }
}

/// A receiver and binary messages to it.
pub fn bin(first: UnExpr, more: Vec<(Named, UnExpr)>) -> BinExpr
    ensures { bin_of result ≡ p.bin_with (un_of first) (opers_of more.items) }
{
    BinExpr {
        first,
        more: fitted(more),
    }
}

/// A primary and the unary messages to it, if there are any.
pub fn un(alloc: Global, at: u32, primary: Primary, names: Vec<Named>) -> Result<UnExpr, NoMemory>
    ensures { IfOk result (λ un. un_of un ≡ p.un_with at (primary_of primary) names.items) }
{
    if names.is_empty() {
        Ok(UnExpr::Alone { at, primary })
    } else {
        let sent = sent_expr(at, primary, names);
        Ok(UnExpr::Sent(Box::new(alloc, sent)?))
    }
}

fn sent_expr(at: u32, primary: Primary, names: Vec<Named>) -> SentExpr
    ensures { sent_of result ≡ p.un_with at (primary_of primary) names.items }
{
    SentExpr {
        at,
        primary,
        names: fitted(names),
    }
}

/// A class around.
pub fn outer(alloc: Global, name: Named) -> Result<Primary, NoMemory>
    ensures { IfOk result (λ primary. primary_of primary ≡ p.outer_name name) }
{
    Ok(Primary::Outer(Box::new(alloc, name)?))
}

/// An expression in parentheses.
pub fn paren(alloc: Global, inner: Expr) -> Result<Primary, NoMemory>
    ensures { IfOk result (λ primary. primary_of primary ≡ p.paren (expr_of inner)) }
{
    Ok(Primary::Paren(Box::new(alloc, inner)?))
}

/// A block as a primary.
pub fn block_literal(alloc: Global, block: Block) -> Result<Primary, NoMemory>
    ensures { IfOk result (λ primary. primary_of primary ≡ p.block_literal (block_of block)) }
{
    if block.params.is_empty() && block.slots.is_none() {
        Ok(Primary::BareBlock(Box::new(alloc, block.body)?))
    } else {
        Ok(Primary::Block(Box::new(alloc, block)?))
    }
}

/// A tuple.
pub fn tuple(items: Vec<Expr>, stop: bool) -> Primary
    ensures { primary_of result ≡ p.tuple (exprs_of items.items) stop }
{
    Primary::Tuple {
        stop,
        items: fitted(items),
    }
}

/// A block: parameters, locals, statements.
pub fn block(params: Vec<Named>, slots: Option<Vec<Slot>>, body: Statements) -> Block
    ensures { block_of result ≡ p.block_with params.items (bars_of slots) (statements_of body) }
{
    Block {
        params: fitted(params),
        slots: fitted_bars(slots),
        body,
    }
}

/// A slot or local.
pub fn slot(access: Option<Access>, name: Named, init: SlotInit) -> Slot
    ensures { slot_of result ≡ p.slot_with access name (init_of init) }
{
    Slot { access, name, init }
}

/// An immutable slot's beginning.
pub fn fixed(alloc: Global, value: Expr) -> Result<SlotInit, NoMemory>
    ensures { IfOk result (λ init. init_of init ≡ p.fixed (expr_of value)) }
{
    Ok(SlotInit::Fixed(Box::new(alloc, value)?))
}

/// A mutable slot's beginning.
pub fn mutable(alloc: Global, value: Expr) -> Result<SlotInit, NoMemory>
    ensures { IfOk result (λ init. init_of init ≡ p.mutable (expr_of value)) }
{
    Ok(SlotInit::Mutable(Box::new(alloc, value)?))
}

/// Statements.
pub fn statements(list: Vec<Statement>, stop: bool) -> Statements
    ensures { statements_of result ≡ p.statements_with (statement_list_of list.items) stop }
{
    Statements {
        list: fitted(list),
        stop,
    }
}

/// A statement.
pub fn statement(caret: Option<u32>, expr: Expr) -> Statement
    ensures { statement_of result ≡ p.statement_with caret (expr_of expr) }
{
    Statement { caret, expr }
}

/// A pattern.
pub fn pattern(parts: Vec<Named>, params: Vec<Named>) -> Pattern
    ensures { pattern_of result ≡ p.pattern_with parts.items params.items }
{
    Pattern {
        parts: fitted(parts),
        params: fitted(params),
    }
}

/// A superclass clause.
pub fn clause(head: Base, over: Option<Base>, message: Option<Message>) -> SuperClause
    ensures { clause_of result ≡ p.clause_with head over (option_map message_of message) }
{
    SuperClause {
        head,
        over,
        message,
    }
}

/// A method.
pub fn method(pattern: Pattern, slots: Option<Vec<Slot>>, body: Statements) -> Method
    ensures { method_of result ≡ p.method_with (pattern_of pattern) (bars_of slots) (statements_of body) }
{
    Method {
        pattern,
        slots: fitted_bars(slots),
        body,
    }
}

/// A class declaration.
pub fn class(
    name: Named,
    factory: Option<Pattern>,
    clause: Option<SuperClause>,
    slots: Option<Vec<Slot>>,
    body: Statements,
    side: Side,
    class_side: Option<Side>,
) -> Class
    ensures { class_of result ≡ p.class_with name (option_map pattern_of factory) (option_map clause_of clause)
        (bars_of slots) (statements_of body) (side_of side) (class_side_of class_side) }
{
    Class {
        name,
        factory,
        clause,
        slots: fitted_bars(slots),
        body,
        side,
        class_side,
    }
}

/// One side of a class.
pub fn side(members: Vec<Member>, tail: Vec<Text>) -> Side
    ensures { side_of result ≡ p.side_with (members_of members.items) tail.items }
{
    Side {
        members: fitted(members),
        tail: fitted(tail),
    }
}

/// A member.
pub fn member(categories: Vec<Text>, access: Option<Access>, what: What) -> Member
    ensures { member_of result ≡ p.member_with categories.items access (what_of what) }
{
    Member {
        categories: fitted(categories),
        access,
        what,
    }
}

/// A nested class as a member.
pub fn class_member(alloc: Global, class: Class) -> Result<What, NoMemory>
    ensures { IfOk result (λ what. what_of what ≡ p.class_member (class_of class)) }
{
    Ok(What::Class(Box::new(alloc, class)?))
}

/// A method as a member.
pub fn method_member(method: Method) -> What
    ensures { what_of result ≡ p.method_member (method_of method) }
{
    What::Method(method)
}

/// A file.
pub fn unit(marker: bool, category: Option<Text>, class: Class) -> Unit
    ensures { unit_of result ≡ p.unit_with marker category (class_of class) }
{
    Unit {
        marker,
        category,
        class,
    }
}

/// The same list in memory of its own size. A list that grows takes room for four items at once, and most
/// of a source's lists have one or none. A short list moves, so that the room it had goes whole to the next
/// list that grows: a part of it that is given back is too small for that, and lies idle.
fn fitted<T: Drop>(list: Vec<T>) -> Vec<T>
    ensures { result.items ≡ list.items }
{
    let mut list = list;
    if list.len() < list.capacity() && list.len() <= SHORT_LIST {
        match Vec::with_capacity(*list.allocator(), list.len()) {
            Ok(room) => return moved(room, list),
            Err(_) => {}
        }
    }
    list.shrink_to_fit();
    list
}

/// The same list in that room, if it is large enough.
fn moved<T: Drop>(room: Vec<T>, list: Vec<T>) -> Vec<T>
    requires { room.items ≡ [] }
    ensures { result.items ≡ list.items }
{
    let mut room = room;
    let mut list = list;
    match room.append(&mut list) {
        Ok(()) => room,
        Err(_) => list,
    }
}

/// The same slots in memory of their own size.
fn fitted_bars(slots: Option<Vec<Slot>>) -> Option<Vec<Slot>>
    ensures { bars_of result ≡ bars_of slots }
{
    match slots {
        Some(list) => Some(fitted(list)),
        None => None,
    }
}
