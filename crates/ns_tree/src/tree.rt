//! The tree of a source file. Each `at` is the number of a token in the file, counted from 0. A tree
//! keeps every optional full stop, so its tokens are known exactly.

use ns_base::text::Text;

/// A file: whether it begins with `Newspeak3`, its category, and its class.
#[derive(Drop)]
pub struct Unit {
    pub marker: bool,
    pub category: Option<Text>,
    pub class: Class,
}

/// A name, key or operator, and the number of its token.
#[derive(Drop)]
pub struct Named {
    pub text: Text,
    pub at: u32,
}

/// Who reaches a member.
#[derive(Clone, Copy)]
pub enum Access {
    Public,
    Protected,
    Private,
}

/// A class declaration. `slots` and `body` are its instance initialiser.
#[cycle(classes)]
#[derive(Drop)]
pub struct Class {
    pub name: Named,
    pub factory: Option<Pattern>,
    pub clause: Option<SuperClause>,
    pub slots: Option<Vec<Slot>>,
    pub body: Statements,
    pub side: Side,
    pub class_side: Option<Side>,
}

/// The pattern of a method or factory: one identifier or operator, or keys, and a parameter for each
/// operator or key.
#[derive(Drop)]
pub struct Pattern {
    pub parts: Vec<Named>,
    pub params: Vec<Named>,
}

/// A superclass clause, `head` or `head <: over`, with the message that initialises the superclass
/// part.
#[derive(Drop)]
pub struct SuperClause {
    pub head: Base,
    pub over: Option<Base>,
    pub message: Option<Message>,
}

/// A name of a superclass or mixin, and where it is looked for.
#[derive(Drop)]
pub struct Base {
    pub origin: Origin,
    pub name: Named,
}

/// Where the name of a base is looked for.
#[derive(Drop)]
pub enum Origin {
    Here,
    Super,
    Outer(Named),
}

/// A slot of an instance, or a local of a method or block, which has no access word.
#[cycle(exprs)]
#[derive(Drop)]
pub struct Slot {
    pub access: Option<Access>,
    pub name: Named,
    pub init: SlotInit,
}

/// How a slot begins: as nil with or without a full stop, or with the value of an expression, which
/// an immutable slot keeps.
#[cycle(exprs)]
#[derive(Drop)]
pub enum SlotInit {
    Bare { stop: bool },
    Fixed(Box<Expr>),
    Mutable(Box<Expr>),
}

/// The members of a class, on one side, and the categories behind them.
#[cycle(classes)]
#[derive(Drop)]
pub struct Side {
    pub members: Vec<Member>,
    pub tail: Vec<Text>,
}

/// A member of a class, and the categories and the access word before it.
#[cycle(classes)]
#[derive(Drop)]
pub struct Member {
    pub categories: Vec<Text>,
    pub access: Option<Access>,
    pub what: What,
}

/// What a member is.
#[cycle(classes)]
#[derive(Drop)]
pub enum What {
    Class(Box<Class>),
    Method(Method),
}

/// A method.
#[derive(Drop)]
pub struct Method {
    pub pattern: Pattern,
    pub slots: Option<Vec<Slot>>,
    pub body: Statements,
}

/// A block.
#[cycle(exprs)]
#[derive(Drop)]
pub struct Block {
    pub params: Vec<Named>,
    pub slots: Option<Vec<Slot>>,
    pub body: Statements,
}

/// Statements with a full stop between two, and perhaps one behind the last.
#[cycle(exprs)]
#[derive(Drop)]
pub struct Statements {
    pub list: Vec<Statement>,
    pub stop: bool,
}

/// An expression, and the number of the `^` before it, if there is one.
#[cycle(exprs)]
#[derive(Drop)]
pub struct Statement {
    pub caret: Option<u32>,
    pub expr: Expr,
}

/// An expression: an operand alone, as most are; binary messages alone; the keys of an implicit send
/// alone; or more than that.
#[cycle(exprs)]
#[derive(Drop)]
pub enum Expr {
    Operand(UnExpr),
    Operation(Box<BinExpr>),
    Implicit(Vec<(Named, BinExpr)>),
    Full(Box<FullExpr>),
}

/// The names that are set, an expression, and the messages of its cascade, each with the number of
/// its `;`.
#[cycle(exprs)]
#[derive(Drop)]
pub struct FullExpr {
    pub sets: Vec<Named>,
    pub first: KeyExpr,
    pub more: Vec<(u32, Message)>,
}

/// A message of a cascade or of a superclass clause. A binary one, which is rare, stands in memory of
/// its own.
#[cycle(exprs)]
#[derive(Drop)]
pub enum Message {
    Unary(Named),
    Binary(Box<(Named, UnExpr)>),
    Keys(Vec<(Named, BinExpr)>),
}

/// A receiver and the keys of one keyword message to it. Without a receiver there is a key, and the
/// message is an implicit send; without keys there is a receiver alone.
#[cycle(exprs)]
#[derive(Drop)]
pub struct KeyExpr {
    pub receiver: Option<BinExpr>,
    pub keys: Vec<(Named, BinExpr)>,
}

/// A receiver and the binary messages to it, from left to right.
#[cycle(exprs)]
#[derive(Drop)]
pub struct BinExpr {
    pub first: UnExpr,
    pub more: Vec<(Named, UnExpr)>,
}

/// A primary with the number of its first token: alone, as most are, or with unary messages to it.
#[cycle(exprs)]
#[derive(Drop)]
pub enum UnExpr {
    Alone { at: u32, primary: Primary },
    Sent(Box<SentExpr>),
}

/// A primary, the number of its first token, and the unary messages to it, from left to right.
#[cycle(exprs)]
#[derive(Drop)]
pub struct SentExpr {
    pub at: u32,
    pub primary: Primary,
    pub names: Vec<Named>,
}

/// What an expression is built from. A bare block is one without parameters and locals.
#[cycle(exprs)]
#[derive(Drop)]
pub enum Primary {
    Name(Text),
    Number { minus: bool, size: u64 },
    Str(Text),
    Symbol(Text),
    Nil,
    True,
    False,
    SelfWord,
    Super,
    Outer(Box<Named>),
    Paren(Box<Expr>),
    Block(Box<Block>),
    BareBlock(Box<Statements>),
    Tuple { stop: bool, items: Vec<Expr> },
}
