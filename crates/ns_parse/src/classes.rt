//! Classes, their members, and the file: a function for each rule of the grammar. The depth is how many
//! brackets may still open in an expression, the nesting how many classes may still nest.

ghost use Rattle.std.specs.Prelude.{◌≡◌, option_map};
ghost use Rattle.ns_tree.specs.PlainOf.{message_of, clause_of, method_of, class_of, side_of, what_of, class_side_of, unit_of};
ghost use Rattle.ns_parse.specs.Classes as spec;
ghost use Rattle.ns_parse_exprs.specs.Expressions as exprs;
ghost use Rattle.ns_parse_tokens.specs.Read.{read_maybe};
ghost use Rattle.ns_parse_tokens.specs.Pattern as patterns;
ghost use Rattle.ns_parse_tokens.specs.Reads.{Reads, next_is};
ghost use Rattle.ns_parse.specs.Views.{head_view, body_view, opening_view, sides_view, member_view};

use ns_base::text::Text;
use ns_parse_exprs::expressions::{Holder, bars, keys, statements};
use ns_parse_tokens::fault::ParseFault;
use ns_parse_tokens::leaf::{access, is_access, sees_string, string, strings};
use ns_parse_tokens::mark::{Mark, closed, is_mark, sees, skip, skip_if};
use ns_parse_tokens::name::{Operators, Sort, is_name, name, sees_name};
use ns_parse_tokens::pattern::{base, factory, pattern, sees_base};
use ns_parse_tokens::tokens::Tokens;
use ns_tree::make;
use ns_tree::token::Kind;
use ns_tree::tree::{
    Access, Base, Class, Member, Message, Method, Named, Pattern, Side, Slot, Statements,
    SuperClause, Unit, What,
};
use std::alloc::Global;

/// A side of a class.
#[derive(Clone, Copy)]
pub enum SideOf {
    /// The members of its instances.
    Instance,
    /// The members of the class itself.
    ClassObject,
}

fn starts_pattern(kind: &Kind) -> bool
    ensures { result ≡ spec.starts_pattern kind.now }
{
    match kind {
        Kind::Ident(_) => true,
        Kind::Key(_) => true,
        Kind::Oper(_) => true,
        _ => false,
    }
}

fn starts_what(side: SideOf, kind: &Kind) -> bool
    ensures { result ≡ spec.starts_what side kind.now }
{
    match side {
        SideOf::Instance => is_mark(Mark::ClassWord, kind) || starts_pattern(kind),
        SideOf::ClassObject => starts_pattern(kind),
    }
}

fn sees_member(tokens: &Tokens, side: SideOf) -> bool
    ensures { result ≡ next_is (spec.starts_member side) tokens.now }
{
    match tokens.next() {
        Some(kind) => is_access(kind) || starts_what(side, kind),
        None => false,
    }
}

/// Reads the message to the superclass, if there is one.
#[tactic(auto, unfolding(crate::specs::Classes::super_message))]
fn super_message(
    alloc: Global,
    tokens: &mut Tokens,
    depth: usize,
) -> Result<Option<Message>, ParseFault>
    ensures { Reads (option_map message_of) (spec.super_message (exprs.primary depth)) result tokens.old tokens.new }
{
    if sees_name(tokens, Sort::Ident) {
        let name = name(alloc, tokens, Sort::Ident)?;
        Ok(Some(Message::Unary(name)))
    } else if sees_name(tokens, Sort::Key) {
        let keys = keys(alloc, tokens, depth, Operators::All)?;
        Ok(Some(make::keywords(keys)))
    } else {
        Ok(None)
    }
}

/// Reads the sign between a mixin and its superclass, and the superclass, if they are there.
fn over(alloc: Global, tokens: &mut Tokens) -> Result<Option<Base>, ParseFault>
    ensures { Reads (λ base. base) spec.over result tokens.old tokens.new }
{
    if sees(tokens, Mark::Over) {
        skip(tokens, Mark::Over)?;
        let base = base(alloc, tokens)?;
        Ok(Some(base))
    } else {
        Ok(None)
    }
}

/// Reads a superclass clause.
#[tactic(auto, unfolding(crate::specs::Classes::clause))]
fn clause(alloc: Global, tokens: &mut Tokens, depth: usize) -> Result<SuperClause, ParseFault>
    ensures { Reads clause_of (spec.clause (exprs.primary depth)) result tokens.old tokens.new }
{
    let head = base(alloc, tokens)?;
    let over = over(alloc, tokens)?;
    let message = super_message(alloc, tokens, depth)?;
    Ok(make::clause(head, over, message))
}

/// Reads a superclass clause, if there is one.
fn maybe_clause(
    alloc: Global,
    tokens: &mut Tokens,
    depth: usize,
) -> Result<Option<SuperClause>, ParseFault>
    ensures { Reads (option_map clause_of) (read_maybe patterns.starts_base (spec.clause (exprs.primary depth))) result tokens.old tokens.new }
{
    if sees_base(tokens) {
        let clause = clause(alloc, tokens, depth)?;
        Ok(Some(clause))
    } else {
        Ok(None)
    }
}

/// Reads an equals sign and a superclass clause, if there is one.
fn equals_clause(
    alloc: Global,
    tokens: &mut Tokens,
    depth: usize,
) -> Result<Option<SuperClause>, ParseFault>
    ensures { Reads (option_map clause_of) (spec.equals_clause (exprs.primary depth)) result tokens.old tokens.new }
{
    skip(tokens, Mark::Equals)?;
    maybe_clause(alloc, tokens, depth)
}

/// Reads slots and statements in parentheses.
#[tactic(auto, unfolding(crate::specs::Classes::body))]
fn body(
    alloc: Global,
    tokens: &mut Tokens,
    depth: usize,
    holder: Holder,
) -> Result<(Option<Vec<Slot>>, Statements), ParseFault>
    ensures { Reads body_view (spec.body (exprs.primary depth) holder) result tokens.old tokens.new }
{
    skip(tokens, Mark::Open)?;
    let slots = bars(alloc, tokens, depth, holder)?;
    let body = statements(alloc, tokens, depth)?;
    closed(tokens, Mark::Close, (slots, body))
}

/// Reads a method.
#[tactic(auto, unfolding(crate::specs::Classes::method))]
fn method(alloc: Global, tokens: &mut Tokens, depth: usize) -> Result<Method, ParseFault>
    ensures { Reads method_of (spec.method (exprs.primary depth)) result tokens.old tokens.new }
{
    let pattern = pattern(alloc, tokens)?;
    skip(tokens, Mark::Equals)?;
    let body = body(alloc, tokens, depth, Holder::Code)?;
    Ok(make::method(pattern, body.0, body.1))
}

/// Reads a method as a member.
fn method_member(alloc: Global, tokens: &mut Tokens, depth: usize) -> Result<What, ParseFault>
    ensures { Reads what_of (spec.method_member (exprs.primary depth)) result tokens.old tokens.new }
{
    let method = method(alloc, tokens, depth)?;
    Ok(make::method_member(method))
}

/// Reads the name, the factory and the superclass clause of a class.
#[tactic(auto, unfolding(crate::specs::Classes::head))]
fn head(
    alloc: Global,
    tokens: &mut Tokens,
    depth: usize,
) -> Result<(Named, Option<Pattern>, Option<SuperClause>), ParseFault>
    ensures { Reads head_view (spec.head (exprs.primary depth)) result tokens.old tokens.new }
{
    skip(tokens, Mark::ClassWord)?;
    let name = name(alloc, tokens, Sort::Ident)?;
    let factory = factory(alloc, tokens)?;
    match equals_clause(alloc, tokens, depth) {
        Ok(clause) => Ok((name, factory, clause)),
        Err(fault) => {
            drop(factory);
            Err(fault)
        }
    }
}

/// What stands before the sides of a class: its name, factory and superclass clause, and its
/// initialiser.
#[derive(Drop)]
struct Opening {
    head: (Named, Option<Pattern>, Option<SuperClause>),
    body: (Option<Vec<Slot>>, Statements),
}

/// Reads what stands before the sides of a class.
fn class_opening(alloc: Global, tokens: &mut Tokens, depth: usize) -> Result<Opening, ParseFault>
    ensures { Reads opening_view (spec.class_opening (exprs.primary depth)) result tokens.old tokens.new }
{
    let head = head(alloc, tokens, depth)?;
    match body(alloc, tokens, depth, Holder::Object) {
        Ok(body) => Ok(Opening { head, body }),
        Err(fault) => {
            drop(head);
            Err(fault)
        }
    }
}

/// The class of its parts.
fn whole_class(opening: Opening, sides: (Side, Option<Side>)) -> Class
    ensures { class_of result ≡ spec.class_from (opening_view opening, sides_view sides) }
{
    let (name, factory, clause) = opening.head;
    let (slots, body) = opening.body;
    let (side, class_side) = sides;
    make::class(name, factory, clause, slots, body, side, class_side)
}

/// Reads a class or a method of an instance side.
#[cycle(classes)]
#[tactic(auto, unfolding(crate::specs::Classes::what))]
fn what(
    alloc: Global,
    tokens: &mut Tokens,
    depth: usize,
    nesting: usize,
) -> Result<What, ParseFault>
    ensures { Reads what_of (spec.what (exprs.primary depth) nesting) result tokens.old tokens.new }
{
    if nesting == 0 {
        method_member(alloc, tokens, depth)
    } else {
        let what = class_or_method(alloc, tokens, depth, nesting - 1)?;
        Ok(what)
    }
}

/// Reads a class within which so many may nest, or a method.
#[cycle(classes)]
#[tactic(auto, unfolding(crate::specs::Classes::class_or_method))]
fn class_or_method(
    alloc: Global,
    tokens: &mut Tokens,
    depth: usize,
    nesting: usize,
) -> Result<What, ParseFault>
    ensures { Reads what_of (spec.class_or_method (exprs.primary depth) (spec.what (exprs.primary depth) nesting)) result tokens.old tokens.new }
{
    if sees(tokens, Mark::ClassWord) {
        let class = class(alloc, tokens, depth, nesting)?;
        let what = make::class_member(alloc, class)?;
        Ok(what)
    } else {
        method_member(alloc, tokens, depth)
    }
}

/// Reads a class.
#[cycle(classes)]
#[tactic(auto, unfolding(crate::specs::Classes::class))]
fn class(
    alloc: Global,
    tokens: &mut Tokens,
    depth: usize,
    nesting: usize,
) -> Result<Class, ParseFault>
    ensures { Reads class_of (spec.class (exprs.primary depth) (spec.what (exprs.primary depth) nesting)) result tokens.old tokens.new }
{
    let opening = class_opening(alloc, tokens, depth)?;
    match both_sides(alloc, tokens, depth, nesting) {
        Ok(sides) => Ok(whole_class(opening, sides)),
        Err(fault) => {
            drop(opening);
            Err(fault)
        }
    }
}

/// Reads both sides of a class.
#[cycle(classes)]
fn both_sides(
    alloc: Global,
    tokens: &mut Tokens,
    depth: usize,
    nesting: usize,
) -> Result<(Side, Option<Side>), ParseFault>
    ensures { Reads sides_view (spec.both_sides (exprs.primary depth) (spec.what (exprs.primary depth) nesting)) result tokens.old tokens.new }
{
    let side = side(alloc, tokens, depth, nesting, SideOf::Instance)?;
    match class_side(alloc, tokens, depth, nesting) {
        Ok(class_side) => Ok((side, class_side)),
        Err(fault) => {
            drop(side);
            Err(fault)
        }
    }
}

/// Reads a colon and a class side, if they are there.
#[cycle(classes)]
#[tactic(auto, unfolding(crate::specs::Classes::class_side))]
fn class_side(
    alloc: Global,
    tokens: &mut Tokens,
    depth: usize,
    nesting: usize,
) -> Result<Option<Side>, ParseFault>
    ensures { Reads class_side_of (spec.class_side (exprs.primary depth) (spec.what (exprs.primary depth) nesting)) result tokens.old tokens.new }
{
    if sees(tokens, Mark::Colon) {
        skip(tokens, Mark::Colon)?;
        let side = side(alloc, tokens, depth, nesting, SideOf::ClassObject)?;
        Ok(Some(side))
    } else {
        Ok(None)
    }
}

/// Reads a side of a class.
#[cycle(classes)]
#[tactic(auto, unfolding(crate::specs::Classes::side))]
fn side(
    alloc: Global,
    tokens: &mut Tokens,
    depth: usize,
    nesting: usize,
    side: SideOf,
) -> Result<Side, ParseFault>
    ensures { Reads side_of (spec.side (exprs.primary depth) (spec.what (exprs.primary depth) nesting) side) result tokens.old tokens.new }
{
    skip(tokens, Mark::Open)?;
    let members = members(alloc, tokens, depth, nesting, side)?;
    closed(tokens, Mark::Close, members)
}

/// Reads the members of a side with their categories, as many as there are, and the categories behind
/// the last.
#[cycle(classes)]
fn members(
    alloc: Global,
    tokens: &mut Tokens,
    depth: usize,
    nesting: usize,
    side: SideOf,
) -> Result<Side, ParseFault>
    ensures { Reads side_of (spec.members (exprs.primary depth) (spec.what (exprs.primary depth) nesting) side) result tokens.old tokens.new }
{
    let mut items = Vec::new(alloc);
    let mut categories = strings(alloc, tokens)?;
    'items: while sees_member(tokens, side) {
        let (access, what) = member(alloc, tokens, depth, nesting, side)?;
        match strings(alloc, tokens) {
            Ok(more) => {
                items.push(Member {
                    categories,
                    access,
                    what,
                })?;
                categories = more;
            }
            Err(fault) => {
                drop(what);
                return Err(fault);
            }
        }
    }
    Ok(make::side(items, categories))
}

/// Reads a member, but for its categories.
#[cycle(classes)]
fn member(
    alloc: Global,
    tokens: &mut Tokens,
    depth: usize,
    nesting: usize,
    side: SideOf,
) -> Result<(Option<Access>, What), ParseFault>
    ensures { Reads member_view (spec.member (exprs.primary depth) (spec.what (exprs.primary depth) nesting) side) result tokens.old tokens.new }
{
    let access = access(tokens);
    let what = what_of(alloc, tokens, depth, nesting, side)?;
    Ok((access, what))
}

/// Reads what a member of that side is.
#[cycle(classes)]
fn what_of(
    alloc: Global,
    tokens: &mut Tokens,
    depth: usize,
    nesting: usize,
    side: SideOf,
) -> Result<What, ParseFault>
    ensures { Reads what_of (spec.what_of (exprs.primary depth) (spec.what (exprs.primary depth) nesting) side) result tokens.old tokens.new }
{
    match side {
        SideOf::Instance => what(alloc, tokens, depth, nesting),
        SideOf::ClassObject => method_member(alloc, tokens, depth),
    }
}

/// Reads the category of a file, if there is one.
fn category(alloc: Global, tokens: &mut Tokens) -> Result<Option<Text>, ParseFault>
    ensures { Reads (λ text. text) spec.category result tokens.old tokens.new }
{
    if sees_string(tokens) {
        let text = string(alloc, tokens)?;
        Ok(Some(text))
    } else {
        Ok(None)
    }
}

/// Reads a file.
#[tactic(auto, unfolding(crate::specs::Classes::file))]
pub fn file(alloc: Global, tokens: &mut Tokens, depth: usize) -> Result<Unit, ParseFault>
    ensures { Reads unit_of (spec.file depth) result tokens.old tokens.new }
{
    let marker = skip_if(tokens, Mark::Newspeak3);
    let category = category(alloc, tokens)?;
    let class = class(alloc, tokens, depth, depth)?;
    Ok(make::unit(marker, category, class))
}
