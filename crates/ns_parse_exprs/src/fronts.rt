//! What begins a part of an expression.

ghost use Rattle.std.specs.Prelude.{◌≡◌};
ghost use Rattle.ns_parse_exprs.specs.Expressions as spec;
ghost use Rattle.ns_parse_tokens.specs.Leaf as leaves;
ghost use Rattle.ns_parse_tokens.specs.Reads.{next_is};

use crate::expressions::Holder;
use ns_parse_tokens::leaf::{is_access, starts_bracketed, starts_leaf};
use ns_parse_tokens::name::{Sort, is_name};
use ns_parse_tokens::tokens::Tokens;
use ns_tree::token::Kind;

/// Whether the token begins a receiver or an argument.
fn starts_un(kind: &Kind) -> bool
    ensures { result ≡ spec.starts_un kind.now }
{
    starts_leaf(kind) || starts_bracketed(kind)
}

/// Whether the token begins an expression.
fn starts_expr(kind: &Kind) -> bool
    ensures { result ≡ spec.starts_expr kind.now }
{
    is_name(Sort::SetKey, kind) || is_name(Sort::Key, kind) || starts_un(kind)
}

/// Whether the token begins a statement.
fn starts_statement(kind: &Kind) -> bool
    ensures { result ≡ spec.starts_statement kind.now }
{
    matches!(kind, Kind::Caret) || starts_expr(kind)
}

/// Whether the token begins a slot.
fn starts_slot(holder: Holder, kind: &Kind) -> bool
    ensures { result ≡ spec.starts_slot holder kind.now }
{
    match holder {
        Holder::Object => is_access(kind) || is_name(Sort::Ident, kind),
        Holder::Code => is_name(Sort::Ident, kind),
    }
}

/// Whether a primary without brackets is next.
pub fn sees_leaf(tokens: &Tokens) -> bool
    ensures { result ≡ next_is leaves.starts_leaf tokens.now }
{
    match tokens.next() {
        Some(kind) => starts_leaf(kind),
        None => false,
    }
}

/// Whether a receiver or an argument is next.
pub fn sees_un(tokens: &Tokens) -> bool
    ensures { result ≡ next_is spec.starts_un tokens.now }
{
    match tokens.next() {
        Some(kind) => starts_un(kind),
        None => false,
    }
}

/// Whether an expression is next.
pub fn sees_expr(tokens: &Tokens) -> bool
    ensures { result ≡ next_is spec.starts_expr tokens.now }
{
    match tokens.next() {
        Some(kind) => starts_expr(kind),
        None => false,
    }
}

/// Whether a statement is next.
pub fn sees_statement(tokens: &Tokens) -> bool
    ensures { result ≡ next_is spec.starts_statement tokens.now }
{
    match tokens.next() {
        Some(kind) => starts_statement(kind),
        None => false,
    }
}

/// Whether a slot is next.
pub fn sees_slot(tokens: &Tokens, holder: Holder) -> bool
    ensures { result ≡ next_is (spec.starts_slot holder) tokens.now }
{
    match tokens.next() {
        Some(kind) => starts_slot(holder, kind),
        None => false,
    }
}
