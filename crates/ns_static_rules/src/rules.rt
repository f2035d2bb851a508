//! The rules on the parts of expressions.

ghost use Rattle.std.specs.Prelude.{◌≡◌, slice_get};
ghost use Rattle.std.specs.List.{list_any};
ghost use Rattle.std.specs.Str.{bytes_eq};
ghost use Rattle.ns_tree.specs.PlainOf.{expr_of, full_expr_of, key_expr_of, keys_of, bin_of, opers_of, un_of, sent_of, primary_of, cascade_of, exprs_of};
ghost use Rattle.ns_scope.specs.Resolve.{innermost};
ghost use Rattle.ns_static_rules.specs.Rules.{set_found, return_found, bare_found, outer_found, number_found, cascade_found};
ghost use Rattle.ns_static_rules.specs.Rules.{setting_is_fixed, is_fixed, is_bare, unary_sends, is_written, un_sends, opers_send, bin_sends, written_bin, sends_to_written, has_names, has_opers, has_keys};
ghost use Rattle.ns_static_rules.specs.Faults.{receiver_if, key_places, expr_starts, keywords_found, elements_found, expr_start, key_expr_start, bin_start, un_start};
ghost use Rattle.ns_static_rules.specs.Walk.{with_found};

use crate::checker::{Checker, found, found_if, found_past};
use crate::fault::{Many, Role, StaticCause};
use ns_scope::chain::{Chain, Link};
use ns_scope::names::Setting;
use ns_scope::scope::{ClassScope, Scope};
use ns_tree::parts::first_key;
use ns_tree::tree::{BinExpr, Expr, FullExpr, KeyExpr, Message, Named, Primary, SentExpr, UnExpr};

/// FixedLocal, at `x::`, where x can't be set.
pub fn set_found(checker: &mut Checker<'_>, scope: &Scope, name: &Named)
    ensures { checker.new ≡ with_found checker.old (set_found scope.now name.now) }
{
    let wrong = is_fixed(scope, name.text.bytes());
    found_if(checker, wrong, name.at, StaticCause::FixedLocal);
}

/// Whether the innermost body that declares the name declares it as fixed.
fn is_fixed(scope: &Scope, name: &[u8]) -> bool
    ensures { result ≡ is_fixed (innermost scope.now.bodies name.now) }
{
    match scope.local(name) {
        None => false,
        Some((_, local)) => setting_is_fixed(local.setting),
    }
}

fn setting_is_fixed(setting: Setting) -> bool
    ensures { result ≡ setting_is_fixed setting }
{
    match setting {
        Setting::Fixed => true,
        Setting::Mutable => false,
    }
}

/// BadReturn, at `^` outside methods.
pub fn return_found(checker: &mut Checker<'_>, scope: &Scope, caret: Option<u32>)
    ensures { checker.new ≡ with_found checker.old (return_found scope.now caret) }
{
    match caret {
        None => {}
        Some(at) => found_if(checker, !scope.in_method, at, StaticCause::BadReturn),
    }
}

/// BareReceiver, at `super` or `outer` to which no message is sent.
pub fn bare_found(checker: &mut Checker<'_>, role: Role, at: u32)
    ensures { checker.new ≡ with_found checker.old (bare_found role at) }
{
    match role {
        Role::Receiver => {}
        Role::Value => found(checker, at, StaticCause::BareReceiver),
    }
}

/// NoSuchOuter, at the name of no enclosing class.
pub fn outer_found(checker: &mut Checker<'_>, classes: &Chain<ClassScope>, name: &Named)
    ensures { checker.new ≡ with_found checker.old (outer_found classes.now name.now) }
{
    let wrong = !is_around(classes.links(), name.text.bytes());
    found_if(checker, wrong, name.at, StaticCause::NoSuchOuter);
}

/// Whether one of these classes has the name.
fn is_around(classes: &Link<ClassScope>, name: &[u8]) -> bool
    ensures { result ≡ list_any (λ class. bytes_eq name.now class.name) classes.now }
{
    let Some((class, outer)) = classes.split() else {
        return false;
    };
    if name == class.name.bytes() {
        return true;
    }
    is_around(outer, name)
}

/// PlainTooLarge, at a number that is an Integer with a minus alone.
pub fn number_found(checker: &mut Checker<'_>, minus: bool, size: u64, at: u32)
    ensures { checker.new ≡ with_found checker.old (number_found minus size at) }
{
    let wrong = !minus && size == 9_223_372_036_854_775_808;
    found_if(checker, wrong, at, StaticCause::PlainTooLarge);
}

// ---- cascades

/// BadCascade, at the first `;`, where what stands before it is no message to a written receiver.
pub fn cascade_found(checker: &mut Checker<'_>, first: &KeyExpr, more: &[(u32, Message)])
    ensures { checker.new ≡ with_found checker.old (cascade_found (key_expr_of first.now) (cascade_of more.now)) }
{
    match more {
        [] => {}
        [message, ..] => {
            let wrong = !sends_to_written(first);
            found_if(checker, wrong, message.0, StaticCause::BadCascade)
        }
    }
}

/// Whether an expression is a message to a written receiver.
fn sends_to_written(expr: &KeyExpr) -> bool
    ensures { result ≡ sends_to_written (key_expr_of expr.now) }
{
    match &expr.receiver {
        None => false,
        Some(receiver) => {
            if has_keys(&expr.keys) {
                written_bin(receiver)
            } else {
                bin_sends(receiver)
            }
        }
    }
}

fn written_bin(expr: &BinExpr) -> bool
    ensures { result ≡ written_bin (bin_of expr.now) }
{
    if has_opers(&expr.more) {
        return true;
    }
    is_written(&expr.first)
}

fn bin_sends(expr: &BinExpr) -> bool
    ensures { result ≡ bin_sends (bin_of expr.now) }
{
    opers_send(&expr.first, &expr.more)
}

#[tactic(auto, using(crate::proofs::Shapes::one_oper, crate::proofs::Shapes::more_opers))]
fn opers_send(first: &UnExpr, more: &[(Named, UnExpr)]) -> bool
    ensures { result ≡ opers_send (un_of first.now) (opers_of more.now) }
{
    match more {
        [] => un_sends(first),
        [_] => is_written(first),
        [_, _, ..] => true,
    }
}

fn un_sends(expr: &UnExpr) -> bool
    ensures { result ≡ un_sends (un_of expr.now) }
{
    match expr {
        UnExpr::Alone { at: _, primary: _ } => false,
        UnExpr::Sent(sent) => unary_sends(&sent.primary, &sent.names),
    }
}

fn unary_sends(primary: &Primary, names: &[Named]) -> bool
    ensures { result ≡ unary_sends (primary_of primary.now) names.now }
{
    match names {
        [] => false,
        [_] => !is_bare(primary),
        [_, _, ..] => true,
    }
}

/// Whether it is more than `super` or `outer N`.
fn is_written(expr: &UnExpr) -> bool
    ensures { result ≡ is_written (un_of expr.now) }
{
    match expr {
        UnExpr::Alone { at: _, primary } => !is_bare(primary),
        UnExpr::Sent(sent) => is_written_sent(sent),
    }
}

fn is_written_sent(expr: &SentExpr) -> bool
    ensures { result ≡ is_written (sent_of expr.now) }
{
    if has_names(&expr.names) {
        return true;
    }
    !is_bare(&expr.primary)
}

fn is_bare(primary: &Primary) -> bool
    ensures { result ≡ is_bare (primary_of primary.now) }
{
    match primary {
        Primary::Super => true,
        Primary::Outer(_) => true,
        Primary::Name(_) => false,
        Primary::Number { minus: _, size: _ } => false,
        Primary::Str(_) => false,
        Primary::Symbol(_) => false,
        Primary::Nil => false,
        Primary::True => false,
        Primary::False => false,
        Primary::SelfWord => false,
        Primary::Paren(_) => false,
        Primary::Block(_) => false,
        Primary::BareBlock(_) => false,
        Primary::Tuple { items: _, stop: _ } => false,
    }
}

// ---- what an expression has

/// An expression with messages is their receiver.
pub fn receiver_if(messages: bool, role: Role) -> Role
    ensures { result ≡ receiver_if messages role }
{
    if messages {
        return Role::Receiver;
    }
    role
}

pub fn has_names(names: &[Named]) -> bool
    ensures { result ≡ has_names names.now }
{
    match names {
        [] => false,
        [_, ..] => true,
    }
}

#[tactic(auto, using(crate::proofs::Shapes::opers_there))]
pub fn has_opers(opers: &[(Named, UnExpr)]) -> bool
    ensures { result ≡ has_opers (opers_of opers.now) }
{
    match opers {
        [] => false,
        [_, ..] => true,
    }
}

#[tactic(auto, using(crate::proofs::Shapes::keys_there))]
pub fn has_keys(keys: &[(Named, BinExpr)]) -> bool
    ensures { result ≡ has_keys (keys_of keys.now) }
{
    match keys {
        [] => false,
        [_, ..] => true,
    }
}

/// TooMany(Parameters) past 63 keys of a message.
pub fn keywords_found(checker: &mut Checker<'_>, keys: &[(Named, BinExpr)])
    ensures { checker.new ≡ with_found checker.old (keywords_found (keys_of keys.now)) }
{
    found_past(checker, key_past(keys, 63), Many::Parameters);
}

/// The place of the key that has so many before it, if there is one.
fn key_past(keys: &[(Named, BinExpr)], most: usize) -> Option<u32>
    ensures { result ≡ slice_get (key_places (keys_of keys.now)) most }
{
    match keys.get(most) {
        None => None,
        Some(key) => Some(key.0.at),
    }
}

/// TooMany(Elements) past 255 elements of a tuple.
pub fn elements_found(checker: &mut Checker<'_>, items: &[Expr])
    ensures { checker.new ≡ with_found checker.old (elements_found (exprs_of items.now)) }
{
    found_past(checker, element_past(items, 255), Many::Elements);
}

/// The first token of the element that has so many before it, if there is one.
fn element_past(items: &[Expr], most: usize) -> Option<u32>
    ensures { result ≡ slice_get (expr_starts (exprs_of items.now)) most }
{
    match items.get(most) {
        None => None,
        Some(item) => Some(expr_start(item)),
    }
}

/// The number of an expression's first token.
fn expr_start(expr: &Expr) -> u32
    ensures { result ≡ expr_start (expr_of expr.now) }
{
    match expr {
        Expr::Operand(operand) => un_start(operand),
        Expr::Operation(bin) => bin_start(bin),
        Expr::Implicit(keys) => first_key(keys),
        Expr::Full(full) => full_expr_start(full),
    }
}

fn full_expr_start(expr: &FullExpr) -> u32
    ensures { result ≡ expr_start (full_expr_of expr.now) }
{
    match expr.sets.as_slice() {
        [] => key_expr_start(&expr.first),
        [name, ..] => name.at,
    }
}

fn key_expr_start(expr: &KeyExpr) -> u32
    ensures { result ≡ key_expr_start (key_expr_of expr.now) }
{
    match &expr.receiver {
        None => first_key(&expr.keys),
        Some(receiver) => bin_start(receiver),
    }
}

fn bin_start(expr: &BinExpr) -> u32
    ensures { result ≡ bin_start (bin_of expr.now) }
{
    un_start(&expr.first)
}

fn un_start(expr: &UnExpr) -> u32
    ensures { result ≡ un_start (un_of expr.now) }
{
    match expr {
        UnExpr::Alone { at, primary: _ } => *at,
        UnExpr::Sent(sent) => sent.at,
    }
}
