//! Names, keys and operators.

ghost use Rattle.std.specs.Prelude.{◌≡◌};
ghost use Rattle.ns_parse_tokens.specs.Name as spec;
ghost use Rattle.ns_parse_tokens.specs.Reads.{Reads, next_is};

use crate::fault::ParseFault;
use crate::tokens::Tokens;
use ns_base::text::Text;
use ns_tree::token::Kind;
use ns_tree::tree::Named;
use std::alloc::Global;

/// Which operators are messages.
#[derive(Clone, Copy)]
pub enum Operators {
    All,
    /// All but `|`, which closes the slots in which it stands.
    ButBar,
}

/// What a token of a name, a key or an operator is.
#[derive(Clone, Copy)]
pub enum Sort {
    Ident,
    Key,
    SetKey,
    Operator(Operators),
}

/// Whether an operator of that text is of the sort.
fn is_operator(sort: Sort, text: &[u8]) -> bool
    ensures { result ≡ spec.is_operator sort text.now }
{
    match sort {
        Sort::Operator(Operators::All) => true,
        Sort::Operator(Operators::ButBar) => text != b"|".as_slice(),
        _ => false,
    }
}

/// Whether the token is of that sort.
pub fn is_name(sort: Sort, kind: &Kind) -> bool
    ensures { result ≡ spec.is_name sort kind.now }
{
    match kind {
        Kind::Ident(_) => matches!(sort, Sort::Ident),
        Kind::Key(_) => matches!(sort, Sort::Key),
        Kind::SetKey(_) => matches!(sort, Sort::SetKey),
        Kind::Oper(text) => is_operator(sort, text.bytes()),
        _ => false,
    }
}

/// The text of a name, a key or an operator, and none of any other token.
fn text_of(kind: &Kind) -> &[u8]
    ensures { result.now ≡ spec.text_of kind.now }
{
    match kind {
        Kind::Ident(text) => text.bytes(),
        Kind::Key(text) => text.bytes(),
        Kind::SetKey(text) => text.bytes(),
        Kind::Oper(text) => text.bytes(),
        _ => &[],
    }
}

/// Whether a token of that sort is next.
pub fn sees_name(tokens: &Tokens, sort: Sort) -> bool
    ensures { result ≡ next_is (spec.is_name sort) tokens.now }
{
    match tokens.next() {
        Some(kind) => is_name(sort, kind),
        None => false,
    }
}

/// Reads a token of that sort.
pub fn name(alloc: Global, tokens: &mut Tokens, sort: Sort) -> Result<Named, ParseFault>
    ensures { Reads (λ name. name) (spec.name sort) result tokens.old tokens.new }
{
    let at = tokens.at;
    match tokens.next() {
        Some(kind) => {
            if is_name(sort, kind) {
                let text = Text::of(alloc, text_of(kind))?;
                tokens.pass();
                Ok(Named {
                    text,
                    at: at as u32,
                })
            } else {
                Err(ParseFault::Syntax(at))
            }
        }
        None => Err(ParseFault::Syntax(at)),
    }
}

/// Reads tokens of that sort, as many as there are.
pub fn names(alloc: Global, tokens: &mut Tokens, sort: Sort) -> Result<Vec<Named>, ParseFault>
    ensures { Reads (λ names. names.items) (spec.names sort) result tokens.old tokens.new }
{
    let mut names = Vec::new(alloc);
    'names: while sees_name(tokens, sort) {
        let item = name(alloc, tokens, sort)?;
        names.push(item)?;
    }
    Ok(names)
}
