//! The tree of a file.

ghost use Rattle.std.specs.Prelude.{◌≡◌, ◌≢◌, ◌≤◌, length, MatchResult};
ghost use Rattle.ns_tree.specs.PlainOf.{unit_of};
ghost use Rattle.ns_tree.specs.Tokens.{kinds};
ghost use Rattle.ns_tree.specs.Tree.{AllHaveText};
ghost use Rattle.ns_parse.specs.Called.{AnswersFault, AnswersTree, GivesFault, GivesTree};
ghost use Rattle.ns_parse.specs.Parse as spec;
ghost use Rattle.ns_parse_tokens.specs.declared.fault.ParseFault.TheVariants.{Memory};

use crate::classes::file;
use ns_parse_tokens::fault::ParseFault;
use ns_parse_tokens::tokens::Tokens;
use ns_tree::deep::deep;
use ns_tree::token::Token;
use ns_tree::tree::Unit;
use std::alloc::Global;

/// The tree, or the first token at which it goes wrong, where no bracket is too deep.
fn whole(alloc: Global, tokens: Vec<Token>) -> Result<Unit, ParseFault>
    requires { length tokens.items ≤ 1048576 }
    ensures { MatchResult result (λ unit. spec.whole (spec.unit (kinds tokens.items)) ≡ Ok (unit_of unit))
        (λ fault. fault ≢ Memory → spec.whole (spec.unit (kinds tokens.items)) ≡ Err fault) }
{
    let count = tokens.len();
    let mut left = Tokens::of(tokens);
    let unit = file(alloc, &mut left, count)?;
    match left.next() {
        None => Ok(unit),
        Some(_) => Err(ParseFault::Syntax(left.at)),
    }
}

/// What the readers give of at most 1,048,576 tokens.
#[tactic(auto, unfolding(crate::specs::Parse::parse))]
fn given(alloc: Global, tokens: Vec<Token>) -> Result<Unit, ParseFault>
    requires { length tokens.items ≤ 1048576 }
    ensures { MatchResult result (GivesTree (kinds tokens.items)) (GivesFault (kinds tokens.items)) }
{
    match deep(tokens.as_slice()) {
        Some(at) => Err(ParseFault::TooDeep(at)),
        None => whole(alloc, tokens),
    }
}

/// What the grammar answers of at most 1,048,576 tokens: the tree that they spell, where no bracket is too deep; or the
/// first token that opens a bracket while 100 are open; or else the first token with which no file goes on, which is
/// their number where a file doesn't end yet. Or that no memory was found. Tokens are let go as they are read.
#[tactic(auto, using(crate::proofs::Called::given_is_answered))]
pub fn parse(alloc: Global, tokens: Vec<Token>) -> Result<Unit, ParseFault>
    requires { length tokens.items ≤ 1048576 }
    ensures answers { AllHaveText (kinds tokens.items) → MatchResult result (AnswersTree (kinds tokens.items)) (AnswersFault (kinds tokens.items)) }
    ensures exact { MatchResult result (GivesTree (kinds tokens.items)) (GivesFault (kinds tokens.items)) }
{
    given(alloc, tokens)
}
