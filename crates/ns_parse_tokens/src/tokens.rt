//! The tokens that are left.

ghost use Rattle.std.specs.Prelude.{◌≡◌, ◌≢◌, ◌≤◌, ◌+◌, ◌∷◌, [], MatchOption, drop, length};
ghost use Rattle.ns_parse_tokens.specs.Left.{all_of};
ghost use Rattle.ns_tree.specs.Tokens.{kinds};

use ns_tree::token::{Kind, Token};
use std::collections::VecDeque;
use std::marker::Model;

/// The tokens that are left, and the number of the first of them. Contracts see that number and the
/// tokens' kinds. What was read is let go, and its memory with it, so that a tree grows while its tokens
/// go.
#[derive(Drop)]
pub struct Tokens {
    pub rest: VecDeque<Token>,
    pub at: usize,
}

impl Model for Tokens {
    ghost use Rattle.std.specs.Prelude.{◌+◌, ◌≤◌, length};
    ghost use Rattle.ns_parse_tokens.specs.Left.{Left};
    ghost use Rattle.ns_tree.specs.Tokens.{kinds};

    ghost Value = { Left };

    ghost view = { λ t. record { at = t.at; kinds = kinds t.rest.items } };

    ghost invariant = { λ t. t.at + length t.rest.items ≤ 1048576 };
}

impl Tokens {
    /// All the tokens of a file.
    pub fn of(tokens: Vec<Token>) -> Tokens
        requires { length tokens.items ≤ 1048576 }
        ensures { result ≡ all_of (kinds tokens.items) }
    {
        Tokens {
            rest: VecDeque::from_vec(tokens),
            at: 0,
        }
    }

    /// What the next token is, if there is one.
    #[tactic(auto, using(crate::proofs::Fronts::first_kind, crate::proofs::Fronts::no_kinds))]
    pub fn next(&self) -> Option<&Kind>
        ensures { MatchOption result (self.now.kinds ≡ []) (λ kind. self.now.kinds ≡ kind.now ∷ drop 1 self.now.kinds) }
    {
        match self.rest.front() {
            Some(token) => Some(&token.kind),
            None => None,
        }
    }

    /// Lets the next token go. Where a quarter of their memory is idle, it goes back.
    #[tactic(auto, using(crate::proofs::Fronts::kinds_behind))]
    pub fn pass(&mut self)
        requires { self.old.kinds ≢ [] }
        ensures { self.new ≡ record { at = self.old.at + 1; kinds = drop 1 self.old.kinds } }
    {
        let _passed = self.rest.pop_front();
        self.at += 1;
        if self.rest.len() < self.rest.capacity() / 4 * 3 {
            self.rest.shrink_to_fit();
        }
    }
}
