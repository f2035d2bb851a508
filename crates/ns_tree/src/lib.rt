//! Tokens, trees, and the grammar by which tokens spell a tree.
//! `specs/Tree.antt` says which tokens spell which tree (`Spells`), and what begins such a spelling.
//! Stands between base and lex, parse, print and scope.
#![tactic(auto)]

pub mod deep;
pub mod laws;
pub mod make;
pub mod parts;
pub mod token;
pub mod tree;
