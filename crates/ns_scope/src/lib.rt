//! What a name means in a program: its members, its locals, and where each is seen.
//! `specs/Resolve.antt` says it: a local, a member of a declaration around, or a message to self.
//! Stands between tree and static, resolved and gen.
#![tactic(auto)]

pub mod chain;
pub mod names;
pub mod program;
pub mod resolve;
pub mod scope;
pub mod table;
